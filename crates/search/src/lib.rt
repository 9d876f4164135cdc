// The search of one query: the levels in the lent queue, from the whole cube of parameters down.
#![tactic(auto)]

ghost use Rattle.std.specs.Prelude.{◌≡◌, ◌&&◌, ◌+◌, ◌≤◌, eqb, length, replicate};
ghost use Rattle.rules.specs.Answers.{queue_after};
ghost use Rattle.rules.specs.Search.{deeper, run, search};
ghost use Rattle.kernel.specs.Kernel.{asked};
ghost use Rattle.kernel.specs.Ranges.{Shallow};
ghost use Rattle.gap.specs.Slab.{slab_of};
ghost use Rattle.search.specs.Levels.{Answers, OneBox, Opens, FirstIs, Affords, Fine, Tidy, CheckIs, Splitting, SplitIs, StepIs, Zeroed, Accepted, Clean};

use boxes::unpack;
use gap::slab::{Slab, renewed, slab_at, survives_in};
use kernel::Pair;
use queue::{clear, clear_part, copy_down, grow};
use rules::{Answer, Corner, Parameter, Record, Three};
use std::ops::ControlFlow::{self, Break, Continue};

// The search ends with an answer, or goes on with what was found.
type Step<T> = ControlFlow<Answer, T>;

// A level: its boxes are the first words of the queue; `used` is the largest size so far.
#[derive(Clone, Copy)]
pub struct Level {
    pub depths: Three,
    pub size: usize,
    pub used: usize,
    pub corner: Corner,
    pub count: u32,
}

fn is_full(deepest: u64, k: Three) -> bool
    ensures { result ≡ (eqb k.t deepest && eqb k.u deepest && eqb k.v deepest) }
{
    k.t == deepest && k.u == deepest && k.v == deepest
}

// A level's first survivor: MET, or FLOOR, or its corner is recorded.
fn first_survivor(p: Pair, k: Three, b: Three, count: u32) -> Step<Corner>
    requires { OneBox p k b }
    ensures { FirstIs (asked p) k b count result }
{
    let c = gap::corner(p, k, b);
    if gap::near(p, k, b, c.excess) {
        return Break(Answer::Met {
            t: c.t,
            u: c.u,
            v: c.v,
            excess: c.excess,
            count,
        });
    }
    if is_full(p.deepest, k) {
        return Break(Answer::Floor {
            t: c.t,
            u: c.u,
            v: c.v,
            excess: c.excess,
            count,
        });
    }
    Continue(c)
}

// What the boxes of a level's first t index share.
fn first_slab(p: Pair, k: Three, queue: &[u64], n: usize) -> Slab
    requires { Opens p k queue.now n }
    ensures { result ≡ slab_of p k result.t }
{
    if n == 0 {
        return slab_at(p, k, 0);
    }
    let b = unpack(queue[0]);
    slab_at(p, k, b.t)
}

// As many boxes of a level as the budget lets be checked.
fn within_budget(budget: u32, count: u32, n: usize) -> usize
    requires { count ≤ budget }
    ensures { Affords budget count n result }
{
    n.min((budget - count) as usize)
}

// Checks a level's boxes in order, and keeps the survivors at the front.
fn check_level(p: Pair, queue: &mut [u64], l: Level) -> Step<Level>
    requires { Fine p queue.old l }
    ensures { CheckIs p l queue.old queue.new result }
{
    let k = l.depths;
    let last = within_budget(p.budget, l.count, l.size);
    let mut corner = l.corner;
    let mut m = 0;
    let mut slab = first_slab(p, k, queue, l.size);
    for i in 0..last {
        let w = queue[i];
        let b = unpack(w);
        slab = renewed(p, k, b.t, slab);
        let alive = survives_in(p, k, slab, b);
        // written in any case, which is faster than asking; a box that is lost is written over
        queue[m] = w;
        if alive & (m == 0) {
            corner = first_survivor(p, k, b, l.count + i as u32 + 1)?;
        }
        m = if alive { m + 1 } else { m };
    }
    if last < l.size {
        return Break(Answer::Spent {
            t: corner.t,
            u: corner.u,
            v: corner.v,
            excess: corner.excess,
            count: p.budget,
        });
    }
    Continue(Level {
        depths: k,
        size: m,
        used: l.used,
        corner,
        count: l.count + l.size as u32,
    })
}

// The depths after a split.
pub fn deepen(split: Parameter, k: Three) -> Three
    requires { Shallow 20 k }
    ensures { result ≡ deeper split k }
{
    match split {
        Parameter::InT => Three { t: k.t + 1, ..k },
        Parameter::InU => Three { u: k.u + 1, ..k },
        Parameter::InV => Three { v: k.v + 1, ..k },
    }
}

// The survivors of a level are split, and the next level is brought to the front, or there is no room for it.
fn next_level(p: Pair, queue: &mut [u64], l: Level) -> Step<Level>
    requires { Splitting p queue.old l }
    ensures { SplitIs p l queue.old queue.new result }
{
    let k = l.depths;
    let c = l.corner;
    let h = p.room;
    let split = gap::split(p, k);
    let depths = deepen(split, k);
    match grow(p, depths, split, queue, l.size) {
        None => {
            let end = h + h;
            clear_part(queue, h, end);
            Break(Answer::Room {
                t: c.t,
                u: c.u,
                v: c.v,
                excess: c.excess,
                count: l.count,
            })
        }
        Some(size) => {
            copy_down(queue, h, size);
            Continue(Level {
                depths,
                size,
                used: l.used.max(size),
                corner: c,
                count: l.count,
            })
        }
    }
}

// One level: its boxes are checked, and its survivors, if there are any, are split.
fn one_level(p: Pair, queue: &mut [u64], l: Level) -> Step<Level>
    requires { Fine p queue.old l }
    ensures { StepIs p l queue.old queue.new result }
{
    let survivors = check_level(p, queue, l)?;
    if survivors.size == 0 {
        return Break(Answer::Clear(survivors.count));
    }
    next_level(p, queue, survivors)
}

// Clears the words that the levels used.
fn clear_used(queue: &mut [u64], h: usize, used: usize)
    requires { (used ≤ h) × (h + h ≤ length queue.old) × Tidy h used queue.old }
    ensures { queue.new ≡ replicate (length queue.old) 0 }
{
    let end = h + used;
    clear_part(queue, 0, used);
    clear_part(queue, h, end);
}

// The search of a pair in a queue of zeros, which it leaves so; it clears only the words that it used.
pub fn search_zeroed(p: Pair, queue: &mut [u64]) -> Answer
    requires { Zeroed p queue.old }
    ensures value { result ≡ run (asked p) }
    ensures queue_unchanged { queue.new ≡ queue.old }
    ensures answers { Answers result }
{
    // a word of zero is the whole cube
    let mut l = Level {
        depths: Three { t: 0, u: 0, v: 0 },
        size: 1,
        used: 1,
        corner: Corner {
            t: 0,
            u: 0,
            v: 0,
            excess: 0,
        },
        count: 0,
    };
    loop {
        match one_level(p, queue, l) {
            Break(a) => {
                clear_used(queue, p.room, l.used);
                return a;
            }
            Continue(next) => l = next,
        }
    }
}

// Every word is zero afterwards; where the queue is `clean` they are already.
pub fn clear_unless(queue: &mut [u64], clean: bool)
    requires { Clean clean queue.old }
    ensures { queue.new ≡ replicate (length queue.old) 0 }
{
    if !clean {
        clear(queue);
    }
}

// The search of a record that is not refused, in a queue of zeros, from the whole cube down.
pub fn search_levels(r: Record, queue: &mut [u64]) -> Answer
    requires { Accepted r queue.old }
    ensures value { result ≡ search r (length queue.old) }
    ensures queue_unchanged { queue.new ≡ queue.old }
    ensures answers { Answers result }
{
    let p = gap::prepare(r, queue.len());
    search_zeroed(p, queue)
}

// The same, where the whole cube is asked first: most pairs are apart over it, and then nothing is prepared and no word is touched.
pub fn search_accepted(r: Record, queue: &mut [u64]) -> Answer
    requires { Accepted r queue.old }
    ensures value { result ≡ search r (length queue.old) }
    ensures queue_unchanged { queue.new ≡ queue.old }
    ensures answers { Answers result }
{
    if gap::survives_whole(r, queue.len()) {
        return search_levels(r, queue);
    }
    Answer::Clear(1)
}

// The search of a record: a refusal touches no word, and after any answer every word is zero.
pub fn search(r: Record, queue: &mut [u64]) -> Answer
    ensures value { result ≡ search r (length queue.old) }
    ensures queue_after { queue.new ≡ queue_after (search r (length queue.old)) queue.old }
{
    if let Err(refusal) = refusals::check_search(r, queue.len()) {
        return Answer::Refused(refusal.number());
    }
    clear(queue);
    search_accepted(r, queue)
}
