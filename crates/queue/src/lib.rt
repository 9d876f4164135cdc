// The lent queue of H and H words: the present level stands from 0 on, the next one is written from H on.
#![tactic(auto)]

ghost use Rattle.std.specs.Prelude.{◌≡◌, ◌++◌, ◌+◌, ◌≤◌, length, take, drop, replicate};
ghost use Rattle.queue.specs.Cleared.{cleared};
ghost use Rattle.queue.specs.Level.{halving_of, Halvable, HalfIs, half_at, Takes, TakenIs, Grows, Grown};

use boxes::{half_by, index_bits, index_one, unpack};
use kernel::Pair;
use rules::{Parameter, Three};

// Every word is zero afterwards.
pub fn clear(words: &mut [u64])
    ensures { words.new ≡ replicate (length words.old) 0 }
{
    for i in 0..words.len() {
        words[i] = 0;
    }
}

// The words from the start to the end are zero afterwards.
pub fn clear_part(words: &mut [u64], start: usize, end: usize)
    requires { (start ≤ end) × (end ≤ length words.old) }
    ensures { words.new ≡ cleared start end words.old }
{
    clear(&mut words[start..end]);
}

// The n words from h on are copied to the front.
pub fn copy_down(queue: &mut [u64], h: usize, n: usize)
    requires { (n ≤ h) × (h + n ≤ length queue.old) }
    ensures { queue.new ≡ take n (drop h queue.old) ++ drop n queue.old }
{
    // by `fill` and `copy_within`, calls for a few words each, searches of many boxes took an eighth longer
    for i in 0..n {
        queue[i] = queue[h + i];
    }
}

// How a level's boxes are halved, worked out once a level. The bound is a word: a half's own word says whether its low t is beyond the cap.
#[derive(Clone, Copy)]
pub struct Halving {
    pub split: Parameter,
    pub bits: u64,
    pub one: u64,
    pub bound: u64,
}

// The bound is the first word past the last t index that begins in time; k are the depths after the split.
fn halving_of(p: Pair, k: Three, split: Parameter) -> Halving
    requires { (k.t ≤ 20) × (p.last ≤ 1048576) }
    ensures { result ≡ halving_of p.last k split }
{
    let index = p.last >> (20 - k.t);
    let bound = (index + 1) << 40;
    Halving {
        split,
        bits: index_bits(split),
        one: index_one(split),
        bound,
    }
}

// Greater than the word of any box, and than any bound.
const PAST: u64 = u64::MAX;

// A half at its place among the low or the high halves, by its word. Past the last place stands the word `PAST`.
#[derive(Clone, Copy)]
pub struct Half {
    pub at: usize,
    pub word: u64,
}

// The low or the high half of the box at a place.
fn half_at(c: Halving, high: bool, queue: &[u64], n: usize, at: usize) -> Half
    requires { Halvable c queue.now n × (at ≤ n) }
    ensures { (result.at ≡ at) × HalfIs (half_at c.split high (take n queue.now)) n result }
{
    if at < n {
        return Half {
            at,
            word: half_by(c.bits, c.one, high, queue[at]),
        };
    }
    Half { at, word: PAST }
}

// The two that are next when the half that goes first is taken.
#[derive(Clone, Copy)]
pub struct Taken {
    pub low: Half,
    pub high: Half,
}

// Only the list that the half is taken from goes on, so that each half is worked out once.
fn take_half(c: Halving, queue: &[u64], n: usize, low: Half, high: Half) -> Taken
    requires { Takes c queue.now n low high }
    ensures { TakenIs c.split (take n queue.now) n low high result }
{
    if low.word <= high.word {
        let next = half_at(c, false, queue, n, low.at + 1);
        Taken { low: next, high }
    } else {
        let next = half_at(c, true, queue, n, high.at + 1);
        Taken { low, high: next }
    }
}

// Writes the next level of the n survivors at the front from h on, and returns its size, or `None` where it has no room; k are the depths after the split.
// The words ascend, so that no half stays after the first word that is not below the bound.
pub fn grow(p: Pair, k: Three, split: Parameter, queue: &mut [u64], n: usize) -> Option<usize>
    requires { Grows p k split queue.old n }
    ensures { Grown p k split n queue.old queue.new result }
{
    let h = p.room;
    let c = halving_of(p, k, split);
    let mut low = half_at(c, false, queue, n, 0);
    let mut high = half_at(c, true, queue, n, 0);
    let mut m = 0;
    loop {
        let word = low.word.min(high.word);
        if word >= c.bound {
            return Some(m);
        }
        Taken { low, high } = take_half(c, queue, n, low, high);
        let b = unpack(word);
        if gap::in_face(p, k, b) {
            if m == h {
                return None;
            }
            queue[h + m] = word;
            m += 1;
        }
    }
}
