// Why a point was ruled out: from the whole domain down into the half that holds it, to the first box that was discarded.
#![tactic(auto)]

ghost use Rattle.std.specs.Prelude.{◌≡◌, ◌<◌, ◌^◌, ◌&&◌, leb, ltb, length, replicate};
ghost use Rattle.rules.specs.Numbers.{parts, last_moment};
ghost use Rattle.rules.specs.Refusals.{refusal_in, search_refusal};
ghost use Rattle.rules.specs.Why.{in_domain, is_before, in_upper, goes_up, holding, half_of, reason_of, descend, from_whole, ask_refusal, why_refusal, why_search, why_queue_after};
ghost use Rattle.kernel.specs.Kernel.{asked};
ghost use Rattle.kernel.specs.Ranges.{Shallow};
ghost use Rattle.descent.specs.Way.{Halves, Good};

use boxes::{pack, unpack};
use gap::cell::low;
use gap::{PARTS, last_moment};
use kernel::Pair;
use queue::clear;
use refusals::check_search;
use rules::{Answer, Miss, Parameter, Reason, Record, Refusal, Ruling, Stop, Three};
use search::{deepen, search_levels};

// Whether a moment, in parts, is one of the step and not beyond the cap.
fn in_time(cap: u32, t: u64) -> bool
    ensures { result ≡ (leb t parts && leb t (last_moment cap)) }
{
    (t <= PARTS) & (t <= last_moment(cap))
}

// Whether a point, in parts, is inside the domain and not beyond the cap. A sum is taken only of numbers that are.
#[tactic(auto, unfolding(rules::specs::Why::in_domain))]
fn in_domain(r: Record, at: Three) -> bool
    ensures { result ≡ in_domain r at }
{
    in_time(r.cap, at.t) && at.u <= PARTS && at.v <= PARTS && (r.kind != 1 || at.u + at.v <= PARTS)
}

// Whether a moment is before the answered one; under CLEAR every moment is.
#[tactic(auto, unfolding(rules::specs::Why::is_before))]
fn is_before(a: Answer, at: u64) -> bool
    ensures { result ≡ is_before a at }
{
    match a {
        Answer::Met { t, .. }
        | Answer::Spent { t, .. }
        | Answer::Room { t, .. }
        | Answer::Floor { t, .. } => at < t as u64,
        Answer::Clear(_) => true,
        Answer::Refused(_) => false,
    }
}

// Whether the upper half of a cell holds the point, which the cell does: on the boundary between them it does.
fn is_upper(k: u64, i: u64, at: u64) -> bool
    requires { (k < 20) × (i < 2 ^ k) }
    ensures { result ≡ in_upper k i at }
{
    low(20, k + 1, 2 * i + 1) <= at
}

#[tactic(auto, unfolding(rules::specs::Why::goes_up))]
fn goes_up(split: Parameter, k: Three, b: Three, at: Three) -> bool
    requires { Halves split k b }
    ensures { result ≡ goes_up split k b at }
{
    match split {
        Parameter::InT => is_upper(k.t, b.t, at.t),
        Parameter::InU => is_upper(k.u, b.u, at.u),
        Parameter::InV => is_upper(k.v, b.v, at.v),
    }
}

// The half of a box that holds the point.
fn holding(split: Parameter, k: Three, b: Three, at: Three) -> Three
    requires { Halves split k b }
    ensures { result ≡ holding split k b at }
{
    let upper = goes_up(split, k, b, at);
    unpack(boxes::half(split, upper, pack(b)))
}

// The same at its depths, a level further down.
fn half(p: Pair, at: Three, s: Stop) -> Stop
    requires { Good p s 1 }
    ensures { result ≡ half_of (asked p) at s }
{
    let split = gap::rare_split(p, s.depths);
    let depths = deepen(split, s.depths);
    let index = holding(split, s.depths, s.index, at);
    Stop { depths, index }
}

fn reason(s: Stop, miss: Miss) -> Reason
    requires { Shallow 20 s.depths }
    ensures { result ≡ reason_of s miss.axis miss.side }
{
    let k = s.depths;
    let level = k.t + k.u + k.v;
    Reason {
        level,
        depths: k,
        index: s.index,
        axis: miss.axis,
        side: miss.side,
    }
}

// With at most `left` levels more: the number that falls. Everything that is not the call of itself stands outside.
fn go_down(p: Pair, at: Three, s: Stop, left: u64) -> Ruling
    requires { Good p s left }
    ensures { result ≡ descend left (asked p) at s }
{
    match gap::missed(p, s.depths, s.index) {
        Some(miss) => Ruling::Discarded(reason(s, miss)),
        None => {
            if left == 0 {
                Ruling::Refused(0)
            } else {
                go_down(p, at, half(p, at, s), left - 1)
            }
        }
    }
}

fn from_whole(r: Record, words: usize, at: Three) -> Ruling
    requires { search_refusal r words ≡ 0 }
    ensures { result ≡ from_whole r words at }
{
    let p = gap::prepare(r, words);
    let whole = Stop {
        depths: Three { t: 0, u: 0, v: 0 },
        index: Three { t: 0, u: 0, v: 0 },
    };
    go_down(p, at, whole, 3 * p.deepest)
}

// Whether the question is refused before anything is searched: the search's own and then 23.
pub fn check_ask(r: Record, words: usize, at: Three) -> Result<(), Refusal>
    ensures { refusal_in result ≡ ask_refusal r words at }
{
    check_search(r, words)?;
    if in_domain(r, at) {
        Ok(())
    } else {
        Err(Refusal::Domain)
    }
}

// A question that is not refused so: 24, or the box; the queue is zero after either.
pub fn why_accepted(r: Record, at: Three, queue: &mut [u64]) -> Ruling
    requires { ask_refusal r (length queue.old) at ≡ 0 }
    ensures value { result ≡ why_search r (length queue.old) at }
    ensures queue_after { queue.new ≡ replicate (length queue.old) 0 }
{
    clear(queue);
    let a = search_levels(r, queue);
    if !is_before(a, at.t) {
        return Ruling::Refused(Refusal::Later.number());
    }
    from_whole(r, queue.len(), at)
}

// Why a point, in parts, was ruled out.
pub fn why(r: Record, at: Three, queue: &mut [u64]) -> Ruling
    ensures value { result ≡ why_search r (length queue.old) at }
    ensures queue_after { queue.new ≡ why_queue_after (why_refusal r (length queue.old) at) queue.old }
{
    if let Err(refusal) = check_ask(r, queue.len(), at) {
        return Ruling::Refused(refusal.number());
    }
    why_accepted(r, at, queue)
}
