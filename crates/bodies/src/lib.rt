// Two bodies of triangles, a gangway and a hull: fifteen queries a triangle pair, the least time and the sum of counts.
#![tactic(auto)]

ghost use Rattle.std.specs.Prelude.{◌≡◌, length};
ghost use Rattle.rules.specs.declared.BodyAnswer.TheVariants.{Clear};
ghost use Rattle.rules.specs.Refusals.{refusal_in};
ghost use Rattle.rules.specs.Bodies.{queries_of, body_refusal};
ghost use Rattle.bounds.specs.Reach.{body_of};
ghost use Rattle.bodies.specs.Telling.{Answered, Tells};
ghost use Rattle.bodies.specs.Walk.{OfQuery, OfPair, OfRow, OfBodies, ToWalk, Heard, QueryHeard, PairHeard, RowHeard};

use answers::numbers;
use apart::{next_near, next_row};
use asking::query_at;
use bounds::reach::reach_of;
use bounds::{Body, is_body};
use hearing::{cap_of, counted, heard, is_over};
use refusals::{are_coordinates, check_search, is_edition};
use rules::{BodyAnswer, Refusal, Terms};
use search::{clear_unless, search_accepted};
use telling::write_told;

mod apart; // apart.rt: triangles whose queries all miss
mod asking; // asking.rt: one query of a triangle pair
mod hearing; // hearing.rt: what the queries come to
mod telling; // telling.rt: an answer in eight numbers
pub mod with_bounds; // with_bounds.rt: the walk with lists of bounds

// ---- every query checked, in one pass over the coordinates

// The number of the first refused query, or 21. Terms and queue are the same for all queries, so only the first is asked for them.
pub fn check_bodies(w: Terms, a: Body, b: Body, words: usize) -> Result<(), Refusal>
    ensures { refusal_in result ≡ body_refusal w (body_of a.entry) (body_of b.entry) words }
{
    let bodies = is_body(a) & is_body(b);
    if !bodies {
        return Err(Refusal::Body);
    }
    check_search(query_at(w, a, b, 0, 0, 0), words)?;
    let right = (are_coordinates(w.edition, a.start) & are_coordinates(w.edition, a.end))
        & (are_coordinates(w.edition, b.start) & are_coordinates(w.edition, b.end));
    if right { Ok(()) } else { Err(Refusal::Coord) }
}

// ---- every query heard

// Query k of the pair i, j, from 0, with the least time so far as its cap.
fn hear_query(
    w: Terms,
    a: Body,
    b: Body,
    i: usize,
    j: usize,
    k: usize,
    queue: &mut [u64],
    sofar: BodyAnswer,
) -> BodyAnswer
    requires { OfQuery w a b i j k queue.old sofar }
    ensures { QueryHeard w a.entry b.entry i j k queue.old queue.new sofar result }
{
    let mut asks = query_at(w, a, b, i, j, k);
    asks.cap = cap_of(sofar);
    let answer = search_accepted(asks, queue);
    heard(sofar, i as u32, j as u32, (1 + k) as u32, numbers(answer))
}

// The fifteen queries of the pair i, j; a time of 0 ends them, as it ends the row and the walk.
fn hear_pair(
    w: Terms,
    a: Body,
    b: Body,
    i: usize,
    j: usize,
    queue: &mut [u64],
    first: BodyAnswer,
) -> BodyAnswer
    requires { OfPair w a b i j queue.old first }
    ensures { PairHeard w a.entry b.entry i j queue.old queue.new first result }
{
    let mut sofar = first;
    for k in 0..15 {
        sofar = hear_query(w, a, b, i, j, k, queue, sofar);
        if is_over(sofar) {
            return sofar;
        }
    }
    sofar
}

// Triangle i of A with each of B; those that are apart are passed over, and their fifteen counted.
fn hear_row(
    w: Terms,
    a: Body,
    i: usize,
    b: Body,
    bbounds: &[i32],
    queue: &mut [u64],
    first: BodyAnswer,
) -> BodyAnswer
    requires { OfRow w a i b bbounds.now queue.old first }
    ensures { RowHeard w a.entry b.entry i queue.old queue.new first result }
{
    let reach = reach_of(a.start, a.end, i);
    let mut j = next_near(w, reach, b, bbounds, 0);
    let mut sofar = counted(15 * (j as u64), first);
    while j < b.count {
        let more = hear_pair(w, a, b, i, j, queue, sofar);
        if is_over(more) {
            return more;
        }
        let near = next_near(w, reach, b, bbounds, j + 1);
        sofar = counted(15 * ((near - (j + 1)) as u64), more);
        j = near;
    }
    sofar
}

// Every triangle of A with each of B, in a queue of zeros; blocks of A that are apart from all of B are passed over.
fn hear_bodies(
    w: Terms,
    a: Body,
    abounds: &[i32],
    b: Body,
    bbounds: &[i32],
    queue: &mut [u64],
) -> BodyAnswer
    requires { OfBodies w a abounds.now b bbounds.now queue.old }
    ensures { Heard 983040 (queries_of w (body_of a.entry) (body_of b.entry)) queue.old queue.new (Clear 0) result }
{
    let a_row = 15 * (b.count as u64);
    let mut i = next_row(w, abounds, a.count, bbounds, b.count, 0);
    let mut sofar = counted(a_row * (i as u64), BodyAnswer::Clear(0));
    while i < a.count {
        let row = hear_row(w, a, i, b, bbounds, queue, sofar);
        if is_over(row) {
            return row;
        }
        let near = next_row(w, abounds, a.count, bbounds, b.count, i + 1);
        sofar = counted(a_row * ((near - (i + 1)) as u64), row);
        i = near;
    }
    sofar
}

// Bodies that are not refused, with their bounds or with none: the queue is cleared once, and every query keeps it zero.
pub fn walk(
    w: Terms,
    a: Body,
    abounds: &[i32],
    b: Body,
    bbounds: &[i32],
    queue: &mut [u64],
) -> BodyAnswer
    requires { ToWalk w a abounds.now b bbounds.now (length queue.old) }
    ensures { Answered w (body_of a.entry) (body_of b.entry) queue.old queue.new result }
{
    clear_unless(queue, false);
    hear_bodies(w, a, abounds, b, bbounds, queue)
}

// Two bodies: a refusal touches no word of the queue, and after an answer every word is zero.
pub fn search_bodies(w: Terms, a: Body, b: Body, queue: &mut [u64]) -> BodyAnswer
    ensures { Answered w (body_of a.entry) (body_of b.entry) queue.old queue.new result }
{
    if let Err(refusal) = check_bodies(w, a, b, queue.len()) {
        return BodyAnswer::Refused(refusal.number());
    }
    walk(w, a, &[], b, &[], queue)
}

// Two bodies, told in eight numbers; 10 comes first, and 21 and the queries' own numbers before 14.
pub fn answer_bodies(
    w: Terms,
    a: Body,
    b: Body,
    queue: &mut [u64],
    out: &mut [u32],
) -> Result<(), Refusal>
    ensures { Tells w (body_of a.entry) (body_of b.entry) queue.old queue.new out.old out.new (refusal_in result) }
{
    if !is_edition(w.edition) {
        return Err(Refusal::Edition);
    }
    check_bodies(w, a, b, queue.len())?;
    if out.len() < 8 {
        return Err(Refusal::Space);
    }
    let answer = walk(w, a, &[], b, &[], queue);
    write_told(out, answer);
    Ok(())
}
