// The library for a controller: numbers and slices only. include/taperhive.h says what each function does.
#![tactic(auto)]

ghost use Rattle.std.specs.Prelude.{◌≡◌};
ghost use Rattle.rules.specs.QueryFile.{file_form};
ghost use Rattle.answers.specs.Walk.{One, Every, Counted};
ghost use Rattle.answers.specs.Pair.{Pair};
ghost use Rattle.bounds.specs.Reach.{body};
ghost use Rattle.bounds.specs.Keeping.{Keeps, Replaces};
ghost use Rattle.bodies.specs.Telling.{Tells, TellsWith};
ghost use Rattle.reasons.specs.Telling.{TellsWhy};
ghost use Rattle.controller.specs.Copying.{Copied, Ended};
ghost use Rattle.controller.specs.Given.{record_of, range_of, Writes};

use bounds::Body;
use given::{range_of, record_of};
use refusals::is_edition;
use rules::{Refusal, Terms, number_in};

mod given; // given.rt: the record of a pair that is given in numbers
mod answer_file; // answer_file.rt: the functions of the answer file

// Record n of a query file.
#[unsafe(no_mangle)]
pub extern "C" fn taperhive_answer(
    file: &[u8],
    n: usize,
    queue: &mut [u64],
    told: &mut [u32],
) -> u32
    ensures { One file.now n queue.old queue.new told.old told.new result }
{
    number_in(answers::answer_one(file, n, queue, told))
}

// Every record of a query file, in order.
#[unsafe(no_mangle)]
pub extern "C" fn taperhive_answers(file: &[u8], queue: &mut [u64], told: &mut [u32]) -> u32
    ensures { Every file.now queue.old queue.new told.old told.new result }
{
    number_in(answers::answer_all(file, queue, told))
}

// How many records a query file has.
#[unsafe(no_mangle)]
pub extern "C" fn taperhive_count(file: &[u8], told: &mut [u32]) -> u32
    ensures { Counted (file_form file.now) file.now told.old told.new result }
{
    number_in(answers::count_records(file, told))
}

// Why record n of a query file is safe at a moment and place, in 1/1,048,576 parts.
#[unsafe(no_mangle)]
pub extern "C" fn taperhive_why(
    file: &[u8],
    n: usize,
    t: u32,
    u: u32,
    v: u32,
    queue: &mut [u64],
    told: &mut [u32],
) -> u32
    ensures { TellsWhy file.now n (record { t = t; u = u; v = v }) queue.old queue.new told.old told.new result }
{
    reasons::tell(file, n, t, u, v, queue, told)
}

// Record n of a query file, written into another buffer.
#[unsafe(no_mangle)]
pub extern "C" fn taperhive_copy(
    file: &[u8],
    n: usize,
    edition: u8,
    out: &mut [u8],
    at: usize,
) -> u32
    ensures { Copied file.now n edition out.old at out.new result }
{
    let f = queries::fetch(file, n);
    let refusal = f.refusal;
    if refusal != 0 {
        return refusal;
    }
    let query = f.query;
    number_in(queries::writing::write_record(out, at, edition, query))
}

// A record from numbers; the points are 24 of them, four points at the start and four at the end.
#[unsafe(no_mangle)]
pub extern "C" fn taperhive_write(
    out: &mut [u8],
    at: usize,
    edition: u8,
    kind: u8,
    flags: u8,
    id: u32,
    dx: u32,
    dy: u32,
    dz: u32,
    tolerance: u32,
    budget: u32,
    cap: u32,
    points: &[i32],
) -> u32
    ensures { Writes edition points.now (record_of edition kind flags id dx dy dz tolerance budget cap points.now) out.old at out.new result }
{
    if points.len() < 24 {
        return Refusal::Space.number();
    }
    let pair = record_of(
        edition, kind, flags, id, dx, dy, dz, tolerance, budget, cap, points,
    );
    number_in(queries::writing::write_record(out, at, edition, pair))
}

// The trailer of a query file.
#[unsafe(no_mangle)]
pub extern "C" fn taperhive_trailer(out: &mut [u8], at: usize, edition: u8, count: u32) -> u32
    ensures { Ended out.old at edition count out.new result }
{
    number_in(queries::writing::write_trailer(out, at, edition, count))
}

// Two bodies of triangles, their positions at the start and at the end of the step, in the range of an edition.
#[unsafe(no_mangle)]
pub extern "C" fn taperhive_bodies(
    edition: u8,
    dx: u32,
    dy: u32,
    dz: u32,
    tolerance: u32,
    budget: u32,
    m: usize,
    a0: &[i32],
    a1: &[i32],
    n: usize,
    b0: &[i32],
    b1: &[i32],
    queue: &mut [u64],
    told: &mut [u32],
) -> u32
    ensures { Tells (record { dx = dx; dy = dy; dz = dz; tolerance = tolerance; budget = budget; edition = edition }) (body m a0.now a1.now) (body n b0.now b1.now) queue.old queue.new told.old told.new result }
{
    let w = Terms {
        dx,
        dy,
        dz,
        tolerance,
        budget,
        edition,
    };
    let a = Body {
        count: m,
        start: a0,
        end: a1,
    };
    let b = Body {
        count: n,
        start: b0,
        end: b1,
    };
    number_in(bodies::answer_bodies(w, a, b, queue, told))
}

// The bounds of a body, six numbers for every 32 triangles.
#[unsafe(no_mangle)]
pub extern "C" fn taperhive_bounds(
    edition: u8,
    count: usize,
    start: &[i32],
    end: &[i32],
    bounds: &mut [i32],
) -> u32
    ensures { Keeps edition (body count start.now end.now) bounds.old bounds.new result }
{
    let m = Body { count, start, end };
    number_in(bounds::write_bounds(edition, m, bounds))
}

// Two bodies as `taperhive_bodies` has them, with their bounds: blocks that are too far apart are passed over.
#[unsafe(no_mangle)]
pub extern "C" fn taperhive_walk(
    edition: u8,
    dx: u32,
    dy: u32,
    dz: u32,
    tolerance: u32,
    budget: u32,
    m: usize,
    a0: &[i32],
    a1: &[i32],
    abounds: &[i32],
    n: usize,
    b0: &[i32],
    b1: &[i32],
    bbounds: &[i32],
    queue: &mut [u64],
    told: &mut [u32],
) -> u32
    ensures { TellsWith (record { dx = dx; dy = dy; dz = dz; tolerance = tolerance; budget = budget; edition = edition }) (body m a0.now a1.now) abounds.now (body n b0.now b1.now) bbounds.now queue.old queue.new told.old told.new result }
{
    let w = Terms {
        dx,
        dy,
        dz,
        tolerance,
        budget,
        edition,
    };
    let a = Body {
        count: m,
        start: a0,
        end: a1,
    };
    let b = Body {
        count: n,
        start: b0,
        end: b1,
    };
    number_in(bodies::with_bounds::answer_with_bounds(w, a, abounds, b, bbounds, queue, told))
}

// Triangle n of a body replaced, and the bound of its block worked out again.
#[unsafe(no_mangle)]
pub extern "C" fn taperhive_replace(
    edition: u8,
    count: usize,
    start: &mut [i32],
    end: &mut [i32],
    bounds: &mut [i32],
    n: usize,
    corners: &[i32],
) -> u32
    ensures { Replaces edition (body count start.old end.old) bounds.old n corners.now start.new end.new bounds.new result }
{
    number_in(bounds::replace::replace(edition, count, start, end, bounds, n, corners))
}

// One pair without a file, in the range of an edition; its own refusals are told.
#[unsafe(no_mangle)]
pub extern "C" fn taperhive_pair(
    edition: u8,
    kind: u8,
    flags: u8,
    id: u32,
    dx: u32,
    dy: u32,
    dz: u32,
    tolerance: u32,
    budget: u32,
    cap: u32,
    points: &[i32],
    queue: &mut [u64],
    told: &mut [u32],
) -> u32
    ensures { Pair edition points.now (record_of (range_of edition) kind flags id dx dy dz tolerance budget cap points.now) queue.old queue.new told.old told.new result }
{
    if !is_edition(edition) {
        return Refusal::Edition.number();
    }
    if points.len() < 24 {
        return Refusal::Space.number();
    }
    if told.len() < 8 {
        return Refusal::Space.number();
    }
    let range = range_of(edition);
    let query = record_of(
        range, kind, flags, id, dx, dy, dz, tolerance, budget, cap, points,
    );
    answers::answer_record(query, queue, told);
    0
}
