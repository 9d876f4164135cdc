// The bounds of a body, six numbers for every 32 triangles, and one triangle replaced.
#![tactic(auto)]

ghost use Rattle.std.specs.Prelude.{◌≡◌};
ghost use Rattle.rules.specs.Refusals.{refusal_in};
ghost use Rattle.rules.specs.QueryFile.{put};
ghost use Rattle.rules.specs.Bodies.{is_body};
ghost use Rattle.rules.specs.Bounds.{bounds_of, are_same};
ghost use Rattle.bounds.specs.Reach.{body_of};
ghost use Rattle.bounds.specs.Keeping.{InRange, ToKeep, Keeps};

use block::{blocks, bound_of, is_exact, write_bound};
use refusals::{are_coordinates, is_edition};
use rules::Refusal;

pub mod block; // block.rt: a block of 32 triangles and its bound
pub mod reach; // reach.rt: what a triangle reaches
pub mod replace; // replace.rt: one triangle replaced

// A body as it is lent: nine coordinates a triangle at the start of the step and nine at the end.
#[derive(Clone, Copy)]
pub struct Body<'a> {
    pub count: usize,
    pub start: &'a [i32],
    pub end: &'a [i32],
}

// A count past 256 goes first: nine times it must fit.
pub fn is_body(m: Body) -> bool
    ensures { result ≡ is_body (body_of m.entry) }
{
    if 256 < m.count {
        return false;
    }
    (1 <= m.count) & (m.start.len() == 9 * m.count) & (m.end.len() == 9 * m.count)
}

// ---- a body's bounds

// Whether a list is exactly what the triangles give.
pub fn are_exact(m: Body, bounds: &[i32]) -> bool
    requires { InRange (body_of m) }
    ensures { result ≡ are_same bounds.now (bounds_of (body_of m.entry)) }
{
    if bounds.len() != 6 * blocks(m.count) {
        return false;
    }
    for block in 0..blocks(m.count) {
        if !is_exact(bounds, block, bound_of(m, block)) {
            return false;
        }
    }
    true
}

fn write_all(m: Body, bounds: &mut [i32])
    requires { ToKeep (body_of m) bounds.old }
    ensures { bounds.new ≡ put bounds.old 0 (bounds_of (body_of m.entry)) }
{
    for block in 0..blocks(m.count) {
        write_bound(bounds, block, bound_of(m, block));
    }
}

// The bounds of a body: 10, 21, 3, then 14 where fewer numbers are lent than they have.
pub fn write_bounds(edition: u8, m: Body, bounds: &mut [i32]) -> Result<(), Refusal>
    ensures { Keeps edition (body_of m.entry) bounds.old bounds.new (refusal_in result) }
{
    if !is_edition(edition) {
        return Err(Refusal::Edition);
    }
    if !is_body(m) {
        return Err(Refusal::Body);
    }
    let right = are_coordinates(edition, m.start) & are_coordinates(edition, m.end);
    if !right {
        return Err(Refusal::Coord);
    }
    if bounds.len() < 6 * blocks(m.count) {
        return Err(Refusal::Space);
    }
    write_all(m, bounds);
    Ok(())
}
