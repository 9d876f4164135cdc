// Triangles that are further apart on an axis than the separation: all their queries miss over the whole cube, so that none is asked.
// Single triangles by what they reach, and blocks of 32 by their bounds, where lists of bounds are lent.
ghost use Rattle.std.specs.Prelude.{◌≡◌, true, ◌+◌, ◌*◌, ◌≤◌, length};
ghost use Rattle.gap.specs.Cube.{cube_most};
ghost use Rattle.gap.specs.Steps.{SmallSpan};
ghost use Rattle.bounds.specs.Reach.{reach_at, HasTriangle, WideReach};
ghost use Rattle.bodies.specs.Between.{Further};
ghost use Rattle.bodies.specs.Apart.{DistantFrom};
ghost use Rattle.bodies.specs.Passed.{Passed, Asunder, AllAsunder, AloneBy, Alone, HasBound, HasBounds, Near};

use bounds::Body;
use bounds::block::{block_end, blocks, bound_at};
use bounds::reach::{Reach, X, Y, Z, triangle_at};
use gap::cube::over_cube;
use gap::span::Span;
use rules::Terms;

// Whether two spans on an axis are further apart than d.
fn are_apart(p: Span, q: Span, d: u32) -> bool
    requires { SmallSpan cube_most p × SmallSpan cube_most q }
    ensures { result ≡ true → Further p q d }
{
    let over = p.least - q.greatest;
    let under = q.least - p.greatest;
    let limit = i64::from(d);
    if limit < over { true } else { limit < under }
}

// ---- single triangles

// What a triangle of A reaches on an axis, and a triangle of B by the place of its first coordinate there.
fn apart_on(p: Span, s: &[i32], e: &[i32], at: usize, d: u32) -> bool
    requires { SmallSpan cube_most p × ((at + 7 ≤ length s.now) × (at + 7 ≤ length e.now)) }
    ensures { result ≡ true → Further p (reach_at s.now e.now at) d }
{
    are_apart(p, over_cube(triangle_at(s, e, at)), d)
}

// Whether all queries of a triangle of A, by its reach, with triangle j of B miss: z first, then x, then y.
fn are_distant(w: Terms, r: Reach, s: &[i32], e: &[i32], j: usize) -> bool
    requires { WideReach r × HasTriangle s.now e.now j }
    ensures { result ≡ true → DistantFrom w r s.now e.now j }
{
    if apart_on(r.z, s, e, 9 * j + Z, w.dz) {
        return true;
    }
    if apart_on(r.x, s, e, 9 * j + X, w.dx) {
        return true;
    }
    apart_on(r.y, s, e, 9 * j + Y, w.dy)
}

// The first triangle of B, from one on, that is not so apart; n where all are.
fn next_in(w: Terms, r: Reach, s: &[i32], e: &[i32], from: usize, n: usize) -> usize
    requires { WideReach r × ((from ≤ n) × ((9 * n ≤ length s.now) × (9 * n ≤ length e.now))) }
    ensures { Passed (DistantFrom w r s.now e.now) from n result }
{
    for j in from..n {
        if !are_distant(w, r, s, e, j) {
            return j;
        }
    }
    n
}

// ---- blocks

// Whether what is reached and a block of B are so apart, by the bound of the block; never where no bounds are lent.
fn is_asunder(w: Terms, r: Reach, bounds: &[i32], block: usize) -> bool
    requires { WideReach r × HasBound bounds.now block }
    ensures { result ≡ true → Asunder w r bounds.now block }
{
    if bounds.is_empty() {
        return false;
    }
    let b = bound_at(bounds, block);
    if are_apart(r.z, b.z, w.dz) {
        return true;
    }
    if are_apart(r.x, b.x, w.dx) {
        return true;
    }
    are_apart(r.y, b.y, w.dy)
}

// The first triangle of B, from one on, that is near a triangle of A, by its reach: whole blocks are passed over by their bounds.
pub fn next_near(w: Terms, r: Reach, b: Body, bounds: &[i32], from: usize) -> usize
    requires { WideReach r × Near b.count b.start.now b.end.now bounds.now from }
    ensures { Passed (DistantFrom w r b.entry.start.now b.entry.end.now) from b.entry.count result }
{
    let mut j = from;
    while j < b.count {
        let end = block_end(b.count, j / 32);
        if !is_asunder(w, r, bounds, j / 32) {
            let near = next_in(w, r, b.start, b.end, j, end);
            if near < end {
                return near;
            }
        }
        j = end;
    }
    j
}

// Whether what is reached is so apart from every block of B.
fn is_alone(w: Terms, r: Reach, bounds: &[i32], n: usize) -> bool
    requires { WideReach r × HasBounds bounds.now n }
    ensures { result ≡ true → AllAsunder w r bounds.now n }
{
    for block in 0..blocks(n) {
        if !is_asunder(w, r, bounds, block) {
            return false;
        }
    }
    true
}

// Whether a block of A is so apart from every block of B.
fn is_block_alone(w: Terms, abounds: &[i32], block: usize, bbounds: &[i32], n: usize) -> bool
    requires { HasBound abounds.now block × HasBounds bbounds.now n }
    ensures { result ≡ true → AloneBy w abounds.now bbounds.now n block }
{
    if abounds.is_empty() {
        return false;
    }
    is_alone(w, bound_at(abounds, block), bbounds, n)
}

// The first triangle of A, from one on, whose block is not so apart from all of B; m where all are.
pub fn next_row(
    w: Terms,
    abounds: &[i32],
    m: usize,
    bbounds: &[i32],
    n: usize,
    from: usize,
) -> usize
    requires { (from ≤ m) × (HasBounds abounds.now m × HasBounds bbounds.now n) }
    ensures { Passed (Alone w abounds.now bbounds.now n) from m result }
{
    let mut i = from;
    while i < m {
        if !is_block_alone(w, abounds, i / 32, bbounds, n) {
            return i;
        }
        i = block_end(m, i / 32);
    }
    i
}
