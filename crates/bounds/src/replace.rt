// One triangle of a body replaced, and the bound of its block.
ghost use Rattle.std.specs.Prelude.{◌≡◌, ◌+◌, ◌*◌, ◌-◌, ◌≤◌, length, take, drop};
ghost use Rattle.rules.specs.Numbers.{limits_of, is_coordinate};
ghost use Rattle.rules.specs.Refusals.{every, refusal_in};
ghost use Rattle.rules.specs.QueryFile.{put};
ghost use Rattle.bounds.specs.Reach.{body, body_of};
ghost use Rattle.bounds.specs.Keeping.{ToReplace, Exchanged, Replaces, exchange_refusal};

use super::block::{block_end, blocks, bound_of, write_bound};
use super::{Body, is_body};
use refusals::{are_coordinates, is_edition};
use rules::Refusal;

// A run of numbers, put in from a place on.
fn copy_in(out: &mut [i32], at: usize, run: &[i32])
    requires { at + length run.now ≤ length out.old }
    ensures { out.new ≡ put out.old at run.now }
{
    out[at..at + run.len()].copy_from_slice(run);
}

// Whether the coordinates from one place to another are in range, where a run takes the place of some of them.
fn are_right_with(edition: u8, s: &[i32], low: usize, high: usize, at: usize, run: &[i32]) -> bool
    requires { (low ≤ at) × ((at + length run.now ≤ high) × (high ≤ length s.now)) }
    ensures { result ≡ every (is_coordinate (limits_of edition)) (take (high - low) (drop low (put s.now at run.now))) }
{
    let after = at + run.len();
    let before = are_coordinates(edition, &s[low..at]);
    let behind = are_coordinates(edition, &s[after..high]);
    before & are_coordinates(edition, run) & behind
}

// 10, 21, 13, 3 in the new triangle or in another of its block, 27 for a list of another length.
fn check_replace(
    edition: u8,
    m: Body,
    bounds: &[i32],
    n: usize,
    corners: &[i32],
) -> Result<(), Refusal>
    ensures { refusal_in result ≡ exchange_refusal edition (body_of m.entry) bounds.now n corners.now }
{
    if !is_edition(edition) {
        return Err(Refusal::Edition);
    }
    let given = is_body(m) & (corners.len() == 18);
    if !given {
        return Err(Refusal::Body);
    }
    if m.count <= n {
        return Err(Refusal::Index);
    }
    let low = 288 * (n / 32);
    let high = 9 * block_end(m.count, n / 32);
    let right = are_right_with(edition, m.start, low, high, 9 * n, &corners[0..9])
        & are_right_with(edition, m.end, low, high, 9 * n, &corners[9..18]);
    if !right {
        return Err(Refusal::Coord);
    }
    if bounds.len() != 6 * blocks(m.count) {
        return Err(Refusal::Bounds);
    }
    Ok(())
}

// The new triangle's coordinates put in, and its block's bound worked out again.
fn exchange(
    count: usize,
    start: &mut [i32],
    end: &mut [i32],
    bounds: &mut [i32],
    n: usize,
    corners: &[i32],
)
    requires { ToReplace (body count start.old end.old) bounds.old n corners.now }
    ensures { Exchanged (body count start.old end.old) bounds.old n corners.now start.new end.new bounds.new }
{
    copy_in(start, 9 * n, &corners[0..9]);
    copy_in(end, 9 * n, &corners[9..18]);
    let m = Body { count, start, end };
    let bound = bound_of(m, n / 32);
    write_bound(bounds, n / 32, bound);
}

// Triangle n replaced by nine coordinates at the start and nine at the end; a refusal changes nothing.
pub fn replace(
    edition: u8,
    count: usize,
    start: &mut [i32],
    end: &mut [i32],
    bounds: &mut [i32],
    n: usize,
    corners: &[i32],
) -> Result<(), Refusal>
    ensures { Replaces edition (body count start.old end.old) bounds.old n corners.now start.new end.new bounds.new (refusal_in result) }
{
    let m = Body { count, start, end };
    check_replace(edition, m, bounds, n, corners)?;
    exchange(count, start, end, bounds, n, corners);
    Ok(())
}
