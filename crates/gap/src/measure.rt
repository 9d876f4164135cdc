// What F at a cell's corners says: on one axis, and on all three.
ghost use Rattle.std.specs.Prelude.{◌≡◌, ◌&&◌, ◌≤◌, ◌*◌, ◌-◌, pos, neg_ℤ};
ghost use Rattle.std.specs.Int.Signed.{le_z};
ghost use Rattle.whole.specs.Within.{Within};
ghost use Rattle.kernel.specs.Ranges.{Small};
ghost use Rattle.gap.specs.Corners.{unit_of, meets, beyond, excess_of, is_narrow, is_thin};
ghost use Rattle.gap.specs.Cube.{whole_cube};
ghost use Rattle.gap.specs.Steps.{InParts, Over, term_most};

use super::cell::Cell;
use super::cube::over_cube;
use super::span::{Span, at_moment, over_corners, value};
use kernel::{Kernel, Pair};
use whole::{larger, size};

// A unit of F times parts·parts.
fn unit_of(w: Cell) -> u64
    requires { InParts w }
    ensures { result ≡ unit_of w }
{
    w.parts * w.parts
}

// So many units.
pub fn units(w: Cell, d: u64) -> i64
    requires { InParts w × (d ≤ 1048576) }
    ensures { result ≡ pos (d * unit_of w) }
{
    (d * unit_of(w)) as i64
}

// Whether a span comes within the limit of 0.
pub fn comes_within(s: Span, limit: i64) -> bool
    requires { Within term_most limit }
    ensures { result ≡ le_z s.least limit && le_z (neg_ℤ limit) s.greatest }
{
    (s.least <= limit) & (-limit <= s.greatest)
}

// Whether F comes within d of 0 on one axis over the whole cube, where whole units do.
pub fn meets_whole(k: Kernel, d: u64) -> bool
    requires { Small 1 k × (d ≤ 65536) }
    ensures { result ≡ meets k whole_cube d }
{
    let s = over_cube(k);
    comes_within(s, d as i64)
}

// By how much F is beyond d units on one axis, at the low corner.
fn beyond(k: Kernel, w: Cell, d: u64) -> u64
    requires { Small w.parts k × (InParts w × (d ≤ 65536)) }
    ensures { result ≡ beyond k w d }
{
    let n = size(value(at_moment(k, w.parts, w.t0), w.parts, w.u0, w.v0));
    let limit = d * unit_of(w);
    n.saturating_sub(limit)
}

// The excess at the low corner, in units, rounded up.
pub fn excess(p: Pair, w: Cell) -> u32
    requires { Over p w }
    ensures { result ≡ excess_of p w }
{
    let x = beyond(p.x, w, p.dx);
    let y = beyond(p.y, w, p.dy);
    let z = beyond(p.z, w, p.dz);
    let n = larger(x, larger(y, z));
    let unit = unit_of(w);
    ((n + (unit - 1)) >> (2 * p.deepest)) as u32
}

// Whether the corner values are at most t units apart on one axis. Their difference can be 2^63, so that it is not taken.
fn narrow(k: Kernel, w: Cell, t: u64) -> bool
    requires { Small w.parts k × (InParts w × (t ≤ 1048576)) }
    ensures { result ≡ is_narrow k w t }
{
    let s = over_corners(k, w);
    s.greatest <= s.least + units(w, t)
}

// Whether the width is within the tolerance.
pub fn thin(p: Pair, w: Cell) -> bool
    requires { Over p w }
    ensures { result ≡ is_thin p w }
{
    narrow(p.z, w, p.tolerance) && narrow(p.x, w, p.tolerance) && narrow(p.y, w, p.tolerance)
}
