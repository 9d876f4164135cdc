// Everything that the search asks about one box of a pair.
#![tactic(auto)]

ghost use Rattle.std.specs.Prelude.{◌≡◌, ◌≤◌};
ghost use Rattle.rules.specs.Numbers.{last_moment};
ghost use Rattle.rules.specs.Refusals.{search_refusal};
ghost use Rattle.rules.specs.Search.{query, origin, survives, corner, excess, near, split};
ghost use Rattle.rules.specs.Why.{missed};
ghost use Rattle.kernel.specs.Kernel.{asked};
ghost use Rattle.kernel.specs.Ranges.{Ranged, Shallow, InGrid};
ghost use Rattle.gap.specs.Asked.{in_face};
ghost use Rattle.gap.specs.Corners.{meets};
ghost use Rattle.gap.specs.Cube.{whole_cube};
ghost use Rattle.gap.specs.Points.{Near, kernel_by};
ghost use Rattle.gap.specs.Prepared.{Prepared};

use cell::{cell_of, low};
use kernel::Pair;
use measure::{excess, meets_whole, thin};
use miss::miss_on;
use points::{Four, kernel_at, kernel_of};
use refusals::depth_limit;
use rules::{Axis, Corner, Miss, Parameter, Record, Three};
use weigh::{spread_t, spread_u, spread_v, weight, winner};

pub mod cell; // cell.rt: a box as its ends in parts
pub mod cube; // cube.rt: the least and the greatest of F over the whole cube, on one axis
mod measure; // measure.rt: what F at the corners says: survival, excess, width
mod miss; // miss.rt: the side on which F is beyond the separation over all of a cell
pub mod points; // points.rt: the kernel of an axis, from the coordinates of the eight points
pub mod slab; // slab.rt: what all boxes of a t index share
pub mod span; // span.rt: the least and the greatest of F over a cell's corners, on one axis
mod weigh; // weigh.rt: what a split in each parameter is worth

// t, u, v in 0 to 1 are told in parts, whatever the depth limit.
pub const PARTS: u64 = 1048576;

// Whether F comes within d of 0 on one axis over the whole cube, by the coordinates at the start and at the end.
pub fn meets_axis(s: Four, e: Four, turned: bool, face: bool, d: u32) -> bool
    requires { Near 536870912 s × (Near 536870912 e × (d ≤ 65536)) }
    ensures { result ≡ meets (kernel_by s e turned face) whole_cube d }
{
    meets_whole(kernel_of(s, e, turned, face), d as u64)
}

// Whether the whole cube of a record that is not refused survives: level 0 has no other box. Only the axes that are reached are worked out.
pub fn survives_whole(r: Record, words: usize) -> bool
    requires { search_refusal r words ≡ 0 }
    ensures { result ≡ survives (query r words) origin origin }
{
    let points = r.points;
    let face = r.kind == 1;
    let flagged = r.flags % 2 == 1;
    meets_whole(kernel_at(points, 2, false, face), r.dz as u64)
        && meets_whole(kernel_at(points, 0, false, face), r.dx as u64)
        && meets_whole(kernel_at(points, 1, flagged, face), r.dy as u64)
}

// The first axis, x before y before z, and the side on which all of the box is beyond the separation; none where it survives.
// Kept out of the way down, which calls itself: its frame is taken at every level.
#[inline(never)]
pub fn missed(p: Pair, k: Three, i: Three) -> Option<Miss>
    requires { Ranged p × (Shallow p.deepest k × InGrid k i) }
    ensures { result ≡ missed (asked p) k i }
{
    let w = cell_of(p.deepest, k, i);
    let x = miss_on(p.x, w, p.dx, Axis::X);
    let y = miss_on(p.y, w, p.dy, Axis::Y);
    let z = miss_on(p.z, w, p.dz, Axis::Z);
    x.or(y.or(z))
}

// Whether a half is not outside the face: for vertex-face its low u plus low v is at most 1. The cap is asked by who halves, on the word.
pub fn in_face(p: Pair, k: Three, i: Three) -> bool
    requires { Shallow 20 k × InGrid k i }
    ensures { result ≡ in_face (asked p) k i }
{
    if p.face {
        low(20, k.u, i.u) + low(20, k.v, i.v) <= PARTS
    } else {
        true
    }
}

// What is recorded of a survivor: its low corner, with the excess there.
pub fn corner(p: Pair, k: Three, i: Three) -> Corner
    requires { Ranged p × (Shallow p.deepest k × InGrid k i) }
    ensures { result ≡ corner (asked p) k i }
{
    let w = cell_of(p.deepest, k, i);
    let t = low(20, k.t, i.t) as u32;
    let u = low(20, k.u, i.u) as u32;
    let v = low(20, k.v, i.v) as u32;
    Corner {
        t,
        u,
        v,
        excess: excess(p, w),
    }
}

// Whether the first survivor of a level is close enough: its excess e is 0, or its width within the tolerance.
#[tactic(auto, unfolding(rules::specs::Search::near))]
pub fn near(p: Pair, k: Three, i: Three, e: u32) -> bool
    requires { (Ranged p × (Shallow p.deepest k × InGrid k i)) × (e ≡ excess (asked p) k i) }
    ensures { result ≡ near (asked p) k i }
{
    if e == 0 {
        return true;
    }
    let w = cell_of(p.deepest, k, i);
    thin(p, w)
}

// The parameter that every survivor of a level is split in.
pub fn split(p: Pair, k: Three) -> Parameter
    requires { Ranged p × Shallow p.deepest k }
    ensures { result ≡ split (asked p) k }
{
    let t = weight(p.deepest, spread_t(p), k.t);
    let u = weight(p.deepest, spread_u(p), k.u);
    let v = weight(p.deepest, spread_v(p), k.v);
    winner(t, u, v)
}

// The same for who asks rarely: with a second caller `split` would no longer vanish into the search, which that slows by a tenth.
pub fn rare_split(p: Pair, k: Three) -> Parameter
    requires { Ranged p × Shallow p.deepest k }
    ensures { result ≡ split (asked p) k }
{
    winner(
        weight(p.deepest, spread_t(p), k.t),
        weight(p.deepest, spread_u(p), k.u),
        weight(p.deepest, spread_v(p), k.v),
    )
}

// A cap's last moment: 0 is the whole step.
pub fn last_moment(cap: u32) -> u64
    ensures { result ≡ last_moment cap }
{
    if cap == 0 { PARTS } else { cap as u64 }
}

// What the search goes by, of a record that is not refused.
pub fn prepare(r: Record, words: usize) -> Pair
    requires { search_refusal r words ≡ 0 }
    ensures { Prepared r words result }
{
    let points = r.points;
    let face = r.kind == 1;
    let flagged = r.flags % 2 == 1;
    let x = kernel_at(points, 0, false, face);
    let y = kernel_at(points, 1, flagged, face);
    let z = kernel_at(points, 2, false, face);
    let dx = r.dx as u64;
    let dy = r.dy as u64;
    let dz = r.dz as u64;
    let tolerance = r.tolerance as u64;
    let deepest = depth_limit(r.edition);
    let last = last_moment(r.cap);
    Pair {
        x,
        y,
        z,
        dx,
        dy,
        dz,
        face,
        tolerance,
        budget: r.budget,
        room: words / 2,
        deepest,
        last,
    }
}
