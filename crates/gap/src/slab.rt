// What all boxes of a level with one t index share, so that a box costs four products an axis: at a moment F over a cell is F over the cell at u and v
// index 0, and as much more for each index.
ghost use Rattle.std.specs.Prelude.{◌≡◌, ◌^◌, ◌<◌, ◌≤◌};
ghost use Rattle.whole.specs.Within.{Within};
ghost use Rattle.rules.specs.Search.{survives};
ghost use Rattle.kernel.specs.Kernel.{asked};
ghost use Rattle.kernel.specs.Ranges.{Small, Ranged, Shallow, InGrid};
ghost use Rattle.gap.specs.Slab.{edge_of, strip_of, slab_of, changed, meets_strip, limit_most, Moves, MovesStrip};
ghost use Rattle.gap.specs.Steps.{InParts, Fine};

use super::cell::{Cell, cell_of};
use super::measure::units;
use super::span::{Moment, at_moment, over_face};
use kernel::{Kernel, Pair};
use rules::Three;

// An axis at a moment: how F changes with each u index and each v index, and from where to where these changes may lead for F to come within the
// separation somewhere over a cell.
#[derive(Clone, Copy)]
pub struct Edge {
    pub u: i64,
    pub v: i64,
    pub from: i64,
    pub to: i64,
}

// An axis from the low to the high end of a t index.
#[derive(Clone, Copy)]
pub struct Strip {
    pub start: Edge,
    pub end: Edge,
}

#[derive(Clone, Copy)]
pub struct Slab {
    pub t: u64,
    pub x: Strip,
    pub y: Strip,
    pub z: Strip,
}

// By the cell at u and v index 0.
fn edge_of(m: Moment, w: Cell, limit: i64) -> Edge
    requires { Fine w.parts m × (InParts w × Within limit_most limit) }
    ensures { result ≡ edge_of m w limit }
{
    let s = over_face(m, w);
    let u = w.u1 as i64 * m.b;
    let v = w.v1 as i64 * m.c;
    let from = -limit - s.greatest;
    let to = limit - s.least;
    Edge { u, v, from, to }
}

fn strip_of(k: Kernel, w: Cell, d: u64) -> Strip
    requires { Small w.parts k × (InParts w × (d ≤ 65536)) }
    ensures { result ≡ strip_of k w d }
{
    let limit = units(w, d);
    let start = edge_of(at_moment(k, w.parts, w.t0), w, limit);
    let end = edge_of(at_moment(k, w.parts, w.t1), w, limit);
    Strip { start, end }
}

// What the boxes with this t index share. Taken into the search: as a call, from two places, it would have a copy of the pair for each in every search's frame.
#[inline(always)]
pub fn slab_at(p: Pair, k: Three, t: u64) -> Slab
    requires { Ranged p × (Shallow p.deepest k × (t < 2 ^ k.t)) }
    ensures { result ≡ slab_of p k t }
{
    let w = cell_of(p.deepest, k, Three { t, u: 0, v: 0 });
    let x = strip_of(p.x, w, p.dx);
    let y = strip_of(p.y, w, p.dy);
    let z = strip_of(p.z, w, p.dz);
    Slab { t, x, y, z }
}

// The same where it may be at hand already.
pub fn renewed(p: Pair, k: Three, t: u64, s: Slab) -> Slab
    requires { Ranged p × (Shallow p.deepest k × ((t < 2 ^ k.t) × (s ≡ slab_of p k s.t))) }
    ensures { result ≡ slab_of p k t }
{
    if s.t == t { s } else { slab_at(p, k, t) }
}

// How F over a cell differs from that over the cell at u and v index 0.
fn along(e: Edge, u: u64, v: u64) -> i64
    requires { Moves e u v }
    ensures { result ≡ changed e u v }
{
    u as i64 * e.u + v as i64 * e.v
}

// The least over both moments is within the separation where that over one of them is, and so is the greatest.
fn meets_strip(s: Strip, u: u64, v: u64) -> bool
    requires { MovesStrip s u v }
    ensures { result ≡ meets_strip s u v }
{
    let x = along(s.start, u, v);
    let y = along(s.end, u, v);
    ((x <= s.start.to) | (y <= s.end.to)) & ((s.start.from <= x) | (s.end.from <= y))
}

// Whether a box survives: z first, then x, then y, and the first axis that misses ends it.
pub fn survives_in(p: Pair, k: Three, s: Slab, i: Three) -> bool
    requires { Ranged p × (Shallow p.deepest k × (InGrid k i × (s ≡ slab_of p k i.t))) }
    ensures { result ≡ survives (asked p) k i }
{
    meets_strip(s.z, i.u, i.v) && meets_strip(s.x, i.u, i.v) && meets_strip(s.y, i.u, i.v)
}
