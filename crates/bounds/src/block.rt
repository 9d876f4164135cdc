// A block of 32 triangles: what they reach together, and its bound in a lent list, six numbers a block.
ghost use Rattle.std.specs.Prelude.{◌≡◌, ◌+◌, ◌*◌, ◌≤◌, ◌<◌, ◌+ℤ◌, ◌-ℤ◌, length};
ghost use Rattle.rules.specs.QueryFile.{put};
ghost use Rattle.whole.specs.Defs.{min_z, max_z};
ghost use Rattle.rules.specs.Bounds.{over_face, blocks, first_of, size_of, bound};
ghost use Rattle.bounds.specs.Reach.{body_of};
ghost use Rattle.bounds.specs.Block.{Small, FaceIn, BlockIn, EndsAre, HasBlock};
ghost use Rattle.bounds.specs.Lists.{six_of, set_span, is_span, are_spans, LentSpan, BoundIs};

use super::Body;
use super::reach::{Reach, X, Y, Z};
use gap::span::Span;

// How many blocks a body has.
pub fn blocks(count: usize) -> usize
    requires { count ≤ 256 }
    ensures { result ≡ blocks count }
{
    (count + 31) / 32
}

// Where a block's triangles end: the last block may be short.
pub fn block_end(count: usize, block: usize) -> usize
    requires { (32 * block < count) × (count ≤ 256) }
    ensures { result ≡ first_of block + size_of count block }
{
    count.min(32 * block + 32)
}

// ---- what a block's triangles reach

// From the least to the greatest on one axis. Coordinates in range leave room for the fourth corner.
#[derive(Clone, Copy)]
pub struct Ends {
    pub least: i32,
    pub greatest: i32,
}

// A block's bound.
#[derive(Clone, Copy)]
pub struct Bound {
    pub x: Ends,
    pub y: Ends,
    pub z: Ends,
}

// The ends of two together.
fn joined(p: Ends, q: Ends) -> Ends
    ensures least { result.least ≡ min_z p.least q.least }
    ensures greatest { result.greatest ≡ max_z p.greatest q.greatest }
{
    Ends {
        least: p.least.min(q.least),
        greatest: p.greatest.max(q.greatest),
    }
}

// The fourth corner of a triangle's parallelogram.
fn fourth(v1: i32, v2: i32, v3: i32) -> i32
    requires { Small v1 × (Small v2 × Small v3) }
    ensures { result ≡ v2 +ℤ v3 -ℤ v1 }
{
    v2 + v3 - v1
}

// A triangle at one moment, its fourth corner too, by the place of its first coordinate on an axis.
fn face_ends(s: &[i32], at: usize) -> Ends
    requires { FaceIn s.now at }
    ensures least { result.least ≡ over_face min_z s.now at }
    ensures greatest { result.greatest ≡ over_face max_z s.now at }
{
    let v1 = s[at];
    let v2 = s[at + 3];
    let v3 = s[at + 6];
    let v4 = fourth(v1, v2, v3);
    Ends {
        least: v1.min(v2).min(v3.min(v4)),
        greatest: v1.max(v2).max(v3.max(v4)),
    }
}

// A triangle at both moments.
fn triangle_ends(s: &[i32], e: &[i32], at: usize) -> Ends
    requires { FaceIn s.now at × FaceIn e.now at }
    ensures least { result.least ≡ min_z (over_face min_z s.now at) (over_face min_z e.now at) }
    ensures greatest { result.greatest ≡ max_z (over_face max_z s.now at) (over_face max_z e.now at) }
{
    joined(face_ends(s, at), face_ends(e, at))
}

// The triangles from one on, before another; the loop begins with a coordinate of the first, so that it goes over all of them alike.
fn ends_on(s: &[i32], e: &[i32], axis: usize, first: usize, end: usize) -> Ends
    requires { BlockIn s.now e.now axis first end }
    ensures { EndsAre s.now e.now axis first end result }
{
    let one = s[9 * first + axis];
    let mut ends = Ends {
        least: one,
        greatest: one,
    };
    for i in first..end {
        ends = joined(ends, triangle_ends(s, e, 9 * i + axis));
    }
    ends
}

pub fn bound_of(m: Body, block: usize) -> Bound
    requires { HasBlock m.count m.start.now m.end.now block }
    ensures { six_of result ≡ bound (body_of m.entry) block }
{
    let first = 32 * block;
    let end = block_end(m.count, block);
    let x = ends_on(m.start, m.end, X, first, end);
    let y = ends_on(m.start, m.end, Y, first, end);
    let z = ends_on(m.start, m.end, Z, first, end);
    Bound { x, y, z }
}

// ---- in a lent list

// On one axis: its least at a place, its greatest three behind.
fn span_at(bounds: &[i32], at: usize) -> Span
    requires { at + 4 ≤ length bounds.now }
    ensures { LentSpan bounds.now at result }
{
    Span {
        least: i64::from(bounds[at]),
        greatest: i64::from(bounds[at + 3]),
    }
}

pub fn bound_at(bounds: &[i32], block: usize) -> Reach
    requires { 6 * block + 6 ≤ length bounds.now }
    ensures { BoundIs bounds.now block result }
{
    let x = span_at(bounds, 6 * block);
    let y = span_at(bounds, 6 * block + 1);
    let z = span_at(bounds, 6 * block + 2);
    Reach { x, y, z }
}

fn is_span(bounds: &[i32], at: usize, s: Ends) -> bool
    requires { at + 4 ≤ length bounds.now }
    ensures { result ≡ is_span bounds.now at s }
{
    (bounds[at] == s.least) & (bounds[at + 3] == s.greatest)
}

// Whether a block's bound in the list is what its triangles give.
pub fn is_exact(bounds: &[i32], block: usize, r: Bound) -> bool
    requires { 6 * block + 6 ≤ length bounds.now }
    ensures { result ≡ are_spans bounds.now (6 * block) r }
{
    let x = is_span(bounds, 6 * block, r.x);
    let y = is_span(bounds, 6 * block + 1, r.y);
    let z = is_span(bounds, 6 * block + 2, r.z);
    x & y & z
}

// On one axis, put where `span_at` finds it.
fn write_span(bounds: &mut [i32], at: usize, s: Ends)
    requires { at + 4 ≤ length bounds.old }
    ensures { bounds.new ≡ set_span bounds.old at s }
{
    bounds[at] = s.least;
    bounds[at + 3] = s.greatest;
}

pub fn write_bound(bounds: &mut [i32], block: usize, r: Bound)
    requires { 6 * block + 6 ≤ length bounds.old }
    ensures { bounds.new ≡ put bounds.old (6 * block) (six_of r) }
{
    write_span(bounds, 6 * block, r.x);
    write_span(bounds, 6 * block + 1, r.y);
    write_span(bounds, 6 * block + 2, r.z);
}
