// The least and the greatest of F times parts·parts over a cell's corners, on one axis.
// At a moment F is A + u·B + v·C, so that its least over u and v is that of each term by itself.
ghost use Rattle.std.specs.Prelude.{◌≡◌, ◌≤◌, pos, ◌*ℤ◌};
ghost use Rattle.kernel.specs.Ranges.{Small};
ghost use Rattle.whole.specs.Within.{Within};
ghost use Rattle.gap.specs.Corners.{blended, moment_of, value_at, span_of, summed, span_at, joined, span_over};
ghost use Rattle.gap.specs.Steps.{Blends, Reaches, InParts, Fine, SmallSpan, term_most};

use super::cell::Cell;
use kernel::Kernel;

// A, B, C of an axis at a moment, times parts.
#[derive(Clone, Copy)]
pub struct Moment {
    pub a: i64,
    pub b: i64,
    pub c: i64,
}

#[derive(Clone, Copy)]
pub struct Span {
    pub least: i64,
    pub greatest: i64,
}

// A number that goes straight from x at the start to y at the end, at the moment t, times parts.
fn blend(parts: i64, t: i64, x: i64, y: i64) -> i64
    requires { Blends parts t x y }
    ensures { result ≡ blended parts t x y }
{
    parts * x + t * (y - x)
}

pub fn at_moment(k: Kernel, parts: u64, t: u64) -> Moment
    requires { (t ≤ parts) × Small parts k }
    ensures { result ≡ moment_of parts k t }
{
    let q = parts as i64;
    let s = t as i64;
    let a = blend(q, s, k.a0, k.a1);
    let b = blend(q, s, k.b0, k.b1);
    let c = blend(q, s, k.c0, k.c1);
    Moment { a, b, c }
}

// s times the numbers from lo to hi.
fn reach(lo: u64, hi: u64, s: i64) -> Span
    requires { Reaches lo hi s }
    ensures { result ≡ span_of (pos lo *ℤ s) (pos hi *ℤ s) }
{
    let x = lo as i64 * s;
    let y = hi as i64 * s;
    Span {
        least: whole::least(x, y),
        greatest: whole::greatest(x, y),
    }
}

// A number and two spans, added.
pub fn sum(x: i64, s: Span, t: Span) -> Span
    requires { Within term_most x × (SmallSpan term_most s × SmallSpan term_most t) }
    ensures { result ≡ summed x s t }
{
    Span {
        least: x + s.least + t.least,
        greatest: x + s.greatest + t.greatest,
    }
}

// The span over u and v at a moment, term by term.
pub fn over_face(m: Moment, w: Cell) -> Span
    requires { Fine w.parts m × InParts w }
    ensures { result ≡ span_at m w }
{
    let u = reach(w.u0, w.u1, m.b);
    let v = reach(w.v0, w.v1, m.c);
    sum(w.parts as i64 * m.a, u, v)
}

// The span of two spans.
pub fn join(s: Span, t: Span) -> Span
    ensures { result ≡ joined s t }
{
    Span {
        least: whole::least(s.least, t.least),
        greatest: whole::greatest(s.greatest, t.greatest),
    }
}

// The least and the greatest over the eight corners.
pub fn over_corners(k: Kernel, w: Cell) -> Span
    requires { Small w.parts k × InParts w }
    ensures { result ≡ span_over k w }
{
    let start = over_face(at_moment(k, w.parts, w.t0), w);
    let end = over_face(at_moment(k, w.parts, w.t1), w);
    join(start, end)
}

// F at a moment.
pub fn value(m: Moment, parts: u64, u: u64, v: u64) -> i64
    requires { Fine parts m × ((parts ≤ 1048576) × ((u ≤ parts) × (v ≤ parts))) }
    ensures { result ≡ value_at parts m u v }
{
    parts as i64 * m.a + u as i64 * m.b + v as i64 * m.c
}
