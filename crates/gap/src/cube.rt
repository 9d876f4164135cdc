// The least and the greatest of F over the whole cube, on one axis, in whole units: at its corners t, u, v are 0 or 1.
ghost use Rattle.std.specs.Prelude.{◌≡◌, pos};
ghost use Rattle.whole.specs.Within.{Within};
ghost use Rattle.gap.specs.Corners.{span_of};
ghost use Rattle.gap.specs.Cube.{square_of, cube_of, Wide};

use super::span::{Span, join, sum};
use kernel::Kernel;

// A term of F where its parameter is 0 or 1.
fn term(s: i64) -> Span
    ensures { result ≡ span_of (pos 0) s }
{
    Span {
        least: whole::least(0, s),
        greatest: whole::greatest(0, s),
    }
}

// The span over u and v, at the start or at the end.
fn over_square(a: i64, b: i64, c: i64) -> Span
    requires { Within 4294967296 a × (Within 4294967296 b × Within 4294967296 c) }
    ensures { result ≡ square_of a b c }
{
    let u = term(b);
    let v = term(c);
    sum(a, u, v)
}

pub fn over_cube(k: Kernel) -> Span
    requires { Wide k }
    ensures { result ≡ cube_of k }
{
    let start = over_square(k.a0, k.b0, k.c0);
    let end = over_square(k.a1, k.b1, k.c1);
    join(start, end)
}
