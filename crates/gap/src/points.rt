// The kernel of an axis, from the coordinates of the eight points.
ghost use Rattle.std.specs.Prelude.{◌≡◌, ◌≤◌};
ghost use Rattle.gap.specs.Points.{Coordinates, Near, four_of, sided_four, end_of, kernel_by, kernel_at};

use super::span::Moment;
use kernel::Kernel;
use whole::{minus, turn};

// One coordinate of the four points at the start or at the end.
#[derive(Clone, Copy)]
pub struct Four {
    pub p0: i32,
    pub p1: i32,
    pub p2: i32,
    pub p3: i32,
}

fn four_at(points: [i32; 24], at: usize) -> Four
    requires { at ≤ 14 }
    ensures { result ≡ four_of points at }
{
    Four {
        p0: points[at],
        p1: points[at + 3],
        p2: points[at + 6],
        p3: points[at + 9],
    }
}

// The second body's coordinates negated where `turned` says so: those of points 1, 2, 3 of a vertex and a face, of 2, 3 of two edges.
fn sided(turned: bool, face: bool, f: Four) -> Four
    requires { Near 536870912 f }
    ensures { result ≡ sided_four turned face f }
{
    let p0 = f.p0;
    let p1 = turn(turned & face, f.p1);
    let p2 = turn(turned, f.p2);
    let p3 = turn(turned, f.p3);
    Four { p0, p1, p2, p3 }
}

// A, B, C at the start or at the end.
fn end(face: bool, f: Four) -> Moment
    ensures { result ≡ end_of face f }
{
    if face {
        let a = minus(f.p0, f.p1);
        let b = minus(f.p1, f.p2);
        let c = minus(f.p1, f.p3);
        Moment { a, b, c }
    } else {
        let a = minus(f.p0, f.p2);
        let b = minus(f.p1, f.p0);
        let c = minus(f.p2, f.p3);
        Moment { a, b, c }
    }
}

// An axis, by the coordinates at the start and at the end.
pub fn kernel_of(s: Four, e: Four, turned: bool, face: bool) -> Kernel
    requires { Near 536870912 s × Near 536870912 e }
    ensures { result ≡ kernel_by s e turned face }
{
    let start = end(face, sided(turned, face, s));
    let end = end(face, sided(turned, face, e));
    Kernel {
        a0: start.a,
        b0: start.b,
        c0: start.c,
        a1: end.a,
        b1: end.b,
        c1: end.c,
    }
}

// The axis whose first coordinate stands at `at`.
pub fn kernel_at(points: [i32; 24], at: usize, turned: bool, face: bool) -> Kernel
    requires { (at ≤ 2) × Coordinates 536870912 points }
    ensures { result ≡ kernel_at points at turned face }
{
    kernel_of(four_at(points, at), four_at(points, at + 12), turned, face)
}
