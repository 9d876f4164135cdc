// What a triangle reaches over the step on each axis, its parallelogram's fourth corner too.
ghost use Rattle.std.specs.Prelude.{◌≡◌, ◌+◌, ◌≤◌, length};
ghost use Rattle.gap.specs.Cube.{Wide};
ghost use Rattle.bounds.specs.Reach.{triangle_at, HasTriangle, ReachIs};

use gap::cube::over_cube;
use gap::span::Span;
use kernel::Kernel;
use whole::minus;

// Where x, y and z of a point stand.
pub const X: usize = 0;

pub const Y: usize = 1;

pub const Z: usize = 2;

// A triangle on one axis as a kernel of its own, from the coordinate at a place: its cube is what the triangle reaches.
pub fn triangle_at(s: &[i32], e: &[i32], at: usize) -> Kernel
    requires { (at + 7 ≤ length s.now) × (at + 7 ≤ length e.now) }
    ensures value { result ≡ triangle_at s.now e.now at }
    ensures wide { Wide result }
{
    let a0 = minus(s[at], 0);
    let b0 = minus(s[at + 3], s[at]);
    let c0 = minus(s[at + 6], s[at]);
    let a1 = minus(e[at], 0);
    let b1 = minus(e[at + 3], e[at]);
    let c1 = minus(e[at + 6], e[at]);
    Kernel {
        a0,
        b0,
        c0,
        a1,
        b1,
        c1,
    }
}

// What a triangle, or all of a block's, reaches on each axis.
#[derive(Clone, Copy)]
pub struct Reach {
    pub x: Span,
    pub y: Span,
    pub z: Span,
}

pub fn reach_of(s: &[i32], e: &[i32], i: usize) -> Reach
    requires { HasTriangle s.now e.now i }
    ensures { ReachIs s.now e.now i result }
{
    let x = over_cube(triangle_at(s, e, 9 * i + X));
    let y = over_cube(triangle_at(s, e, 9 * i + Y));
    let z = over_cube(triangle_at(s, e, 9 * i + Z));
    Reach { x, y, z }
}
