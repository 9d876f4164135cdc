// What a split in each parameter is worth.
ghost use Rattle.std.specs.Prelude.{◌≡◌, cond, max, ◌+◌, ◌*◌, ◌≤◌, eqb, nat_abs};
ghost use Rattle.whole.specs.Within.{Within};
ghost use Rattle.rules.specs.Search.{spread, side, winner};
ghost use Rattle.kernel.specs.Kernel.{asked};
ghost use Rattle.kernel.specs.Ranges.{Ranged};
ghost use Rattle.gap.specs.Steps.{SmallMoment};
ghost use Rattle.gap.specs.Spread.{Numbers, change_of, step_of, way_of, StepFits, change_most, spread_most};

use super::span::Moment;
use kernel::{Kernel, Pair};
use rules::Parameter;
use whole::{larger, size};

// How A, B, C of an axis change from start to end.
fn change(k: Kernel) -> Moment
    requires { Numbers k }
    ensures { result ≡ change_of k }
{
    let a = k.a1 - k.a0;
    let b = k.b1 - k.b0;
    let c = k.c1 - k.c0;
    Moment { a, b, c }
}

// How F changes at u, v, each 0 or 1.
fn step(u: i64, v: i64, m: Moment) -> i64
    requires { StepFits u v m }
    ensures { result ≡ step_of u v m }
{
    m.a + u * m.b + v * m.c
}

// The largest of three numbers in size.
fn largest(x: i64, y: i64, z: i64) -> u64
    requires { Within spread_most x × (Within spread_most y × Within spread_most z) }
    ensures { result ≡ max (nat_abs x) (max (nat_abs y) (nat_abs z)) }
{
    larger(size(x), larger(size(y), size(z)))
}

// The same of the three axes' steps: one of the four ways.
fn way(u: i64, v: i64, x: Moment, y: Moment, z: Moment) -> u64
    requires { Within 1 u × (Within 1 v × (SmallMoment change_most x × (SmallMoment change_most y × SmallMoment change_most z))) }
    ensures { result ≡ way_of u v x y z }
{
    let a = step(u, v, x);
    let b = step(u, v, y);
    let c = step(u, v, z);
    largest(a, b, c)
}

pub fn spread_t(p: Pair) -> u64
    requires { Ranged p }
    ensures { result ≡ spread (asked p) Parameter.InT }
{
    let x = change(p.x);
    let y = change(p.y);
    let z = change(p.z);
    let low = larger(way(0, 0, x, y, z), way(0, 1, x, y, z));
    let high = larger(way(1, 0, x, y, z), way(1, 1, x, y, z));
    larger(low, high)
}

// Along u the change of F is B, and along v it is C, at the start or at the end.
pub fn spread_u(p: Pair) -> u64
    requires { Ranged p }
    ensures { result ≡ spread (asked p) Parameter.InU }
{
    let x = p.x;
    let y = p.y;
    let z = p.z;
    let start = largest(x.b0, y.b0, z.b0);
    let end = largest(x.b1, y.b1, z.b1);
    larger(start, end)
}

pub fn spread_v(p: Pair) -> u64
    requires { Ranged p }
    ensures { result ≡ spread (asked p) Parameter.InV }
{
    let x = p.x;
    let y = p.y;
    let z = p.z;
    let start = largest(x.c0, y.c0, z.c0);
    let end = largest(x.c1, y.c1, z.c1);
    larger(start, end)
}

// A spread at a depth, and one more; 0 at the depth limit, which takes no part.
pub fn weight(deepest: u64, spread: u64, k: u64) -> u64
    requires { (spread ≤ spread_most) × (k ≤ 20) }
    ensures { result ≡ cond (eqb k deepest) 0 (1 + spread * side k) }
{
    if k == deepest {
        0
    } else {
        1 + (spread << (20 - k))
    }
}

// The parameter of the largest weight; ties go to t, then u.
#[tactic(auto, unfolding(rules::specs::Search::winner))]
pub fn winner(t: u64, u: u64, v: u64) -> Parameter
    ensures { result ≡ winner t u v }
{
    if u <= t {
        if v <= t {
            Parameter::InT
        } else {
            Parameter::InV
        }
    } else if v <= u {
        Parameter::InU
    } else {
        Parameter::InV
    }
}
