// The box's questions at the extremes of document 01's numbers. A line: whether the box survives; the low corner's t, u, v and excess;
// whether it is near; the parameter to split in (0, 1, 2 for t, u, v); whether the box is inside the face.
#![tactic(auto)]

ghost use Rattle.std.specs.Prelude.{◌≡◌, ◌≤◌};
ghost use Rattle.kernel.specs.Ranges.{Ranged, Shallow, InGrid};

use gap::slab::{slab_at, survives_in};
use gap::{corner, in_face, near, prepare, split};
use kernel::Pair;
use refusals::check_search;
use rules::{Corner, Parameter, Record, Three};
use std::io;

// The largest coordinate of editions 1 and 2, and of edition 3.
const L: i32 = 1048576;

const M: i32 = 2097152;

// The whole domain: depths 0 and indices 0.
const CUBE: Three = Three { t: 0, u: 0, v: 0 };

fn query(
    edition: u8,
    kind: u8,
    flags: u8,
    separation: u32,
    tolerance: u32,
    points: [i32; 24],
) -> Record {
    Record {
        kind,
        flags,
        byte2: 0,
        byte3: 0,
        id: 0,
        dx: separation,
        dy: separation,
        dz: separation,
        tolerance,
        budget: 1,
        cap: 0,
        edition,
        points,
    }
}

// The axis that starts at `at`: the first two points at a and the last two at b, and at c and d at the end.
fn column(mut points: [i32; 24], at: usize, a: i32, b: i32, c: i32, d: i32) -> [i32; 24]
    requires { at ≤ 2 }
{
    points[at] = a;
    points[at + 3] = a;
    points[at + 6] = b;
    points[at + 9] = b;
    points[at + 12] = c;
    points[at + 15] = c;
    points[at + 18] = d;
    points[at + 21] = d;
    points
}

// z of the first point at the start and at the end.
fn falling(mut points: [i32; 24], from: i32, to: i32) -> [i32; 24] {
    points[2] = from;
    points[14] = to;
    points
}

// What the questions of a box come to.
#[derive(Clone, Copy)]
pub struct Answers {
    pub survives: bool,
    pub corner: Corner,
    pub near: bool,
    pub split: Parameter,
    pub inside: bool,
}

fn ask(p: Pair, k: Three, i: Three) -> Answers
    requires { Ranged p × (Shallow p.deepest k × InGrid k i) }
{
    let corner = corner(p, k, i);
    Answers {
        survives: survives_in(p, k, slab_at(p, k, i.t), i),
        corner,
        near: near(p, k, i, corner.excess),
        split: split(p, k),
        inside: in_face(p, k, i),
    }
}

fn tell(rt: &impl Print, a: Answers) -> io::Result<()> {
    let Corner { t, u, v, excess } = a.corner;
    print!(rt; "{} {t} {u} {v} {excess} ", u8::from(a.survives))?;
    print!(rt;
        "{} {} {}",
        u8::from(a.near),
        a.split as u8,
        u8::from(a.inside)
    )
}

// A level's depths, or a box's indices.
fn at(t: u64, u: u64, v: u64) -> Three
    ensures { result ≡ record { t = t; u = u; v = v } }
{
    Three { t, u, v }
}

// One line: the box at depths k and indices i, where `deepest` is the depth limit of the record's edition.
fn show(rt: &impl Print, r: Record, deepest: u64, k: Three, i: Three) -> io::Result<()>
    requires { Shallow deepest k × InGrid k i }
{
    if check_search(r, 2).is_ok() {
        let p = prepare(r, 2);
        if p.deepest == deepest {
            tell(rt, ask(p, k, i))?;
        }
    }
    println!(rt)
}

// p = v1 = l and v2 = v3 = m on x and y, exchanged at the end; m is -l: F is 2l(u + v)(1 - 2t), from 4l to -4l at u = v = 1. On z F is
// 1 - 2t. Spreads are 8l, 2l, 2l.
fn crossing(edition: u8, l: i32, m: i32) -> Record {
    let x = column([0; 24], 0, l, m, m, l);
    let xy = column(x, 1, l, m, m, l);
    query(edition, 1, 0, 0, 1048576, falling(xy, 1, -1))
}

// With L the scaled width is 2^63.
fn wide(rt: &impl Print) -> io::Result<()> {
    let r = crossing(1, L, -L);
    // The cube: excess 1 from z, and a width beyond every tolerance.
    show(rt, r, 20, CUBE, CUBE)?;
    // t to 1/2: z comes down to 0 and touches. From 1/2: F is 0 at the low corner.
    show(rt, r, 20, at(1, 0, 0), CUBE)?;
    show(rt, r, 20, at(1, 0, 0), at(1, 0, 0))?;
    // t from 1/4: z is 1/2, rounded up; the width is 2L; 8L/4 ties with 2L, and t wins.
    show(rt, r, 20, at(2, 0, 0), at(1, 0, 0))?;
    // t from 3/8: the width is L, which is the tolerance; 8L/8 loses to 2L, and u wins over v.
    show(rt, r, 20, at(3, 0, 0), at(3, 0, 0))?;
    // The last part of t, at depth 20 everywhere: z is below 0, and its size under 1 is rounded up.
    show(rt, r, 20, at(20, 20, 20), at(1048575, 0, 0))?;
    // The last parts of u and v: F is 4L·1048575/1048576, and the box is outside the face.
    show(rt, r, 20, at(0, 20, 20), at(0, 1048575, 1048575))?;
    // u and v from 1/2: on the face's edge, inside; F is 2L.
    show(rt, r, 20, at(0, 1, 1), at(0, 1, 1))
}

// The same in edition 3 with M: what is told is twice as many parts at depth 19, and even.
fn longer(rt: &impl Print) -> io::Result<()> {
    let r = crossing(3, M, -M);
    show(rt, r, 19, CUBE, CUBE)?;
    show(rt, r, 19, at(1, 0, 0), at(1, 0, 0))?;
    // t from 3/8: the width is M, twice the tolerance. From 7/16: it is the tolerance.
    show(rt, r, 19, at(3, 0, 0), at(3, 0, 0))?;
    show(rt, r, 19, at(4, 0, 0), at(7, 0, 0))?;
    // The last part of t, at depth 19 everywhere: no split is left, and t wins the tie.
    show(rt, r, 19, at(19, 19, 19), at(524287, 0, 0))?;
    // t at depth 19 takes no part in the split, and u wins.
    show(rt, r, 19, at(19, 18, 18), at(524287, 0, 0))?;
    // The last parts of u and v: F is 4M·524287/524288.
    show(rt, r, 19, at(0, 19, 19), at(0, 524287, 524287))?;
    show(rt, r, 19, at(0, 1, 1), at(0, 1, 1))
}

// Two edges, y at l and at -l, still: F is 2l, beyond the largest separation by 65,536 less; turned by the flag it is 0.
fn turned(rt: &impl Print) -> io::Result<()> {
    let y = column([0; 24], 1, L, -L, L, -L);
    show(rt, query(1, 2, 0, 65536, 16, y), 20, CUBE, CUBE)?;
    show(rt, query(1, 2, 1, 65536, 16, y), 20, CUBE, CUBE)?;
    let far = column([0; 24], 1, M, -M, M, -M);
    show(rt, query(3, 2, 0, 65536, 64, far), 19, CUBE, CUBE)?;
    show(rt, query(3, 2, 1, 65536, 64, far), 19, CUBE, CUBE)
}

// A vertex from z 1 down over a face at 0: the width is the least tolerance, and 1 more.
fn narrow(rt: &impl Print) -> io::Result<()> {
    for to in [-15, -16] {
        show(
            rt,
            query(1, 1, 0, 0, 16, falling([0; 24], 1, to)),
            20,
            CUBE,
            CUBE,
        )?;
    }
    for to in [-63, -64] {
        show(
            rt,
            query(3, 1, 0, 0, 64, falling([0; 24], 1, to)),
            19,
            CUBE,
            CUBE,
        )?;
    }
    Ok(())
}

fn main(rt: HostRuntime) -> io::Result<()> {
    wide(&rt)?;
    longer(&rt)?;
    turned(&rt)?;
    narrow(&rt)
}
