// One query of a triangle pair: its four points at the start and at the end, out of the lent positions.
ghost use Rattle.std.specs.Prelude.{◌≡◌, ◌+◌, ◌*◌, ◌≤◌, ◌<◌, length};
ghost use Rattle.rules.specs.Bodies.{face, edges};
ghost use Rattle.triangles.specs.Members.{ask_at};
ghost use Rattle.bodies.specs.Asking.{point_at, corner_at, four_at, points_of, after, There, Corners, QueryIs};

use bounds::Body;
use rules::{Ask, Record, Terms};

#[derive(Clone, Copy)]
pub struct Point {
    pub x: i32,
    pub y: i32,
    pub z: i32,
}

// A query's four points at one moment.
#[derive(Clone, Copy)]
pub struct Four {
    pub p: Point,
    pub q: Point,
    pub r: Point,
    pub s: Point,
}

fn face(p: usize, v1: usize, v2: usize, v3: usize) -> Ask
    ensures { result ≡ face p v1 v2 v3 }
{
    Ask {
        kind: 1,
        p,
        q: v1,
        r: v2,
        s: v3,
    }
}

fn edges(p1: usize, p2: usize, p3: usize, p4: usize) -> Ask
    ensures { result ≡ edges p1 p2 p3 p4 }
{
    Ask {
        kind: 2,
        p: p1,
        q: p2,
        r: p3,
        s: p4,
    }
}

// The corner that an edge ends at, by the one it starts at: edges 12, 23, 31.
fn after(n: usize) -> usize
    requires { n < 3 }
    ensures value { result ≡ after n }
    ensures upper_bound { result < 3 }
{
    if n == 2 { 0 } else { n + 1 }
}

// The fifteen, counted from 0 here: corners 0, 1, 2 are A's and 3, 4, 5 are B's.
fn ask_at(k: usize) -> Ask
    requires { k < 15 }
    ensures value { result ≡ ask_at k }
    ensures corners { Corners result }
{
    if k < 3 {
        return face(k, 3, 4, 5);
    }
    if k < 6 {
        return face(k, 0, 1, 2);
    }
    let e = (k - 6) / 3;
    let f = (k - 6) % 3;
    edges(e, after(e), 3 + f, 3 + after(f))
}

fn point_at(s: &[i32], at: usize) -> Point
    requires { at + 3 ≤ length s.now }
    ensures { result ≡ point_at s.now at }
{
    Point {
        x: s[at],
        y: s[at + 1],
        z: s[at + 2],
    }
}

// A corner of triangle i of A, or of triangle j of B, at the moment of the positions a and b.
fn corner_at(a: &[i32], b: &[i32], i: usize, j: usize, n: usize) -> Point
    requires { There a.now b.now i j × (n < 6) }
    ensures { result ≡ corner_at a.now b.now i j n }
{
    if n < 3 {
        return point_at(a, 9 * i + 3 * n);
    }
    point_at(b, 9 * j + 3 * (n - 3))
}

fn four_at(a: &[i32], b: &[i32], i: usize, j: usize, k: Ask) -> Four
    requires { There a.now b.now i j × Corners k }
    ensures { result ≡ four_at a.now b.now i j k }
{
    Four {
        p: corner_at(a, b, i, j, k.p),
        q: corner_at(a, b, i, j, k.q),
        r: corner_at(a, b, i, j, k.r),
        s: corner_at(a, b, i, j, k.s),
    }
}

fn points_of(f: Four, g: Four) -> [i32; 24]
    ensures { result ≡ points_of f g }
{
    let Four { p, q, r, s } = f;
    let Four {
        p: p1,
        q: q1,
        r: r1,
        s: s1,
    } = g;
    [
        p.x, p.y, p.z, q.x, q.y, q.z, r.x, r.y, r.z, s.x, s.y, s.z, p1.x, p1.y, p1.z, q1.x, q1.y,
        q1.z, r1.x, r1.y, r1.z, s1.x, s1.y, s1.z,
    ]
}

// A query of the pair i, j as the search takes it.
fn query_of(w: Terms, a: Body, b: Body, i: usize, j: usize, k: Ask) -> Record
    requires { There a.start.now b.start.now i j × There a.end.now b.end.now i j × Corners k }
    ensures { QueryIs w a.entry b.entry i j k result }
{
    let start = four_at(a.start, b.start, i, j, k);
    let end = four_at(a.end, b.end, i, j, k);
    let points = points_of(start, end);
    Record {
        kind: k.kind,
        flags: 0,
        byte2: 0,
        byte3: 0,
        id: 0,
        dx: w.dx,
        dy: w.dy,
        dz: w.dz,
        tolerance: w.tolerance,
        budget: w.budget,
        cap: 0,
        edition: w.edition,
        points,
    }
}

// Query k of the pair i, j, counted from 0 here.
pub fn query_at(w: Terms, a: Body, b: Body, i: usize, j: usize, k: usize) -> Record
    requires { There a.start.now b.start.now i j × There a.end.now b.end.now i j × (k < 15) }
    ensures { QueryIs w a.entry b.entry i j (ask_at k) result }
{
    query_of(w, a, b, i, j, ask_at(k))
}
