// F in one form for both kinds of pair: on each axis A + u·B + v·C, where A, B and C each go straight from start to end.
#![tactic(auto)]

// The six whole numbers of an axis: A, B, C at the start and at the end.
#[derive(Clone, Copy)]
pub struct Kernel {
    pub a0: i64,
    pub b0: i64,
    pub c0: i64,
    pub a1: i64,
    pub b1: i64,
    pub c1: i64,
}

// What the search goes by, as the code holds it: a kernel and a separation an axis, and the record's other numbers. `room` is H, `deepest` the depth limit,
// `last` the last moment.
#[derive(Clone, Copy)]
pub struct Pair {
    pub x: Kernel,
    pub y: Kernel,
    pub z: Kernel,
    pub dx: u64,
    pub dy: u64,
    pub dz: u64,
    pub face: bool,
    pub tolerance: u64,
    pub budget: u32,
    pub room: usize,
    pub deepest: u64,
    pub last: u64,
}
