// A box as its ends in parts: 2 to the depth limit of them are the whole.
ghost use Rattle.std.specs.Prelude.{◌≡◌, ◌≤◌, ◌^◌};
ghost use Rattle.kernel.specs.Ranges.{Shallow, InGrid};
ghost use Rattle.gap.specs.Corners.{low_in};
ghost use Rattle.gap.specs.Steps.{Placed};

use rules::Three;

// A cell's ends, and the parts that they count.
#[derive(Clone, Copy)]
pub struct Cell {
    pub parts: u64,
    pub t0: u64,
    pub t1: u64,
    pub u0: u64,
    pub u1: u64,
    pub v0: u64,
    pub v1: u64,
}

// The low end of the cell at an index, which is the high end of the one before it.
pub fn low(deepest: u64, k: u64, i: u64) -> u64
    requires { (deepest ≤ 20) × ((k ≤ deepest) × (i ≤ 2 ^ k)) }
    ensures { result ≡ low_in deepest k i }
{
    i << (deepest - k)
}

pub fn cell_of(deepest: u64, k: Three, i: Three) -> Cell
    requires { (deepest ≤ 20) × (Shallow deepest k × InGrid k i) }
    ensures { Placed deepest k i result }
{
    let parts = low(deepest, 0, 1);
    let t0 = low(deepest, k.t, i.t);
    let t1 = low(deepest, k.t, i.t + 1);
    let u0 = low(deepest, k.u, i.u);
    let u1 = low(deepest, k.u, i.u + 1);
    let v0 = low(deepest, k.v, i.v);
    let v1 = low(deepest, k.v, i.v + 1);
    Cell {
        parts,
        t0,
        t1,
        u0,
        u1,
        v0,
        v1,
    }
}
