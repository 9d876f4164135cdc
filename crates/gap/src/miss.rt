// The side on which F is beyond the separation over all of a cell, on one axis.
ghost use Rattle.std.specs.Prelude.{◌≡◌, ◌≤◌};
ghost use Rattle.whole.specs.Within.{Within};
ghost use Rattle.kernel.specs.Ranges.{Small};
ghost use Rattle.gap.specs.Miss.{side_of, miss_in};
ghost use Rattle.gap.specs.Steps.{InParts, term_most};

use super::cell::Cell;
use super::measure::units;
use super::span::{Span, over_corners};
use kernel::Kernel;
use rules::{Axis, Miss, Side};

fn side_of(s: Span, limit: i64, axis: Axis) -> Option<Miss>
    requires { Within term_most limit }
    ensures { result ≡ side_of s limit axis }
{
    if limit < s.least {
        Some(Miss {
            axis,
            side: Side::Above,
        })
    } else if s.greatest < -limit {
        Some(Miss {
            axis,
            side: Side::Below,
        })
    } else {
        None
    }
}

pub fn miss_on(k: Kernel, w: Cell, d: u64, axis: Axis) -> Option<Miss>
    requires { Small w.parts k × (InParts w × (d ≤ 65536)) }
    ensures { result ≡ miss_in k w d axis }
{
    let s = over_corners(k, w);
    side_of(s, units(w, d), axis)
}
