// A stored box as one word: t index in bits 40 to 59, u in bits 20 to 39, v in bits 0 to 19.
#![tactic(auto)]

ghost use Rattle.std.specs.Prelude.{◌≡◌, ◌^◌, ◌<◌, ◌≤◌};
ghost use Rattle.rules.specs.Search.{stored};
ghost use Rattle.boxes.specs.Boxes.{box_of, Fits, half_of, index_bits, index_one, half_by};

use rules::{Parameter, Three};

// The word of a box.
pub fn pack(b: Three) -> u64
    requires { Fits b }
    ensures { result ≡ stored b }
{
    b.t << 40 | b.u << 20 | b.v
}

// The box of a word.
pub fn unpack(w: u64) -> Three
    ensures { result ≡ box_of w }
{
    Three {
        t: (w >> 40) & 0xFFFFF,
        u: (w >> 20) & 0xFFFFF,
        v: w & 0xFFFFF,
    }
}

// The bits of a word that hold the index of a parameter.
pub fn index_bits(p: Parameter) -> u64
    ensures { result ≡ index_bits p }
{
    match p {
        Parameter::InT => 0xFFFFF0000000000,
        Parameter::InU => 0xFFFFF00000,
        Parameter::InV => 0xFFFFF,
    }
}

// One in that index.
pub fn index_one(p: Parameter) -> u64
    ensures { result ≡ index_one p }
{
    match p {
        Parameter::InT => 0x10000000000,
        Parameter::InU => 0x100000,
        Parameter::InV => 1,
    }
}

// The word of a half by the bits of the index and one in it: the index twice in its own bits, and one more for the high half.
pub fn half_by(bits: u64, one: u64, high: bool, w: u64) -> u64
    requires { (w < 2 ^ 60) × (one ≤ 2 ^ 40) }
    ensures { result ≡ half_by bits one high w }
{
    let low = w + (w & bits);
    if high { low + one } else { low }
}

// The word of a half by the parameter that is split.
#[tactic(auto, using(crate::specs::Words::half_by_lem))]
pub fn half(p: Parameter, high: bool, w: u64) -> u64
    requires { w < 2 ^ 60 }
    ensures { result ≡ stored (half_of p high (box_of w)) }
{
    half_by(index_bits(p), index_one(p), high, w)
}
