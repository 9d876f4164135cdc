// The pieces of a line: bytes, numbers in decimal, names. Each is written from `at` on and answers the place behind it.
ghost use Rattle.std.specs.Prelude.{◌≡◌, ◌+◌, ◌≤◌, length, [], ◌∷◌};
ghost use Rattle.text.specs.Text.{decimal, field, kind_of, named};
ghost use Rattle.text.specs.Writers.{Wrote};

// One byte at `at`, and the place behind it.
pub fn write_byte(out: &mut [u8], at: usize, b: u8) -> usize
    requires { at + 1 ≤ length out.old }
    ensures { Wrote 1 out.old at (b ∷ []) out.new result }
{
    out[at] = b;
    at + 1
}

// A number in decimal from `at` on, and the place behind it.
pub fn write_digits(out: &mut [u8], at: usize, n: u32) -> usize
    requires { at + length (decimal n) ≤ length out.old }
    ensures { Wrote (length (decimal n)) out.old at (decimal n) out.new result }
{
    if n < 10 {
        return write_byte(out, at, b'0' + (n as u8));
    }
    let last = write_digits(out, at, n / 10);
    write_byte(out, last, b'0' + ((n % 10) as u8))
}

// The same with room for the longest number.
#[tactic(auto, using(crate::proofs::Digits::decimal_most, crate::proofs::Writing::roomier))]
pub fn write_number(out: &mut [u8], at: usize, n: u32) -> usize
    requires { at + 10 ≤ length out.old }
    ensures { Wrote 10 out.old at (decimal n) out.new result }
{
    write_digits(out, at, n)
}

// A space and a number.
pub fn write_field(out: &mut [u8], at: usize, n: u32) -> usize
    requires { at + 11 ≤ length out.old }
    ensures { Wrote 11 out.old at (field n) out.new result }
{
    let digits = write_byte(out, at, b' ');
    write_number(out, digits, n)
}

// All of `text`.
pub fn write_text(out: &mut [u8], at: usize, text: &[u8]) -> usize
    requires { at + length text.now ≤ length out.old }
    ensures { Wrote (length text.now) out.old at text.now out.new result }
{
    let end = at + text.len();
    out[at..end].copy_from_slice(text);
    end
}

// The word that a number stands for; any above 5 stands for a refusal.
#[tactic(auto, unfolding(crate::specs::Text::kind_of))]
pub fn kind(word: u32) -> u32
    ensures { result ≡ kind_of word }
{
    if word <= 5 { word } else { 0 }
}

// A space and the name of a word.
pub fn write_name(out: &mut [u8], at: usize, word: u32) -> usize
    requires { at + 8 ≤ length out.old }
    ensures { Wrote 8 out.old at (named word) out.new result }
{
    match word {
        1 => write_text(out, at, b" MET"),
        2 => write_text(out, at, b" CLEAR"),
        3 => write_text(out, at, b" SPENT"),
        4 => write_text(out, at, b" ROOM"),
        5 => write_text(out, at, b" FLOOR"),
        _ => write_text(out, at, b" REFUSED"),
    }
}
