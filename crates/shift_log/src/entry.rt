// One answer as the 32 bytes of an answer file's record, and as eight lent numbers.
ghost use Rattle.std.specs.Prelude.{◌≡◌, ◌+◌, ◌≤◌, length};
ghost use Rattle.rules.specs.QueryFile.{put};
ghost use Rattle.rules.specs.AnswerFile.{told_at, answer_form};
ghost use Rattle.shift_log.specs.Calls.{told_in, bytes_of};

use little::{read_u32, write_u32};
use rules::{Form, Told};

// The form of an answer file: its mark is `AEND`.
pub fn answer_form() -> Form
    ensures { result ≡ answer_form }
{
    Form {
        mark: *b"AEND",
        edition: 1,
        size: 32,
    }
}

pub fn decode(s: &[u8], at: usize) -> Told
    requires { at + 32 ≤ length s.now }
    ensures { result ≡ told_at s.now at }
{
    Told {
        word: read_u32(s, at + 4),
        t: read_u32(s, at + 8),
        u: read_u32(s, at + 12),
        v: read_u32(s, at + 16),
        excess: read_u32(s, at + 20),
        count: read_u32(s, at + 24),
        number: read_u32(s, at + 28),
    }
}

// The 32 bytes of an answer, from `at` on.
pub fn encode(s: &mut [u8], at: usize, id: u32, a: Told)
    requires { at + 32 ≤ length s.old }
    ensures { s.new ≡ put s.old at (bytes_of id a) }
{
    write_u32(s, at, id);
    write_u32(s, at + 4, a.word);
    write_u32(s, at + 8, a.t);
    write_u32(s, at + 12, a.u);
    write_u32(s, at + 16, a.v);
    write_u32(s, at + 20, a.excess);
    write_u32(s, at + 24, a.count);
    write_u32(s, at + 28, a.number);
}

// The answer in eight lent numbers.
pub fn told_in(l: &[u32]) -> Told
    requires { 8 ≤ length l.now }
    ensures { result ≡ told_in l.now }
{
    Told {
        word: l[1],
        t: l[2],
        u: l[3],
        v: l[4],
        excess: l[5],
        count: l[6],
        number: l[7],
    }
}
