// The answers of a file that is open, all of them: whether each can be read, and their numbers.
ghost use Rattle.std.specs.Prelude.{◌≡◌, ◌+◌, ◌*◌, ◌≤◌, length, eqb};
ghost use Rattle.rules.specs.QueryFile.{put};
ghost use Rattle.rules.specs.AnswerFile.{told_at, word_refusal};
ghost use Rattle.shift_log.specs.Calls.{are_taken, entries_told};

use super::entry::decode;
use super::word::check_word;
use answers::write_eight;
use little::read_u32;

// Whether reading does not refuse the answer at a place.
fn is_taken(log: &[u8], at: usize) -> bool
    requires { at + 32 ≤ length log.now }
    ensures { result ≡ eqb (word_refusal (told_at log.now at)) 0 }
{
    check_word(decode(log, at)).is_ok()
}

// Whether it refuses none of so many, the first at a place.
pub fn are_taken(log: &[u8], first: usize, count: usize) -> bool
    requires { first + 32 * count ≤ length log.now }
    ensures { result ≡ are_taken log.now first count }
{
    let mut all = true;
    for i in 0..count {
        all &= is_taken(log, first + 32 * i);
    }
    all
}

// Eight numbers each, from the first place on.
pub fn tell_entries(log: &[u8], first: usize, count: usize, out: &mut [u32])
    requires { (first + 32 * count ≤ length log.now) × (8 * count ≤ length out.old) }
    ensures { out.new ≡ put out.old 0 (entries_told log.now first count) }
{
    for i in 0..count {
        let at = first + 32 * i;
        write_eight(out, 8 * i, read_u32(log, at), decode(log, at));
    }
}
