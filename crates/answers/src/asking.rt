// A record asked where it stands in a file: what is refused, and what is apart over the whole cube, is never read as a whole.
ghost use Rattle.std.specs.Prelude.{◌≡◌, ◌+◌, ◌≤◌, length};
ghost use Rattle.rules.specs.Answers.{queue_after};
ghost use Rattle.rules.specs.QueryFile.{record_size, record_at};
ghost use Rattle.rules.specs.Refusals.{refusal_in, search_refusal};
ghost use Rattle.rules.specs.Search.{query, origin, survives, search};
ghost use Rattle.answers.specs.Asking.{four_in, InBytes, AllInBytes, meets_in, meets_all, Asks};

use gap::points::Four;
use little::read_i32;
use queries::record::{decode, points_place};
use refusals::{are_coordinates, check_search_by};
use rules::{Answer, Refusal};
use search::{clear_unless, search_levels};

// One coordinate of the four points at the start or at the end; that of the first point stands at `at`.
fn four_in(s: &[u8], at: usize) -> Four
    requires { at + 40 ≤ length s.now }
    ensures { result ≡ four_in s.now at }
{
    Four {
        p0: read_i32(s, at),
        p1: read_i32(s, at + 12),
        p2: read_i32(s, at + 24),
        p3: read_i32(s, at + 36),
    }
}

// Whether F comes within d of 0 on one axis over the whole cube.
fn meets_in(s: &[u8], at: usize, turned: bool, face: bool, d: u32) -> bool
    requires { InBytes s.now at d }
    ensures { result ≡ meets_in s.now at turned face d }
{
    gap::meets_axis(four_in(s, at), four_in(s, at + 48), turned, face, d)
}

// z first, then x, then y, and the first axis that misses ends it; the points stand at `at`.
fn meets_all(s: &[u8], at: usize, flagged: bool, face: bool, dx: u32, dy: u32, dz: u32) -> bool
    requires { AllInBytes s.now at dx dy dz }
    ensures { result ≡ meets_all s.now at flagged face dx dy dz }
{
    meets_in(s, at + 8, false, face, dz)
        && meets_in(s, at, false, face, dx)
        && meets_in(s, at + 4, flagged, face, dy)
}

// Whether the whole cube of a record that is not refused survives.
fn survives_at(s: &[u8], at: usize, edition: u8, words: usize) -> bool
    requires { (at + record_size edition ≤ length s.now) × (search_refusal (record_at edition s.now at) words ≡ 0) }
    ensures { result ≡ survives (query (record_at edition s.now at) words) origin origin }
{
    let p = points_place(edition, at);
    let r = decode(s, at, edition);
    meets_all(s, p, r.flags % 2 == 1, r.kind == 1, r.dx, r.dy, r.dz)
}

fn check_at(s: &[u8], at: usize, edition: u8, words: usize) -> Result<(), Refusal>
    requires { at + record_size edition ≤ length s.now }
    ensures { refusal_in result ≡ search_refusal (record_at edition s.now at) words }
{
    let r = decode(s, at, edition);
    let points = r.points;
    check_search_by(r, are_coordinates(r.edition, &points), words)
}

pub fn id_at(s: &[u8], at: usize, edition: u8) -> u32
    requires { at + record_size edition ≤ length s.now }
    ensures { result ≡ (record_at edition s.now at).id }
{
    decode(s, at, edition).id
}

// The search of a record in a queue that may be `clean`: one who asks again and again clears it once. The record is read as a whole only for the levels.
pub fn search_at(s: &[u8], edition: u8, at: usize, queue: &mut [u64], clean: bool) -> Answer
    requires { Asks edition s.now at queue.old clean }
    ensures value { result ≡ search (record_at edition s.now at) (length queue.old) }
    ensures queue_after { queue.new ≡ queue_after (search (record_at edition s.now at) (length queue.old)) queue.old }
{
    if let Err(refusal) = check_at(s, at, edition, queue.len()) {
        return Answer::Refused(refusal.number());
    }
    clear_unless(queue, clean);
    if survives_at(s, at, edition, queue.len()) {
        let r = decode(s, at, edition);
        return search_levels(r, queue);
    }
    Answer::Clear(1)
}
