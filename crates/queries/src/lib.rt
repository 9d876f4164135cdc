// The query file, read and written, in every edition.
#![tactic(auto)]

ghost use Rattle.std.specs.Prelude.{◌≡◌, ◌+◌, ◌-◌, ◌*◌, ◌≤◌, length, get_or};
ghost use Rattle.rules.specs.Refusals.{number_of, numbered};
ghost use Rattle.rules.specs.QueryFile.{record_bytes, trailer_bytes, query_form, edition_of, file_form, put, opened, fetched, no_record, has_room, has_cap_room, in_edition, write_refusal, trailer_refusal, query_trailer_refusal, Written};

use little::{read_u32, stands4};
use record::{decode, is_wide, place_of, record_size};
use refusals::check_record;
use rules::{Fetched, Form, Record, Records, Refusal, number_in};

pub mod record; // record.rt: a record of either edition, read and written at a place
pub mod writing; // writing.rt: records and trailers written

// The most records of a file.
const MOST: u32 = 4096;

// ---- opening

// The bytes of so many records: no count of 32 bits makes it wrap.
fn times(size: u8, count: u32) -> usize
    ensures { result ≡ size * count }
{
    (size as usize) * (count as usize)
}

// A file of this form: its trailer, which stands at its end.
pub fn open_form(s: &[u8], form: Form) -> Result<Records, Refusal>
    ensures { numbered result ≡ opened form s.now }
{
    let n = s.len();
    if n < 16 {
        return Err(Refusal::Short);
    }
    let t = n - 16;
    if !stands4(s, t, form.mark) {
        return Err(Refusal::Mark);
    }
    if !stands4(s, t + 4, [form.edition, 0, 0, 0]) {
        return Err(Refusal::Edition);
    }
    let count = read_u32(s, t + 12);
    if MOST < count {
        return Err(Refusal::Count);
    }
    let back = read_u32(s, t + 8) as usize;
    if (back != times(form.size, count)) | (t < back) {
        return Err(Refusal::Back);
    }
    Ok(Records {
        edition: form.edition,
        first: t - back,
        count: count as usize,
    })
}

// The form of a query file of an edition: its mark is `QEND`.
fn query_form(edition: u8) -> Form
    ensures { result ≡ query_form edition }
{
    Form {
        mark: *b"QEND",
        edition,
        size: record_size(edition),
    }
}

// How many of `n` bytes stand from `at` on: none past the end.
pub fn left_from(n: usize, at: usize) -> usize
    ensures { result ≡ n - at }
{
    n.saturating_sub(at)
}

// The byte at a place, 0 past the end.
fn byte_at(s: &[u8], at: usize) -> u8
    ensures { result ≡ get_or s.now at 0 }
{
    s.get(at).copied().unwrap_or(0)
}

// The edition that a file is read by: 2 or 3 where its trailer says so, else 1.
fn edition_of(s: &[u8]) -> u8
    ensures { result ≡ edition_of s.now }
{
    let t = left_from(s.len(), 16);
    let named = byte_at(s, t + 4);
    if is_wide(named) { named } else { 1 }
}

// The form that a query file is read by.
pub fn file_form(s: &[u8]) -> Form
    ensures { result ≡ file_form s.now }
{
    query_form(edition_of(s))
}

pub fn open_file(s: &[u8]) -> Result<Records, Refusal>
    ensures { numbered result ≡ opened (file_form s.now) s.now }
{
    open_form(s, file_form(s))
}

// ---- fetching

fn no_record() -> Record
    ensures { result ≡ no_record }
{
    Record {
        kind: 0,
        flags: 0,
        byte2: 0,
        byte3: 0,
        id: 0,
        dx: 0,
        dy: 0,
        dz: 0,
        tolerance: 0,
        budget: 0,
        cap: 0,
        edition: 1,
        points: [0; 24],
    }
}

fn no_fetch(refusal: Refusal) -> Fetched
    ensures { result ≡ record { refusal = number_of refusal; query = no_record } }
{
    Fetched {
        refusal: refusal.number(),
        query: no_record(),
    }
}

// Record n of a file. Where the record is there, it comes back beside its own refusal.
pub fn fetch(s: &[u8], n: usize) -> Fetched
    ensures { result ≡ fetched s.now n }
{
    match open_file(s) {
        Err(refusal) => no_fetch(refusal),
        Ok(records) => {
            if records.count <= n {
                return no_fetch(Refusal::Index);
            }
            let query = decode(
                s,
                place_of(records.edition, records.first, n),
                records.edition,
            );
            let refusal = number_in(check_record(query));
            Fetched { refusal, query }
        }
    }
}
