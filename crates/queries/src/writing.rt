// Records and trailers written: a refused write changes no byte.
ghost use Rattle.std.specs.Prelude.{◌≡◌, ◌+◌, ◌-◌, ◌*◌, ◌≤◌, length, get_or};
ghost use Rattle.rules.specs.QueryFile.{record_bytes, trailer_bytes, query_form, edition_of, file_form, put, opened, fetched, no_record, has_room, has_cap_room, in_edition, write_refusal, trailer_refusal, query_trailer_refusal, Written};

use super::record::{encode, record_size};
use super::{MOST, left_from, query_form, times};
use little::{write_u32, write4};
use refusals::{check_with, is_edition};
use rules::{Form, Record, Refusal};

// The bytes of a trailer.
const TRAILER: usize = 16;

// Whether a record of the edition has room for the separations: edition 1 holds one.
fn has_room(edition: u8, r: Record) -> bool
    ensures { result ≡ has_room edition r }
{
    (edition != 1) | (r.dx == r.dy) & (r.dx == r.dz)
}

// Whether a record of the edition has room for the cap: edition 1 holds none.
fn has_cap_room(edition: u8, r: Record) -> bool
    ensures { result ≡ has_cap_room edition r }
{
    (edition != 1) | (r.cap == 0)
}

// The record as one of the edition.
fn in_edition(edition: u8, r: Record) -> Record
    ensures { result ≡ in_edition edition r }
{
    Record { edition, ..r }
}

// The 116 or 128 bytes of an edition's record, from `at` on.
pub fn write_record(s: &mut [u8], at: usize, edition: u8, r: Record) -> Result<(), Refusal>
    ensures { Written (write_refusal edition s.old at r) s.old at (record_bytes edition r) s.new result }
{
    let q = in_edition(edition, r);
    check_with(has_room(edition, r), has_cap_room(edition, r), q)?;
    if !is_edition(q.edition) {
        return Err(Refusal::Edition);
    }
    let size = record_size(edition) as usize;
    if left_from(s.len(), at) < size {
        return Err(Refusal::Space);
    }
    encode(s, at, edition, r);
    Ok(())
}

pub fn encode_trailer(s: &mut [u8], at: usize, form: Form, count: u32)
    requires { (at + 16 ≤ length s.old) × (count ≤ 4096) }
    ensures { s.new ≡ put s.old at (trailer_bytes form count) }
{
    write4(s, at, form.mark);
    write4(s, at + 4, [form.edition, 0, 0, 0]);
    write_u32(s, at + 8, times(form.size, count) as u32);
    write_u32(s, at + 12, count);
}

// The 16 bytes of a trailer of this form, from `at` on, behind so many records.
pub fn write_trailer_form(s: &mut [u8], at: usize, form: Form, count: u32) -> Result<(), Refusal>
    ensures { Written (trailer_refusal form s.old at count) s.old at (trailer_bytes form count) s.new result }
{
    if count > MOST {
        return Err(Refusal::Count);
    }
    if at < times(form.size, count) {
        return Err(Refusal::Back);
    }
    if left_from(s.len(), at) < TRAILER {
        return Err(Refusal::Space);
    }
    encode_trailer(s, at, form, count);
    Ok(())
}

// The same of a query file of the edition.
pub fn write_trailer(s: &mut [u8], at: usize, edition: u8, count: u32) -> Result<(), Refusal>
    ensures { Written (query_trailer_refusal edition s.old at count) s.old at (trailer_bytes (query_form edition) count) s.new result }
{
    if !is_edition(edition) {
        return Err(Refusal::Edition);
    }
    write_trailer_form(s, at, query_form(edition), count)
}
