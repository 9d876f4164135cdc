// A record of any edition, read and written at a place.
ghost use Rattle.std.specs.Prelude.{◌≡◌, true, false, cond, ◌+◌, ◌*◌, ◌≤◌, ◌<◌, length};
ghost use Rattle.queries.specs.Coordinates.{points_place};
ghost use Rattle.rules.specs.QueryFile.{word, size_by, coordinates_at, coordinate_bytes, is_wide, record_size, record_by, record_at, bytes_by, record_bytes, put};

use little::{read_i32, read_u32, write_i32, write_u32, write4};
use rules::Record;

// Whether an edition's record has a separation an axis.
pub fn is_wide(edition: u8) -> bool
    ensures { result ≡ is_wide edition }
{
    (edition == 2) | (edition == 3)
}

// The bytes that an edition's record takes.
pub fn record_size(edition: u8) -> u8
    ensures { result ≡ record_size edition }
{
    if is_wide(edition) { 128 } else { 116 }
}

// Where record n of a file stands, behind the first.
pub fn place_of(edition: u8, first: usize, n: usize) -> usize
    requires { first + record_size edition * n < 18446744073709551616 }
    ensures { result ≡ first + record_size edition * n }
{
    first + (record_size(edition) as usize) * n
}

fn read_points(s: &[u8], at: usize) -> [i32; 24]
    requires { at + 96 ≤ length s.now }
    ensures { result ≡ coordinates_at s.now at 24 }
{
    let mut p = [0i32; 24];
    for i in 0..24 {
        p[i] = read_i32(s, at + 4 * i);
    }
    p
}

fn write_points(s: &mut [u8], at: usize, p: [i32; 24])
    requires { at + 96 ≤ length s.old }
    ensures { s.new ≡ put s.old at (coordinate_bytes p) }
{
    for i in 0..24 {
        write_i32(s, at + 4 * i, p[i]);
    }
}

// Where the points of a record at `at` stand: they end it.
pub fn points_place(edition: u8, at: usize) -> usize
    requires { at + 32 < 18446744073709551616 }
    ensures { result ≡ points_place edition at }
{
    if is_wide(edition) { at + 32 } else { at + 20 }
}

// Where a part of a record stands behind its start.
fn place(wide: bool, in_wide: usize, in_narrow: usize) -> usize
    ensures { result ≡ cond wide in_wide in_narrow }
{
    if wide { in_wide } else { in_narrow }
}

// The cap, which only a wide record has.
fn cap_by(wide: bool, s: &[u8], at: usize) -> u32
    requires { at + size_by wide ≤ length s.now }
    ensures { result ≡ cond wide (word s.now (at + 28)) 0 }
{
    if wide { read_u32(s, at + 28) } else { 0 }
}

// The record of edition 2 or 3 where it is WIDE, else of edition 1, which has one separation for all axes.
fn decode_by<const WIDE: bool>(s: &[u8], at: usize, edition: u8, points: [i32; 24]) -> Record
    requires { (at + size_by WIDE ≤ length s.now) × (points ≡ coordinates_at s.now (at + cond WIDE 32 20) 24) }
    ensures { result ≡ record_by WIDE edition s.now at }
{
    Record {
        kind: s[at],
        flags: s[at + 1],
        byte2: s[at + 2],
        byte3: s[at + 3],
        id: read_u32(s, at + 4),
        dx: read_u32(s, at + 8),
        dy: read_u32(s, at + place(WIDE, 12, 8)),
        dz: read_u32(s, at + place(WIDE, 16, 8)),
        tolerance: read_u32(s, at + place(WIDE, 20, 12)),
        budget: read_u32(s, at + place(WIDE, 24, 16)),
        cap: cap_by(WIDE, s, at),
        edition,
        points,
    }
}

// The points are read before the edition is asked, so that what asks for a part of a record keeps no copy of it.
pub fn decode(s: &[u8], at: usize, edition: u8) -> Record
    requires { at + record_size edition ≤ length s.now }
    ensures { result ≡ record_at edition s.now at }
{
    let points = read_points(s, points_place(edition, at));
    if is_wide(edition) {
        decode_by::<true>(s, at, edition, points)
    } else {
        decode_by::<false>(s, at, edition, points)
    }
}

fn encode_narrow(s: &mut [u8], at: usize, r: Record)
    requires { at + 116 ≤ length s.old }
    ensures { s.new ≡ put s.old at (bytes_by false r) }
{
    write4(s, at, [r.kind, r.flags, r.byte2, r.byte3]);
    write_u32(s, at + 4, r.id);
    write_u32(s, at + 8, r.dx);
    write_u32(s, at + 12, r.tolerance);
    write_u32(s, at + 16, r.budget);
    write_points(s, at + 20, r.points);
}

fn encode_wide(s: &mut [u8], at: usize, r: Record)
    requires { at + 128 ≤ length s.old }
    ensures { s.new ≡ put s.old at (bytes_by true r) }
{
    write4(s, at, [r.kind, r.flags, r.byte2, r.byte3]);
    write_u32(s, at + 4, r.id);
    write_u32(s, at + 8, r.dx);
    write_u32(s, at + 12, r.dy);
    write_u32(s, at + 16, r.dz);
    write_u32(s, at + 20, r.tolerance);
    write_u32(s, at + 24, r.budget);
    write_u32(s, at + 28, r.cap);
    write_points(s, at + 32, r.points);
}

pub fn encode(s: &mut [u8], at: usize, edition: u8, r: Record)
    requires { at + record_size edition ≤ length s.old }
    ensures { s.new ≡ put s.old at (record_bytes edition r) }
{
    if is_wide(edition) {
        encode_wide(s, at, r);
    } else {
        encode_narrow(s, at, r);
    }
}
