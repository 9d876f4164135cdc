// Rows 1 to 7 of document 01's table, lowest number first, with 22 between 6 and 7 (document 02, R-7). The search and the query file share them.
#![tactic(auto)]

ghost use Rattle.std.specs.Prelude.{◌≡◌, ◌||◌, eqb, pos};
ghost use Rattle.rules.specs.Numbers.{between, limits_by, limits_of, is_coordinate, is_queue};
ghost use Rattle.rules.specs.QueryFile.{is_edition};
ghost use Rattle.rules.specs.Refusals.{first, refusal_in, every, are_flags, are_separations, cases_with, record_refusal, search_refusal};

use rules::{Record, Refusal};

// Both sides of each `&` and `|` here are always worked out, so that a test is one value and no branch.
fn is_between(low: u32, high: u32, n: u32) -> bool
    ensures { result ≡ between low high n }
{
    (low <= n) & (n <= high)
}

fn is_kind(kind: u8) -> bool
    ensures { result ≡ (eqb kind 1 || eqb kind 2) }
{
    (kind == 1) | (kind == 2)
}

fn are_flags(r: Record) -> bool
    ensures { result ≡ are_flags r }
{
    (r.flags <= 1) & (r.byte2 == 0) & (r.byte3 == 0)
}

fn are_separations(r: Record) -> bool
    ensures { result ≡ are_separations r }
{
    is_between(0, 65536, r.dx) & is_between(0, 65536, r.dy) & is_between(0, 65536, r.dz)
}

pub fn is_edition(edition: u8) -> bool
    ensures { result ≡ is_edition edition }
{
    (edition == 1) | (edition == 2) | (edition == 3)
}

// A range's limit of coordinates.
fn coordinate_limit(longer: bool) -> i32
    ensures { result ≡ pos (limits_by longer).coordinate }
{
    if longer { 2097152 } else { 1048576 }
}

// An edition's depth limit, and its least tolerance.
pub fn depth_limit(edition: u8) -> u64
    ensures { result ≡ (limits_of edition).deepest }
{
    if edition == 3 { 19 } else { 20 }
}

fn least_tolerance(edition: u8) -> u32
    ensures { result ≡ (limits_of edition).tolerance }
{
    if edition == 3 { 64 } else { 16 }
}

// The coordinate is not negated: the least i32 has no negative.
fn is_coordinate(longer: bool, c: i32) -> bool
    ensures { result ≡ is_coordinate (limits_by longer) c }
{
    let limit = coordinate_limit(longer);
    (-limit <= c) & (c <= limit)
}

fn are_within(longer: bool, s: &[i32]) -> bool
    ensures { result ≡ every (is_coordinate (limits_by longer)) s.now }
{
    let mut all = true;
    for c in s {
        all &= is_coordinate(longer, *c);
    }
    all
}

// A loop for each range, so that it tests against numbers that the compiler knows.
pub fn are_coordinates(edition: u8, s: &[i32]) -> bool
    ensures { result ≡ every (is_coordinate (limits_of edition)) s.now }
{
    if edition == 3 {
        are_within(true, s)
    } else {
        are_within(false, s)
    }
}

fn is_queue(words: usize) -> bool
    ensures { result ≡ is_queue words }
{
    (2 <= words) & (words <= 1048576)
}

// The first of 1 to 6 and 22 that is due. `right`: every coordinate is one, which who reads them has tested. 4 also where there is no room for the separations,
// 22 also where there is none for the cap.
fn check_by(room: bool, holds: bool, r: Record, right: bool) -> Result<(), Refusal>
    requires { right ≡ every (is_coordinate (limits_of r.edition)) r.points }
    ensures { refusal_in result ≡ first (cases_with room holds r) }
{
    if !is_kind(r.kind) {
        return Err(Refusal::Kind);
    }
    if !are_flags(r) {
        return Err(Refusal::Flags);
    }
    if !right {
        return Err(Refusal::Coord);
    }
    if !(room & are_separations(r)) {
        return Err(Refusal::Separation);
    }
    if !is_between(least_tolerance(r.edition), 1048576, r.tolerance) {
        return Err(Refusal::Tolerance);
    }
    if !is_between(1, 1000000, r.budget) {
        return Err(Refusal::Budget);
    }
    if !(holds & is_between(0, 1048576, r.cap)) {
        return Err(Refusal::Cap);
    }
    Ok(())
}

pub fn check_with(room: bool, holds: bool, r: Record) -> Result<(), Refusal>
    ensures { refusal_in result ≡ first (cases_with room holds r) }
{
    check_by(room, holds, r, are_coordinates(r.edition, &r.points))
}

// Whether a record by itself is refused, 1 to 6 and 22.
pub fn check_record(r: Record) -> Result<(), Refusal>
    ensures { refusal_in result ≡ record_refusal r }
{
    check_with(true, true, r)
}

// Whether a search of it with so many queue words is refused, 1 to 6, 22 and 7. Its coordinates are tested already.
pub fn check_search_by(r: Record, right: bool, words: usize) -> Result<(), Refusal>
    requires { right ≡ every (is_coordinate (limits_of r.edition)) r.points }
    ensures { refusal_in result ≡ search_refusal r words }
{
    check_by(true, true, r, right)?;
    if is_queue(words) {
        Ok(())
    } else {
        Err(Refusal::Queue)
    }
}

pub fn check_search(r: Record, words: usize) -> Result<(), Refusal>
    ensures { refusal_in result ≡ search_refusal r words }
{
    check_search_by(r, are_coordinates(r.edition, &r.points), words)
}
