// A pair given in numbers: the record that it is.
ghost use Rattle.std.specs.Prelude.{◌≡◌, true, ◌≤◌, length, take};
ghost use Rattle.queries.specs.Coordinates.{Each};
ghost use Rattle.queries.specs.Held.{Held};
ghost use Rattle.controller.specs.Given.{record_of, range_of};

use rules::Record;

// The edition by whose range a pair is searched.
pub fn range_of(edition: u8) -> u8
    ensures { result ≡ range_of edition }
{
    if edition == 3 { 3 } else { 2 }
}

fn first_24(numbers: &[i32]) -> [i32; 24]
    requires { 24 ≤ length numbers.now }
    ensures value { result ≡ take 24 numbers.now }
    ensures each { Each result }
{
    let mut p = [0; 24];
    for i in 0..24 {
        p[i] = numbers[i];
    }
    p
}

pub fn record_of(
    edition: u8,
    kind: u8,
    flags: u8,
    id: u32,
    dx: u32,
    dy: u32,
    dz: u32,
    tolerance: u32,
    budget: u32,
    cap: u32,
    numbers: &[i32],
) -> Record
    requires { 24 ≤ length numbers.now }
    ensures value { result ≡ record_of edition kind flags id dx dy dz tolerance budget cap numbers.now }
    ensures held { Held true result }
{
    let points = first_24(numbers);
    Record {
        kind,
        flags,
        byte2: 0,
        byte3: 0,
        id,
        dx,
        dy,
        dz,
        tolerance,
        budget,
        cap,
        edition,
        points,
    }
}
