// The values that document 01 speaks of, by value. The rules themselves stand in specs/.
#![tactic(auto)]

ghost use Rattle.std.specs.Prelude.{◌≡◌};
ghost use Rattle.rules.specs.Refusals.{number_of, refusal_in};

// What is refused: a row of the papers' tables, by its number.
#[derive(Clone, Copy)]
pub enum Refusal {
    Kind = 1,
    Flags = 2,
    Coord = 3,
    Separation = 4,
    Tolerance = 5,
    Budget = 6,
    Queue = 7,
    Short = 8,
    Mark = 9,
    Edition = 10,
    Count = 11,
    Back = 12,
    Index = 13,
    Space = 14,
    Long = 15,
    Word = 16,
    Match = 17,
    Body = 21,
    Cap = 22,
    Domain = 23,
    Later = 24,
    Bounds = 27,
}

impl Refusal {
    // The number that files and C know it by.
    pub fn number(self) -> u32
        ensures { result ≡ number_of self }
    {
        self as u32
    }
}

// The number of an answer that may be a refusal; 0 where it is none.
pub fn number_in(answer: Result<(), Refusal>) -> u32
    ensures { result ≡ refusal_in answer }
{
    match answer {
        Ok(()) => 0,
        Err(refusal) => refusal.number(),
    }
}

// A query as it is handed to the search or to a writer: every field of the file's record.
// `edition` is that of its file, by which its ranges and depths go. dx, dy, dz are the separations; `cap` is the last moment that is looked at, in 1/1,048,576 parts,
// and 0 for the whole step: the word at 28 of editions 2 and 3, and 0 in edition 1.
// The points are p, v1, v2, v3 or p1, p2, p3, p4 at the start, then the same four at the end; x, y, z of each.
#[derive(Clone, Copy)]
pub struct Record {
    pub kind: u8,
    pub flags: u8,
    pub byte2: u8,
    pub byte3: u8,
    pub id: u32,
    pub dx: u32,
    pub dy: u32,
    pub dz: u32,
    pub tolerance: u32,
    pub budget: u32,
    pub cap: u32,
    pub points: [i32; 24],
    pub edition: u8,
}

// One number a parameter: a box's indices, or a level's depths.
#[derive(Clone, Copy)]
pub struct Three {
    pub t: u64,
    pub u: u64,
    pub v: u64,
}

// The parameter that a level is split in.
#[derive(Clone, Copy)]
pub enum Parameter {
    InT,
    InU,
    InV,
}

// A low corner in 1/1,048,576 parts, with its excess in units.
#[derive(Clone, Copy)]
pub struct Corner {
    pub t: u32,
    pub u: u32,
    pub v: u32,
    pub excess: u32,
}

// What comes back. A refusal carries its number.
#[derive(Clone, Copy)]
pub enum Answer {
    Met {
        t: u32,
        u: u32,
        v: u32,
        excess: u32,
        count: u32,
    },
    Clear(u32),
    Spent {
        t: u32,
        u: u32,
        v: u32,
        excess: u32,
        count: u32,
    },
    Room {
        t: u32,
        u: u32,
        v: u32,
        excess: u32,
        count: u32,
    },
    Floor {
        t: u32,
        u: u32,
        v: u32,
        excess: u32,
        count: u32,
    },
    Refused(u32),
}

// An answer in numbers alone, as `told` of specs/Answers.antt gives it.
#[derive(Clone, Copy)]
pub struct Told {
    pub word: u32,
    pub t: u32,
    pub u: u32,
    pub v: u32,
    pub excess: u32,
    pub count: u32,
    pub number: u32,
}

// What a file's trailer must say: its mark, its edition, and the bytes that one record takes.
#[derive(Clone, Copy)]
pub struct Form {
    pub mark: [u8; 4],
    pub edition: u8,
    pub size: u8,
}

// Where a file's records stand: its edition, the place of the first and how many there are.
#[derive(Clone, Copy)]
pub struct Records {
    pub edition: u8,
    pub first: usize,
    pub count: usize,
}

// A fetched record and its refusal's number, 0 for none. (An enum cannot hold the record's array.)
#[derive(Clone, Copy)]
pub struct Fetched {
    pub refusal: u32,
    pub query: Record,
}

// What two bodies are asked with: one separation triple, tolerance and budget for all queries, and the edition whose ranges they go by.
#[derive(Clone, Copy)]
pub struct Terms {
    pub dx: u32,
    pub dy: u32,
    pub dz: u32,
    pub tolerance: u32,
    pub budget: u32,
    pub edition: u8,
}

// One of a triangle pair's fifteen queries: its kind and its four points, 0 to 2 the corners 1 to 3 of A, 3 to 5 those of B.
#[derive(Clone, Copy)]
pub struct Ask {
    pub kind: u8,
    pub p: usize,
    pub q: usize,
    pub r: usize,
    pub s: usize,
}

// What two bodies are answered; the sum of counts needs 64 bits. `Least`: the least time, with the triangles of A and B and the query that has it first.
#[derive(Clone, Copy)]
pub enum BodyAnswer {
    Clear(u64),
    Least {
        t: u32,
        a: u32,
        b: u32,
        query: u32,
        word: u32,
        excess: u32,
        count: u64,
    },
    Refused(u32),
}

// The axes, and the two sides of the separation on one: F is below minus it, or above it.
#[derive(Clone, Copy)]
pub enum Axis {
    X,
    Y,
    Z,
}

#[derive(Clone, Copy)]
pub enum Side {
    Below,
    Above,
}

// Where a box is beyond the separation over all of it.
#[derive(Clone, Copy)]
pub struct Miss {
    pub axis: Axis,
    pub side: Side,
}

// A stop on the way down to a point: a box at its depths.
#[derive(Clone, Copy)]
pub struct Stop {
    pub depths: Three,
    pub index: Three,
}

// Why a point is ruled out: the level, the depths and the index of a discarded box, and the axis and side that discard it.
#[derive(Clone, Copy)]
pub struct Reason {
    pub level: u64,
    pub depths: Three,
    pub index: Three,
    pub axis: Axis,
    pub side: Side,
}

// What one who points at a moment and place is answered. A refusal carries its number.
#[derive(Clone, Copy)]
pub enum Ruling {
    Discarded(Reason),
    Refused(u32),
}
