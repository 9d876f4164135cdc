// Numbers of 32 bits in lent bytes, little-endian. Each function asks that its four bytes are there.
#![tactic(auto)]

ghost use Rattle.std.specs.Prelude.{◌≡◌, ◌+◌, ◌≤◌, length};
ghost use Rattle.rules.specs.QueryFile.{word, word_bytes, signed, bits, stands, put};

pub fn read_u32(s: &[u8], at: usize) -> u32
    requires { at + 4 ≤ length s.now }
    ensures { result ≡ word s.now at }
{
    u32::from_le_bytes([s[at], s[at + 1], s[at + 2], s[at + 3]])
}

pub fn read_i32(s: &[u8], at: usize) -> i32
    requires { at + 4 ≤ length s.now }
    ensures { result ≡ signed (word s.now at) }
{
    read_u32(s, at).cast_signed()
}

// Whether these four bytes stand there. Two arrays are one comparison; a slice against an array is a call.
pub fn stands4(s: &[u8], at: usize, bytes: [u8; 4]) -> bool
    requires { at + 4 ≤ length s.now }
    ensures { result ≡ stands s.now at bytes }
{
    [s[at], s[at + 1], s[at + 2], s[at + 3]] == bytes
}

pub fn write4(s: &mut [u8], at: usize, bytes: [u8; 4])
    requires { at + 4 ≤ length s.old }
    ensures { s.new ≡ put s.old at bytes }
{
    s[at..at + 4].copy_from_slice(&bytes);
}

pub fn write_u32(s: &mut [u8], at: usize, v: u32)
    requires { at + 4 ≤ length s.old }
    ensures { s.new ≡ put s.old at (word_bytes v) }
{
    write4(s, at, v.to_le_bytes());
}

pub fn write_i32(s: &mut [u8], at: usize, v: i32)
    requires { at + 4 ≤ length s.old }
    ensures { s.new ≡ put s.old at (word_bytes (bits v)) }
{
    write_u32(s, at, v.cast_unsigned());
}
