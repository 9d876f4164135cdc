// What a program does with its arguments, its input and its output.
#![tactic(auto)]

ghost use Rattle.std.specs.Prelude.{◌≡◌, ◌≤◌, length};
ghost use Rattle.console.specs.Number.{and_digit, number_of};
ghost use Rattle.console.specs.Input.{Reads, Within};

use std::env::FillError;
use std::fmt::InlineText;
use std::io::{Error, Print, Read};
use std::rt::{Env, HostRuntime};
use std::{fs, io};

fn and_digit(n: u32, b: u8) -> u32
    requires { 48 ≤ b }
    ensures { result ≡ and_digit n b }
{
    n.saturating_mul(10).saturating_add(u32::from(b - b'0'))
}

// A number in decimal; one beyond 32 bits is taken for the largest.
#[tactic(auto, using(crate::proofs::Reading::none, crate::proofs::Reading::some, crate::proofs::Reading::stops, crate::proofs::Reading::goes_on, crate::proofs::Reading::ends))]
pub fn read_number(s: &[u8]) -> Option<u32>
    ensures { result ≡ number_of s.now }
{
    if s.is_empty() {
        return None;
    }
    let mut n = 0;
    for b in s {
        if !b.is_ascii_digit() {
            return None;
        }
        n = and_digit(n, *b);
    }
    Some(n)
}

// The error of an argument that no path is as long as.
const NAME_TOO_LONG: i32 = 36;

// The error of a name that is not UTF-8: std opens no such file.
const NOT_TEXT: i32 = 84;

// The system's reason in an error's text, without the number that std writes behind it.
fn reason(text: &str) -> &str {
    match text.split_once(" (os error ") {
        Some((reason, _number)) => reason,
        None => text,
    }
}

// This failure and the system's reason on standard error.
fn report(rt: &HostRuntime, failure: &[u8], error: Error) {
    let text = InlineText::<256>::of(error);
    say(rt, failure);
    say(rt, b": ");
    say(rt, reason(text.as_str()).as_bytes());
    say(rt, b"\n");
}

// A file from where it stands to its end, or to the buffer's. A read that fails is no end.
fn read_file<R: Read>(from: &mut R, buffer: &mut [u8]) -> io::Result<usize>
    ensures within { Within result (length buffer.new) }
    ensures bytes { Reads (R.remaining from.old) (R.remaining from.new) result buffer.new }
{
    let mut n = 0;
    while n < buffer.len() {
        let more = from.read(&mut buffer[n..])?;
        if more == 0 {
            break;
        }
        n += more;
    }
    Ok(n)
}

// The file of this name.
fn read_named(rt: &HostRuntime, name: &[u8], buffer: &mut [u8]) -> io::Result<usize>
    ensures { Within result (length buffer.new) }
{
    let Ok(path) = str::from_utf8(name) else {
        return Err(Error::from_raw_os_error(NOT_TEXT));
    };
    let mut file = fs::open(rt, path)?;
    read_file(&mut file, buffer)
}

// The file that argument i names, or standard input where there is no such argument.
fn read_argument(rt: &HostRuntime, i: usize, buffer: &mut [u8]) -> io::Result<usize>
    ensures { Within result (length buffer.new) }
{
    let mut name = [0u8; 4096];
    match rt.arg(i, &mut name) {
        Ok(size) => read_named(rt, &name[..size], buffer),
        Err(FillError::NotPresent) => read_file(&mut rt.stdin(), buffer),
        Err(FillError::TooLong) => Err(Error::from_raw_os_error(NAME_TOO_LONG)),
    }
}

// The same. Where it cannot be read, this failure and the system's reason are said on standard error.
pub fn read_input(
    rt: &HostRuntime,
    i: usize,
    buffer: &mut [u8],
    failure: &[u8],
) -> io::Result<usize>
    ensures { Within result (length buffer.new) }
{
    let read = read_argument(rt, i, buffer);
    if let Err(error) = read {
        report(rt, failure, error);
    }
    read
}

// Whether there is an argument i.
pub fn has_argument(rt: &HostRuntime, i: usize) -> bool {
    let mut start = [0u8; 1];
    match rt.arg(i, &mut start) {
        Ok(_) | Err(FillError::TooLong) => true,
        Err(FillError::NotPresent) => false,
    }
}

// A text on standard output. Where it cannot be written whole, this failure and the system's reason are said on standard error.
pub fn print(rt: &HostRuntime, text: &[u8], failure: &[u8]) {
    if let Err(error) = rt.stdout().write_all(text) {
        report(rt, failure, error);
    }
}

// A sentence on standard error.
pub fn say(rt: &HostRuntime, sentence: &[u8]) {
    let _ = rt.stderr().write_all(sentence);
}
