// why N T U V [FILE]: why record N of a query file is safe at a moment and place, in 1/1,048,576 parts.
#![tactic(auto)]

ghost use Rattle.std.specs.Prelude.{◌≤◌, length};
ghost use Rattle.text.specs.Writers.{Wrote};
ghost use Rattle.why.specs.Page.{why_page};

use console::{has_argument, print, read_input, read_number, say};
use rules::{Refusal, Ruling, Three};
use std::rt::{Env, HostRuntime};

// The most bytes that an input has.
const MOST: usize = 65536;

// The line of an input, in a buffer that holds it.
fn page(file: &[u8], n: usize, at: Three, out: &mut [u8]) -> usize
    requires { 331 ≤ length out.old }
    ensures { Wrote 331 out.old 0 (why_page file.now n at 4096) out.new result }
{
    if MOST < file.len() {
        return wording::write_ruling(out, Ruling::Refused(Refusal::Long.number()));
    }
    let mut queue = [0u64; 4096];
    let a = reasons::rule(file, n, at, true, &mut queue);
    wording::write_ruling(out, a)
}

fn usage(rt: &HostRuntime) {
    say(
        rt,
        b"why: write why N T U V [FILE]. N is the number of a record, from 0; T, U and V are a moment and a place in 1/1048576 parts: whole numbers, in decimal. Without FILE the query file is read from standard input.\n",
    );
}

// The number that argument i is; None where there is no such argument or it is no number.
fn argument(rt: &HostRuntime, i: usize) -> Option<u32> {
    let mut text = [0u8; 4096];
    let size = rt.arg(i, &mut text).ok()?;
    read_number(&text[..size])
}

// The record and the point that the first four arguments name.
fn asked(rt: &HostRuntime) -> Option<(usize, Three)> {
    let n = argument(rt, 1)?;
    let t = argument(rt, 2)?;
    let u = argument(rt, 3)?;
    let v = argument(rt, 4)?;
    let at = Three {
        t: u64::from(t),
        u: u64::from(u),
        v: u64::from(v),
    };
    Some((n as usize, at))
}

// Record n of the query file asked about a point.
fn answer(rt: &HostRuntime, n: usize, at: Three) {
    let mut file = [0u8; 65537];
    let mut out = [0u8; 331];
    let Ok(size) = read_input(rt, 5, &mut file, b"why: the query file cannot be read") else {
        return;
    };
    let printed = page(&file[..size], n, at, &mut out);
    print(
        rt,
        &out[..printed],
        b"why: the answer cannot be written to standard output",
    );
}

fn main(rt: HostRuntime) {
    match asked(&rt) {
        Some((n, at)) if !has_argument(&rt, 6) => answer(&rt, n, at),
        _ => usage(&rt),
    }
}
