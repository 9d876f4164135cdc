// keep [FILE]: a query file, or standard input, and its answer file on standard output.
#![tactic(auto)]

ghost use Rattle.std.specs.Prelude.{◌≤◌, length};
ghost use Rattle.rules.specs.Refusals.{numbered};
ghost use Rattle.keep.specs.Keeping.{Keeps};

use console::{has_argument, print, read_input, say};
use rules::Refusal;
use std::rt::HostRuntime;

// The most bytes that an input has.
const MOST: usize = 65536;

// The answer file of an input, in a buffer that holds it, and how many bytes it has; or what the input is refused for.
fn keep(file: &[u8], out: &mut [u8]) -> Result<usize, Refusal>
    requires { 18064 ≤ length out.old }
    ensures { Keeps file.now out.old out.new (numbered result) }
{
    if MOST < file.len() {
        return Err(Refusal::Long);
    }
    let mut queue = [0u64; 4096];
    let logged = shift_log::log_file(file, &mut queue, out);
    logged?;
    Ok(shift_log::log_size(file))
}

fn usage(rt: &HostRuntime) {
    say(
        rt,
        b"keep: write keep [FILE]. Without FILE the query file is read from standard input. The answer file goes to standard output.\n",
    );
}

// The line of a query file that is refused, on standard error.
fn refuse(rt: &HostRuntime, refusal: Refusal) {
    let mut line = [0u8; 16];
    let printed = text::write_refused(refusal.number(), &mut line).unwrap();
    say(rt, &line[..printed]);
}

// The query file answered.
fn answer(rt: &HostRuntime) {
    let mut file = [0u8; 65537];
    let mut out = [0u8; 18064];
    let Ok(size) = read_input(rt, 1, &mut file, b"keep: the query file cannot be read") else {
        return;
    };
    match keep(&file[..size], &mut out) {
        Err(refusal) => refuse(rt, refusal),
        Ok(n) => print(
            rt,
            &out[..n],
            b"keep: the answer file cannot be written to standard output",
        ),
    }
}

fn main(rt: HostRuntime) {
    if has_argument(&rt, 2) {
        return usage(&rt);
    }
    answer(&rt);
}
