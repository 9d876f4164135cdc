// tell [FILE]: an answer file, or standard input, and its answers as the lines that sweep prints.
#![tactic(auto)]

use console::{has_argument, print, read_input, say};
use std::rt::HostRuntime;

fn usage(rt: &HostRuntime) {
    say(
        rt,
        b"tell: write tell [FILE]. Without FILE the answer file is read from standard input.\n",
    );
}

// The answers of the answer file.
fn answer(rt: &HostRuntime) {
    let mut log = [0u8; 262145];
    let mut out = [0u8; 327840];
    let Ok(size) = read_input(rt, 1, &mut log, b"tell: the answer file cannot be read") else {
        return;
    };
    let printed = retold::write_told(&log[..size], &mut out).unwrap();
    print(
        rt,
        &out[..printed],
        b"tell: the answers cannot be written to standard output",
    );
}

fn main(rt: HostRuntime) {
    if has_argument(&rt, 2) {
        return usage(&rt);
    }
    answer(&rt);
}
