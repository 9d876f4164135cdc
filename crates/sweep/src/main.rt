// sweep [FILE]: a query file, or standard input, and its answers as lines on standard output.
#![tactic(auto)]

use console::{has_argument, print, read_input, say};
use help::help;
use std::rt::{Env, HostRuntime};

mod help; // help.rt: what --help prints

fn usage(rt: &HostRuntime) {
    say(
        rt,
        b"sweep: write sweep [FILE], sweep --help or sweep --version. Without FILE the query file is read from standard input.\n",
    );
}

fn version(rt: &HostRuntime) {
    print(
        rt,
        b"sweep 0.3.0\n",
        b"sweep: the version cannot be written to standard output",
    );
}

// The answers of the query file.
fn answer(rt: &HostRuntime) {
    let mut file = [0u8; 65537];
    let mut out = [0u8; 45280];
    let Ok(size) = read_input(rt, 1, &mut file, b"sweep: the query file cannot be read") else {
        return;
    };
    let printed = page::write_page(&file[..size], &mut out).unwrap();
    print(
        rt,
        &out[..printed],
        b"sweep: the answers cannot be written to standard output",
    );
}

// Whether an argument begins as an option does.
fn is_option(argument: &[u8]) -> bool {
    argument.first() == Some(&b'-')
}

// What the one argument asks for; none, and one too long for a path, read as an empty text.
fn serve(rt: &HostRuntime, argument: &[u8]) {
    match argument {
        b"--help" => help(rt),
        b"--version" => version(rt),
        _ if is_option(argument) => usage(rt),
        _ => answer(rt),
    }
}

fn main(rt: HostRuntime) {
    if has_argument(&rt, 2) {
        return usage(&rt);
    }
    let mut text = [0u8; 4096];
    let size = rt.arg(1, &mut text).unwrap_or(0);
    serve(&rt, &text[..size]);
}
