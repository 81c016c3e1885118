// Runs `report` on each file that an argument names, as the routing program does on standard input, and writes the file's name before what is printed.
#![tactic(auto)]

use report::{MOST_INPUT, TEXT};
use std::{env, io};

fn say(rt: &HostRuntime, text: &[u8]) {
    let _ = rt.write_all(text);
}

// One file.
fn one(rt: &HostRuntime, path: &str) {
    say(rt, path.as_bytes());
    say(rt, b": ");
    let mut bytes = [0u8; MOST_INPUT + 1];
    let Some(read) = input::read_file(rt, path, &mut bytes) else {
        return;
    };
    let mut text = [0u8; TEXT];
    let said = report::report(&bytes[..read], &mut text);
    say(rt, &text[..said.length]);
}

fn main(rt: HostRuntime) -> io::Result<()> {
    for path in env::args(&rt)?.skip(1) {
        one(&rt, path.as_str());
    }
    Ok(())
}
