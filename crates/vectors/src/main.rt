// Replays vectors that the second router made, in the files that arguments name, and prints how many agree and how many differ.
// Answer, number, place or value, and every byte of the lent buffer are compared. tests/README.md says how the files are made.
#![tactic(auto)]

mod entries;
mod panels;
mod record;

use entries::{Given, NONE};
use record::{ROOM, after, before, byte, first, four};
use std::{env, io};

// The answer that a record has.
fn recorded(r: &[u8]) -> Given {
    Given {
        kind: byte(r, 1),
        number: byte(r, 2),
        value: four(r, 3) as usize,
    }
}

// Whether the entry answers as the record says, and leaves the lent buffer as the record has it. A job's fourth string is the part with its connections.
fn agrees_lent(r: &[u8], lent: &mut [u8]) -> bool {
    if entries::asked(r, lent).unwrap_or(NONE) != recorded(r) {
        return false;
    }
    if byte(r, 0) == 1 {
        return jobfile::connections(first(r)) == after(r);
    }
    &*lent == after(r)
}

// Whether the library does what the record says. Bytes that are no record never agree.
fn agrees(r: &[u8]) -> bool {
    if !record::whole(r) {
        return false;
    }
    let old = before(r);
    let mut room = [0u8; ROOM];
    match room.get_mut(..old.len()) {
        Some(lent) => {
            lent.copy_from_slice(old);
            agrees_lent(r, lent)
        }
        None => false,
    }
}

#[derive(Clone, Copy)]
struct Count {
    agree: usize,
    differ: usize,
}

// All records of a file.
fn replay(bytes: &[u8]) -> Count {
    let mut rest = bytes;
    let mut count = Count {
        agree: 0,
        differ: 0,
    };
    // Kept: a `while`, for each record tells how long it is.
    while !rest.is_empty() {
        let (r, behind) = rest.split_at(record::size(rest));
        if agrees(r) {
            count.agree += 1;
        } else {
            count.differ += 1;
        }
        rest = behind;
    }
    count
}

// One file.
fn one(rt: &HostRuntime, path: &str) {
    let mut bytes = [0u8; 65536];
    let Some(read) = input::read_file(rt, path, &mut bytes) else {
        return;
    };
    let count = replay(&bytes[..read]);
    let _ = println!(rt; "{path} {} agree, {} differ", count.agree, count.differ);
}

fn main(rt: HostRuntime) -> io::Result<()> {
    for path in env::args(&rt)?.skip(1) {
        one(&rt, path.as_str());
    }
    Ok(())
}
