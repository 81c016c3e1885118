// Input whole into lent memory: what the programs read from a file or a descriptor, with no heap.
#![tactic(auto)]

ghost use Rattle.std.specs.Prelude.{◌<◌, MatchResult, IfOk, IfSome, length, take};
ghost use Rattle.std.specs.Io.KnownBytes.{Consumes, IsAtEnd};
ghost use Rattle.io.specs.Counts.{IsPrefixLen};

use std::fs::File;
use std::io::Read;

// A read failed; so many bytes were read before.
#[derive(Clone, Copy, Debug, PartialEq, Eq)]
pub struct Cut {
    pub length: usize,
}

// Reads until the buffer is full, the input ends or a read fails; how many bytes were read.
// Kept: a `while` over what has come; each turn that goes on has read a byte at least, so it ends.
pub fn read_whole<R: Read>(from: &mut R, buf: &mut [u8]) -> Result<usize, Cut>
    ensures bound { MatchResult result (λ n. IsPrefixLen n buf.new) (λ cut. IsPrefixLen cut.length buf.new) }
    ensures bytes { MatchResult result (λ n. Consumes (R.remaining from.old) (R.remaining from.new) (take n buf.new)) (λ cut. Consumes (R.remaining from.old) (R.remaining from.new) (take cut.length buf.new)) }
    ensures end { IfOk result (λ n. n < length buf.new → IsAtEnd (R.remaining from.new)) }
{
    let mut done = 0;
    while done < buf.len() {
        match from.read(&mut buf[done..]) {
            Ok(0) => return Ok(done),
            Ok(n) => done += n,
            Err(_) => return Err(Cut { length: done }),
        }
    }
    Ok(done)
}

// The same where a failed read ends the input.
pub fn read_full<R: Read>(from: &mut R, buf: &mut [u8]) -> usize
    ensures bound { IsPrefixLen result buf.new }
    ensures bytes { Consumes (R.remaining from.old) (R.remaining from.new) (take result buf.new) }
{
    match read_whole(from, buf) {
        Ok(length) => length,
        Err(cut) => cut.length,
    }
}

// A file by its name, into the front of the buffer; how many bytes were read. One that cannot be opened is told on standard error.
pub fn read_file(rt: &HostRuntime, path: &str, buf: &mut [u8]) -> Option<usize>
    ensures { IfSome result (λ n. IsPrefixLen n buf.new) }
{
    match File::open(rt, path) {
        Ok(mut file) => Some(read_full(&mut file, buf)),
        Err(e) => {
            let _ = eprintln!(rt; "{path}: {e}");
            None
        }
    }
}
