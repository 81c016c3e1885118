// The routing program: reads a job from standard input and writes what `report` makes of it, and loses no error. Only reading and writing are here.
// Document 01, "Numbers to hold against it". One byte more than the longest input is read, so that a longer one is known for it.
// The program itself ends with 0. So the wrapper `./route` starts it with an argument, reads the status as one digit from a descriptor that it
// opened for it, and ends with that; no digit is status 4.
#![tactic(auto)]

ghost use Rattle.std.specs.Prelude.{◌≤◌};

use report::{MOST_INPUT, Status, TEXT};
use std::env::FillError;
use std::fs;
use std::fs::OpenOptions;
use std::io::Error;
use std::rt::Env;

// The status of a run that could not read its input or write its text; the others are the report's.
const FAILED: u8 = 4;

// The descriptor on which the status is told.
const STATUS: i32 = 3;

// Standard output as a path: std takes no descriptor by its number.
const OUTPUT: &str = "/proc/self/fd/1";

// Whether standard output is a file.
fn writes_file(rt: &HostRuntime) -> bool {
    match fs::metadata(rt, OUTPUT) {
        Ok(about) => about.is_file(),
        Err(_) => false,
    }
}

// Has the file that standard output is keep its bytes. One that may not be opened again cannot be asked.
fn keep(rt: &HostRuntime) -> Result<(), Error> {
    match OpenOptions::new().write(true).open(rt, OUTPUT) {
        Ok(file) => file.sync_data(),
        Err(_) => Ok(()),
    }
}

// Writes all of the text to standard output, and has a file keep it, since an error may show only then.
fn write_text(rt: &HostRuntime, text: &[u8]) -> Result<(), Error> {
    rt.write_all(text)?;
    if writes_file(rt) {
        keep(rt)?;
    }
    Ok(())
}

// Reads, reports and writes. The status is the report's, if nothing failed; else it is told what did.
fn run(rt: &HostRuntime) -> Result<Status, &'static str> {
    let mut bytes = [0u8; MOST_INPUT + 1];
    let read = input::read_whole(&mut rt.stdin(), &mut bytes).map_err(
        |_| "route: standard input could not be read\n",
    )?;
    let mut text = [0u8; TEXT];
    let said = report::report(&bytes[..read], &mut text);
    write_text(rt, &text[..said.length]).map_err(
        |_| "route: standard output could not be written whole\n",
    )?;
    Ok(said.status)
}

// The status of a run. What failed is said on standard error.
fn status_of(rt: &HostRuntime, run: Result<Status, &'static str>) -> u8
    ensures { result ≤ 4 }
{
    match run {
        Ok(status) => status.number(),
        Err(what) => {
            let _ = Print::write_all(&rt.stderr(), what.as_bytes());
            FAILED
        }
    }
}

// Whether the program was started with an argument.
fn is_asked(rt: &HostRuntime) -> bool {
    let mut word = [0u8; 1];
    !matches!(&rt.arg(1, &mut word), Err(FillError::NotPresent))
}

// Kept: the status as a number, for it is told as a digit.
// Tells the status, as a digit. Only where the program was started with an argument: so it never writes to a descriptor that somebody else opened.
fn tell(rt: &HostRuntime, status: u8)
    requires { status ≤ 4 }
{
    if is_asked(rt) {
        io::write_all(STATUS, &[b'0' + status]);
    }
}

fn main(rt: HostRuntime) {
    tell(&rt, status_of(&rt, run(&rt)));
}
