// Recorded replies of real solvers against their jobs: the answer to each, whole and cut at every byte. Document 01, "Clause lines" and "A solver's reply".
// The arguments are pairs of a job file and a reply file.
#![tactic(auto)]

ghost use Rattle.std.specs.Prelude.{◌≡◌, ◌+◌, ◌<◌, ◌^◌, length};
ghost use Rattle.io.specs.Counts.{IsPrefixLen};

use channel::MOST_CONNECTIONS;
use lines::MOST_LINE;
use refusals::Refusal;
use reply::Answer;
use std::{env, io};

// Room for a job file and for a reply. What fills its room may be longer, and is not held.
const JOB: usize = 4096;

const REPLY: usize = 8192;

// How many lines of an export are printed at most.
const LINES: usize = 5;

// The lent labels before a call: 0 is no label.
const LENT: [u8; MOST_CONNECTIONS] = [0; MOST_CONNECTIONS];

// What a cut comes to: a refusal that changes no lent byte; the whole reply's answer and labels; anything else.
#[derive(Clone, Copy, PartialEq, Eq)]
enum Cut {
    Refused,
    Same,
    Other,
}

// How many cuts came to each.
#[derive(Clone, Copy)]
struct Tally {
    refused: u64,
    same: u64,
    other: u64,
}

// The answer to a reply, and the labels that it leaves.
#[derive(Clone, Copy)]
struct Replied {
    answer: Result<Answer, Refusal>,
    labels: [u8; MOST_CONNECTIONS],
}

// The reply asked of the entry, over labels that are lent for it.
fn ask(job: &[u8], text: &[u8]) -> Replied {
    let mut labels = LENT;
    let answer = reply::reply(job, text, &mut labels);
    Replied { answer, labels }
}

// Kept in pieces, here and in `say_tally`: on a pipe that does not wait each comes through or is lost by itself.
fn say_refused(rt: &HostRuntime, refusal: Refusal) {
    let _ = print!(rt; "refused");
    let _ = print!(rt; " {}", refusal.number());
    let _ = print!(rt; " {}", refusal.place);
    let _ = println!(rt; "");
}

// Line n of the job's export; whether there is one.
fn say_line(rt: &HostRuntime, job: &[u8], n: usize) -> bool {
    let mut line = [0u8; MOST_LINE];
    match lines::line(job, n, &mut line) {
        Ok(length) => {
            let _ = rt.write_all(&line[..length]);
            true
        }
        Err(refusal) => {
            say_refused(rt, refusal);
            false
        }
    }
}

// The first lines of the job's export, and the refusal behind the last where that is among them.
fn say_lines(rt: &HostRuntime, job: &[u8]) {
    for n in 0..LINES {
        if !say_line(rt, job, n) {
            return;
        }
    }
}

fn say_answer(rt: &HostRuntime, whole: &Replied) {
    let word = match whole.answer {
        Ok(Answer::Accepted) => "accepted",
        Ok(Answer::Claimed) => "claimed",
        Ok(Answer::Unknown) => "unknown",
        Err(refusal) => {
            say_refused(rt, refusal);
            return;
        }
    };
    let _ = print!(rt; "{word}");
    for label in whole.labels.iter().filter(|label| **label != 0) {
        let _ = print!(rt; " {label}");
    }
    let _ = println!(rt; "");
}

fn say_tally(rt: &HostRuntime, t: Tally)
    requires { t.refused + t.same + t.other < 2 ^ 64 }
{
    let _ = print!(rt; "cuts");
    let _ = print!(rt; " {}", t.refused + t.same + t.other);
    let _ = print!(rt; ":");
    let _ = print!(rt; " {}", t.refused);
    let _ = print!(rt; " refused,");
    let _ = print!(rt; " {}", t.same);
    let _ = print!(rt; " same,");
    let _ = print!(rt; " {}", t.other);
    let _ = println!(rt; " other");
}

// A cut's answer beside the whole reply's.
fn beside(cut: &Replied, whole: &Replied) -> Cut {
    if cut.answer.is_err() && cut.labels == LENT {
        Cut::Refused
    } else if cut.answer.ok() == whole.answer.ok() && cut.labels == whole.labels {
        Cut::Same
    } else {
        Cut::Other
    }
}

// Every beginning of the reply, the empty one and the whole among them.
fn cuts(job: &[u8], text: &[u8], whole: &Replied) -> Tally
    requires { length text.now < 2 ^ 32 }
    ensures { result.refused + result.same + result.other ≡ length text.now + 1 }
{
    let mut tally = Tally {
        refused: 0,
        same: 0,
        other: 0,
    };
    for end in 0..text.len() + 1 {
        match beside(&ask(job, &text[..end]), whole) {
            Cut::Refused => tally.refused += 1,
            Cut::Same => tally.same += 1,
            Cut::Other => tally.other += 1,
        }
    }
    tally
}

// A job and a reply.
fn hold(rt: &HostRuntime, job: &[u8], text: &[u8])
    requires { length text.now < 2 ^ 32 }
{
    say_lines(rt, job);
    let whole = ask(job, text);
    say_answer(rt, &whole);
    say_tally(rt, cuts(job, text, &whole));
}

// Says the name of the file and reads it; how many bytes it has. One that cannot be read counts as empty.
fn read(rt: &HostRuntime, path: &str, into: &mut [u8]) -> usize
    ensures { IsPrefixLen result into.new }
{
    let _ = print!(rt; "{path}");
    input::read_file(rt, path, into).unwrap_or(0)
}

// A job and its reply, by their names.
fn pair(rt: &HostRuntime, first: &str, second: &str) {
    let mut job = [0u8; JOB];
    let mut text = [0u8; REPLY];
    let j = read(rt, first, &mut job);
    let _ = print!(rt; " ");
    let t = read(rt, second, &mut text);
    let _ = println!(rt; "");
    if j == JOB || t == REPLY {
        let _ = println!(rt; "too long");
        return;
    }
    hold(rt, &job[..j], &text[..t]);
}

// A job that no reply follows has one with no name.
fn main(rt: HostRuntime) -> io::Result<()> {
    let mut words = env::args(&rt)?.skip(1);
    // Kept: a `while`, for a turn takes two words.
    while let Some(first) = words.next() {
        match words.next() {
            Some(second) => pair(&rt, first.as_str(), second.as_str()),
            None => pair(&rt, first.as_str(), ""),
        }
    }
    Ok(())
}
