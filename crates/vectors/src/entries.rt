// The entries of the library, each asked what a record asks, and the answer as three numbers. Document 01, "Replies by number", has the numbers of refusals.
use crate::panels;
use crate::record::{ROOM, byte, first, four, second};
use jobfile::Sizes;
use refusals::Refusal;
use route::Verdict;

// An answer: kind 0 is a refusal with its number and its place as the value; other kinds are counted from 1 in the order of the entry's answers.
// Kept: numbers for kinds, for a record has them.
#[derive(Clone, Copy, PartialEq, Eq)]
pub struct Given {
    pub kind: u8,
    pub number: u8,
    pub value: usize,
}

// What is answered where a record names no entry: a kind that no record has.
pub const NONE: Given = Given {
    kind: 255,
    number: 0,
    value: 0,
};

fn answered(kind: u8, value: usize) -> Given {
    Given {
        kind,
        number: 0,
        value,
    }
}

// Done, or legal; and a colour that is not red.
impl From<()> for Given {
    fn from(_done: ()) -> Given {
        answered(1, 0)
    }
}

// The length of what was written.
impl From<usize> for Given {
    fn from(length: usize) -> Given {
        answered(1, length)
    }
}

// N, T, M and K in a byte each, low byte first.
impl From<Sizes> for Given {
    fn from(s: Sizes) -> Given {
        let bytes = [s.columns, s.tracks, s.connections, s.limit];
        answered(1, u32::from_le_bytes(bytes) as usize)
    }
}

impl From<Verdict> for Given {
    fn from(verdict: Verdict) -> Given {
        match verdict {
            Verdict::Routed(trials) => answered(1, trials as usize),
            Verdict::Unroutable(trials) => answered(2, trials as usize),
            Verdict::Undecided(trials) => answered(3, trials as usize),
        }
    }
}

impl From<reply::Answer> for Given {
    fn from(answer: reply::Answer) -> Given {
        match answer {
            reply::Answer::Accepted => answered(1, 0),
            reply::Answer::Claimed => answered(2, 0),
            reply::Answer::Unknown => answered(3, 0),
        }
    }
}

// A colour: the red column, if there is one.
impl From<Option<usize>> for Given {
    fn from(red: Option<usize>) -> Given {
        match red {
            None => answered(1, 0),
            Some(column) => answered(2, column),
        }
    }
}

// An entry's answer.
pub fn told<T>(answer: Result<T, Refusal>) -> Given
where
    Given: From<T>,
{
    match answer {
        Ok(good) => Given::from(good),
        Err(refusal) => Given {
            kind: 0,
            number: refusal.number(),
            value: refusal.place,
        },
    }
}

// P1's connections routed as the file that is written of them.
fn p1_routed(r: &[u8], lent: &mut [u8]) -> Option<Given> {
    let mut file = [0u8; ROOM];
    match part::write_p1(first(r), four(r, 7), &mut file) {
        Ok(length) => Some(told(route::route(file.get(..length)?, four(r, 11), lent))),
        Err(refusal) => Some(told::<usize>(Err(refusal))),
    }
}

// The answer of the entry that a record names, if it names one. The byte is the file's own number of the entry, and read here and in `panels` alone.
pub fn asked(r: &[u8], lent: &mut [u8]) -> Option<Given> {
    match byte(r, 0) {
        1 => Some(told(jobfile::read_job(first(r)))),
        2 => Some(told(route::route(first(r), four(r, 7), lent))),
        3 => Some(told(judge::judge(first(r), second(r)))),
        4 => Some(told(lines::line(first(r), four(r, 7) as usize, lent))),
        5 => Some(told(reply::reply(first(r), second(r), lent))),
        6 => Some(told(part::write_p1(first(r), four(r, 7), lent))),
        7 => p1_routed(r, lent),
        8..=12 => panels::edited(r, lent),
        13 => panels::signed(r),
        14 => panels::routed(r, lent),
        _ => None,
    }
}
