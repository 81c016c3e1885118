// One pass over a solver's reply ("A solver's reply" in document 01): its lines (`line`), its `s` line and the count of its literals (`tally`), and a mark for
// each variable with the first position that row 7 refuses (`seen`).
#![tactic(auto)]

ghost use Rattle.std.specs.Prelude.{◌≤◌};
ghost use Rattle.channel.specs.Limits.{most_variables};
ghost use Rattle.scan.specs.Marks.{Done};

mod line;
mod seen;
mod tally;

use channel::MOST_VALUES;
use line::{Kind, Mode};
use seen::Seen;
use tally::{Shut, Statuses, Tally};

// What a reply says, if row 6 does not refuse it: a status; with SATISFIABLE the number of literals before `0`.
#[derive(Clone, Copy, Debug, PartialEq, Eq)]
pub enum Answer {
    Claimed,
    Unknown,
    Sat(usize),
}

// What a reply says, or the place at which row 6 refuses it; with SATISFIABLE the first wrong position, if there is one, and the marks of its variables.
#[derive(Clone, Copy)]
pub struct Reading {
    pub answer: Result<Answer, usize>,
    pub wrong: Option<usize>,
    pub seen: [u8; MOST_VALUES],
}

// How many variables a reply may name: they are 1 to count.
#[derive(Clone, Copy)]
pub struct Variables {
    pub count: usize,
    pub ghost few: { count ≤ most_variables },
}

// The whole reply.
// Kept: what is read so far stands in locals, since one struct of them all that goes through a call at each byte takes three times as long.
pub fn read(text: &[u8], variables: Variables) -> Reading
    ensures { Done text.now variables.count result.answer result.wrong result.seen }
{
    let mut seen = Seen {
        marks: [0; MOST_VALUES],
        wrong: None,
    };
    let mut tally = Tally {
        count: 0,
        shut: Shut::Open,
    };
    let mut m = Mode::Start;
    let mut number: usize = 1;
    let mut said = Statuses::Nothing;
    for (i, b) in text.iter().enumerate() {
        let l = m.event(*b);
        seen.mark_literal(tally, variables, l);
        tally.add(l);
        if *b == b'\n' {
            match m.ended(text, i) {
                Kind::Bad => m = Mode::Bad,
                // Kept: an arm of its own, since most lines say no status, and at each of them `after` would be worked out.
                Kind::Other => {
                    m = Mode::Start;
                    number += 1;
                }
                kind => {
                    m = Mode::Start;
                    number += 1;
                    said = said.after(kind);
                }
            }
        } else {
            m = m.step(*b, i + 1);
        }
    }
    seen.mark_literal(tally, variables, m.literal());
    Reading {
        answer: tally.at_end(text, m, number, said),
        wrong: seen.wrong,
        seen: seen.marks,
    }
}
