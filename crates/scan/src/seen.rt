// Row 7: a mark for each variable, and the first position whose variable is too large or was seen before.
ghost use Rattle.std.specs.Prelude.{◌≡◌, ◌<◌};
ghost use Rattle.scan.specs.Tally.{last_number};
ghost use Rattle.scan.specs.Seen.{marked, marked_lit};

use crate::Variables;
use crate::line::Lit;
use crate::tally::{Shut, Tally};
use channel::MOST_VALUES;

// The marks of the variables, and the first wrong position, if one was met.
// Kept: a mark is a byte, 0 for not seen, 1 for plain, 2 for negated, since `model::codes_of` takes a table of any bytes, as it did.
#[derive(Clone, Copy)]
pub struct Seen {
    pub marks: [u8; MOST_VALUES],
    pub wrong: Option<usize>,
}

impl Seen {
    // The literal at a position, negated or not, of the variable v.
    fn mark(&mut self, position: usize, variables: Variables, negated: bool, v: usize)
        ensures { self.new ≡ marked self.old position variables.count negated v }
    {
        if self.wrong.is_none() {
            if variables.count < v || self.marks[v] != 0 {
                self.wrong = Some(position);
            } else {
                self.marks[v] = if negated { 2 } else { 1 };
            }
        }
    }

    // A literal, if one ended, after those that were counted. It counts as long as no `0` was met.
    pub fn mark_literal(&mut self, before: Tally, variables: Variables, l: Option<Lit>)
        requires { before.count < last_number }
        ensures { self.new ≡ marked_lit self.old before variables.count l }
    {
        match l {
            Some(Lit::Var(negated, v)) => match before.shut {
                Shut::Open => self.mark(before.count + 1, variables, negated, v),
                Shut::Closed | Shut::Passed => (),
            },
            Some(Lit::Stop) | None => (),
        }
    }
}
