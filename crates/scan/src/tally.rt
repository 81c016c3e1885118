// What the lines of a reply come to: its `s` lines, the literals before the first `0`, and how `0` shuts them.
ghost use Rattle.std.specs.Prelude.{◌≡◌, ◌≤◌, ◌<◌, ◌+◌, length};
ghost use Rattle.scan.specs.Line.{ModeAt};
ghost use Rattle.scan.specs.Tally.{last_number, said_after, tally_after, alone_as, closed_as, by_said, told_at_end};

use crate::Answer;
use crate::line::{Kind, Lit, Mode, Status};

// The `s` lines so far.
#[derive(Clone, Copy, Debug, PartialEq, Eq)]
pub enum Statuses {
    Nothing,
    One(Status),
    Several,
}

impl Statuses {
    // After a line of this kind.
    pub fn after(self, kind: Kind) -> Statuses
        ensures { result ≡ said_after self kind }
    {
        match (kind, self) {
            (Kind::Says(s), Statuses::Nothing) => Statuses::One(s),
            (Kind::Says(_), _) => Statuses::Several,
            _ => self,
        }
    }
}

// How the literals are shut: by no `0` yet, by a `0` that is the last, or with more after it.
#[derive(Clone, Copy, Debug, PartialEq, Eq)]
pub enum Shut {
    Open,
    Closed,
    Passed,
}

// The literals so far: how many stand before the first `0`, and how they are shut.
#[derive(Clone, Copy, Debug, PartialEq, Eq)]
pub struct Tally {
    pub count: usize,
    pub shut: Shut,
}

impl Tally {
    // One literal more, if one ended.
    pub fn add(&mut self, l: Option<Lit>)
        requires { self.old.count < last_number }
        ensures { self.new ≡ tally_after self.old l }
    {
        match l {
            None => (),
            Some(Lit::Stop) => match self.shut {
                Shut::Open => self.shut = Shut::Closed,
                Shut::Closed | Shut::Passed => self.shut = Shut::Passed,
            },
            Some(Lit::Var(_, _)) => match self.shut {
                Shut::Open => self.count += 1,
                Shut::Closed | Shut::Passed => self.shut = Shut::Passed,
            },
        }
    }

    // The answer of a status that goes without literals.
    fn alone(self, a: Answer) -> Result<Answer, usize>
        ensures { result ≡ alone_as a self }
    {
        match self {
            Tally {
                count: 0,
                shut: Shut::Open,
            } => Ok(a),
            _ => Err(0),
        }
    }

    // The answer of SATISFIABLE: the literals end with a `0`.
    fn closed(self) -> Result<Answer, usize>
        ensures { result ≡ closed_as self.count self.shut }
    {
        match self.shut {
            Shut::Closed => Ok(Answer::Sat(self.count)),
            Shut::Open | Shut::Passed => Err(0),
        }
    }

    // The answer, by the `s` lines.
    fn answer(self, said: Statuses) -> Result<Answer, usize>
        ensures { result ≡ by_said said self }
    {
        match said {
            Statuses::One(Status::Satisfiable) => self.closed(),
            Statuses::One(Status::Unsatisfiable) => self.alone(Answer::Claimed),
            Statuses::One(Status::Unknown) => self.alone(Answer::Unknown),
            Statuses::Nothing | Statuses::Several => Err(0),
        }
    }

    // The text ends, and with it its last line: m was read of that line, number is its number, and said are the `s` lines before it.
    pub fn at_end(
        mut self,
        text: &[u8],
        m: Mode,
        number: usize,
        said: Statuses,
    ) -> Result<Answer, usize>
        requires { ModeAt m (length text.now) × (self.count < last_number) }
        ensures { result ≡ told_at_end text.now m (length text.now) number said self }
    {
        self.add(m.literal());
        match m.ended(text, text.len()) {
            Kind::Bad => Err(number),
            kind => self.answer(said.after(kind)),
        }
    }
}
