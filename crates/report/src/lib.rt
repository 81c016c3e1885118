// What the routing program says: the text that it prints, made in a lent buffer, and the status that it ends with. The program itself only reads and
// writes.
// Document 01, "Numbers to hold against it": the program's lines. specs/Report.antt has them.
#![tactic(auto)]

ghost use Rattle.std.specs.Prelude.{◌≡◌, ◌+◌, ◌≤◌, length};
ghost use Rattle.refusals.specs.Refusal.{number_of};
ghost use Rattle.text.specs.Text.{Puts};
ghost use Rattle.report.specs.Report.{refused_text, line_of, refused_status, status_told, status_number, Printed};
ghost use Rattle.report.specs.Answer.{Answers};
ghost use Rattle.report.specs.Room.{first_room, text_room};

use channel::MOST_CONNECTIONS;
use jobfile::JobFile;
use refusals::{Reason, Refusal};
use route::Verdict;
use rows::{ROW, SMALL};
use text::Writer;

// The program's budget, and the longest input that it reads.
pub const BUDGET: u32 = 1000000;

pub const MOST_INPUT: usize = 4096;

// What the program ends with: a routing is found, there is none, the budget does not tell, or the input is refused.
#[derive(Clone, Copy, Debug, PartialEq, Eq)]
pub enum Status {
    Routed = 0,
    Unroutable = 1,
    Undecided = 2,
    Refused = 3,
}

impl Status {
    // The number that the program ends with.
    pub fn number(self) -> u8
        ensures value { result ≡ status_number self }
        ensures upper_bound { result ≤ refused_status }
    {
        self as u8
    }
}

// How many digits a number has at most, less one.
const NUMBER: u8 = 19;

// Room for a first line, and for the whole text.
const FIRST_LINE: usize = 40;

pub const TEXT: usize = FIRST_LINE + MOST_CONNECTIONS * ROW;

// What the program says: the length of its text, and the status that it ends with.
#[derive(Clone, Copy, Debug, PartialEq, Eq)]
pub struct Said {
    pub length: usize,
    pub status: Status,
}

// A verdict and its trials; the status that goes with it.
fn put_verdict(out: &mut Writer, verdict: Verdict) -> Status
    requires { out.old.at + first_room ≤ length out.old.buf.now }
    ensures wrote { Puts out.old (line_of verdict) out.new }
    ensures upper_bound { out.new.at ≤ out.old.at + first_room }
    ensures status { result ≡ status_told verdict }
{
    let (word, trials, status): (&[u8], u32, Status) = match verdict {
        Verdict::Routed(n) => (b"routed ", n, Status::Routed),
        Verdict::Unroutable(n) => (b"unroutable ", n, Status::Unroutable),
        Verdict::Undecided(n) => (b"undecided ", n, Status::Undecided),
    };
    out.put_text(word);
    out.put_digits(trials as usize, NUMBER);
    out.put(b'\n');
    status
}

// A refusal: number and place.
fn put_refusal(out: &mut Writer, refusal: Refusal)
    requires { out.old.at + first_room ≤ length out.old.buf.now }
    ensures wrote { Puts out.old (refused_text (number_of refusal.reason) refusal.place) out.new }
    ensures upper_bound { out.new.at ≤ out.old.at + first_room }
{
    out.put_text(b"refused ");
    out.put_digits(usize::from(refusal.number()), SMALL);
    out.put(b' ');
    out.put_digits(refusal.place, NUMBER);
    out.put(b'\n');
}

// The verdict on the input's job, and if it is routed the lines of its connections. A refusal writes nothing.
fn put_answer(out: &mut Writer, input: &[u8]) -> Result<Status, Refusal>
    requires { out.old.at + text_room ≤ length out.old.buf.now }
    ensures { Answers input.now out.old result out.new }
{
    if MOST_INPUT < input.len() {
        return Err(Reason::Distances.at(0));
    }
    let job = JobFile::read(input)?;
    let mut labels = [0; MOST_CONNECTIONS];
    let verdict = route::route_job(&job, BUDGET, &mut labels)?;
    let status = put_verdict(out, verdict);
    if let Verdict::Routed(_) = verdict {
        let m = usize::from(job.sizes.connections);
        rows::put_rows(out, &job, &labels[..m]);
    }
    Ok(status)
}

// What the program says of this input. The text is at the front of the buffer, and the rest stays.
pub fn report(input: &[u8], text: &mut [u8; TEXT]) -> Said
    ensures { Printed input.now text.old text.new result.length (status_number result.status) }
{
    let mut out = Writer { buf: text, at: 0 };
    let status = match put_answer(&mut out, input) {
        Ok(status) => status,
        Err(refusal) => {
            put_refusal(&mut out, refusal);
            Status::Refused
        }
    };
    Said {
        length: out.at,
        status,
    }
}
