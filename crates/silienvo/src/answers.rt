// What an entry answers as numbers: a refusal in one way for all entries, and each good answer by its kind and value.
ghost use Rattle.std.specs.Prelude.{◌≡◌};
ghost use Rattle.silienvo.specs.declared.SilienvoAnswer.{SilienvoAnswer};
ghost use Rattle.silienvo.specs.Exports.{given, answer_given, done_given, length_given, verdict_given, reply_given};

use crate::SilienvoAnswer;
use refusals::Refusal;
use route::Verdict;

// A good answer that has a kind and a value.
pub trait Told {
    ghost numbers: { Self → SilienvoAnswer };

    fn told(self) -> SilienvoAnswer
        ensures { result ≡ numbers self };
}

// A kind of answer other than a refusal, with its value.
pub fn numbered(kind: u32, value: u64) -> SilienvoAnswer
    ensures { result ≡ given kind value }
{
    SilienvoAnswer {
        kind,
        number: 0,
        value,
    }
}

// The answer of an entry.
pub fn answer<T: Told>(r: Result<T, Refusal>) -> SilienvoAnswer
    ensures { result ≡ answer_given T.numbers r }
{
    match r {
        Ok(good) => good.told(),
        Err(refusal) => SilienvoAnswer {
            kind: 0,
            number: u32::from(refusal.number()),
            value: refusal.place as u64,
        },
    }
}

// Legal, or done.
impl Told for () {
    ghost numbers = { done_given };

    fn told(self) -> SilienvoAnswer {
        numbered(1, 0)
    }
}

// A text, a line or a file of so many bytes.
impl Told for usize {
    ghost numbers = { length_given };

    fn told(self) -> SilienvoAnswer {
        numbered(1, self as u64)
    }
}

impl Told for Verdict {
    ghost numbers = { verdict_given };

    fn told(self) -> SilienvoAnswer {
        match self {
            Verdict::Routed(trials) => numbered(1, u64::from(trials)),
            Verdict::Unroutable(trials) => numbered(2, u64::from(trials)),
            Verdict::Undecided(trials) => numbered(3, u64::from(trials)),
        }
    }
}

impl Told for reply::Answer {
    ghost numbers = { reply_given };

    fn told(self) -> SilienvoAnswer {
        match self {
            reply::Answer::Accepted => numbered(1, 0),
            reply::Answer::Claimed => numbered(2, 0),
            reply::Answer::Unknown => numbered(3, 0),
        }
    }
}
