// A line of a reply, byte by byte: a mode says what was read of it, and a mode and a byte give the next mode, the literal that ends there and, at the end of
// the line, what the line comes to.
ghost use Rattle.std.specs.Prelude.{◌≡◌, ◌≤◌, length};
ghost use Rattle.dimacs.specs.Reply.{status_word};
ghost use Rattle.scan.specs.Line.{start_mode, blank_mode, leading_mode, gap_mode, number_mode, step_mode, mode_literal, ended_literal, line_kind, ModeAt, mode_kind};

// What was read of a line.
#[derive(Clone, Copy, Debug, PartialEq, Eq)]
pub enum Mode {
    // nothing
    Start,
    // `c`
    LetterC,
    // `c` and a blank, and anything
    Comment,
    // `s`
    LetterS,
    // `s` and a blank; the word starts here
    Said(usize),
    // `v`
    LetterV,
    // literals, and a blank
    Gap,
    // and a minus
    Minus,
    // and one to three digits, negated or not
    Number(bool, usize),
    // and `0`
    Zero,
    // no line begins so
    Bad,
}

// A literal of a `v` line: `0`, or a variable, negated or not.
#[derive(Clone, Copy, Debug, PartialEq, Eq)]
pub enum Lit {
    Stop,
    Var(bool, usize),
}

// The three words of an `s` line.
#[derive(Clone, Copy, Debug, PartialEq, Eq)]
pub enum Status {
    Satisfiable,
    Unsatisfiable,
    Unknown,
}

// What a line comes to: not well-formed, an `s` line with a status, any other.
#[derive(Clone, Copy, Debug, PartialEq, Eq)]
pub enum Kind {
    Bad,
    Says(Status),
    Other,
}

// The first byte of a line.
fn start(b: u8) -> Mode
    ensures { result ≡ start_mode b }
{
    match b {
        b'c' => Mode::LetterC,
        b's' => Mode::LetterS,
        b'v' => Mode::LetterV,
        _ => Mode::Bad,
    }
}

// A blank leads to m, and nothing else to anything.
fn only_blank(b: u8, m: Mode) -> Mode
    ensures { result ≡ blank_mode b m }
{
    match b {
        b' ' => m,
        _ => Mode::Bad,
    }
}

// The first digit of a number.
fn leading(negated: bool, b: u8) -> Mode
    ensures { result ≡ leading_mode negated b }
{
    match b {
        b'1'..=b'9' => Mode::Number(negated, usize::from(b - b'0')),
        _ => Mode::Bad,
    }
}

// The first byte of a literal.
fn gap(b: u8) -> Mode
    ensures { result ≡ gap_mode b }
{
    match b {
        b'-' => Mode::Minus,
        b'0' => Mode::Zero,
        _ => leading(false, b),
    }
}

// After the digits of v: a blank, or a further digit if v has at most two.
fn number(negated: bool, v: usize, b: u8) -> Mode
    ensures { result ≡ number_mode negated v b }
{
    match b {
        b' ' => Mode::Gap,
        b'0'..=b'9' => {
            if v < 100 {
                Mode::Number(negated, v * 10 + usize::from(b - b'0'))
            } else {
                Mode::Bad
            }
        }
        _ => Mode::Bad,
    }
}

// What the word of an `s` line comes to.
// Kept out of line, for with it inside `ended` is called at the end of each line, and takes two to three times as long where lines are short.
#[inline(never)]
fn word(w: &[u8]) -> Kind
    ensures { result ≡ line_kind (status_word w.now) }
{
    if w == b"SATISFIABLE".as_slice() {
        Kind::Says(Status::Satisfiable)
    } else if w == b"UNSATISFIABLE".as_slice() {
        Kind::Says(Status::Unsatisfiable)
    } else if w == b"UNKNOWN".as_slice() {
        Kind::Says(Status::Unknown)
    } else {
        Kind::Bad
    }
}

impl Mode {
    // One byte on; next is the place after it.
    pub fn step(self, b: u8, next: usize) -> Mode
        ensures { result ≡ step_mode self b next }
    {
        match self {
            Mode::Start => start(b),
            Mode::LetterC => only_blank(b, Mode::Comment),
            Mode::Comment => Mode::Comment,
            Mode::LetterS => only_blank(b, Mode::Said(next)),
            Mode::Said(from) => Mode::Said(from),
            Mode::LetterV => only_blank(b, Mode::Gap),
            Mode::Gap => gap(b),
            Mode::Minus => leading(true, b),
            Mode::Number(negated, v) => number(negated, v, b),
            Mode::Zero => only_blank(b, Mode::Gap),
            Mode::Bad => Mode::Bad,
        }
    }

    // The literal that ends where a word ends, if one does.
    pub fn literal(self) -> Option<Lit>
        ensures { result ≡ mode_literal self }
    {
        match self {
            Mode::Number(negated, v) => Some(Lit::Var(negated, v)),
            Mode::Zero => Some(Lit::Stop),
            _ => None,
        }
    }

    // The literal that ends at the byte b, if one does.
    pub fn event(self, b: u8) -> Option<Lit>
        ensures { result ≡ ended_literal self b }
    {
        // Kept: two tests, since one match over both bytes takes some percent longer.
        if b == b'\n' {
            return self.literal();
        }
        if b == b' ' {
            return self.literal();
        }
        None
    }

    // What a line comes to that ends at the place i.
    pub fn ended(self, text: &[u8], i: usize) -> Kind
        requires { (i ≤ length text.now) × ModeAt self i }
        ensures { result ≡ mode_kind text.now self i }
    {
        match self {
            Mode::Said(from) => word(&text[from..i]),
            Mode::LetterS | Mode::LetterV | Mode::Gap | Mode::Minus | Mode::Bad => Kind::Bad,
            _ => Kind::Other,
        }
    }
}
