// The reader over a solver's reply: it keeps the lent text and the place reached in it. Document 01, "A solver's reply".
#![tactic(auto)]

ghost use Rattle.std.specs.Prelude.{◌≡◌, drop};
ghost use Rattle.scan.specs.Marks.{Done};

use scan::{Reading, Variables};

// The lent text, and the place reached in it.
#[derive(Clone, Copy)]
pub struct Reader<'a> {
    pub text: &'a [u8],
    pub at: usize,
}

impl<'a> Reader<'a> {
    // At the start of a text.
    pub fn new(text: &'a [u8]) -> Reader<'a>
        ensures { (result.text ≡ text.entry) × (result.at ≡ 0) }
    {
        Reader { text, at: 0 }
    }

    // The reply from the place reached on. Behind the end of the text nothing stands.
    pub fn read_on(self, variables: Variables) -> Reading
        ensures { Done (drop self.entry.at self.entry.text.now) variables.count result.answer result.wrong result.seen }
    {
        let at = self.at.min(self.text.len());
        scan::read(&self.text[at..], variables)
    }
}

// The whole reply: what `scan::read` says of it.
pub fn read_all(text: &[u8], variables: Variables) -> Reading
    ensures { Done text.now variables.count result.answer result.wrong result.seen }
{
    Reader::new(text).read_on(variables)
}
