// A clause line by its number, into a lent buffer. Document 01, "Clause lines", and rows 1 to 5, 9 and 10 of "Replies by number".
// specs/Lined.antt has the lines by their numbers, specs/Writes.antt the answers; the text of a clause is that of crate dimacs.
#![tactic(auto)]

ghost use Rattle.std.specs.Prelude.{◌+◌, ◌-◌, ◌*◌, ◌≤◌, ◌<◌, length};
ghost use Rattle.text.specs.Text.{Wrote, Puts};
ghost use Rattle.dimacs.specs.Lines.{literal_text, literals_text, clause_text, header_text};
ghost use Rattle.channel.specs.Limits.{most_connections, most_bits, most_values};
ghost use Rattle.clauses.specs.Clauses.{forbid, bar};
ghost use Rattle.places.specs.Places.{clause_at, Within};
ghost use Rattle.places.specs.Table.{table_grid};
ghost use Rattle.lines.specs.Lined.{most_line};
ghost use Rattle.lines.specs.OverTable.{Lined};
ghost use Rattle.lines.specs.Writes.{WritesLine};

use jobfile::JobFile;
use occupancy::Table;
use refusals::{Reason, Refusal};
use text::Writer;

// The most bytes of a line, LF included, as specs/Lined.antt has it.
pub const MOST_LINE: usize = 2 * channel::MOST_BITS * 5 + 2;

// A literal: at most four bytes.
fn put_literal(out: &mut Writer, variable: usize, negated: bool)
    requires { out.old.at + 4 ≤ length out.old.buf.now }
    ensures wrote { Puts out.old (literal_text (record { variable = variable; negated = negated })) out.new }
    ensures upper_bound { out.new.at ≤ out.old.at + 4 }
{
    if negated {
        out.put(b'-');
    }
    out.put_digits(variable, 2);
}

// The literals that forbid a code of k bits, each with a blank behind it: at most five bytes each. The highest bit comes first.
fn put_literals(out: &mut Writer, k: u8, variable: usize, code: channel::Code)
    requires k_in_bounds { out.old.at + 5 * k ≤ length out.old.buf.now }
    requires k_bound { variable + k ≤ most_values }
    ensures wrote { Puts out.old (literals_text (forbid k variable code.0)) out.new }
    ensures upper_bound { out.new.at ≤ out.old.at + 5 * k }
{
    if k == 0 {
        return;
    }
    put_literals(out, k - 1, variable, channel::Code(code.0 / 2));
    put_literal(out, variable + usize::from(k - 1), code.0 % 2 == 1);
    out.put(b' ');
}

// The literals that forbid a code to connection i + 1: its variables are i × w + 1 to i × w + w.
fn put_bar(out: &mut Writer, w: u8, i: usize, c: channel::Code)
    requires w_in_bounds { out.old.at + 5 * w ≤ length out.old.buf.now }
    requires w_le_most_bits { w ≤ most_bits }
    requires i_lt_most_connections { i < most_connections }
    ensures wrote { Puts out.old (literals_text (bar w i c.0)) out.new }
    ensures upper_bound { out.new.at ≤ out.old.at + 5 * w }
{
    put_literals(out, w, i * usize::from(w) + 1, c);
}

// The clause at a place, as a line at the front.
fn put_clause(buf: &mut [u8], w: u8, p: places::Place) -> usize
    requires most_line_in_bounds { most_line ≤ length buf.old }
    requires w_le_most_bits { w ≤ most_bits }
    requires within { Within p }
    ensures { Wrote buf.old 0 (clause_text (clause_at w p)) buf.new result }
{
    let mut out = Writer { buf, at: 0 };
    match p {
        places::Place::One(i, c) => put_bar(&mut out, w, i, c),
        places::Place::Two(h, i, c) => {
            put_bar(&mut out, w, h, c);
            put_bar(&mut out, w, i, c);
        }
    }
    out.put_text(b"0\n");
    out.at
}

// Line 0, at the front: `p cnf V C`.
fn put_header(buf: &mut [u8], v: usize, c: usize) -> usize
    requires { most_line ≤ length buf.old }
    ensures { Wrote buf.old 0 (header_text v c) buf.new result }
{
    let mut out = Writer { buf, at: 0 };
    out.put_text(b"p cnf ");
    out.put_digits(v, 9);
    out.put(b' ');
    out.put_digits(c, 9);
    out.put(b'\n');
    out.at
}

// Line n over a table.
fn line_of(table: &Table, n: usize, buf: &mut [u8]) -> Result<usize, Refusal>
    requires { most_line ≤ length buf.old }
    ensures { let s = table.now in Lined (table_grid s.runs s.tracks s.connections) n buf.old result buf.new }
{
    let w = places::size_of(table.tracks).w;
    if n == 0 {
        let c = places::count(table);
        return Ok(put_header(buf, table.connections * usize::from(w), c));
    }
    match places::find(table, n - 1) {
        Ok(place) => Ok(put_clause(buf, w, place)),
        Err(_) => Err(Reason::Absent.at(0)),
    }
}

// Line `number` of the job file, 0 to C, written into the buffer from the front, and its length; or refused, and no byte of the buffer changes.
pub fn line(file: &[u8], number: usize, buffer: &mut [u8]) -> Result<usize, Refusal>
    ensures { WritesLine file.now number buffer.old result buffer.new }
{
    let job = JobFile::read(file)?;
    if buffer.len() < MOST_LINE {
        return Err(Reason::Room.at(0));
    }
    let table = occupancy::table(&job);
    line_of(&table, number, buffer)
}
