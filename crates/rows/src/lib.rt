// The lines of a routing: connection, track, first and last occupied segment.
// Document 01, "Numbers to hold against it": the lines of the connections. specs/Rows.antt has them, specs/Lines.antt the answers for a brought routing.
#![tactic(auto)]

ghost use Rattle.std.specs.Prelude.{◌+◌, ◌*◌, ◌≤◌, length};
ghost use Rattle.text.specs.Text.{Puts};
ghost use Rattle.channel.specs.Routing.{Routing};
ghost use Rattle.jobfile.specs.Rows.{job_of};
ghost use Rattle.rows.specs.Rows.{row_room, row_text, rows_text};
ghost use Rattle.rows.specs.Lines.{Lines};

use channel::Label;
use jobfile::JobFile;
use refusals::{Reason, Refusal};
use text::Writer;

// How many digits a number below 1,000 has at most, less one.
pub const SMALL: u8 = 2;

// Room for a connection's line.
pub const ROW: usize = 16;

// A connection's line: connection, track, first and last occupied segment.
fn put_row(out: &mut Writer, i: usize, label: usize, first: usize, last: usize)
    requires { out.old.at + row_room ≤ length out.old.buf.now }
    ensures wrote { Puts out.old (row_text i label first last) out.new }
    ensures upper_bound { out.new.at ≤ out.old.at + row_room }
{
    out.put_digits(i, SMALL);
    out.put(b' ');
    out.put_digits(label, SMALL);
    out.put(b' ');
    out.put_digits(first, SMALL);
    out.put(b' ');
    out.put_digits(last, SMALL);
    out.put(b'\n');
}

// The lines of the connections on the tracks of a routing, in order: only between crates, for it has a `requires`. Of the table of occupied segments
// only one cell a connection is wanted, that of its label's track, so no table is made. A cell's segments are counted from 0, a line's from 1.
pub fn put_rows(out: &mut Writer, job: &JobFile, labels: &[u8])
    requires { Routing (job_of job.now.bytes.now) labels.now × (out.old.at + length labels.now * row_room ≤ length out.old.buf.now) }
    ensures wrote { Puts out.old (rows_text (job_of job.now.bytes.now) labels.now (length labels.now)) out.new }
    ensures upper_bound { out.new.at ≤ out.old.at + length labels.now * row_room }
{
    let heads = job.starts();
    for (i, &label) in labels.iter().enumerate() {
        let run = occupancy::bounds_on(job, &heads, Label(label), i);
        let first = usize::from(run.first) + 1;
        let last = usize::from(run.last) + 1;
        put_row(out, i + 1, usize::from(label), first, last);
    }
}

// Writes the lines of a brought routing to the front of the text, and tells their length. The rest stays; a refusal changes nothing.
pub fn rows(file: &[u8], labels: &[u8], text: &mut [u8]) -> Result<usize, Refusal>
    ensures { Lines file.now labels.now text.old result text.new }
{
    let job = JobFile::read(file)?;
    if text.len() < usize::from(job.sizes.connections) * ROW {
        return Err(Reason::Room.at(0));
    }
    // Kept: no `?`, so that an edit can plant another place in the refusal and nothing else.
    if let Err(refusal) = judge::judge_job(&job, labels) {
        return Err(refusal);
    }
    let mut out = Writer { buf: text, at: 0 };
    put_rows(&mut out, &job, labels);
    Ok(out.at)
}
