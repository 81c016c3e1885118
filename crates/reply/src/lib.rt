// The answer to a solver's reply: a legal routing's labels if its model is one of the job's clauses, what it claims, or the first row of the
// table that holds. Document 01, "A solver's reply" and rows 1 to 9 of "Replies by number". specs/Replies.antt has the answers.
#![tactic(auto)]

ghost use Rattle.std.specs.Prelude.{◌≡◌, ◌+◌, ◌*◌, ◌≤◌, ◌<◌, length};
ghost use Rattle.channel.specs.Limits.{most_connections, most_codes};
ghost use Rattle.jobfile.specs.Rows.{m_of, job_of};
ghost use Rattle.model.specs.Codes.{set_in};
ghost use Rattle.model.specs.Walks.{Below};
ghost use Rattle.reply.specs.Steps.{LabelsPut, Weighs, Answered};
ghost use Rattle.reply.specs.Replies.{Replies};

use channel::{Code, MOST_CONNECTIONS, MOST_VALUES};
use jobfile::JobFile;
use refusals::{Reason, Refusal};
use scan::Variables;

// What a reply comes to. Claimed and Unknown are the solver's word, and say nothing of the job.
#[derive(Clone, Copy, Debug, PartialEq, Eq)]
pub enum Answer {
    Accepted,
    Claimed,
    Unknown,
}

// The labels of m codes; behind them nothing changes.
// Kept: an index into the codes, since the loop over both slices by `zip` did not prove; m is how many of the array are codes.
fn write_labels(codes: &[Code; MOST_CONNECTIONS], m: usize, labels: &mut [u8])
    requires m_le_most_connections { m ≤ most_connections }
    requires m_in_bounds { m ≤ length labels.old }
    requires below { Below most_codes m codes.now }
    ensures { LabelsPut m codes.now labels.old labels.new }
{
    for (i, label) in labels[..m].iter_mut().enumerate() {
        *label = channel::label_of(codes[i]).0;
    }
}

// Row 8, by the marks of the model's variables; and the labels, if it does not hold.
fn weigh(job: &JobFile, marks: &[u8; MOST_VALUES], labels: &mut [u8]) -> Result<(), Refusal>
    requires { m_of job.now.bytes.now ≤ length labels.old }
    ensures { Weighs (job_of job.now.bytes.now) (set_in marks.now) labels.old result labels.new }
{
    let table = occupancy::table(job);
    let size = places::size_of(table.tracks);
    let codes = model::codes_of(marks, usize::from(size.w), table.connections);
    if let Err(place) = model::first_false(&table, &codes) {
        return Err(Reason::Clause.at(place));
    }
    write_labels(&codes, table.connections, labels);
    Ok(())
}

// Rows 6, 7 and 8, in this order.
fn by_text(job: &JobFile, text: &[u8], labels: &mut [u8]) -> Result<Answer, Refusal>
    requires { m_of job.now.bytes.now ≤ length labels.old }
    ensures { Answered (job_of job.now.bytes.now) text.now labels.old result labels.new }
{
    let size = places::size_of(job.sizes.tracks);
    let variables = Variables {
        count: usize::from(job.sizes.connections) * usize::from(size.w),
    };
    let reading = reader::read_all(text, variables);
    match reading.answer {
        Err(place) => Err(Reason::Text.at(place)),
        Ok(scan::Answer::Claimed) => Ok(Answer::Claimed),
        Ok(scan::Answer::Unknown) => Ok(Answer::Unknown),
        Ok(scan::Answer::Sat(count)) => {
            if let Some(wrong) = reading.wrong {
                return Err(Reason::Literals.at(wrong));
            }
            if count < variables.count {
                return Err(Reason::Literals.at(count + 1));
            }
            weigh(job, &reading.seen, labels)?;
            Ok(Answer::Accepted)
        }
    }
}

// The answer, for every file, every text and every lent buffer: rows 1 to 5, then 9, then 6 to 8.
pub fn reply(file: &[u8], text: &[u8], labels: &mut [u8]) -> Result<Answer, Refusal>
    ensures { Replies file.now text.now labels.old result labels.new }
{
    let job = JobFile::read(file)?;
    if labels.len() < usize::from(job.sizes.connections) {
        return Err(Reason::Room.at(0));
    }
    by_text(&job, text, labels)
}
