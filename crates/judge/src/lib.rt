// The judge of a routing that somebody brings: legal, or refused by the file's rows or by row 11.
// Document 01, "Channel, connection, legal", and row 11 of "Replies by number". specs/Judges.antt has the row and the judgements.
#![tactic(auto)]

ghost use Rattle.std.specs.Prelude.{◌≡◌, length, MatchResult};
ghost use Rattle.refusals.specs.Table.{Searched};
ghost use Rattle.refusals.specs.Refusal.{RefusedBy};
ghost use Rattle.channel.specs.Routing.{Routing};
ghost use Rattle.jobfile.specs.Rows.{m_of, job_of};
ghost use Rattle.judge.specs.Judges.{RoutingKept, judge_rows, Judges};

use channel::Label;
use jobfile::JobFile;
use marks::Marks;
use refusals::{Reason, Refusal};

// The first connection whose label is outside 1 to T, barred, or collides with an earlier one.
// The marks are those of the connections before it, so that each label is asked once. Of the table of occupied segments only one cell a connection is
// wanted, that of its label's track, so no table is made.
fn bad_label(job: &JobFile, labels: &[u8]) -> Option<usize>
    requires { length labels.now ≡ m_of job.now.bytes.now }
    ensures { Searched (RoutingKept job.now.bytes.now labels.now) result }
{
    let heads = job.starts();
    let mut marks = Marks::none();
    for (i, &label) in labels.iter().enumerate() {
        let number = i + 1;
        if label < 1 {
            return Some(number);
        }
        if job.sizes.tracks < label {
            return Some(number);
        }
        let run = occupancy::bounds_on(job, &heads, Label(label), i);
        let first = usize::from(run.first);
        let last = usize::from(run.last);
        let owner = occupancy::owner_on(job, i);
        if !marks.fits_run(owner, Label(label), first, last) {
            return Some(number);
        }
        marks.take_run(owner, Label(label), first, last);
    }
    None
}

// The judgement on labels for a file that was read, of which row 11 alone may hold.
pub fn judge_job(job: &JobFile, labels: &[u8]) -> Result<(), Refusal>
    ensures { let f = job.now.bytes.now in MatchResult result (λ _. Routing (job_of f) labels.now) (RefusedBy (judge_rows f labels.now)) }
{
    if labels.len() != usize::from(job.sizes.connections) {
        return Err(Reason::Routing.at(0));
    }
    match bad_label(job, labels) {
        Some(bad) => Err(Reason::Routing.at(bad)),
        None => Ok(()),
    }
}

// The judgement, for every byte string and all labels: a legal routing of the file's job, or why it is none.
pub fn judge(file: &[u8], labels: &[u8]) -> Result<(), Refusal>
    ensures { Judges file.now labels.now result }
{
    judge_job(&JobFile::read(file)?, labels)
}
