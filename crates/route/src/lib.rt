// The router: the first routing in track order and the need, or the verdict that a budget allows.
// Document 01, "Trials and need": placing a connection means trying its tracks in order, and a track that fits leads on to placing the next connection.
#![tactic(auto)]

ghost use Rattle.std.specs.Prelude.{◌≡◌, ◌+◌, ◌≤◌, ◌<◌, length};
ghost use Rattle.jobfile.specs.Rows.{m_of, job_of};
ghost use Rattle.route.specs.Cut.{CutTo, Laid, placing, trying};
ghost use Rattle.route.specs.Routes.{Judged, Routes, RoutesJob};

use channel::Label;
use jobfile::JobFile;
use marks::Marks;
use occupancy::Table;
use refusals::{Reason, Refusal};

// The verdict on a job, with the reported trials.
#[derive(Clone, Copy, Debug, PartialEq, Eq)]
pub enum Verdict {
    Routed(u32),
    Unroutable(u32),
    Undecided(u32),
}

// How a search below some connection ends: all are placed, or none can be, each with what is left of the budget; or the budget is spent.
// Kept: three ways to end, and a `Result` has two.
#[derive(Clone, Copy)]
enum Step {
    Found(u32),
    Dead(u32),
    Spent,
}

// Kept: two functions that call one another, this one and the next, as document 01 has the search.
// Places connection i + 1 and those after it beside what is marked. The labels are written once all are placed.
#[cycle(place_connection_try_tracks_from)]
fn place_connection(table: &Table, labels: &mut [u8], i: usize, marks: Marks, budget: u32) -> Step
    requires { Laid table.now × (i ≤ table.now.connections) × (table.now.connections ≤ length labels.old) }
    ensures { CutTo budget i (placing table.now i marks.0) labels.old result labels.new }
{
    if i == table.connections {
        Step::Found(budget)
    } else {
        try_tracks_from(table, labels, i, Label(1), marks, budget)
    }
}

// Tries the tracks from a label on for connection i + 1, each of them a trial, and those after it below each that fits.
#[cycle(place_connection_try_tracks_from)]
fn try_tracks_from(
    table: &Table,
    labels: &mut [u8],
    i: usize,
    from: Label,
    marks: Marks,
    budget: u32,
) -> Step
    requires { Laid table.now × (i < table.now.connections) × (table.now.connections ≤ length labels.old) × (1 ≤ from.0) × (from.0 ≤ table.now.tracks + 1) }
    ensures { CutTo budget i (trying table.now i marks.0 from.0) labels.old result labels.new }
{
    let mut left = budget;
    for t in from.0..table.tracks + 1 {
        if left == 0 {
            return Step::Spent;
        }
        left -= 1;
        if marks.fits(table, i, Label(t)) {
            let mut next = marks;
            next.take(table, i, Label(t));
            match place_connection(table, labels, i + 1, next, left) {
                Step::Found(rest) => {
                    labels[i] = t;
                    return Step::Found(rest);
                }
                Step::Dead(rest) => left = rest,
                Step::Spent => return Step::Spent,
            }
        }
    }
    Step::Dead(left)
}

// The verdict on a file that was read, with room for its labels.
fn decide(job: &JobFile, budget: u32, labels: &mut [u8]) -> Verdict
    requires { m_of job.now.bytes.now ≤ length labels.old }
    ensures { Judged (job_of job.now.bytes.now) budget labels.old result labels.new }
{
    let table = occupancy::table(job);
    match place_connection(&table, labels, 0, Marks::none(), budget) {
        Step::Found(left) => Verdict::Routed(budget - left),
        Step::Dead(left) => Verdict::Unroutable(budget - left),
        Step::Spent => Verdict::Undecided(budget),
    }
}

// The answer to a file that was read, of which row 9 alone may hold.
pub fn route_job(job: &JobFile, budget: u32, labels: &mut [u8]) -> Result<Verdict, Refusal>
    ensures { RoutesJob job.now.bytes.now budget labels.old result labels.new }
{
    if labels.len() < usize::from(job.sizes.connections) {
        return Err(Reason::Room.at(0));
    }
    Ok(decide(job, budget, labels))
}

// Routes the job of a file, for every byte string: the labels of the first routing, or why there are none.
pub fn route(file: &[u8], budget: u32, labels: &mut [u8]) -> Result<Verdict, Refusal>
    ensures { Routes file.now budget labels.old result labels.new }
{
    route_job(&JobFile::read(file)?, budget, labels)
}
