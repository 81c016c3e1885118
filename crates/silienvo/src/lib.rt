// The exports for C: each public entry on numbers and slices, with an answer of plain numbers. include/silienvo.h says the same in plain words.
// A slice passes as a pointer and a length. No function has a precondition.
#![tactic(auto)]

ghost use Rattle.std.specs.Prelude.{◌≡◌};
ghost use Rattle.loads.specs.Edits.{clear, add, drop, move};
ghost use Rattle.panel.specs.Does.{Becomes};
ghost use Rattle.silienvo.specs.Exports.{job_given, sign_given, ReadSays, RouteSays, JudgeSays, RowsSays, LineSays, ReplySays, PartSays, EditSays, MakeSays, DoesSays, RedSays, PanelRouteSays};
ghost use Rattle.silienvo.specs.Fits.{ReadFits};

mod answers;

use answers::{answer, numbered};
use jobfile::Sizes;
use refusals::Refusal;
use state::STATE;

// An answer: kind 0 is a refusal with its number, and its place as the value. Other kinds and their values are listed at each function.
// Kept: plain numbers, for C reads them.
#[repr(C)]
#[derive(Clone, Copy)]
pub struct SilienvoAnswer {
    pub kind: u32,
    pub number: u32,
    pub value: u64,
}

// What a job file is: kind 1 with N, T, M, K and where its connections stand; kind 0 is a refusal with its number and place.
// Kept: plain numbers, for C reads them.
#[repr(C)]
#[derive(Clone, Copy)]
pub struct SilienvoJob {
    pub kind: u32,
    pub number: u32,
    pub place: u64,
    pub columns: u32,
    pub tracks: u32,
    pub connections: u32,
    pub limit: u32,
    pub start: u64,
    pub length: u64,
}

// The reader's answer to a file of so many bytes, as numbers.
fn job_given(length: usize, r: Result<Sizes, Refusal>) -> SilienvoJob
    requires { ReadFits length r }
    ensures { result ≡ job_given length r }
{
    match r {
        Ok(sizes) => {
            let part = jobfile::CONNECTION * usize::from(sizes.connections);
            SilienvoJob {
                kind: 1,
                number: 0,
                place: 0,
                columns: u32::from(sizes.columns),
                tracks: u32::from(sizes.tracks),
                connections: u32::from(sizes.connections),
                limit: u32::from(sizes.limit),
                start: (length - jobfile::TRAILER - part) as u64,
                length: part as u64,
            }
        }
        Err(refusal) => SilienvoJob {
            kind: 0,
            number: u32::from(refusal.number()),
            place: refusal.place as u64,
            columns: 0,
            tracks: 0,
            connections: 0,
            limit: 0,
            start: 0,
            length: 0,
        },
    }
}

// A panel's colour as numbers.
fn sign_given(red: Option<usize>) -> SilienvoAnswer
    ensures { result ≡ sign_given red }
{
    match red {
        None => numbered(1, 0),
        Some(column) => numbered(2, column as u64),
    }
}

// Reads a job file.
#[unsafe(no_mangle)]
pub extern "C" fn silienvo_read(file: &[u8]) -> SilienvoJob
    ensures { ReadSays file.now result }
{
    job_given(file.len(), jobfile::read_job(file))
}

// Routes a job file under a budget: kind 1 Routed, 2 Unroutable, 3 Undecided, with the reported trials.
#[unsafe(no_mangle)]
pub extern "C" fn silienvo_route(file: &[u8], budget: u32, labels: &mut [u8]) -> SilienvoAnswer
    ensures { RouteSays file.now budget labels.old result labels.new }
{
    answer(route::route(file, budget, labels))
}

// Judges a brought routing: kind 1 Legal.
#[unsafe(no_mangle)]
pub extern "C" fn silienvo_judge(file: &[u8], labels: &[u8]) -> SilienvoAnswer
    ensures { JudgeSays file.now labels.now result }
{
    answer(judge::judge(file, labels))
}

// The lines of a brought routing: kind 1, with the text's length.
#[unsafe(no_mangle)]
pub extern "C" fn silienvo_rows(file: &[u8], labels: &[u8], text: &mut [u8]) -> SilienvoAnswer
    ensures { RowsSays file.now labels.now text.old result text.new }
{
    answer(rows::rows(file, labels, text))
}

// Line `number` of the clause export, 0 to C: kind 1, with the line's length.
#[unsafe(no_mangle)]
pub extern "C" fn silienvo_line(file: &[u8], number: u64, buffer: &mut [u8]) -> SilienvoAnswer
    ensures { LineSays file.now number buffer.old result buffer.new }
{
    answer(lines::line(file, number as usize, buffer))
}

// Reads a solver's reply: kind 1 Accepted, 2 Claimed, 3 Unknown.
#[unsafe(no_mangle)]
pub extern "C" fn silienvo_reply(file: &[u8], text: &[u8], labels: &mut [u8]) -> SilienvoAnswer
    ensures { ReplySays file.now text.now labels.old result labels.new }
{
    answer(reply::reply(file, text, labels))
}

// Writes the job file of P1 with these connections, three bytes each, and the limit K: kind 1, with the file's length.
#[unsafe(no_mangle)]
pub extern "C" fn silienvo_p1_write(
    connections: &[u8],
    limit: u32,
    buffer: &mut [u8],
) -> SilienvoAnswer
    ensures { PartSays connections.now limit buffer.old result buffer.new }
{
    answer(part::write_p1(connections, limit, buffer))
}

// Routes P1 with these connections, records of three bytes, and the limit K under a budget: kind 1 Routed, 2 Unroutable, 3 Undecided, with the reported trials.
#[unsafe(no_mangle)]
pub extern "C" fn silienvo_p1_route(
    connections: &[editor::Connection],
    limit: u32,
    budget: u32,
    labels: &mut [u8],
) -> SilienvoAnswer
    ensures { EditSays connections.now limit budget labels.old result labels.new }
{
    answer(editor::route_p1(connections, limit, budget, labels))
}

// Makes a panel for N and T with no connection: kind 1.
#[unsafe(no_mangle)]
pub extern "C" fn silienvo_panel_make(
    panel: &mut [u8; STATE],
    columns: u64,
    tracks: u64,
) -> SilienvoAnswer
    ensures { MakeSays columns tracks panel.old result panel.new }
{
    answer(panel::make(panel, columns as usize, tracks as usize))
}

// Takes all connections out of a panel.
#[unsafe(no_mangle)]
pub extern "C" fn silienvo_panel_clear(panel: &mut [u8; STATE])
    ensures { Becomes panel.old clear panel.new }
{
    panel::clear(panel)
}

// Appends a connection: kind 1.
#[unsafe(no_mangle)]
pub extern "C" fn silienvo_panel_add(
    panel: &mut [u8; STATE],
    left: u64,
    right: u64,
    mark: u8,
) -> SilienvoAnswer
    ensures { DoesSays panel.old (add (record { left = left; right = right; mark = mark })) result panel.new }
{
    answer(panel::add(panel, left as usize, right as usize, mark))
}

// Drops a connection and closes the gap: kind 1.
#[unsafe(no_mangle)]
pub extern "C" fn silienvo_panel_drop(panel: &mut [u8; STATE], number: u64) -> SilienvoAnswer
    ensures { DoesSays panel.old (drop number) result panel.new }
{
    answer(panel::drop(panel, number as usize))
}

// Changes the columns of a connection in place: kind 1.
#[unsafe(no_mangle)]
pub extern "C" fn silienvo_panel_move(
    panel: &mut [u8; STATE],
    number: u64,
    left: u64,
    right: u64,
) -> SilienvoAnswer
    ensures { DoesSays panel.old (move number left right) result panel.new }
{
    answer(panel::shift(panel, number as usize, left as usize, right as usize))
}

// The colour of a panel: kind 1 green, kind 2 red at the column that is its value.
#[unsafe(no_mangle)]
pub extern "C" fn silienvo_panel_red(panel: &[u8; STATE]) -> SilienvoAnswer
    ensures { RedSays panel.now result }
{
    sign_given(panel::red(panel))
}

// Routes a panel's list on P1: kinds as for a file.
#[unsafe(no_mangle)]
pub extern "C" fn silienvo_panel_p1_route(
    panel: &[u8; STATE],
    limit: u32,
    budget: u32,
    labels: &mut [u8],
) -> SilienvoAnswer
    ensures { PanelRouteSays panel.now limit budget labels.old result labels.new }
{
    answer(editor::route_panel(panel, limit, budget, labels))
}
