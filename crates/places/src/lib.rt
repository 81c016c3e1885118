// The places of a job's clauses, row after row in the order of document 01, "Clause lines": the clause with a number, and how many there are.
// A row is a stage and a connection; its places are the codes that are forbidden there. Whoever goes over the clauses goes over the stages, and in each
// over the connections.
#![tactic(auto)]

ghost use Rattle.std.specs.Prelude.{◌≡◌, ℕ, ◌+◌, ◌-◌, ◌*◌, ◌^◌, ◌≤◌, ◌<◌, length};
ghost use Rattle.channel.specs.Limits.{most_tracks, most_connections};
ghost use Rattle.clauses.specs.Clauses.{bits_for};
ghost use Rattle.places.specs.Places.{place_at, places_of, FoundAt, Sized};
ghost use Rattle.places.specs.Table.{shut, due, table_grid, forbidden_in, table_row, many_clauses};
ghost use Rattle.places.specs.Rows.{Limited, Reach, LiesIn, NthIn};

use channel::{Code, MOST_CODES, MOST_CONNECTIONS};
use occupancy::Table;

// More clauses than there can be, as specs/Table.antt has it.
const MANY: usize = (MOST_CONNECTIONS + 2) * (MOST_CONNECTIONS * MOST_CODES);

// A clause's place: a connection, counted from 0, and the code that it forbids; or two connections and the code.
#[derive(Clone, Copy, Debug, PartialEq, Eq)]
pub enum Place {
    One(usize, Code),
    Two(usize, usize, Code),
}

// How many bits a code has, and how many codes there are.
#[derive(Clone, Copy, Debug, PartialEq, Eq)]
pub struct Size {
    pub w: u8,
    pub top: u8,
}

// Stage 0 is group 1, stage 1 group 2, and stage h + 2 has connection h + 1 in group 3, with each connection i + 1 behind it.
#[derive(Clone, Copy, Debug, PartialEq, Eq)]
pub struct Row {
    pub stage: usize,
    pub i: usize,
}

// Where a number lies: in a row, behind so many of its places.
#[derive(Clone, Copy, Debug, PartialEq, Eq)]
pub struct Spot {
    pub row: Row,
    pub rest: usize,
}

// w and 2^w for t tracks: doubled from one bit on until t codes have room.
// Kept: a `while`, for it ends by the doubled number and counts up to none; t is asked to be within the limit, for no table is needed here.
pub fn size_of(t: u8) -> Size
    requires { t ≤ most_tracks }
    ensures { Sized t result.w result.top }
{
    let mut w: u8 = 1;
    let mut top: u8 = 2;
    while top < t {
        w += 1;
        top *= 2;
    }
    Size { w, top }
}

// Whether the code c is barred for connection i + 1.
fn is_shut(table: &Table, i: usize, c: Code) -> bool
    requires { (i < most_connections) × (c.0 < most_tracks) }
    ensures { result ≡ shut table.now.runs i c.0 }
{
    table.last_in(i, c) < table.first_in(i, c)
}

// Whether a clause is due for connections h + 1 and i + 1 on the track with the code c: both runs are there, they have a segment in common, and two owners.
fn is_due(table: &Table, h: usize, i: usize, c: Code) -> bool
    requires { (h < most_connections) × (i < most_connections) × (c.0 < most_tracks) }
    ensures { result ≡ due table.now.runs h i c.0 }
{
    let a = table.first_in(h, c);
    let e = table.last_in(h, c);
    let b = table.first_in(i, c);
    let d = table.last_in(i, c);
    let apart = table.owner_in(h) != table.owner_in(i);
    (h < i) & ((((a <= d) & (b <= e)) & apart) & (!(e < a) & !(d < b)))
}

// Whether a row behind stage 0 has a clause for the code c of a track.
fn is_forbidden_on(table: &Table, row: Row, c: Code) -> bool
    requires { (1 ≤ row.stage) × Limited row × (c.0 < most_tracks) }
    ensures { (t : ℕ) → c.0 < t → result ≡ forbidden_in table.now.runs t row c.0 }
{
    if row.stage == 1 {
        return is_shut(table, row.i, c);
    }
    is_due(table, row.stage - 2, row.i, c)
}

// Whether a row has a clause for the code c.
pub fn is_forbidden(table: &Table, row: Row, c: Code) -> bool
    requires { Limited row }
    ensures { result ≡ forbidden_in table.now.runs table.now.tracks row c.0 }
{
    if row.stage == 0 {
        return table.tracks <= c.0;
    }
    if table.tracks <= c.0 {
        return false;
    }
    is_forbidden_on(table, row, c)
}

// Where the tracks' codes of a row below n end: at once where the row's connection is not behind the stage's.
fn reach(t: u8, row: Row, n: u8) -> u8
    requires { row.i < most_connections }
    ensures { Reach t row n result }
{
    if row.i + 2 <= row.stage {
        return 0;
    }
    t.min(n)
}

// How many places of a row have a code below n. Stage 0 has just the codes that no track has. The loop has no way out but its end and no test of the
// track, and counts in a byte, so that several codes can be tested at once.
// Kept: a loop, for `filter` and `count` over the range took almost twice the time.
pub fn count_to(table: &Table, row: Row, n: u8) -> usize
    requires { Limited row }
    ensures { (result ≡ length (table_row table.now.runs table.now.tracks row n)) × (result ≤ n) }
{
    let end = reach(table.tracks, row, n);
    if row.stage == 0 {
        return usize::from(n - end);
    }
    let mut k: u8 = 0;
    for c in 0..end {
        if is_forbidden_on(table, row, Code(c)) {
            k += 1;
        }
    }
    usize::from(k)
}

// The row in which the place with the number n lies, from 0, with what is left of n there; or by how many n lies behind the last place.
pub fn seek(table: &Table, n: usize) -> Result<Spot, usize>
    ensures { let s = table.now in LiesIn (table_grid s.runs s.tracks s.connections) n result }
{
    let size = size_of(table.tracks);
    let mut rest = n;
    for stage in 0..table.connections + 2 {
        for i in 0..table.connections {
            let row = Row { stage, i };
            let here = count_to(table, row, size.top);
            if rest < here {
                return Ok(Spot { row, rest });
            }
            rest -= here;
        }
    }
    Err(rest)
}

// The code of a row's place n, from 0.
// Kept: a count in the loop; `filter` and `nth` are no plainer, for what they find would still have to be there.
pub fn code_in(table: &Table, row: Row, n: usize) -> Code
    requires limited { Limited row }
    requires n_in_bounds { let s = table.now in n < length (table_row s.runs s.tracks row (2 ^ bits_for s.tracks)) }
    ensures { NthIn table.now.runs table.now.tracks row n result.0 }
{
    let mut k = n;
    for c in 0..size_of(table.tracks).top {
        if is_forbidden(table, row, Code(c)) {
            if k == 0 {
                return Code(c);
            }
            k -= 1;
        }
    }
    unreachable!()
}

// The place of a code in a row.
pub fn place_at(row: Row, c: Code) -> Place
    ensures { result ≡ place_at row.stage row.i c.0 }
{
    if row.stage < 2 {
        return Place::One(row.i, c);
    }
    Place::Two(row.stage - 2, row.i, c)
}

// The place of the clause with the number n, from 0, or by how many n lies behind the last.
pub fn find(table: &Table, n: usize) -> Result<Place, usize>
    ensures { let s = table.now in FoundAt (places_of (table_grid s.runs s.tracks s.connections)) n result }
{
    let spot = seek(table, n)?;
    Ok(place_at(spot.row, code_in(table, spot.row, spot.rest)))
}

// The number of clauses: a number behind the last tells it.
pub fn count(table: &Table) -> usize
    ensures { let s = table.now in (result ≡ length (places_of (table_grid s.runs s.tracks s.connections))) × (result ≤ many_clauses) }
{
    match seek(table, MANY) {
        Ok(_) => unreachable!(),
        Err(past) => MANY - past,
    }
}
