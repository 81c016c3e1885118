// What a model makes of a job's clauses: the codes that its variables spell, and the first clause that these codes make false.
// Document 01, "Clause lines" and row 8 of "Replies by number". The clauses are walked row by row as in crate places: at most one clause of a row is
// false, the one that forbids the code of the row's connection.
#![tactic(auto)]

ghost use Rattle.std.specs.Prelude.{◌≡◌, ◌+◌, ◌-◌, ◌*◌, ◌^◌, ◌≤◌, ◌<◌};
ghost use Rattle.channel.specs.Limits.{most_connections, most_bits, most_values};
ghost use Rattle.channel.specs.Label.{code};
ghost use Rattle.clauses.specs.Clauses.{bits_for};
ghost use Rattle.places.specs.Places.{places_of};
ghost use Rattle.places.specs.Table.{table_grid};
ghost use Rattle.model.specs.Codes.{code_from, Codes};
ghost use Rattle.model.specs.Walks.{Brings, Below, Other};

use channel::{Code, MOST_CONNECTIONS, MOST_VALUES};
use occupancy::Table;
use places::{Row, count_to};

// The code that w variables from v on spell, the highest bit first.
fn code_at(marks: &[u8; MOST_VALUES], v: usize, w: usize) -> Code
    requires w_le_most_bits { w ≤ most_bits }
    requires w_bound { v + w ≤ most_values }
    ensures { result ≡ code (code_from marks.now v w) }
{
    let mut code: u8 = 0;
    for mark in &marks[v..v + w] {
        code = code * 2 + u8::from(*mark == 1);
    }
    Code(code)
}

// The codes of m connections, w bits each.
// Kept: no heap, so they stand at the front of an array for the most connections; any w and m within the limits are taken, as they were.
pub fn codes_of(marks: &[u8; MOST_VALUES], w: usize, m: usize) -> [Code; MOST_CONNECTIONS]
    requires w_le_most_bits { w ≤ most_bits }
    requires m_le_most_connections { m ≤ most_connections }
    ensures { Codes marks.now w m result }
{
    let mut codes = [Code(0); MOST_CONNECTIONS];
    for (i, code) in codes[..m].iter_mut().enumerate() {
        *code = code_at(marks, i * w + 1, w);
    }
    codes
}

// The other connection of a row in group 3; the row's own elsewhere.
fn other(row: Row, m: usize) -> usize
    requires { (row.stage < m + 2) × (row.i < m) }
    ensures { Other m row result }
{
    if row.stage < 2 {
        return row.i;
    }
    row.stage - 2
}

// How many clauses there are, if the codes of the connections make none false; or the number, from 1, of the first that they do, row after row.
pub fn first_false(table: &Table, codes: &[Code; MOST_CONNECTIONS]) -> Result<usize, usize>
    requires { let s = table.now in Below (2 ^ bits_for s.tracks) s.connections codes.now }
    ensures { let s = table.now in Brings codes.now (places_of (table_grid s.runs s.tracks s.connections)) result }
{
    let size = places::size_of(table.tracks);
    let mut k: usize = 0;
    for stage in 0..table.connections + 2 {
        for i in 0..table.connections {
            let row = Row { stage, i };
            let h = other(row, table.connections);
            let c = codes[i];
            let d = codes[h];
            if (d.0 == c.0) & places::is_forbidden(table, row, c) {
                return Err(k + count_to(table, row, c.0) + 1);
            }
            k += count_to(table, row, size.top);
        }
    }
    Ok(k)
}
