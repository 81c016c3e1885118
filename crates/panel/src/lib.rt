// The layout editor's panel: N, T, a list of connections and beside it the load of each column, as one lent array of bytes. Document 02, A2.
// An edit walks the columns that change, and the list once if its connection is a piece of a net; one on its own asks nothing of the list.
#![tactic(auto)]

ghost use Rattle.std.specs.Prelude.{◌≡◌, true, false, ◌&&◌, ◌+◌, ◌≤◌, ◌<◌, leb, MatchResult};
ghost use Rattle.channel.specs.Limits.{most_connections};
ghost use Rattle.loads.specs.Edits.{clear, add, drop, move, edited, good};
ghost use Rattle.state.specs.State.{m_in, list_in};
ghost use Rattle.panel.specs.Does.{Relisted, Becomes, Does, Makes, Signs};

use channel::MOST_CONNECTIONS;
use jobfile::{CONNECTION, within_limits};
use refusals::{Reason, Refusal};
use state::{LIST, LOADS, Piece, STATE, Span, Way, close, count, wipe};

// The columns of a connection, both ends included.
#[derive(Clone, Copy, Debug, PartialEq, Eq)]
struct Columns {
    left: u8,
    right: u8,
    ghost order: { left ≤ right },
}

impl Columns {
    // The columns of connection `number`, among n. Refused by 5 if they are bad.
    #[tactic(auto, unfolding(loads::specs::Edits::good))]
    fn among(n: u8, left: usize, right: usize, number: usize) -> Result<Columns, Refusal>
        ensures { MatchResult result (λ c. (good n left right ≡ true) × (c.left ≡ left) × (c.right ≡ right)) (λ r. (good n left right ≡ false) × (r ≡ record { reason = Reason.Connection; place = number })) }
    {
        if 1 <= left && left <= right && right <= usize::from(n) {
            return Ok(Columns {
                left: left as u8,
                right: right as u8,
            });
        }
        Err(Reason::Connection.at(number))
    }

    fn span(self) -> Span
        ensures { (result.from ≡ self.left) × (result.to ≡ self.right + 1) }
    {
        Span {
            from: usize::from(self.left),
            to: usize::from(self.right) + 1,
        }
    }
}

// The place of connection `number` of m. Refused by 10 for a number that is absent.
fn place(m: usize, number: usize) -> Result<usize, Refusal>
    ensures { MatchResult result (λ i. ((leb 1 number && leb number m) ≡ true) × (i + 1 ≡ number) × (i < m)) (λ r. ((leb 1 number && leb number m) ≡ false) × (r ≡ record { reason = Reason.Absent; place = 0 })) }
{
    if number < 1 || m < number {
        return Err(Reason::Absent.at(0));
    }
    Ok(number - 1)
}

// A connection behind the last, and its loads.
fn append(state: &mut [u8; STATE], m: usize, columns: Columns, mark: u8)
    requires { m < most_connections }
    ensures { m ≡ m_in state.old → Relisted state.old (edited (add (record { left = columns.left; right = columns.right; mark = mark })) (list_in state.old)) state.new }
{
    let piece = Piece { at: m, mark, of: m };
    piece.turn_span(state, columns.span(), Way::Up);
    let at = LIST + CONNECTION * m;
    state[at] = columns.left;
    state[at + 1] = columns.right;
    state[at + 2] = mark;
    state[2] = (m + 1) as u8;
}

// The connection at i taken out, and its loads. Kept, here and in `replace`: m is the number that was counted once.
fn remove(state: &mut [u8; STATE], m: usize, i: usize)
    requires { (m ≤ most_connections) × (i < m) }
    ensures { m ≡ m_in state.old → Relisted state.old (edited (drop (i + 1)) (list_in state.old)) state.new }
{
    let at = LIST + CONNECTION * i;
    let old = Span {
        from: usize::from(state[at]),
        to: usize::from(state[at + 1]) + 1,
    };
    let piece = Piece {
        at: i,
        mark: state[at + 2],
        of: m,
    };
    piece.turn_span(state, old, Way::Down);
    close(state, at, CONNECTION * m);
    state[2] = (m - 1) as u8;
}

// The connection at i with other columns, and its loads.
fn replace(state: &mut [u8; STATE], m: usize, i: usize, columns: Columns)
    requires { (m ≤ most_connections) × (i < m) }
    ensures { m ≡ m_in state.old → Relisted state.old (edited (move (i + 1) columns.left columns.right) (list_in state.old)) state.new }
{
    let at = LIST + CONNECTION * i;
    let from = usize::from(state[at]);
    let old = Span {
        from,
        to: from.max(usize::from(state[at + 1]) + 1),
    };
    let new = columns.span();
    let piece = Piece {
        at: i,
        mark: state[at + 2],
        of: m,
    };
    piece.turn_outside(state, old, new, Way::Down);
    piece.turn_outside(state, new, old, Way::Up);
    state[at] = columns.left;
    state[at + 1] = columns.right;
    state[2] = m as u8;
}

// Makes a state for N and T with no connection. Refused by 2 outside their limits.
pub fn make(state: &mut [u8; STATE], columns: usize, tracks: usize) -> Result<(), Refusal>
    ensures { Makes columns tracks state.old result state.new }
{
    match (u8::try_from(columns), u8::try_from(tracks)) {
        (Ok(n), Ok(t)) if within_limits(n, t, 0, 1) => {
            wipe(state, n, t);
            Ok(())
        }
        _ => Err(Reason::Sizes.at(0)),
    }
}

// Takes all connections out. Never refused.
pub fn clear(state: &mut [u8; STATE])
    ensures { Becomes state.old clear state.new }
{
    let columns = state[0];
    let tracks = state[1];
    wipe(state, columns, tracks);
}

// Appends a connection. Refused by 2 for a full list and by 5, at its number, for bad columns.
pub fn add(state: &mut [u8; STATE], left: usize, right: usize, mark: u8) -> Result<(), Refusal>
    ensures { Does state.old (add (record { left = left; right = right; mark = mark })) result state.new }
{
    let m = count(state);
    if MOST_CONNECTIONS <= m {
        return Err(Reason::Sizes.at(0));
    }
    let columns = Columns::among(state[0], left, right, m + 1)?;
    append(state, m, columns, mark);
    Ok(())
}

// Drops a connection and closes the gap. Refused by 10 for a number that is absent.
pub fn drop(state: &mut [u8; STATE], number: usize) -> Result<(), Refusal>
    ensures { Does state.old (drop number) result state.new }
{
    let m = count(state);
    let i = place(m, number)?;
    remove(state, m, i);
    Ok(())
}

// Changes the columns of a connection in place; it keeps its mark. Refused by 5, at the number, for bad columns and by 10 for a number that is absent.
pub fn shift(
    state: &mut [u8; STATE],
    number: usize,
    left: usize,
    right: usize,
) -> Result<(), Refusal>
    ensures { Does state.old (move number left right) result state.new }
{
    let m = count(state);
    let columns = Columns::among(state[0], left, right, number)?;
    let i = place(m, number)?;
    replace(state, m, i, columns);
    Ok(())
}

// The sign of the panel: the first column whose load exceeds T, at which it is red.
pub fn red(state: &[u8; STATE]) -> Option<usize>
    ensures { Signs state.now result }
{
    for x in 1..usize::from(state[0]) + 1 {
        if state[1] < state[LOADS + x] {
            return Some(x);
        }
    }
    None
}
