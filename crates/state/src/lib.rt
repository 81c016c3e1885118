// The panel's state as one lent array of bytes, and the walks over its loads: the columns of a span counted up or down where no other piece of a net is. Document 02, A2.
#![tactic(auto)]

ghost use Rattle.std.specs.Prelude.{◌≡◌, ◌&&◌, not, ◌+◌, ◌*◌, ◌≤◌, length};
ghost use Rattle.channel.specs.Limits.{most_columns, most_connections};
ghost use Rattle.jobfile.specs.Rows.{connection_size};
ghost use Rattle.state.specs.State.{state_bytes, empty_panel, m_in};
ghost use Rattle.state.specs.Walks.{in_span, one_net, other_over, SetDown, turn, Turned, Closed};

use channel::{MOST_CONNECTIONS, net_of};
use jobfile::CONNECTION;

// N, T and the number of connections; then the connections; then a load for each of the columns 0 to 255, of which 0 is never used.
pub const LIST: usize = 3;

pub const LOADS: usize = LIST + CONNECTION * MOST_CONNECTIONS;

const COLUMNS: usize = 256;

pub const STATE: usize = LOADS + COLUMNS;

// The columns from `from` up to, not including, `to`.
#[derive(Clone, Copy, Debug, PartialEq, Eq)]
pub struct Span {
    pub from: usize,
    pub to: usize,
}

// Which way a load is counted.
#[derive(Clone, Copy, Debug, PartialEq, Eq)]
pub enum Way {
    Up,
    Down,
}

// A connection in its list: its place, or where it will stand, its mark, and how many connections the list has.
#[derive(Clone, Copy, Debug, PartialEq, Eq)]
pub struct Piece {
    pub at: usize,
    pub mark: u8,
    pub of: usize,
    ghost few: { of ≤ most_connections },
}

// The number of connections: a byte above the most reads as the most.
pub fn count(state: &[u8; STATE]) -> usize
    ensures { (result ≡ m_in state.now) × (result ≤ most_connections) × (length state.now ≡ state_bytes) }
{
    MOST_CONNECTIONS.min(usize::from(state[2]))
}

// No connection, and every load 0, for N and T.
pub fn wipe(state: &mut [u8; STATE], n: u8, t: u8)
    ensures { state.new ≡ empty_panel n t }
{
    *state = [0u8; STATE];
    state[0] = n;
    state[1] = t;
}

#[tactic(auto, unfolding(crate::specs::Walks::one_net))]
fn is_one_net(a: u8, b: u8) -> bool
    ensures { result ≡ one_net a b }
{
    0 < net_of(a) && net_of(a) == net_of(b)
}

// The bytes behind a connection move down over it, up to the last connection's place.
pub fn close(state: &mut [u8; STATE], from: usize, to: usize)
    requires { (from ≤ to) × (to ≤ connection_size * most_connections) }
    ensures { Closed from to state.old state.new }
{
    state.copy_within(from + CONNECTION..to + CONNECTION, from);
}

impl Way {
    // A load counted down or up; at 0 and at its most it stays, which no load of a list does.
    fn turned(self, load: u8) -> u8
        ensures { result ≡ turn self load }
    {
        match self {
            Way::Up => load.saturating_add(1),
            Way::Down => load.saturating_sub(1),
        }
    }
}

impl Piece {
    // How far the other pieces of its net reach, each set down at its left column or at `left` if that is later.
    fn reaches(self, state: &[u8; STATE], left: usize) -> [u8; COLUMNS]
        requires { left ≤ most_columns }
        ensures { SetDown state.now self.of self.at left self.mark result }
    {
        let mut reach = [0u8; COLUMNS];
        for i in 0..self.of {
            let at = LIST + CONNECTION * i;
            if i != self.at && is_one_net(state[at + 2], self.mark) {
                let y = usize::from(state[at]).max(left);
                // Kept in this order: what is set down where both are equal does not wait for what was read.
                reach[y] = state[at + 1].max(reach[y]);
            }
        }
        reach
    }

    // The loads of the span's columns are turned where no other piece of its net is.
    pub fn turn_span(self, state: &mut [u8; STATE], span: Span, way: Way)
        requires { span.to ≤ most_columns + 1 }
        ensures { Turned (λ x. in_span span.from span.to x && not (other_over state.old self.of self.at self.mark x)) way state.old state.new }
    {
        let first = span.from.max(1);
        if span.to <= first {
            return;
        }
        // Kept: two loops. One on its own is beside no piece, and its loop has no test, so that a machine turns many loads at once.
        if net_of(self.mark) == 0 {
            for x in first..span.to {
                state[LOADS + x] = way.turned(state[LOADS + x]);
            }
            return;
        }
        let reach = self.reaches(state, first);
        // Kept: `far` is no byte, since a byte would be widened in each turn, one step more from turn to turn.
        let mut far = 0usize;
        for x in first..span.to {
            far = far.max(usize::from(reach[x]));
            if far < x {
                state[LOADS + x] = way.turned(state[LOADS + x]);
            }
        }
    }

    // The same for the columns of one span that are not of another.
    pub fn turn_outside(self, state: &mut [u8; STATE], span: Span, out: Span, way: Way)
        requires { (span.to ≤ most_columns + 1) × (out.from ≤ out.to) }
        ensures { Turned (λ x. (in_span span.from span.to x && not (in_span out.from out.to x)) && not (other_over state.old self.of self.at self.mark x)) way state.old state.new }
    {
        let before = Span {
            from: span.from,
            to: span.to.min(out.from),
        };
        let behind = Span {
            from: span.from.max(out.to),
            to: span.to,
        };
        self.turn_span(state, before, way);
        self.turn_span(state, behind, way);
    }
}
