// The editor's entry for P1: a lent list of connections, or of their bytes, routed as the file with those connections is.
// Document 01, "The job file". The connections are copied to the bytes that the core reads.
#![tactic(auto)]

ghost use Rattle.std.specs.Prelude.{◌≡◌};
ghost use Rattle.facts.specs.Tells.{Tells};
ghost use Rattle.part.specs.P1.{p1};
ghost use Rattle.editor.specs.Edits.{Edits, RoutesList};
ghost use Rattle.editor.specs.Panels.{OfPart, RoutesPanel};

use channel::MOST_CONNECTIONS;
pub use jobfile::Connection;
use jobfile::{CONNECTION, HEAD, TRAILER};
use part::{P1_COLUMNS, P1_RIGHT_ENDS, P1_TRACKS, write_p1};
use refusals::{Reason, Refusal};
use route::{Verdict, route};
use state::{LIST, STATE, count};

// The bytes of the most connections, and of P1's file with them.
const BYTES: usize = CONNECTION * MOST_CONNECTIONS;

const FILE: usize = HEAD * P1_TRACKS + P1_RIGHT_ENDS + BYTES + TRAILER;

// Routes P1 with the connections that these bytes tell, three bytes each. The writer refuses by 2 and 5, or writes P1's file, and that is routed. The buffer
// holds the file of the most connections, so the writer never refuses by 9.
pub fn route_list(
    connections: &[u8],
    limit: u32,
    budget: u32,
    labels: &mut [u8],
) -> Result<Verdict, Refusal>
    ensures { RoutesList connections.now limit budget labels.old result labels.new }
{
    let mut file = [0; FILE];
    let size = write_p1(connections, limit, &mut file)?;
    route(&file[..size], budget, labels)
}

// The editor's entry: more than the most connections are refused by 2, and else their bytes are routed.
pub fn route_p1(
    connections: &[Connection],
    limit: u32,
    budget: u32,
    labels: &mut [u8],
) -> Result<Verdict, Refusal>
    ensures { Edits connections.now limit budget labels.old result labels.new }
{
    if MOST_CONNECTIONS < connections.len() {
        return Err(Reason::Sizes.at(0));
    }
    let mut bytes = [0; BYTES];
    for (i, c) in connections.iter().enumerate() {
        let at = CONNECTION * i;
        // Kept: three stores. A `copy_from_slice` of three bytes asks at each whether what it copies lies in what it writes.
        bytes[at] = c.left;
        bytes[at + 1] = c.right;
        bytes[at + 2] = c.mark;
    }
    route_list(
        &bytes[..CONNECTION * connections.len()],
        limit,
        budget,
        labels,
    )
}

// Whether N and T are those of P1.
fn is_p1(n: u8, t: u8) -> bool
    ensures { Tells result (OfPart p1 n t) }
{
    n == P1_COLUMNS && usize::from(t) == P1_TRACKS
}

// Routes a panel's list on P1. A panel of another shape is refused by 2.
pub fn route_panel(
    state: &[u8; STATE],
    limit: u32,
    budget: u32,
    labels: &mut [u8],
) -> Result<Verdict, Refusal>
    ensures { RoutesPanel state.now limit budget labels.old result labels.new }
{
    if !is_p1(state[0], state[1]) {
        return Err(Reason::Sizes.at(0));
    }
    let end = LIST + CONNECTION * count(state);
    route_list(&state[LIST..end], limit, budget, labels)
}
