// The table of first and last occupied segments, and of who owns what a connection takes.
ghost use Rattle.std.specs.Prelude.{◌≤◌};
ghost use Rattle.channel.specs.Limits.{most_tracks, most_connections};

use channel::{MOST_CONNECTIONS, MOST_TRACKS};

// Where the owners stand in the table: behind two bytes for each connection and track. And how many bytes it has.
pub const OWNERS: usize = 2 * (MOST_CONNECTIONS * MOST_TRACKS);

pub const RUNS: usize = OWNERS + MOST_CONNECTIONS;

// Two bytes for each connection and track and one for each connection, with T and M.
// Kept: one array of the most bytes that there can be, for there is no heap; a cell is two bytes, and a last segment before the first says barred.
#[derive(Clone, Copy)]
pub struct Table {
    pub runs: [u8; RUNS],
    pub tracks: u8,
    pub connections: usize,
    ghost few_tracks: { tracks ≤ most_tracks },
    ghost few_connections: { connections ≤ most_connections },
}
