// The marks of taken segments, one for each track and segment (document 01, "The job file": "the marks of taken segments are kept for all of them").
// A mark is 0, or the segment's owner: the net of the connection that took it, or that connection if it is on its own. All that are on a segment have one
// owner.
#![tactic(auto)]

ghost use Rattle.std.specs.Prelude.{◌≡◌, ◌+◌, ◌-◌, ◌≤◌, ◌<◌, replicate};
ghost use Rattle.channel.specs.Limits.{most_tracks, most_segments};
ghost use Rattle.marks.specs.Marking.{mark_bytes, base, free, fits_run, taken_run, Among, first, last, Inside, fits_in, taken_in};

use channel::{Label, MOST_SEGMENTS, MOST_TRACKS};
use occupancy::Table;

const MARKS: usize = MOST_TRACKS * MOST_SEGMENTS;

// Kept: one flat array of the most marks that there can be, 0 for nobody, for an `Option` would take a second byte. There is no heap, and a search copies it whole for each track that fits.
#[derive(Clone, Copy)]
pub struct Marks(pub [u8; MARKS]);

// Whether a segment with this mark is free for an owner: nobody has it, or that owner.
fn is_free(owner: u8, mark: u8) -> bool
    ensures { result ≡ free owner mark }
{
    mark == 0 || mark == owner
}

// Where the marks of the track start.
fn base_of(label: Label) -> usize
    requires { (1 ≤ label.0) × (label.0 ≤ most_tracks) }
    ensures { (result ≡ base label.0) × (result + most_segments ≤ mark_bytes) }
{
    usize::from(channel::code_of(label).0) * MOST_SEGMENTS
}

impl Marks {
    // No segment is taken.
    pub fn none() -> Marks
        ensures { result.0 ≡ replicate mark_bytes 0 }
    {
        Marks([0; MARKS])
    }

    // Whether a connection of this owner, with this first and last segment on the track, fits there beside those that are marked.
    // Kept: a first and a last of any size, here and in `take_run`. `Bounds` holds bytes, and would ask more.
    pub fn fits_run(&self, owner: u8, label: Label, first: usize, last: usize) -> bool
        requires { Among label.0 first last }
        ensures { result ≡ fits_run owner self.now.0 label.0 first last }
    {
        if last < first {
            return false;
        }
        let base = base_of(label);
        self.0[base + first..base + last + 1]
            .iter()
            .all(|mark| is_free(owner, *mark))
    }

    // Takes that run for it.
    pub fn take_run(&mut self, owner: u8, label: Label, first: usize, last: usize)
        requires { Among label.0 first last × (first ≤ last) }
        ensures { self.new.0 ≡ taken_run owner self.old.0 label.0 first last }
    {
        let base = base_of(label);
        self.0[base + first..base + last + 1].fill(owner);
    }

    // Whether connection i + 1 fits on the track beside those that are marked, by the table.
    pub fn fits(&self, table: &Table, i: usize, label: Label) -> bool
        requires { Inside table.now.runs i label.0 }
        ensures { result ≡ fits_in table.now.runs i self.now.0 label.0 }
    {
        let code = channel::code_of(label);
        let first = table.first_in(i, code);
        let last = table.last_in(i, code);
        self.fits_run(table.owner_in(i), label, first, last)
    }

    // Takes the run of connection i + 1 on the track, by the table.
    pub fn take(&mut self, table: &Table, i: usize, label: Label)
        requires { Inside table.now.runs i label.0 × (first table.now.runs i label.0 ≤ last table.now.runs i label.0) }
        ensures { self.new.0 ≡ taken_in table.now.runs i self.old.0 label.0 }
    {
        let code = channel::code_of(label);
        let first = table.first_in(i, code);
        let last = table.last_in(i, code);
        self.take_run(table.owner_in(i), label, first, last);
    }
}
