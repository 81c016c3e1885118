// House parts: their tables, and the writer of a part's job file. Document 01, "House part P1". What is written here of P1 alone are its numbers and its
// tables; the rest takes any part.
#![tactic(auto)]

ghost use Rattle.std.specs.Prelude.{◌≡◌, [], ◌+◌, ◌*◌, ◌≤◌, ◌<◌, length};
ghost use Rattle.facts.specs.Tells.{Tells};
ghost use Rattle.text.specs.Text.{Wrote, Puts};
ghost use Rattle.channel.specs.Limits.{most_segments};
ghost use Rattle.jobfile.specs.File.{track_bytes, joined, two, trailer_bytes};
ghost use Rattle.part.specs.Part.{tracks_in, ends_of, flag_of, tracks_of};
ghost use Rattle.part.specs.P1.{p1};
ghost use Rattle.part.specs.Writes.{Takes, Writes, file_of, told};

mod held;

pub use held::Part;
use jobfile::{CONNECTION, HEAD, Sizes, TRAILER, bad_connection, within_limits};
use refusals::{Reason, Refusal};
use text::Writer;

// P1's columns, tracks and right ends.
pub const P1_COLUMNS: u8 = 30;

pub const P1_TRACKS: usize = 8;

pub const P1_RIGHT_ENDS: usize = 34;

// P1's right ends, track after track, and where each track starts among them.
const P1_ENDS: [u8; P1_RIGHT_ENDS] = [
    5, 10, 15, 20, 25, 30, 5, 10, 15, 20, 25, 30, 5, 10, 15, 20, 25, 30, 5, 10, 15, 20, 25, 30, 10,
    20, 30, 10, 20, 30, 15, 30, 15, 30,
];

const P1_STARTS: [usize; P1_TRACKS + 1] = [0, 6, 12, 18, 24, 27, 30, 32, 34];

// P1. The last two of its tracks are performance tracks.
pub const P1: Part<'static> = Part {
    columns: P1_COLUMNS,
    plain: P1_TRACKS - 2,
    starts: &P1_STARTS,
    ends: &P1_ENDS,
};

// A track's record: number of segments, performance flag, right ends.
fn put_track(out: &mut Writer, flag: u8, ends: &[u8])
    requires ends_len_bound { length ends.now ≤ most_segments }
    requires ends_in_bounds { out.old.at + 2 + length ends.now ≤ length out.old.buf.now }
    ensures { Puts out.old (track_bytes (record { flag = flag; ends = ends.now })) out.new }
{
    out.put(ends.len() as u8);
    out.put(flag);
    out.put_text(ends);
}

// A two-byte field, low byte first.
fn put_two(out: &mut Writer, d: usize)
    requires d_bound { d < 65536 }
    requires at_in_bounds { out.old.at + 2 ≤ length out.old.buf.now }
    ensures { Puts out.old (two d []) out.new }
{
    out.put_text(&(d as u16).to_le_bytes());
}

// The trailer, at the end of both sections: the distances back to the tracks and to the connections, then the numbers.
fn put_trailer(out: &mut Writer, size: usize, sizes: Sizes)
    requires at_bound { out.old.at < 65536 }
    requires size_bound { size < 65536 }
    requires at_in_bounds { out.old.at + 8 ≤ length out.old.buf.now }
    ensures { Puts out.old (trailer_bytes out.old.at size sizes.columns sizes.tracks sizes.connections sizes.limit) out.new }
{
    put_two(out, out.at);
    put_two(out, size);
    out.put_text(&[sizes.columns, sizes.tracks, sizes.connections, sizes.limit]);
}

impl Part<'_> {
    // How many tracks the part has.
    fn tracks(&self) -> u8
        ensures { result ≡ tracks_in (told self.now).table }
    {
        (self.starts.len() - 1) as u8
    }

    // The right ends of the track with code t.
    fn ends_of(&self, t: usize) -> &[u8]
        requires { t < tracks_in (told self.now).table }
        ensures { result.now ≡ ends_of (told self.now).table t }
    {
        &self.ends[self.starts[t]..self.starts[t + 1]]
    }

    // The performance flag of the track with code t.
    fn flag_of(&self, t: usize) -> u8
        ensures { result ≡ flag_of (told self.now).table t }
    {
        u8::from(self.plain <= t)
    }

    // The track section.
    fn put_tracks(&self, out: &mut Writer)
        requires { out.old.at + (2 * tracks_in (told self.now).table + length self.now.ends.now) ≤ length out.old.buf.now }
        ensures { Puts out.old (joined track_bytes (tracks_of (told self.now).table)) out.new }
    {
        for t in 0..usize::from(self.tracks()) {
            put_track(out, self.flag_of(t), self.ends_of(t));
        }
    }

    // The whole file, from the front.
    fn put_file(&self, buf: &mut [u8], connections: &[u8], k: u8) -> usize
        requires takes { Takes self.now.columns (tracks_in (told self.now).table) (length connections.now) k }
        requires connections_in_bounds { 2 * tracks_in (told self.now).table + length self.now.ends.now + length connections.now + 8 ≤ length buf.old }
        ensures { Wrote buf.old 0 (file_of (told self.now) connections.now k) buf.new result }
    {
        let size = connections.len();
        let sizes = Sizes {
            columns: self.columns,
            tracks: self.tracks(),
            connections: (size / CONNECTION) as u8,
            limit: k,
        };
        let mut out = Writer { buf, at: 0 };
        self.put_tracks(&mut out);
        out.put_text(connections);
        put_trailer(&mut out, size, sizes);
        out.at
    }

    // Whether so many bytes are a multiple of 3, and N, T, M and K are within their limits. M is not cut to a byte.
    fn takes(&self, size: usize, k: u8) -> bool
        ensures { Tells result (Takes self.now.columns (tracks_in (told self.now).table) size k) }
    {
        size % CONNECTION == 0 && within_limits(self.columns, self.tracks(), size / CONNECTION, k)
    }

    // The writer of a part's job: its connections' bytes and K to the job file. It refuses by 2, 5 and 9, and then changes no byte. A K above a byte is above
    // its limit.
    pub fn write(&self, connections: &[u8], limit: u32, buffer: &mut [u8]) -> Result<usize, Refusal>
        ensures { Writes (told self.now) connections.now limit buffer.old result buffer.new }
    {
        let Ok(k) = u8::try_from(limit) else {
            return Err(Reason::Sizes.at(0));
        };
        let size = connections.len();
        if !self.takes(size, k) {
            return Err(Reason::Sizes.at(0));
        }
        if let Some(bad) = bad_connection(connections, self.columns, size / CONNECTION, 0) {
            return Err(Reason::Connection.at(bad));
        }
        if buffer.len() < HEAD * usize::from(self.tracks()) + self.ends.len() + size + TRAILER {
            return Err(Reason::Room.at(0));
        }
        Ok(self.put_file(buffer, connections, k))
    }
}

// The writer of P1's job.
pub fn write_p1(connections: &[u8], limit: u32, buffer: &mut [u8]) -> Result<usize, Refusal>
    ensures { Writes p1 connections.now limit buffer.old result buffer.new }
{
    P1.write(connections, limit, buffer)
}
