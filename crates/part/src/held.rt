// A house part as code holds it.
ghost use Rattle.jobfile.specs.Facts.{fact_props};
ghost use Rattle.part.specs.Part.{part_of, PartRule};

// Columns 1 to N, and the tracks as a table: how many of them, the first, are no performance tracks; where the right ends of each track start, and behind the
// last of these the table's length; the right ends. The rule: N is within its limits, and each track keeps the rule of a track.
// Kept: starts beside ends, the form that document 01 names for a part: const tables with starts beside them.
#[derive(Clone, Copy)]
pub struct Part<'a> {
    pub columns: u8,
    pub plain: usize,
    pub starts: &'a [usize],
    pub ends: &'a [u8],
    ghost rule: { PartRule (part_of columns plain starts.now ends.now) } by { Prim.hlevel fact_props },
}
