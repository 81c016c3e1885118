// The file of a job as code holds it: bytes that keep every rule, with what their trailer tells of the sizes.
ghost use Rattle.jobfile.specs.Facts.{Facts, SizesOf, fact_props};

// N, T, M, K.
#[derive(Clone, Copy, Debug, PartialEq, Eq)]
pub struct Sizes {
    pub columns: u8,
    pub tracks: u8,
    pub connections: u8,
    pub limit: u8,
}

// The lent bytes of a job's file, and what their trailer tells. The facts are the type's own: `JobFile::read` finds them.
#[derive(Clone, Copy)]
pub struct JobFile<'a> {
    pub bytes: &'a [u8],
    pub sizes: Sizes,
    ghost facts: { Facts bytes.now } by { Prim.hlevel fact_props },
    ghost told: { SizesOf bytes.now sizes } by { Prim.hlevel fact_props },
}
