//! What a reading fills.

/// Where a name of the header stands in the text. Two numbers and no slice, so that a strip of them outlives the text.
#[derive(Clone, Copy, Debug, PartialEq, Eq)]
pub struct Span {
    pub start: usize,
    pub len: usize,
}

/// How many places of each lent strip a reading filled. Slices of them would hide from a caller what the rest holds.
#[derive(Clone, Copy, Debug, PartialEq, Eq)]
pub struct Counts {
    pub names: usize,
    pub rows: usize,
}
