//! A piece: what a reader sees of one strand.

/// A run of graphemes that stands one or more times in a row in a string.
#[derive(Clone, Copy, Debug, PartialEq, Eq)]
pub struct Piece {
    /// How many graphemes the run has, at least 1.
    pub length: u64,
    /// How often the run stands in a row, at least once.
    pub times: u64,
    /// Whether the run lies in a block of 8-bit graphemes.
    pub narrow: bool,
}
