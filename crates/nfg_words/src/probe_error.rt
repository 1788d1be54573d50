//! Why a text got no number.

/// Why a table of words gave a text no number.
#[derive(Clone, Copy, PartialEq, Eq, Debug, Drop)]
pub enum ProbeError {
    /// Every place of the table holds another text.
    RowFull,
    /// No chunk is free, and the pass has no room left for the text.
    NoPortion,
}
