//! What one caller knows of a table of words.
use crate::words::Holder;

/// What one caller knows of a `WordTable`. When the program runs it is the range of its unspent code words and a hint.
#[derive(Drop)]
pub struct WordPass {
    pub(crate) holder: Holder,
    // The first unspent code word, and the code word after the last one.
    pub(crate) unspent: usize,
    pub(crate) end: usize,
    // The chunks before this one were found taken.
    pub(crate) tried: usize,
    // Unused bytes, so that the fields that a call writes stand on no cache line (of 64 bytes) with those of a pass beside it,
    // which another thread may use.
    pub(crate) apart: [u64; 8],
}
