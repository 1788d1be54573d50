//! What an evaluation keeps between two commands, besides its table.
use nfg_strand::NString;
use nfg_text::ByteList;

/// What an evaluation keeps between two commands.
#[derive(Drop)]
pub(crate) struct Evaluation {
    /// The string of each name, in the order of definitions.
    pub(crate) strings: Vec<NString>,
    /// What all strings have cost.
    pub(crate) spent: u64,
    pub(crate) output: ByteList,
    /// How many loads have been done.
    pub(crate) next_read: usize,
}
