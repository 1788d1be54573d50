//! What a job has given, ahead of the answers.
use nfg_strand::NString;
use std::cmp::Ordering;

/// What a job has given, ahead of the answers.
#[derive(Drop)]
pub(crate) enum Outcome {
    /// Nothing yet: the command is no job, or it was put off or refused.
    Nothing,
    /// The string of the name that the command defines.
    Made(NString),
    /// The place that was found, in graphemes.
    Found(Option<u64>),
    /// Whether two texts are canonically equivalent.
    Compared(bool),
    /// The order of two texts.
    Ordered(Ordering),
}
