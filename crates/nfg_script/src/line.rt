//! A line of an accepted script.
ghost use Rattle.nfg_decode.specs.Text.{IsText};

use crate::Command;

/// A command with its line.
#[derive(Drop)]
pub(crate) struct Line {
    pub number: u32,
    pub command: Command,
    pub path: String,
    pub codes: Vec<u32>,
    ghost is_text: { IsText codes.items },
}
