//! Blocks of graphemes, in cells of 8 bits where each of them fits, and of 32 bits otherwise.
#![tactic(auto)]

mod block;
mod run;
#[cfg(test)]
mod tests;

pub use block::Block;
pub use run::{Run, RunCells};
