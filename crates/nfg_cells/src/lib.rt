//! A table of synthetics on cells that are set once, which callers on several threads share.
#![tactic(auto)]

mod cell_table;
mod meet;
mod naming;
mod place;
mod probe;
mod read;
mod row;
mod tally;
#[cfg(test)]
mod tests;

pub use cell_table::{CellPass, CellTable};
