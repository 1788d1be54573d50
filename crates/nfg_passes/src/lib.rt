//! Flat passes over a text: ids of its code points, whether it is its own NFC, and where its clusters end.
#![tactic(auto)]

mod automaton;
mod clusters;
mod id_blocks;
mod id_table;
mod ids;
pub mod laws;
mod rows;
#[cfg(test)]
mod tests;
mod unsettled;

pub use automaton::{START, mark_breaks};
pub use clusters::{ends_of, mark_settled, settled_ends};
pub use ids::{id_of, ids_of};
pub use unsettled::first_unsettled;
