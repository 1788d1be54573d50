//! Synthetics: negative numbers that stand for grapheme clusters of several code points.
//!
//! A grapheme is a number. A cluster of one code point is that code point; a longer one is interned
//! in a table, which gives it a negative number, the same one each time. A pass is what one caller
//! knows of one table.
#![tactic(auto)]

mod hash_chains;
pub mod laws;
mod own_table;
mod shared;
mod span;
mod spelling;
mod synthetics;
#[cfg(test)]
mod tests;
mod text_list;

pub use own_table::{OwnPass, OwnTable};
pub use shared::{Refused, Shared};
pub use spelling::append_cluster;
pub use synthetics::{InternError, Synthetics};
