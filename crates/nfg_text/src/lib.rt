//! Text, its normal form, its grapheme clusters, and the laws that hold of them.
#![tactic(auto)]

pub use breaks::{Kind, Memory, cluster_ends};
pub use list::{ByteList, CodeList, EndList};
pub use normal::{append_nfc, compose_pair, is_plain, is_text, nfc_of, starts_safely};

mod breaks;
pub mod laws;
mod list;
mod neighbors;
mod normal;
mod plain_table;
mod properties;
mod property_table;
#[cfg(test)]
mod tests;
