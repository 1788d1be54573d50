//! Strings of graphemes as strands over shared blocks.
#![tactic(auto)]

mod cut;
mod flat;
mod graphemes;
mod join;
mod piece;
mod place;
mod search;
mod source;
mod strand;
mod string;

pub use graphemes::Graphemes;
pub use piece::Piece;
pub use string::NString;

#[cfg(test)]
mod tests;
