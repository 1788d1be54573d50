//! Strings of graphemes are joined and repeated, and the seams repaired.
#![tactic(auto)]

mod copies;
mod error;
mod joining;
mod left_end;
#[cfg(test)]
mod pair_tests;
mod repeated_pairs;
mod repeated_seams;
mod repeated_string;
mod repeated_text;
mod repeating;
#[cfg(test)]
mod repeating_tests;
mod right_end;
mod seam;
mod spelled_text;
mod splicing;
#[cfg(test)]
mod tests;

pub use error::SeamError;
pub use joining::concat;
pub use repeating::repeat;
