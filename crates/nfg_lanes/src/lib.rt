//! Searches, comparisons and copies of graphemes by vectors, each equal to its plain definition.
#![tactic(auto)]

mod ascii;
mod block;
mod common;
mod first;
#[cfg(test)]
mod tests;
mod width;

pub use ascii::ascii_run;
pub use common::{common_back32, common_front_mixed, common_front8, common_front32};
pub use first::{first_equal8, first_equal32};
pub use width::{narrow, narrow_fits, widen};
