//! Operations on strings.
#![tactic(auto)]

mod candidate;
mod cut;
mod occurrence;
mod order;
mod part;
mod search;
mod spelled;
mod step;
mod suffix;
mod walk;

pub use order::{compare, equal};
pub use part::{SubError, substring};
pub use search::{index, rindex};
pub use spelled::{append_codes, codes};

#[cfg(test)]
mod search_tests;
#[cfg(test)]
mod tests;
