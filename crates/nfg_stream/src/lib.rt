//! Files become strings of graphemes in one pass, in pieces.
#![tactic(auto)]

mod collected;
#[cfg(test)]
mod cut_tests;
mod error;
#[cfg(test)]
mod loads;
mod longer;
#[cfg(test)]
mod longer_tests;
mod numbering;
mod numbers;
mod reader;
#[cfg(test)]
mod rows;
#[cfg(test)]
mod spelled;
mod stream;
#[cfg(test)]
mod tests;
mod whole;
#[cfg(test)]
mod width_tests;

pub use error::LoadError;
pub use stream::DecodeStream;
pub use whole::string_of;
