//! Code points to bytes: UTF-8, UTF-16 and Latin-1.
#![tactic(auto)]

mod code;
mod encode;
mod error;
pub mod laws;
mod part;
#[cfg(test)]
mod tests;

pub use encode::encode_into;
pub use error::EncodeError;
