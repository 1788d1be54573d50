//! Bytes to code points, in pieces: UTF-8, UTF-16 and Latin-1.
#![tactic(auto)]

mod encoding;
mod latin1;
pub mod laws;
mod mark;
mod part;
mod reach;
mod reading;
mod state;
mod step;
mod stream;
mod tail;
#[cfg(test)]
mod tests;
mod utf16;
mod utf8;
mod utf8_codes;
mod utf8_steps;

pub use encoding::{DecodeError, Encoding};
pub use stream::ByteStream;
