//! Why a text was not encoded.

use std::error::Error;
use std::fmt;

/// Why a text was not encoded.
#[derive(Debug, Drop)]
pub enum EncodeError {
    /// The encoding lacks a code point: `at` is the index of the first such, in code points. Only
    /// Latin-1 lacks any, those above FF.
    Unencodable { at: usize },
    /// No memory for the bytes.
    OutOfMemory,
}

impl fmt::Display for EncodeError {
    fn fmt<W: fmt::Write>(&self, f: &mut fmt::Formatter<W>) -> fmt::Result {
        match self {
            EncodeError::Unencodable { at } => write!(f, "not encodable at code point {at}"),
            EncodeError::OutOfMemory => write!(f, "out of memory"),
        }
    }
}

impl Error for EncodeError {}
