//! The encodings, and why bytes could not be decoded.

use thiserror::Error;

/// How the bytes of a text spell its code points.
#[derive(Clone, Copy, Debug, PartialEq, Eq)]
pub enum Encoding {
    /// UTF-8 (The Unicode Standard, section 3.9). A byte order mark is a code point like any other.
    Utf8,
    /// UTF-16 (section 3.10): the first two bytes may be a mark, which gives the order of the bytes and is no
    /// part of the text. Without one the high byte of a unit comes first.
    Utf16,
    /// UTF-16LE (section 3.10): the low byte of a unit comes first, and there is no mark.
    Utf16Le,
    /// UTF-16BE (section 3.10): the high byte of a unit comes first, and there is no mark.
    Utf16Be,
    /// ISO/IEC 8859-1: each byte is the code point of the same number.
    Latin1,
}

/// Why bytes were refused.
#[derive(Debug, Error, Drop)]
pub enum DecodeError {
    /// Whatever bytes follow, the text is malformed. `at` is the offset of the first byte of the
    /// first malformed sequence, counted in bytes from the first byte that was fed.
    #[error("malformed at byte {at}")]
    Malformed { at: u64 },
    /// No memory for the code points.
    #[error("out of memory")]
    OutOfMemory,
}
