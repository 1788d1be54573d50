//! What was read for a script, and what the script gives.
use nfg_text::ByteList;

/// What was read for a `load`.
#[derive(Drop)]
pub enum FileRead {
    /// The bytes of the whole file.
    Bytes(ByteList),
    /// The file has over 2^26 bytes, or with all files before it over 2^28.
    TooLong,
    /// The file can't be read.
    Failed,
}

/// Why a line of a script is refused, in the order in which the causes are looked for.
#[derive(Clone, Copy, Debug, PartialEq, Eq)]
pub enum Cause {
    /// The file of a `load` can't be read.
    CannotRead,
    /// The file of a `load` is too long.
    FileTooLong,
    /// The bytes are no text in the encoding. `at` is the offset of the first byte of the first malformed sequence.
    Malformed { at: u64 },
    /// The start of a part is past the end of the string.
    OutOfRange,
    /// The encoding lacks a code point. `at` is the first grapheme with such a one, counted from 0.
    NotEncodable { at: u64 },
    /// A `cat` or a `rep` joins over 2^26 graphemes.
    StringTooLong,
    /// All strings together cost over 2^29: bytes of a `load`, code points of a `text`, graphemes of a `sub` and
    /// of what a `cat` or a `rep` joins.
    AllTooLong,
    /// A grapheme cluster has over 1,024 code points. `at` is the first such one, counted from 0.
    ClusterTooLong { at: u64 },
    /// The clusters of two or more code points, CR LF aside, are more than the places of the table.
    TableFull,
    /// The output would have over 2^28 bytes.
    OutputTooLong,
}

/// The line of a script that is refused.
#[derive(Clone, Copy, Debug, PartialEq, Eq)]
pub struct RefusedLine {
    /// The number of the line, counted from 1.
    pub line: u32,
    pub cause: Cause,
}

/// What a script gives.
#[derive(Drop)]
pub struct Output {
    /// What its commands print.
    pub bytes: ByteList,
    /// The line that ended it, where one was refused.
    pub refused: Option<RefusedLine>,
}
