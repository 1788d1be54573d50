//! Why a script is refused.
ghost use Rattle.std.specs.Prelude.{◌≡◌};
ghost use Rattle.nfg_script.specs.declared.error.ScriptError.TheVariants.{OutOfMemory as NoMemory};

use std::alloc::AllocError;

/// Why a line is refused, in the order in which the reasons are looked for.
#[derive(Clone, Copy, Debug, PartialEq, Eq)]
pub enum Reason {
    /// The first word is no command.
    BadCommand,
    /// The number of words doesn't fit the command.
    WordCount,
    /// A name isn't 1 to 64 ASCII letters, digits and `_`.
    BadName,
    /// An earlier line defines the name that this line defines.
    NameTaken,
    /// No earlier line defines a name that this line uses.
    UnknownName,
    /// A number isn't 1 to 20 decimal digits with a value below 2^64.
    BadNumber,
    /// An encoding isn't one of `utf8`, `utf16`, `utf16le`, `utf16be`, `latin1`.
    BadEncoding,
    /// A code point isn't 1 to 6 hexadecimal digits whose value is a scalar value.
    BadCodePoint,
}

/// Why a script is refused.
#[derive(Clone, Copy, Debug, PartialEq, Eq)]
pub enum ScriptError {
    /// It has over 2^20 bytes or over 10,000 lines.
    TooLong,
    /// It isn't UTF-8. `at` is the offset of the first byte of the first malformed sequence.
    Malformed { at: u64 },
    /// The line, counted from 1, is the first that is no command, for this reason.
    Line { line: u32, reason: Reason },
    /// Want of memory.
    OutOfMemory,
}

impl From<AllocError> for ScriptError {
    ghost from_gives = { λ _ error. error ≡ NoMemory };

    fn from(_: AllocError) -> ScriptError {
        ScriptError::OutOfMemory
    }
}
