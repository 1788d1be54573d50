//! What a line gives.
ghost use Rattle.std.specs.Prelude.{◌≡◌};
ghost use Rattle.nfg_decode.specs.Text.{IsText};
ghost use Rattle.nfg_script.specs.declared.line_read.LineError.TheVariants.{Refused, OutOfMemory as NoMemory};

use crate::{Command, Reason};
use std::alloc::{AllocError, AllocFailed};

/// The command of a line, and what stands beside it.
#[derive(Drop)]
pub(crate) struct LineRead<'a> {
    pub command: Command,
    /// The path of a load.
    pub path: &'a str,
    /// The code points of a text.
    pub codes: Vec<u32>,
    /// The name that the line defines.
    pub defines: Option<&'a str>,
    ghost is_text: { IsText codes.items },
}

/// Why a line gives nothing.
#[derive(Clone, Copy, Debug, PartialEq, Eq)]
pub(crate) enum LineError {
    /// The line is no command.
    Refused(Reason),
    /// Want of memory.
    OutOfMemory,
}

impl From<Reason> for LineError {
    ghost from_gives = { λ reason error. error ≡ Refused reason };

    fn from(reason: Reason) -> LineError {
        LineError::Refused(reason)
    }
}

impl From<AllocError> for LineError {
    ghost from_gives = { λ _ error. error ≡ NoMemory };

    fn from(_: AllocError) -> LineError {
        LineError::OutOfMemory
    }
}

impl<T: Drop> From<AllocFailed<T>> for LineError {
    ghost from_gives = { λ _ error. error ≡ NoMemory };

    fn from(_: AllocFailed<T>) -> LineError {
        LineError::OutOfMemory
    }
}
