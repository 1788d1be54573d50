//! Why a command isn't done.
ghost use Rattle.std.specs.Prelude.{◌≡◌};
ghost use Rattle.nfg_work.specs.declared.stop.Stop.TheVariants.{OutOfMemory as NoMemory};

use crate::Cause;
use std::alloc::AllocError;

/// Why a command isn't done.
#[derive(Clone, Copy, Debug, PartialEq, Eq)]
pub(crate) enum Stop {
    /// Its line is refused.
    Refused(Cause),
    /// Every place of the table holds another text.
    RowFull,
    /// The table has no room left for code points.
    NoPortion,
    /// Want of memory.
    OutOfMemory,
}

impl From<AllocError> for Stop {
    ghost from_gives = { λ _ error. error ≡ NoMemory };

    fn from(_: AllocError) -> Stop {
        Stop::OutOfMemory
    }
}
