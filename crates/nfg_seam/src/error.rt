//! Why strings are not joined.
ghost use Rattle.std.specs.Prelude.{◌≡◌};
ghost use Rattle.nfg_seam.specs.declared.error.SeamError.TheVariants.{OutOfMemory as NoMemory};

use std::alloc::AllocError;
use thiserror::Error;

/// Why strings of graphemes are not joined, or one is not repeated.
#[derive(Clone, Copy, Debug, PartialEq, Eq, Error)]
pub enum SeamError {
    /// More than 2^26 graphemes would be joined.
    #[error("string too long")]
    TooLong,
    /// A grapheme cluster of the result has over 1,024 code points. `at` is the first such one, counted
    /// from 0.
    #[error("cluster too long at grapheme {at}")]
    ClusterLong { at: u64 },
    /// Every place of the table holds another text.
    #[error("table full")]
    RowFull,
    /// The table has no room left for code points.
    #[error("no room for code points")]
    NoPortion,
    /// Want of memory.
    #[error("out of memory")]
    OutOfMemory,
}

impl From<AllocError> for SeamError {
    ghost from_gives = { λ _ error. error ≡ NoMemory };

    fn from(_: AllocError) -> SeamError {
        SeamError::OutOfMemory
    }
}
