//! Why bytes become no string.
ghost use Rattle.std.specs.Prelude.{◌≡◌};
ghost use Rattle.nfg_stream.specs.declared.error.LoadError.TheVariants.{OutOfMemory as NoMemory};

use std::alloc::AllocError;
use thiserror::Error;

/// Why bytes become no string of graphemes.
#[derive(Clone, Copy, Debug, PartialEq, Eq, Error)]
pub enum LoadError {
    /// The bytes are no text. `at` is the offset of the first byte of the first malformed sequence.
    #[error("malformed at byte {at}")]
    Malformed { at: u64 },
    /// A grapheme cluster has over 1,024 code points. `at` is the first such one, counted from 0.
    #[error("cluster too long at grapheme {at}")]
    ClusterLong { at: u64 },
    /// Every place of the table holds another text.
    #[error("table full")]
    RowFull,
    /// The table has no room left for code points.
    #[error("no room for code points")]
    NoPortion,
    /// Want of memory.
    #[error("out of memory")]
    OutOfMemory,
}

impl From<AllocError> for LoadError {
    ghost from_gives = { λ _ error. error ≡ NoMemory };

    fn from(_: AllocError) -> LoadError {
        LoadError::OutOfMemory
    }
}
