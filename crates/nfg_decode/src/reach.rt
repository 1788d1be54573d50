//! How far a reading came.

/// The first `at` bytes were decoded. Behind them no sequence can begin, whatever bytes follow, or an
/// unfinished one does.
#[derive(Clone, Copy, Debug)]
pub(crate) struct Reach {
    pub(crate) at: usize,
    pub(crate) is_malformed: bool,
}
