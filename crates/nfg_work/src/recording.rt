//! A table that notes the text which the table behind it refuses.
ghost use Rattle.std.specs.Prelude.{◌≡◌, ◌≢◌, ◌↔◌, ◌⊎◌, ◌<◌, ℕ, List, [], negsuc, length, slice_get, Some, IsSome, IfSome, IfOk, OnErr};
ghost use Rattle.nfg_syn.specs.Seen.{Keeps, SameCounts};
ghost use Rattle.nfg_syn.specs.Known.{IsSame, IsInternable, MapsBesides, text_at, crlf};
ghost use Rattle.nfg_work.specs.Recording.{recorded};

use nfg_syn::{InternError, Synthetics};
use nfg_text::CodeList;
use std::alloc::Global;

/// A table that notes the text which the table behind it refuses.
#[derive(Clone, Copy)]
pub(crate) struct Recording<'t, T> {
    pub(crate) table: &'t T,
}

/// A pass of the table behind, and the text that was refused for want of places.
#[derive(Drop)]
pub(crate) struct RecordingPass<P> {
    pub(crate) pass: P,
    /// Empty where no text was refused.
    pub(crate) refused: CodeList,
}

/// Notes a text that was refused. Want of memory comes in place of the refusal where it can't be noted, or
/// another text is noted already.
fn note(alloc: Global, refused: &mut CodeList, codes: &[u32]) -> InternError
    ensures noted { result ≡ InternError.RowFull → refused.new ≡ codes.now }
    ensures kept { (refused.new ≡ refused.old) ⊎ (refused.old ≡ []) }
    ensures place { result ≢ InternError.NoPortion }
{
    if !refused.is_empty() {
        return if refused.as_slice() == codes {
            InternError::RowFull
        } else {
            InternError::OutOfMemory
        };
    }
    match CodeList::from_slice(alloc, codes) {
        Ok(text) => {
            *refused = text;
            InternError::RowFull
        }
        Err(_) => InternError::OutOfMemory,
    }
}

impl<T: Synthetics> Synthetics for Recording<'_, T> {
    type Pass = RecordingPass<T::Pass>;

    ghost size = { λ table. T.size table.table.now };

    ghost seen = { λ pass. recorded (T.seen pass.pass) pass.refused };

    ghost is_of = { λ table pass. T.is_of table.table.now pass.pass };

    fn capacity(&self) -> u32 {
        self.table.capacity()
    }

    fn intern(
        &self,
        alloc: Global,
        pass: &mut RecordingPass<T::Pass>,
        codes: &[u32],
    ) -> Result<i32, InternError> {
        match self.table.intern(alloc, &mut pass.pass, codes) {
            Ok(n) => Ok(n),
            Err(InternError::RowFull) => Err(note(alloc, &mut pass.refused, codes)),
            Err(error) => Err(error),
        }
    }

    fn count(&self, pass: &mut RecordingPass<T::Pass>, n: i32) -> usize {
        self.table.count(&mut pass.pass, n)
    }

    fn code(&self, pass: &mut RecordingPass<T::Pass>, n: i32, k: usize) -> u32 {
        self.table.code(&mut pass.pass, n, k)
    }

    ghost row_size = { λ table pass of_table. T.row_size table.table.now pass.pass of_table };

    ghost knows = { λ table pass of_table. T.knows table.table.now pass.pass of_table };

    ghost full_means = { λ table pass t of_table full. T.full_means table.table.now pass.pass t of_table full.0 };
}
