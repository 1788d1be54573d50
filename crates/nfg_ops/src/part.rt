//! A part of a string.

ghost use Rattle.std.specs.Prelude.{◌≡◌, ◌↔◌, ◌<◌, ◌+◌, ℕ, List, min, length, IfOk, Err, slice_range};
ghost use Rattle.nfg_text.specs.Operations.{part_of};
ghost use Rattle.nfg_syn.specs.Known.{Texts};
ghost use Rattle.nfg_syn.specs.Represents.{Represents};
ghost use Rattle.nfg_strand.specs.Pieces.{clipped, at_most_64};

use nfg_strand::NString;
use std::alloc::Global;

/// Why a part of a string is refused.
#[derive(Debug, PartialEq, Eq, Drop)]
pub enum SubError {
    /// The start is past the end of the string.
    OutOfRange,
    /// There was no memory for the strands.
    OutOfMemory,
}

/// The `count` graphemes from `start` on, or as many as the string has there. Nothing is copied,
/// unless the part has more than 64 pieces.
pub fn substring(alloc: Global, a: &NString, start: u64, count: u64) -> Result<NString, SubError>
    ensures graphemes { let end = min (length a.now.graphemes) (start + count) in
        IfOk result (λ s. s.graphemes ≡ slice_range a.now.graphemes start end) }
    ensures pieces { let end = min (length a.now.graphemes) (start + count) in
        IfOk result (λ s. s.pieces ≡ at_most_64 s.graphemes (clipped a.now.pieces start end)) }
    // where the string stands for clusters, the part stands for their part
    ensures represents { (known : Texts) (list : List (List ℕ)) → Represents known a.now.graphemes list
        → IfOk result (λ s. Represents known s.graphemes (part_of list start count)) }
    ensures out_of_range { (result ≡ Err SubError.OutOfRange) ↔ (length a.now.graphemes < start) }
{
    let len = a.len();
    if start > len {
        return Err(SubError::OutOfRange);
    }
    let end = start + count.min(len - start);
    match a.clip(alloc, start, end) {
        Ok(part) => Ok(part),
        Err(_) => Err(SubError::OutOfMemory),
    }
}
