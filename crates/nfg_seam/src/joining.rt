//! Two strings joined.
ghost use Rattle.std.specs.Prelude.{◌≡◌, ◌≤◌, ◌+◌, ℕ, List, length, IfOk, IfErr};
ghost use Rattle.nfg_text.specs.Operations.{concatenation};
ghost use Rattle.nfg_syn.specs.Represents.{Represents, AreGraphemes};
ghost use Rattle.nfg_syn.specs.Seen.{Keeps, SameCounts};
ghost use Rattle.nfg_seam.specs.ConcatPieces.{concat_pieces};
ghost use Rattle.nfg_seam.specs.ConcatNumbers.{front_of, back_of, spliced_numbers, numbers_pieces, IsCountedFrom};
ghost use Rattle.nfg_seam.specs.Made.{HasJoined, length_limit};
ghost use Rattle.nfg_seam.specs.Seam.{IsSeam};
ghost use Rattle.nfg_seam.specs.declared.error.SeamError.{SeamError};

use crate::SeamError;
use crate::repeated_text::number_repeated;
use crate::seam::{Seam, seam_of};
use crate::splicing::spliced;
use nfg_strand::NString;
use nfg_syn::Synthetics;
use std::alloc::Global;

/// The most graphemes that are joined at once.
const LENGTH_LIMIT: u64 = 1 << 26;

/// The most graphemes that are put between two strings.
const MIDDLE_LIMIT: u64 = 1 << 39;

/// The graphemes of the joined text, over numbers of the table.
///
/// Refuses with `TooLong` where both strings together have more than 2^26 graphemes, then with
/// `ClusterLong` at the first cluster of the result of more than 1,024 code points, and then with
/// `RowFull` and `NoPortion` where the table does.
pub fn concat<T: Synthetics>(
    alloc: Global,
    table: &T,
    pass: &mut T::Pass,
    a: &NString,
    b: &NString,
) -> Result<NString, SeamError>
    requires table { T.is_of table.now pass.old }
    requires left { AreGraphemes (T.seen pass.old).known a.now.graphemes }
    requires right { AreGraphemes (T.seen pass.old).known b.now.graphemes }
    ensures table { T.is_of table.now pass.new }
    ensures keeps { Keeps (T.seen pass.old) (T.seen pass.new) }
    ensures counts { SameCounts (T.seen pass.old) (T.seen pass.new) }
    ensures joined { (left right : List (List ℕ))
        → Represents (T.seen pass.old).known a.now.graphemes left
        → Represents (T.seen pass.old).known b.now.graphemes right
        → HasJoined (length left + length right) (concatenation left right)
        (concat_pieces left right a.now.pieces b.now.pieces) (T.seen pass.old) (T.seen pass.new) result }
{
    if a.len() + b.len() > LENGTH_LIMIT {
        return Err(SeamError::TooLong);
    }
    match seam_of(alloc, table, pass, a, b) {
        Ok(seam) => join_at(alloc, table, pass, a, b, &seam),
        Err(_) => Err(SeamError::OutOfMemory),
    }
}

/// The same where the seam is known.
fn join_at<T: Synthetics>(
    alloc: Global,
    table: &T,
    pass: &mut T::Pass,
    a: &NString,
    b: &NString,
    seam: &Seam,
) -> Result<NString, SeamError>
    requires within { length a.now.graphemes + length b.now.graphemes ≤ length_limit }
    requires table { T.is_of table.now pass.old }
    requires left { AreGraphemes (T.seen pass.old).known a.now.graphemes }
    requires right { AreGraphemes (T.seen pass.old).known b.now.graphemes }
    requires seam { (left right : List (List ℕ))
        → Represents (T.seen pass.old).known a.now.graphemes left
        → Represents (T.seen pass.old).known b.now.graphemes right → IsSeam left right seam.now }
    ensures table { T.is_of table.now pass.new }
    ensures keeps { Keeps (T.seen pass.old) (T.seen pass.new) }
    ensures counts { SameCounts (T.seen pass.old) (T.seen pass.new) }
    ensures joined { (left right : List (List ℕ))
        → Represents (T.seen pass.old).known a.now.graphemes left
        → Represents (T.seen pass.old).known b.now.graphemes right
        → HasJoined (length left + length right) (concatenation left right)
        (concat_pieces left right a.now.pieces b.now.pieces) (T.seen pass.old) (T.seen pass.new) result }
{
    match number_repeated(alloc, table, pass, seam.text.as_slice(), 1) {
        Ok(middle) => put_between(alloc, a, b, seam.left, seam.right, &middle),
        Err(error) => Err(counted_from(seam.left, error)),
    }
}

/// The numbers of the middle between what is kept of both strings.
fn put_between(
    alloc: Global,
    a: &NString,
    b: &NString,
    left: u64,
    right: u64,
    middle: &[i32],
) -> Result<NString, SeamError>
    requires within { length a.now.graphemes + length b.now.graphemes ≤ length_limit }
    requires left { left ≤ length a.now.graphemes }
    requires right { right ≤ length b.now.graphemes }
    ensures graphemes { IfOk result (λ made. made.graphemes
        ≡ spliced_numbers a.now.graphemes b.now.graphemes middle.now left right
        (front_of a.now.graphemes left middle.now)
        (back_of b.now.graphemes right middle.now (front_of a.now.graphemes left middle.now))) }
    ensures pieces { IfOk result (λ made. made.pieces
        ≡ numbers_pieces a.now b.now middle.now left right
        (front_of a.now.graphemes left middle.now)
        (back_of b.now.graphemes right middle.now (front_of a.now.graphemes left middle.now))) }
    ensures refused { IfErr result (λ error. error ≡ SeamError.OutOfMemory) }
{
    if middle.len() as u64 > MIDDLE_LIMIT {
        return Err(SeamError::OutOfMemory);
    }
    match spliced(alloc, a, b, left, right, middle) {
        Ok(made) => Ok(made),
        Err(_) => Err(SeamError::OutOfMemory),
    }
}

/// A refusal at clusters that begin at a place of the whole. No string is so long that its place passes
/// 64 bits.
fn counted_from(left: u64, error: SeamError) -> SeamError
    ensures { IsCountedFrom left error result }
{
    match error {
        SeamError::ClusterLong { at } => match left.checked_add(at) {
            Some(place) => SeamError::ClusterLong { at: place },
            None => SeamError::OutOfMemory,
        },
        SeamError::TooLong => SeamError::TooLong,
        SeamError::RowFull => SeamError::RowFull,
        SeamError::NoPortion => SeamError::NoPortion,
        SeamError::OutOfMemory => SeamError::OutOfMemory,
    }
}
