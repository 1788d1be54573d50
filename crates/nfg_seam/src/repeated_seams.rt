//! A string repeated by the seam that it has with itself.
ghost use Rattle.std.specs.Prelude.{◌≡◌, ◌<◌, ◌≤◌, ◌*◌, ◌-◌, ◌^◌, ℕ, List, length, IfOk};
ghost use Rattle.std.specs.List.{repeat};
ghost use Rattle.nfg_text.specs.Operations.{repetition};
ghost use Rattle.nfg_strand.specs.Pieces.{flat_piece};
ghost use Rattle.nfg_syn.specs.Represents.{Represents, AreGraphemes};
ghost use Rattle.nfg_syn.specs.Seen.{Keeps, SameCounts};
ghost use Rattle.nfg_seam.specs.ConcatPieces.{repetition_pieces};
ghost use Rattle.nfg_seam.specs.Made.{HasJoined, length_limit};
ghost use Rattle.nfg_seam.specs.RepeatPieces.{again_pieces};
ghost use Rattle.nfg_seam.specs.Seam.{IsSeam};
ghost use Rattle.nfg_seam.specs.Woven.{woven};

use crate::SeamError;
use crate::copies::{is_plain_seam, shifted, woven};
use crate::repeated_string::{again, settled};
use crate::repeated_text::number_repeated;
use crate::seam::Seam;
use crate::spelled_text::graphemes_of;
use nfg_strand::NString;
use nfg_syn::Synthetics;
use std::alloc::{AllocError, Global};

/// The graphemes of the text two or more times in a row, where each seam is repaired within one copy.
/// Only the seam's middle is composed.
pub(crate) fn repeat_by_seam<T: Synthetics>(
    alloc: Global,
    table: &T,
    pass: &mut T::Pass,
    a: &NString,
    n: u64,
    seam: &Seam,
) -> Result<NString, SeamError>
    requires several { 1 < n }
    requires bounded { length a.now.graphemes * n ≤ length_limit }
    requires nonempty { 0 < length a.now.graphemes }
    requires ordered { seam.now.right ≤ seam.now.left }
    requires table { T.is_of table.now pass.old }
    requires graphemes { AreGraphemes (T.seen pass.old).known a.now.graphemes }
    requires seam { (list : List (List ℕ)) → Represents (T.seen pass.old).known a.now.graphemes list
        → IsSeam list list seam.now }
    ensures table { T.is_of table.now pass.new }
    ensures keeps { Keeps (T.seen pass.old) (T.seen pass.new) }
    ensures counts { SameCounts (T.seen pass.old) (T.seen pass.new) }
    ensures repeated { (list : List (List ℕ))
        → Represents (T.seen pass.old).known a.now.graphemes list
        → HasJoined (length list * n) (repetition list n)
        (repetition_pieces list a.now.pieces n) (T.seen pass.old) (T.seen pass.new) result }
{
    match number_repeated(alloc, table, pass, seam.text.as_slice(), 1) {
        Ok(middle) => match joined_by(alloc, a, n, seam, &middle) {
            Ok(made) => Ok(made),
            Err(_) => Err(SeamError::OutOfMemory),
        },
        Err(error) => Err(shifted(error, seam.left)),
    }
}

/// The string over these numbers for the middle of each seam. Where that is what stands there anyway,
/// nothing is copied but the string's one unit.
fn joined_by(
    alloc: Global,
    a: &NString,
    n: u64,
    seam: &Seam,
    middle: &[i32],
) -> Result<NString, AllocError>
    requires several { 1 < n }
    requires bounded { length a.now.graphemes * n ≤ 2 ^ 40 }
    requires ordered { seam.now.right ≤ seam.now.left }
    requires inside { seam.now.left ≤ length a.now.graphemes }
    ensures graphemes { IfOk result (λ made. made.graphemes
        ≡ woven a.now.graphemes seam.now.left seam.now.right middle.now (n - 1)) }
    ensures again { woven a.now.graphemes seam.now.left seam.now.right middle.now (n - 1)
        ≡ repeat n a.now.graphemes
        → IfOk result (λ made. made.pieces ≡ again_pieces a.now.graphemes a.now.pieces n) }
    ensures anew { (woven a.now.graphemes seam.now.left seam.now.right middle.now (n - 1)
        ≡ repeat n a.now.graphemes → ⊥)
        → IfOk result (λ made. made.pieces
        ≡ flat_piece (woven a.now.graphemes seam.now.left seam.now.right middle.now (n - 1))) }
{
    let list = graphemes_of(alloc, a)?;
    let left = seam.left as usize;
    let right = seam.right as usize;
    if is_plain_seam(&list, left, right, middle) {
        return again(alloc, a, n);
    }
    let numbers = woven(alloc, &list, left, right, middle, n - 1)?;
    settled(alloc, a, n, numbers)
}
