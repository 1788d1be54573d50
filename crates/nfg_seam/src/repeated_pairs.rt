//! A string repeated where the rules put a boundary after every second copy.
ghost use Rattle.std.specs.Prelude.{◌≡◌, ◌<◌, ◌≤◌, ◌*◌, ◌/◌, ◌%◌, ◌^◌, ◌++◌, ℕ, List, true, length, IfOk};
ghost use Rattle.std.specs.List.{repeat};
ghost use Rattle.nfg_text.specs.Operations.{repetition};
ghost use Rattle.nfg_text.specs.Text.{IsText, text_of};
ghost use Rattle.nfg_strand.specs.Pieces.{flat_piece};
ghost use Rattle.nfg_syn.specs.Represents.{Represents, AreGraphemes, AreKnown};
ghost use Rattle.nfg_syn.specs.Seen.{Keeps, SameCounts};
ghost use Rattle.nfg_seam.specs.ConcatPieces.{repetition_pieces};
ghost use Rattle.nfg_seam.specs.Made.{HasJoined, length_limit};
ghost use Rattle.nfg_seam.specs.RepeatPieces.{again_pieces};
ghost use Rattle.nfg_seam.specs.Seam.{GoOnSafely};
ghost use Rattle.nfg_seam.specs.SeamReads.{HasAsked};
ghost use Rattle.nfg_seam.specs.Woven.{woven};

use crate::SeamError;
use crate::copies::woven;
use crate::repeated_string::settled;
use crate::repeated_text::number_repeated;
use crate::right_end::{is_boundary, remembered};
use crate::spelled_text::graphemes_of;
use nfg_strand::NString;
use nfg_syn::Synthetics;
use nfg_text::Memory;
use std::alloc::{AllocError, Global};

/// Whether the string begins safely, and the rules put a boundary before it behind its text twice over,
/// as behind regional indicators, of which an even number stands there.
pub(crate) fn parts_in_pairs<T: Synthetics>(
    table: &T,
    pass: &mut T::Pass,
    a: &NString,
    text: &[u32],
) -> bool
    requires nonempty { 0 < length a.now.graphemes }
    requires table { T.is_of table.now pass.old }
    requires known { AreKnown (T.seen pass.old).known a.now.graphemes }
    requires text { IsText text.now }
    ensures table { T.is_of table.now pass.new }
    ensures asked { HasAsked (T.seen pass.old) (T.seen pass.new) }
    ensures boundary { (list : List (List ℕ)) → Represents (T.seen pass.old).known a.now.graphemes list
        → result ≡ true → GoOnSafely (text.now ++ text.now) list }
{
    let once = remembered(Memory::new(), text);
    let twice = remembered(once, text);
    let number = a.get(0);
    is_boundary(table, pass, number, twice, text.is_empty())
}

/// The graphemes of the text two or more times in a row, where the rules put a boundary after every
/// second copy. Two copies alone are composed.
pub(crate) fn repeat_in_pairs<T: Synthetics>(
    alloc: Global,
    table: &T,
    pass: &mut T::Pass,
    a: &NString,
    n: u64,
    text: &[u32],
) -> Result<NString, SeamError>
    requires several { 1 < n }
    requires bounded { length a.now.graphemes * n ≤ length_limit }
    requires nonempty { 0 < length a.now.graphemes }
    requires table { T.is_of table.now pass.old }
    requires graphemes { AreGraphemes (T.seen pass.old).known a.now.graphemes }
    requires text { IsText text.now }
    requires spelled { (list : List (List ℕ)) → Represents (T.seen pass.old).known a.now.graphemes list
        → text.now ≡ text_of list }
    requires boundary { (list : List (List ℕ)) → Represents (T.seen pass.old).known a.now.graphemes list
        → GoOnSafely (text.now ++ text.now) list }
    ensures table { T.is_of table.now pass.new }
    ensures keeps { Keeps (T.seen pass.old) (T.seen pass.new) }
    ensures counts { SameCounts (T.seen pass.old) (T.seen pass.new) }
    ensures repeated { (list : List (List ℕ))
        → Represents (T.seen pass.old).known a.now.graphemes list
        → HasJoined (length list * n) (repetition list n)
        (repetition_pieces list a.now.pieces n) (T.seen pass.old) (T.seen pass.new) result }
{
    match number_repeated(alloc, table, pass, text, 2) {
        Ok(double) => match joined_in_pairs(alloc, a, n, &double) {
            Ok(made) => Ok(made),
            Err(_) => Err(SeamError::OutOfMemory),
        },
        Err(error) => Err(error),
    }
}

/// The string over these numbers for every two copies. What is left is at most one copy.
fn joined_in_pairs(
    alloc: Global,
    a: &NString,
    n: u64,
    double: &[i32],
) -> Result<NString, AllocError>
    requires several { 1 < n }
    requires bounded { length a.now.graphemes * n ≤ 2 ^ 40 }
    ensures graphemes { IfOk result (λ made. made.graphemes
        ≡ woven (repeat (n % 2) a.now.graphemes) 0 0 double.now (n / 2)) }
    ensures again { woven (repeat (n % 2) a.now.graphemes) 0 0 double.now (n / 2)
        ≡ repeat n a.now.graphemes
        → IfOk result (λ made. made.pieces ≡ again_pieces a.now.graphemes a.now.pieces n) }
    ensures anew { (woven (repeat (n % 2) a.now.graphemes) 0 0 double.now (n / 2)
        ≡ repeat n a.now.graphemes → ⊥)
        → IfOk result (λ made. made.pieces
        ≡ flat_piece (woven (repeat (n % 2) a.now.graphemes) 0 0 double.now (n / 2))) }
{
    let left_over = a.repeated(alloc, n % 2)?;
    let list = graphemes_of(alloc, &left_over)?;
    let numbers = woven(alloc, &list, 0, 0, double, n / 2)?;
    settled(alloc, a, n, numbers)
}
