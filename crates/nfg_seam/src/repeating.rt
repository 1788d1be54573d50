//! A string repeated.
ghost use Rattle.std.specs.Prelude.{◌≡◌, ◌<◌, ◌≤◌, ◌*◌, ℕ, nat_lt, List, length, None, IfOk, IfErr};
ghost use Rattle.std.specs.List.{repeat};
ghost use Rattle.nfg_text.specs.Operations.{repetition};
ghost use Rattle.nfg_text.specs.Text.{IsText, text_of};
ghost use Rattle.nfg_strand.specs.Pieces.{repeat_pieces};
ghost use Rattle.nfg_syn.specs.Learned.{first_long};
ghost use Rattle.nfg_syn.specs.Represents.{Represents, AreGraphemes};
ghost use Rattle.nfg_syn.specs.Seen.{Keeps, SameCounts};
ghost use Rattle.nfg_seam.specs.ConcatPieces.{repetition_pieces};
ghost use Rattle.nfg_seam.specs.Made.{HasJoined, length_limit};
ghost use Rattle.nfg_seam.specs.Seam.{IsSeam};
ghost use Rattle.nfg_seam.specs.Numbered.{AreNumbered, AreRefused};

use crate::SeamError;
use crate::repeated_pairs::{parts_in_pairs, repeat_in_pairs};
use crate::repeated_seams::repeat_by_seam;
use crate::repeated_string::settled;
use crate::repeated_text::number_repeated;
use crate::seam::{Seam, seam_of};
use crate::spelled_text::{graphemes_of, spelled, text_of_string};
use nfg_strand::NString;
use nfg_syn::Synthetics;
use std::alloc::Global;

/// The most graphemes that are joined at once.
const LENGTH_LIMIT: u64 = 1 << 26;

/// The graphemes of the text `n` times in a row, over numbers of the table.
///
/// Refuses with `TooLong` where n times the length is more than 2^26 graphemes, then with
/// `ClusterLong` at the first cluster of the result of more than 1,024 code points, and then with
/// `RowFull` and `NoPortion` where the table does.
pub fn repeat<T: Synthetics>(
    alloc: Global,
    table: &T,
    pass: &mut T::Pass,
    a: &NString,
    n: u64,
) -> Result<NString, SeamError>
    requires table { T.is_of table.now pass.old }
    requires graphemes { AreGraphemes (T.seen pass.old).known a.now.graphemes }
    ensures table { T.is_of table.now pass.new }
    ensures keeps { Keeps (T.seen pass.old) (T.seen pass.new) }
    ensures counts { SameCounts (T.seen pass.old) (T.seen pass.new) }
    ensures repeated { (list : List (List ℕ))
        → Represents (T.seen pass.old).known a.now.graphemes list
        → HasJoined (length list * n) (repetition list n)
        (repetition_pieces list a.now.pieces n) (T.seen pass.old) (T.seen pass.new) result }
{
    if passes_limit(a.len(), n) {
        return Err(SeamError::TooLong);
    }
    if n < 2 {
        return repeat_once(alloc, a, n);
    }
    match seam_of(alloc, table, pass, a, a) {
        Ok(seam) => repeat_more(alloc, table, pass, a, n, &seam),
        Err(_) => Err(SeamError::OutOfMemory),
    }
}

/// Whether so many graphemes, `n` times over, are more than are joined at once.
fn passes_limit(len: u64, n: u64) -> bool
    ensures { result ≡ nat_lt length_limit (len * n) }
{
    match len.checked_mul(n) {
        Some(count) => count > LENGTH_LIMIT,
        None => true,
    }
}

/// The string itself, or the empty one.
fn repeat_once(alloc: Global, a: &NString, n: u64) -> Result<NString, SeamError>
    requires few { n < 2 }
    requires bounded { length a.now.graphemes * n ≤ length_limit }
    ensures graphemes { IfOk result (λ made. made.graphemes ≡ repeat n a.now.graphemes) }
    ensures pieces { IfOk result (λ made.
        made.pieces ≡ repeat_pieces a.now.graphemes a.now.pieces n) }
    ensures refused { IfErr result (λ error. error ≡ SeamError.OutOfMemory) }
{
    match a.repeated(alloc, n) {
        Ok(made) => Ok(made),
        Err(_) => Err(SeamError::OutOfMemory),
    }
}

/// The graphemes of the text two or more times in a row. Where each seam is repaired within one copy,
/// the seam alone is composed.
fn repeat_more<T: Synthetics>(
    alloc: Global,
    table: &T,
    pass: &mut T::Pass,
    a: &NString,
    n: u64,
    seam: &Seam,
) -> Result<NString, SeamError>
    requires several { 1 < n }
    requires bounded { length a.now.graphemes * n ≤ length_limit }
    requires table { T.is_of table.now pass.old }
    requires graphemes { AreGraphemes (T.seen pass.old).known a.now.graphemes }
    requires seam { (list : List (List ℕ)) → Represents (T.seen pass.old).known a.now.graphemes list
        → IsSeam list list seam.now }
    ensures table { T.is_of table.now pass.new }
    ensures keeps { Keeps (T.seen pass.old) (T.seen pass.new) }
    ensures counts { SameCounts (T.seen pass.old) (T.seen pass.new) }
    ensures repeated { (list : List (List ℕ))
        → Represents (T.seen pass.old).known a.now.graphemes list
        → HasJoined (length list * n) (repetition list n)
        (repetition_pieces list a.now.pieces n) (T.seen pass.old) (T.seen pass.new) result }
{
    if a.len() == 0 {
        return repeat_composed(alloc, table, pass, a, n);
    }
    if seam.right <= seam.left {
        return repeat_by_seam(alloc, table, pass, a, n, seam);
    }
    repeat_through(alloc, table, pass, a, n)
}

/// The graphemes of the text two or more times in a row, where a seam goes through a whole copy. Where
/// the rules put a boundary after every second copy, two alone are composed, and else the whole text.
fn repeat_through<T: Synthetics>(
    alloc: Global,
    table: &T,
    pass: &mut T::Pass,
    a: &NString,
    n: u64,
) -> Result<NString, SeamError>
    requires several { 1 < n }
    requires bounded { length a.now.graphemes * n ≤ length_limit }
    requires nonempty { 0 < length a.now.graphemes }
    requires table { T.is_of table.now pass.old }
    requires graphemes { AreGraphemes (T.seen pass.old).known a.now.graphemes }
    ensures table { T.is_of table.now pass.new }
    ensures keeps { Keeps (T.seen pass.old) (T.seen pass.new) }
    ensures counts { SameCounts (T.seen pass.old) (T.seen pass.new) }
    ensures repeated { (list : List (List ℕ))
        → Represents (T.seen pass.old).known a.now.graphemes list
        → HasJoined (length list * n) (repetition list n)
        (repetition_pieces list a.now.pieces n) (T.seen pass.old) (T.seen pass.new) result }
{
    match text_of_string(alloc, table, pass, a) {
        Ok(text) => repeat_text(alloc, table, pass, a, n, text.as_slice()),
        Err(_) => Err(SeamError::OutOfMemory),
    }
}

/// The same where the string's text is known.
fn repeat_text<T: Synthetics>(
    alloc: Global,
    table: &T,
    pass: &mut T::Pass,
    a: &NString,
    n: u64,
    text: &[u32],
) -> Result<NString, SeamError>
    requires several { 1 < n }
    requires bounded { length a.now.graphemes * n ≤ length_limit }
    requires nonempty { 0 < length a.now.graphemes }
    requires table { T.is_of table.now pass.old }
    requires graphemes { AreGraphemes (T.seen pass.old).known a.now.graphemes }
    requires text { IsText text.now }
    requires spelled { (list : List (List ℕ)) → Represents (T.seen pass.old).known a.now.graphemes list
        → text.now ≡ text_of list }
    ensures table { T.is_of table.now pass.new }
    ensures keeps { Keeps (T.seen pass.old) (T.seen pass.new) }
    ensures counts { SameCounts (T.seen pass.old) (T.seen pass.new) }
    ensures repeated { (list : List (List ℕ))
        → Represents (T.seen pass.old).known a.now.graphemes list
        → HasJoined (length list * n) (repetition list n)
        (repetition_pieces list a.now.pieces n) (T.seen pass.old) (T.seen pass.new) result }
{
    if parts_in_pairs(table, pass, a, text) {
        return repeat_in_pairs(alloc, table, pass, a, n, text);
    }
    repeat_composed(alloc, table, pass, a, n)
}

/// The graphemes of the text two or more times in a row, all composed anew.
fn repeat_composed<T: Synthetics>(
    alloc: Global,
    table: &T,
    pass: &mut T::Pass,
    a: &NString,
    n: u64,
) -> Result<NString, SeamError>
    requires several { 1 < n }
    requires bounded { length a.now.graphemes * n ≤ length_limit }
    requires table { T.is_of table.now pass.old }
    requires graphemes { AreGraphemes (T.seen pass.old).known a.now.graphemes }
    ensures table { T.is_of table.now pass.new }
    ensures keeps { Keeps (T.seen pass.old) (T.seen pass.new) }
    ensures counts { SameCounts (T.seen pass.old) (T.seen pass.new) }
    ensures repeated { (list : List (List ℕ))
        → Represents (T.seen pass.old).known a.now.graphemes list
        → HasJoined (length list * n) (repetition list n)
        (repetition_pieces list a.now.pieces n) (T.seen pass.old) (T.seen pass.new) result }
{
    match number_again(alloc, table, pass, a, n) {
        Ok(numbers) => match settled(alloc, a, n, numbers) {
            Ok(made) => Ok(made),
            Err(_) => Err(SeamError::OutOfMemory),
        },
        Err(error) => Err(error),
    }
}

/// The numbers of the graphemes of the text `n` times in a row.
fn number_again<T: Synthetics>(
    alloc: Global,
    table: &T,
    pass: &mut T::Pass,
    a: &NString,
    n: u64,
) -> Result<Vec<i32>, SeamError>
    requires table { T.is_of table.now pass.old }
    requires graphemes { AreGraphemes (T.seen pass.old).known a.now.graphemes }
    ensures table { T.is_of table.now pass.new }
    ensures keeps { Keeps (T.seen pass.old) (T.seen pass.new) }
    ensures counts { SameCounts (T.seen pass.old) (T.seen pass.new) }
    ensures short { (list : List (List ℕ))
        → Represents (T.seen pass.old).known a.now.graphemes list
        → IfOk result (λ numbers. first_long (repetition list n) ≡ None) }
    ensures numbers { (list : List (List ℕ))
        → Represents (T.seen pass.old).known a.now.graphemes list
        → IfOk result (λ numbers. AreNumbered (repetition list n)
        (T.seen pass.old).known (T.seen pass.new).known numbers.items) }
    ensures refused { (list : List (List ℕ))
        → Represents (T.seen pass.old).known a.now.graphemes list
        → IfErr result (λ error. AreRefused (repetition list n)
        (T.seen pass.old) (T.seen pass.new) error) }
{
    match graphemes_of(alloc, a) {
        Ok(graphemes) => match spelled(alloc, table, pass, &graphemes) {
            Ok(text) => number_repeated(alloc, table, pass, text.as_slice(), n),
            Err(_) => Err(SeamError::OutOfMemory),
        },
        Err(_) => Err(SeamError::OutOfMemory),
    }
}
