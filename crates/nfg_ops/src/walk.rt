//! A walk over the code points of a string.

ghost use Rattle.std.specs.Prelude.{◌≡◌, ◌<◌, ◌+◌, ◌^◌, ◌==◌, ℕ, List, Some, length, slice_get, IfSome};
ghost use Rattle.nfg_syn.specs.Represents.{Represents, AreKnown, spelling};
ghost use Rattle.nfg_ops.specs.Reads.{HasAsked};
ghost use Rattle.nfg_ops.specs.Walk.{text_from, IsInside, IsTaken, next_position, steps_left};

use nfg_strand::NString;
use nfg_syn::Synthetics;

/// A place in the text of a string: a grapheme, and a code point of its cluster.
#[derive(Clone, Copy)]
pub(crate) struct Position {
    pub(crate) place: u64,
    pub(crate) offset: usize,
}

/// The code point at a position, which goes on to the next. `None` at the end of the text.
pub(crate) fn next_code<T: Synthetics>(
    table: &T,
    pass: &mut T::Pass,
    string: &NString,
    at: &mut Position,
) -> Option<u32>
    requires table { T.is_of table.now pass.old }
    requires known { AreKnown (T.seen pass.old).known string.now.graphemes }
    requires inside { (list : List (List ℕ)) → Represents (T.seen pass.old).known string.now.graphemes list
        → IsInside list at.old }
    ensures table { T.is_of table.now pass.new }
    ensures asked { HasAsked (T.seen pass.old) (T.seen pass.new) }
    ensures inside { (list : List (List ℕ)) → Represents (T.seen pass.old).known string.now.graphemes list
        → IsInside list at.new }
    ensures taken { (list : List (List ℕ)) → Represents (T.seen pass.old).known string.now.graphemes list
        → IsTaken (text_from list at.old) result (text_from list at.new) }
    ensures nearer { IfSome result (λ _. steps_left (length string.now.graphemes) at.new
        < steps_left (length string.now.graphemes) at.old) }
{
    if at.place == string.len() {
        return None;
    }
    let number = string.get(at.place);
    let (code, is_last) = code_at(table, pass, number, at.offset);
    *at = after(*at, is_last);
    Some(code)
}

/// The position after one, which is at the last code point of its cluster or not.
fn after(at: Position, is_last: bool) -> Position
    requires place { at.place < 2 ^ 40 }
    requires offset { at.offset < 1024 }
    ensures { result ≡ next_position at is_last }
{
    if is_last {
        Position {
            place: at.place + 1,
            offset: 0,
        }
    } else {
        Position {
            place: at.place,
            offset: at.offset + 1,
        }
    }
}

/// A code point of the cluster that a number stands for, and whether it is the last one.
fn code_at<T: Synthetics>(table: &T, pass: &mut T::Pass, number: i32, offset: usize) -> (u32, bool)
    requires table { T.is_of table.now pass.old }
    requires known { (cluster : List ℕ)
        × (spelling (T.seen pass.old).known number ≡ Some cluster) × (offset < length cluster) }
    ensures table { T.is_of table.now pass.new }
    ensures asked { HasAsked (T.seen pass.old) (T.seen pass.new) }
    ensures code { (cluster : List ℕ) → spelling (T.seen pass.old).known number ≡ Some cluster
        → slice_get cluster offset ≡ Some result.0 }
    ensures is_last { (cluster : List ℕ) → spelling (T.seen pass.old).known number ≡ Some cluster
        → result.1 ≡ (offset + 1 == length cluster) }
{
    if number >= 0 {
        return (number as u32, true);
    }
    let code = table.code(pass, number, offset);
    let count = table.count(pass, number);
    (code, offset + 1 == count)
}
