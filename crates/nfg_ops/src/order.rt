//! Equality and order of strings.

ghost use Rattle.std.specs.Prelude.{◌≡◌, ◌↔◌, ◌≤◌, ℕ, List, length, drop, IfNone, IsSome, IsTrue};
ghost use Rattle.nfg_text.specs.Operations.{text_order};
ghost use Rattle.std.specs.Cmp.Lexicographic.{pointwise};
ghost use Rattle.std.specs.Ordering.{int_eq};
ghost use Rattle.nfg_text.specs.Text.{text_of};
ghost use Rattle.nfg_text.specs.Graphemes.{AreEquivalent};
ghost use Rattle.nfg_syn.specs.Known.{IsSame};
ghost use Rattle.nfg_syn.specs.Represents.{Represents, AreGraphemes, AreKnown};
ghost use Rattle.nfg_syn.specs.Seen.{Keeps, SameCounts};
ghost use Rattle.nfg_ops.specs.Reads.{HasAsked};
ghost use Rattle.nfg_ops.specs.Walk.{IsDecided};

use crate::walk::{Position, next_code};
use nfg_strand::NString;
use nfg_syn::Synthetics;
use std::cmp::Ordering;

/// Whether the texts are canonically equivalent. Graphemes are compared by their numbers, which are the
/// same exactly where the texts are equivalent.
pub fn equal<T: Synthetics>(table: &T, pass: &T::Pass, a: &NString, b: &NString) -> bool
    requires table { T.is_of table.now pass.now }
    requires left { AreGraphemes (T.seen pass.now).known a.now.graphemes }
    requires right { AreGraphemes (T.seen pass.now).known b.now.graphemes }
    ensures equivalent { (left right : List (List ℕ))
        → Represents (T.seen pass.now).known a.now.graphemes left
        → Represents (T.seen pass.now).known b.now.graphemes right
        → IsTrue result ↔ AreEquivalent (text_of left) (text_of right) }
{
    are_same(a, b)
}

/// Whether both strings are the same numbers.
pub(crate) fn are_same(a: &NString, b: &NString) -> bool
    ensures { result ≡ pointwise int_eq a.now.graphemes b.now.graphemes }
{
    let len = a.len();
    len == b.len() && a.common_front(0, b, 0, len) == len
}

/// The order of the texts, code point by code point, where a text comes after its own fronts. The graphemes
/// that both begin with are compared by their numbers.
pub fn compare<T: Synthetics>(table: &T, pass: &mut T::Pass, a: &NString, b: &NString) -> Ordering
    requires table { T.is_of table.now pass.old }
    requires left { AreGraphemes (T.seen pass.old).known a.now.graphemes }
    requires right { AreGraphemes (T.seen pass.old).known b.now.graphemes }
    ensures table { T.is_of table.now pass.new }
    ensures keeps { Keeps (T.seen pass.old) (T.seen pass.new) }
    ensures counts { SameCounts (T.seen pass.old) (T.seen pass.new) }
    ensures known { IsSame (T.seen pass.old).known (T.seen pass.new).known }
    ensures order { (left right : List (List ℕ))
        → Represents (T.seen pass.old).known a.now.graphemes left
        → Represents (T.seen pass.old).known b.now.graphemes right
        → result ≡ text_order left right }
{
    let count = a.len().min(b.len());
    let same = a.common_front(0, b, 0, count);
    compare_from(table, pass, a, b, same)
}

/// The order of the texts from a place on. It ends at the first code point that differs.
pub(crate) fn compare_from<T: Synthetics>(
    table: &T,
    pass: &mut T::Pass,
    a: &NString,
    b: &NString,
    place: u64,
) -> Ordering
    requires table { T.is_of table.now pass.old }
    requires left { AreKnown (T.seen pass.old).known a.now.graphemes }
    requires right { AreKnown (T.seen pass.old).known b.now.graphemes }
    requires inside { place ≤ length a.now.graphemes }
    requires other_inside { place ≤ length b.now.graphemes }
    ensures table { T.is_of table.now pass.new }
    ensures asked { HasAsked (T.seen pass.old) (T.seen pass.new) }
    ensures order { (left right : List (List ℕ))
        → Represents (T.seen pass.old).known a.now.graphemes left
        → Represents (T.seen pass.old).known b.now.graphemes right
        → result ≡ text_order (drop place left) (drop place right) }
{
    let mut left = Position { place, offset: 0 };
    let mut right = Position { place, offset: 0 };
    loop {
        let first = next_code(table, pass, a, &mut left);
        let second = next_code(table, pass, b, &mut right);
        match decided(first, second) {
            Some(order) => return order,
            None => {}
        }
    }
}

/// The order of two texts that begin with these code points, or end here. `None` where both begin with the same.
fn decided(first: Option<u32>, second: Option<u32>) -> Option<Ordering>
    ensures decided { IsDecided first second result }
    ensures some { IfNone result (IsSome first) }
{
    match (first, second) {
        (None, None) => Some(Ordering::Equal),
        (None, Some(_)) => Some(Ordering::Less),
        (Some(_), None) => Some(Ordering::Greater),
        (Some(x), Some(y)) => {
            if x == y {
                return None;
            }
            Some(x.cmp(&y))
        }
    }
}
