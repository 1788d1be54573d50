//! Answers on two strings: those that a job has given, or else new ones.
ghost use Rattle.std.specs.Prelude.{◌≡◌, ℕ, List};
ghost use Rattle.nfg_text.specs.Operations.{first_place, last_place, text_order};
ghost use Rattle.nfg_syn.specs.Represents.{Represents, AreKnown, AreGraphemes};
ghost use Rattle.nfg_ops.specs.Reads.{HasAsked};
ghost use Rattle.nfg_work.specs.Evaluation.{are_equivalent};
ghost use Rattle.nfg_work.specs.Given.{IsAlreadyFound};

use nfg_ops::{compare, equal, index, rindex};
use nfg_strand::NString;
use nfg_syn::Synthetics;
use std::cmp::Ordering;

/// The least place, `at` or more, where a string stands in another.
pub(crate) fn index_given<T: Synthetics>(
    table: &T,
    pass: &T::Pass,
    string: &NString,
    part: &NString,
    at: u64,
    given: Option<Option<u64>>,
) -> Option<u64>
    requires table { T.is_of table.now pass.now }
    requires string { AreKnown (T.seen pass.now).known string.now.graphemes }
    requires part { AreKnown (T.seen pass.now).known part.now.graphemes }
    ensures { (a b : List (List ℕ)) → Represents (T.seen pass.now).known string.now.graphemes a
        → Represents (T.seen pass.now).known part.now.graphemes b
        → IsAlreadyFound (first_place a b at) given → result ≡ first_place a b at }
{
    match given {
        Some(place) => place,
        None => index(table, pass, string, part, at),
    }
}

/// The greatest place, `at` or less, where a string stands in another.
pub(crate) fn rindex_given<T: Synthetics>(
    table: &T,
    pass: &T::Pass,
    string: &NString,
    part: &NString,
    at: u64,
    given: Option<Option<u64>>,
) -> Option<u64>
    requires table { T.is_of table.now pass.now }
    requires string { AreKnown (T.seen pass.now).known string.now.graphemes }
    requires part { AreKnown (T.seen pass.now).known part.now.graphemes }
    ensures { (a b : List (List ℕ)) → Represents (T.seen pass.now).known string.now.graphemes a
        → Represents (T.seen pass.now).known part.now.graphemes b
        → IsAlreadyFound (last_place a b at) given → result ≡ last_place a b at }
{
    match given {
        Some(place) => place,
        None => rindex(table, pass, string, part, at),
    }
}

/// Whether two texts are canonically equivalent.
pub(crate) fn equal_given<T: Synthetics>(
    table: &T,
    pass: &T::Pass,
    left: &NString,
    right: &NString,
    given: Option<bool>,
) -> bool
    requires table { T.is_of table.now pass.now }
    requires left { AreGraphemes (T.seen pass.now).known left.now.graphemes }
    requires right { AreGraphemes (T.seen pass.now).known right.now.graphemes }
    ensures { (a b : List (List ℕ)) → Represents (T.seen pass.now).known left.now.graphemes a
        → Represents (T.seen pass.now).known right.now.graphemes b
        → IsAlreadyFound (are_equivalent a b) given → result ≡ are_equivalent a b }
{
    match given {
        Some(holds) => holds,
        None => equal(table, pass, left, right),
    }
}

/// The order of two texts.
pub(crate) fn compare_given<T: Synthetics>(
    table: &T,
    pass: &mut T::Pass,
    left: &NString,
    right: &NString,
    given: Option<Ordering>,
) -> Ordering
    requires table { T.is_of table.now pass.old }
    requires left { AreGraphemes (T.seen pass.old).known left.now.graphemes }
    requires right { AreGraphemes (T.seen pass.old).known right.now.graphemes }
    ensures table { T.is_of table.now pass.new }
    ensures asked { HasAsked (T.seen pass.old) (T.seen pass.new) }
    ensures order { (a b : List (List ℕ)) → Represents (T.seen pass.old).known left.now.graphemes a
        → Represents (T.seen pass.old).known right.now.graphemes b
        → IsAlreadyFound (text_order a b) given → result ≡ text_order a b }
{
    match given {
        Some(ordering) => ordering,
        None => compare(table, pass, left, right),
    }
}
