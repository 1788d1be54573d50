//! Search for one string in another.

ghost use Rattle.std.specs.Prelude.{◌≡◌, ℕ, List};
ghost use Rattle.nfg_text.specs.Operations.{occurs_at, first_place, last_place};
ghost use Rattle.nfg_syn.specs.Represents.{Represents, AreKnown};
ghost use Rattle.nfg_ops.specs.Places.{IsFirst, IsLast};

use crate::occurrence;
use nfg_strand::NString;
use nfg_syn::Synthetics;

/// The least place, `from` or more, at which the graphemes of `b` stand in `a`. Graphemes are compared by
/// their numbers. The empty string stands at each place up to the length.
pub fn index<T: Synthetics>(
    table: &T,
    pass: &T::Pass,
    a: &NString,
    b: &NString,
    from: u64,
) -> Option<u64>
    requires table { T.is_of table.now pass.now }
    requires string_known { AreKnown (T.seen pass.now).known a.now.graphemes }
    requires needle_known { AreKnown (T.seen pass.now).known b.now.graphemes }
    // no place before it, and nothing exactly where there is no place
    ensures first { (list part : List (List ℕ))
        → Represents (T.seen pass.now).known a.now.graphemes list
        → Represents (T.seen pass.now).known b.now.graphemes part
        → IsFirst (occurs_at list part) from result }
    ensures place { (list part : List (List ℕ))
        → Represents (T.seen pass.now).known a.now.graphemes list
        → Represents (T.seen pass.now).known b.now.graphemes part
        → result ≡ first_place list part from }
{
    occurrence::first_occurrence(a, b, from)
}

/// The greatest place, `from` or less, at which the graphemes of `b` stand in `a`. Graphemes are compared
/// by their numbers. The empty string stands at each place up to the length.
pub fn rindex<T: Synthetics>(
    table: &T,
    pass: &T::Pass,
    a: &NString,
    b: &NString,
    from: u64,
) -> Option<u64>
    requires table { T.is_of table.now pass.now }
    requires string_known { AreKnown (T.seen pass.now).known a.now.graphemes }
    requires needle_known { AreKnown (T.seen pass.now).known b.now.graphemes }
    // no place after it, and nothing exactly where there is no place
    ensures last { (list part : List (List ℕ))
        → Represents (T.seen pass.now).known a.now.graphemes list
        → Represents (T.seen pass.now).known b.now.graphemes part
        → IsLast (occurs_at list part) from result }
    ensures place { (list part : List (List ℕ))
        → Represents (T.seen pass.now).known a.now.graphemes list
        → Represents (T.seen pass.now).known b.now.graphemes part
        → result ≡ last_place list part from }
{
    occurrence::last_occurrence(a, b, from)
}
