//! The left end of a seam.
ghost use Rattle.std.specs.Prelude.{◌≡◌, ◌≤◌, ℕ, List, ◌∷◌, Some, length};
ghost use Rattle.std.specs.Char.{IsScalar};
ghost use Rattle.nfg_syn.specs.Represents.{Represents, AreKnown, spelling};
ghost use Rattle.nfg_seam.specs.Seam.{begins_safely};
ghost use Rattle.nfg_seam.specs.SeamReads.{HasAsked, IsLeftEnd};

use nfg_strand::NString;
use nfg_syn::Synthetics;
use nfg_text::starts_safely;

/// The last place of the string at which a cluster begins with a code point that starts safely, or 0.
pub(crate) fn left_end<T: Synthetics>(table: &T, pass: &mut T::Pass, a: &NString) -> u64
    requires table { T.is_of table.now pass.old }
    requires known { AreKnown (T.seen pass.old).known a.now.graphemes }
    ensures table { T.is_of table.now pass.new }
    ensures asked { HasAsked (T.seen pass.old) (T.seen pass.new) }
    ensures within { result ≤ length a.now.graphemes }
    ensures found { (list : List (List ℕ)) → Represents (T.seen pass.old).known a.now.graphemes list
        → IsLeftEnd list result }
{
    let mut left = a.len();
    while left > 0 {
        left -= 1;
        let number = a.get(left);
        if begins_safely(table, pass, number) {
            return left;
        }
    }
    0
}

/// Whether the cluster that a number stands for begins with a code point that starts safely.
pub(crate) fn begins_safely<T: Synthetics>(table: &T, pass: &mut T::Pass, n: i32) -> bool
    requires table { T.is_of table.now pass.old }
    requires known { (cluster : List ℕ) × (spelling (T.seen pass.old).known n ≡ Some cluster) }
    ensures table { T.is_of table.now pass.new }
    ensures asked { HasAsked (T.seen pass.old) (T.seen pass.new) }
    ensures begins { (cluster : List ℕ) → spelling (T.seen pass.old).known n ≡ Some cluster
        → result ≡ begins_safely cluster }
{
    starts_safely(first_code(table, pass, n))
}

/// The first code point of the cluster that a number stands for.
pub(crate) fn first_code<T: Synthetics>(table: &T, pass: &mut T::Pass, n: i32) -> u32
    requires table { T.is_of table.now pass.old }
    requires known { (cluster : List ℕ) × (spelling (T.seen pass.old).known n ≡ Some cluster) }
    ensures table { T.is_of table.now pass.new }
    ensures asked { HasAsked (T.seen pass.old) (T.seen pass.new) }
    ensures scalar { IsScalar result }
    ensures first { (cluster : List ℕ) → spelling (T.seen pass.old).known n ≡ Some cluster
        → (rest : List ℕ) × (cluster ≡ result ∷ rest) }
{
    if n >= 0 {
        return n as u32;
    }
    table.code(pass, n, 0)
}
