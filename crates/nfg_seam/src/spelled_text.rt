//! The text of a string.
ghost use Rattle.std.specs.Prelude.{◌≡◌, ◌<◌, ℕ, List, IfOk, OnOk, length, pos, slice_index_or};
ghost use Rattle.nfg_text.specs.Text.{text_of};
ghost use Rattle.nfg_syn.specs.Known.{IsSame};
ghost use Rattle.nfg_syn.specs.Represents.{Represents, AreKnown};
ghost use Rattle.nfg_syn.specs.Seen.{Keeps, SameCounts};

use nfg_strand::NString;
use nfg_syn::{Synthetics, append_cluster};
use nfg_text::CodeList;
use std::alloc::{AllocError, Global};

/// The graphemes of a string in a vector.
pub(crate) fn graphemes_of(alloc: Global, a: &NString) -> Result<Vec<i32>, AllocError>
    ensures { IfOk result (λ numbers. numbers.items ≡ a.now.graphemes) }
{
    let mut numbers = vec![in alloc; 0i32; a.len() as usize]?;
    a.copy_into(0, &mut numbers);
    Ok(numbers)
}

/// The code points of a string's clusters, in order.
pub(crate) fn text_of_string<T: Synthetics>(
    alloc: Global,
    table: &T,
    pass: &mut T::Pass,
    a: &NString,
) -> Result<CodeList, AllocError>
    requires known { AreKnown (T.seen pass.old).known a.now.graphemes }
    requires table { T.is_of table.now pass.old }
    ensures table { T.is_of table.now pass.new }
    ensures keeps { Keeps (T.seen pass.old) (T.seen pass.new) }
    ensures counts { SameCounts (T.seen pass.old) (T.seen pass.new) }
    ensures known { IsSame (T.seen pass.old).known (T.seen pass.new).known }
    ensures spelled { (clusters : List (List ℕ))
        → Represents (T.seen pass.old).known a.now.graphemes clusters
        → IfOk result (λ codes. codes ≡ text_of clusters) }
{
    let graphemes = graphemes_of(alloc, a)?;
    spelled(alloc, table, pass, &graphemes)
}

/// The code points of the clusters that numbers stand for, in order.
pub(crate) fn spelled<T: Synthetics>(
    alloc: Global,
    table: &T,
    pass: &mut T::Pass,
    numbers: &[i32],
) -> Result<CodeList, AllocError>
    requires known { (clusters : List (List ℕ)) × Represents (T.seen pass.old).known numbers.now clusters }
    requires table { T.is_of table.now pass.old }
    ensures table { T.is_of table.now pass.new }
    ensures keeps { Keeps (T.seen pass.old) (T.seen pass.new) }
    ensures counts { SameCounts (T.seen pass.old) (T.seen pass.new) }
    ensures known { IsSame (T.seen pass.old).known (T.seen pass.new).known }
    ensures spelled { (clusters : List (List ℕ))
        → Represents (T.seen pass.old).known numbers.now clusters
        → IfOk result (λ codes. codes ≡ text_of clusters) }
{
    let mut codes = CodeList::new(alloc);
    'spelling: for k in 0..numbers.len() {
        append_cluster(table, pass, at(numbers, k), &mut codes)?;
    }
    Ok(codes)
}

fn at(numbers: &[i32], k: usize) -> i32
    requires { k < length numbers.now }
    ensures { result ≡ slice_index_or numbers.now k (pos 0) }
{
    numbers[k]
}
