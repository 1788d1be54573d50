//! The strings of a file's parts are joined.
ghost use Rattle.std.specs.Prelude.{◌≡◌, ℕ, ◌+◌, ◌<◌, ◌++◌, List, Ok, None, false, length, drop, get_or, slice_index_or, vec_len, All, IfOk, OnOk};
ghost use Rattle.nfg_decode.specs.declared.encoding.Encoding.{Encoding};
ghost use Rattle.nfg_decode.specs.Encoding.{decode};
ghost use Rattle.nfg_syn.specs.Represents.{AreGraphemes};
ghost use Rattle.nfg_syn.specs.Seen.{Keeps, SameCounts};
ghost use Rattle.nfg_work.specs.PartJoining.{IsOfSomeBytes, HasJoinedBytes};
ghost use Rattle.nfg_work.specs.Parts.{AreBounds, part_at, GrowsByParts, IsStringOfBytes, IsStringOrNone, IsLoaded, TextsGoOn};

use crate::file_parts::FileParts;
use crate::loader::Loader;
use nfg_seam::{SeamError, concat};
use nfg_strand::NString;
use nfg_syn::{Shared, Synthetics};
use std::alloc::{AllocError, Global};

/// No string where two are not joined, unless memory was wanting.
fn none_joined(error: SeamError) -> Result<Option<NString>, AllocError>
    ensures { IfOk result (λ string. string ≡ None) }
{
    match error {
        SeamError::OutOfMemory => Err(AllocError),
        SeamError::TooLong | SeamError::ClusterLong { .. } => Ok(None),
        SeamError::RowFull | SeamError::NoPortion => Ok(None),
    }
}

/// Two strings, joined, where what comes of them is not refused.
fn join_two<T: Synthetics>(
    alloc: Global,
    table: &T,
    pass: &mut T::Pass,
    left: &NString,
    right: &NString,
) -> Result<Option<NString>, AllocError>
    requires table { T.is_of table.now pass.old }
    requires left { AreGraphemes (T.seen pass.old).known left.now.graphemes }
    requires right { AreGraphemes (T.seen pass.old).known right.now.graphemes }
    ensures table { T.is_of table.now pass.new }
    ensures keeps { Keeps (T.seen pass.old) (T.seen pass.new) }
    ensures counts { SameCounts (T.seen pass.old) (T.seen pass.new) }
    ensures joined { (e : Encoding) (front back : List ℕ) → TextsGoOn e
        → IsStringOfBytes (T.seen pass.old).known e front left.now
        → IsStringOfBytes (T.seen pass.old).known e back right.now
        → HasJoinedBytes e front back (T.seen pass.old).known (T.seen pass.new).known result }
{
    match concat(alloc, table, pass, left, right) {
        Ok(string) => Ok(Some(string)),
        Err(error) => none_joined(error),
    }
}

/// The same where both are there.
fn join_both<T: Synthetics>(
    alloc: Global,
    table: &T,
    pass: &mut T::Pass,
    left: Option<NString>,
    right: Option<NString>,
) -> Result<Option<NString>, AllocError>
    requires table { T.is_of table.now pass.old }
    requires left { IsOfSomeBytes (T.seen pass.old).known left }
    requires right { IsOfSomeBytes (T.seen pass.old).known right }
    ensures table { T.is_of table.now pass.new }
    ensures keeps { Keeps (T.seen pass.old) (T.seen pass.new) }
    ensures counts { SameCounts (T.seen pass.old) (T.seen pass.new) }
    ensures joined { (e : Encoding) (front back : List ℕ) → TextsGoOn e
        → IsStringOrNone (T.seen pass.old).known e front left
        → IsStringOrNone (T.seen pass.old).known e back right
        → HasJoinedBytes e front back (T.seen pass.old).known (T.seen pass.new).known result }
{
    match (left, right) {
        (Some(left), Some(right)) => join_two(alloc, table, pass, &left, &right),
        _ => Ok(None),
    }
}

/// The pass meets the fork of a worker, and the string of its part is put in front of that of the parts behind.
fn meet_one<T: Shared>(
    alloc: Global,
    table: &T,
    pass: &mut T::Pass,
    loader: Loader<T::Pass>,
    behind: Option<NString>,
) -> Result<Option<NString>, AllocError>
    requires table { T.is_of table.now pass.old }
    requires fork_table { T.is_of table.now loader.pass }
    requires no_root { (T.seen loader.pass).root ≡ false }
    requires string { IsOfSomeBytes (T.seen loader.pass).known loader.string }
    requires behind { IsOfSomeBytes (T.seen pass.old).known behind }
    ensures table { T.is_of table.now pass.new }
    ensures keeps { Keeps (T.seen pass.old) (T.seen pass.new) }
    ensures forks { (T.seen pass.new).forks ≡ (T.seen pass.old).forks }
    ensures meets { OnOk result ((T.seen pass.new).meets ≡ (T.seen pass.old).meets + (T.seen loader.pass).meets + 1) }
    ensures joined { (e : Encoding) (part back : List ℕ) → TextsGoOn e
        → IsLoaded e part (T.seen pass.old).known (T.seen loader.pass) loader.string
        → IsStringOrNone (T.seen pass.old).known e back behind
        → HasJoinedBytes e part back (T.seen pass.old).known (T.seen pass.new).known result }
{
    let Loader {
        pass: fork,
        string,
        is_short,
    } = loader;
    if is_short {
        return Err(AllocError);
    }
    match table.meet(alloc, pass, fork) {
        Ok(()) => join_both(alloc, table, pass, string, behind),
        Err(_) => Err(AllocError),
    }
}

/// The pass meets the fork of each worker, and the strings of the parts behind the first one are joined.
fn join_others<T: Shared>(
    alloc: Global,
    table: &T,
    pass: &mut T::Pass,
    parts: FileParts<'_>,
    mut loaders: Vec<Loader<T::Pass>>,
) -> Result<Option<NString>, AllocError>
    requires bounds { AreBounds (length parts.bytes.now) parts.bounds.now }
    requires many { length parts.bounds.now ≡ vec_len loaders + 2 }
    requires goes_on { TextsGoOn parts.encoding }
    requires table { T.is_of table.now pass.old }
    requires fork_tables { All (λ loader. T.is_of table.now loader.pass) loaders.items }
    requires loaded { (k : ℕ) (d : _) → k < vec_len loaders
        → IsLoaded parts.encoding (part_at parts.bytes.now parts.bounds.now (k + 1))
        (T.seen pass.old).known (T.seen (slice_index_or loaders.items k d).pass) (slice_index_or loaders.items k d).string }
    ensures table { T.is_of table.now pass.new }
    ensures keeps { Keeps (T.seen pass.old) (T.seen pass.new) }
    ensures forks { (T.seen pass.new).forks ≡ (T.seen pass.old).forks }
    ensures meets { OnOk result ((T.seen pass.new).meets ≡ (T.seen pass.old).meets + vec_len loaders) }
    ensures grown { GrowsByParts parts.entry.encoding parts.entry.bytes.now (T.seen pass.old).known (T.seen pass.new).known }
    ensures string { IfOk result (IsStringOrNone (T.seen pass.new).known parts.entry.encoding
        (drop (get_or parts.entry.bounds.now 1 0) parts.entry.bytes.now)) }
{
    // from the last part on, so that each worker is popped; behind that part there is nothing
    let mut behind = Some(NString::empty(alloc));
    'joining: while let Some(loader) = loaders.pop() {
        behind = meet_one(alloc, table, pass, loader, behind)?;
    }
    Ok(behind)
}

/// The pass meets the fork of each worker, and the strings of all parts are joined: where one of them is missing, or a
/// joined one is refused, there is none.
pub(crate) fn join_all<T: Shared>(
    alloc: Global,
    table: &T,
    pass: &mut T::Pass,
    parts: FileParts<'_>,
    first: Option<NString>,
    loaders: Vec<Loader<T::Pass>>,
) -> Result<Option<NString>, AllocError>
    requires bounds { AreBounds (length parts.bytes.now) parts.bounds.now }
    requires many { length parts.bounds.now ≡ vec_len loaders + 2 }
    requires goes_on { TextsGoOn parts.encoding }
    requires table { T.is_of table.now pass.old }
    requires fork_tables { All (λ loader. T.is_of table.now loader.pass) loaders.items }
    requires first { IsStringOrNone (T.seen pass.old).known parts.encoding
        (part_at parts.bytes.now parts.bounds.now 0) first }
    requires loaded { (k : ℕ) (d : _) → k < vec_len loaders
        → IsLoaded parts.encoding (part_at parts.bytes.now parts.bounds.now (k + 1))
        (T.seen pass.old).known (T.seen (slice_index_or loaders.items k d).pass) (slice_index_or loaders.items k d).string }
    ensures table { T.is_of table.now pass.new }
    ensures keeps { Keeps (T.seen pass.old) (T.seen pass.new) }
    ensures forks { (T.seen pass.new).forks ≡ (T.seen pass.old).forks }
    ensures meets { OnOk result ((T.seen pass.new).meets ≡ (T.seen pass.old).meets + vec_len loaders) }
    ensures grown { GrowsByParts parts.entry.encoding parts.entry.bytes.now (T.seen pass.old).known (T.seen pass.new).known }
    ensures string { IfOk result (IsStringOrNone (T.seen pass.new).known parts.entry.encoding parts.entry.bytes.now) }
{
    let behind = join_others(alloc, table, pass, parts, loaders)?;
    join_both(alloc, table, pass, first, behind)
}
