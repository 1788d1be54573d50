//! The workers of a file, each on a thread and with a fork of its own beside the caller's pass.
ghost use Rattle.std.specs.Prelude.{◌≡◌, ℕ, ◌+◌, ◌<◌, ◌≤◌, true, length, slice_index_or, vec_len, All, IfOk, OnOk};
ghost use Rattle.nfg_syn.specs.Known.{IsSame};
ghost use Rattle.nfg_syn.specs.Seen.{Keeps, SameCounts};
ghost use Rattle.nfg_work.specs.Parts.{AreBounds, part_at, GrowsByParts, IsStringOrNone, HasLoadedPart, IsReadyToLoad, IsLoaded};

use crate::Gate;
use crate::file_parts::FileParts;
use crate::loader::{Loader, let_load, load_at};
use nfg_strand::NString;
use nfg_syn::Shared;
use std::alloc::{AllocError, Global};
use std::marker::Sync;
use std::thread::{Threads, for_each_mut, join_mut};

/// A worker with a new fork of the pass.
fn new_loader<T: Shared>(
    alloc: Global,
    table: &T,
    pass: &mut T::Pass,
) -> Result<Loader<T::Pass>, AllocError>
    requires root { (T.seen pass.old).root ≡ true }
    requires table { T.is_of table.now pass.old }
    ensures table { T.is_of table.now pass.new }
    ensures keeps { Keeps (T.seen pass.old) (T.seen pass.new) }
    ensures known { IsSame (T.seen pass.old).known (T.seen pass.new).known }
    ensures meets { (T.seen pass.new).meets ≡ (T.seen pass.old).meets }
    ensures counted { OnOk result ((T.seen pass.new).forks ≡ (T.seen pass.old).forks + 1) }
    ensures fork_table { IfOk result (λ loader. T.is_of table.now loader.pass) }
    ensures ready { IfOk result (λ loader. IsReadyToLoad (T.seen pass.old).known (T.seen loader.pass)) }
{
    let fork = table.fork(alloc, pass)?;
    Ok(Loader {
        pass: fork,
        string: None,
        is_short: false,
    })
}

/// So many workers, each with a new fork of the pass.
pub(crate) fn new_loaders<T: Shared>(
    alloc: Global,
    table: &T,
    pass: &mut T::Pass,
    count: usize,
) -> Result<Vec<Loader<T::Pass>>, AllocError>
    requires root { (T.seen pass.old).root ≡ true }
    requires table { T.is_of table.now pass.old }
    ensures table { T.is_of table.now pass.new }
    ensures keeps { Keeps (T.seen pass.old) (T.seen pass.new) }
    ensures known { IsSame (T.seen pass.old).known (T.seen pass.new).known }
    ensures meets { (T.seen pass.new).meets ≡ (T.seen pass.old).meets }
    ensures counted { OnOk result ((T.seen pass.new).forks ≡ (T.seen pass.old).forks + count) }
    ensures many { IfOk result (λ loaders. vec_len loaders ≡ count) }
    ensures fork_tables { IfOk result (λ loaders. All (λ loader. T.is_of table.now loader.pass) loaders.items) }
    ensures ready { IfOk result (λ loaders.
        All (λ loader. IsReadyToLoad (T.seen pass.old).known (T.seen loader.pass)) loaders.items) }
{
    let mut loaders = Vec::new(alloc);
    'forking: for _k in 0..count {
        loaders.push(new_loader(alloc, table, pass)?)?;
    }
    Ok(loaders)
}

/// Each worker loads its part, on a thread of its own. The first of them has the part at 1.
fn let_all_load<R: Threads + Sync, T: Shared, G: Gate>(
    rt: &R,
    alloc: Global,
    table: &T,
    parts: FileParts<'_>,
    gate: &G,
    loaders: &mut [Loader<T::Pass>],
)
    requires bounds { AreBounds (length parts.bytes.now) parts.bounds.now }
    requires many { length parts.bounds.now ≡ length loaders.old + 2 }
    requires few { length loaders.old < 64 }
    requires limit { length parts.bytes.now ≤ 67108864 }
    requires tables { All (λ loader. T.is_of table.now loader.pass) loaders.old }
    ensures many { length loaders.new ≡ length loaders.old }
    ensures tables { All (λ loader. T.is_of table.now loader.pass) loaders.new }
    ensures loaded { (k : ℕ) (d : _) → k < length loaders.old
        → HasLoadedPart parts.entry.encoding (part_at parts.entry.bytes.now parts.entry.bounds.now (k + 1))
        (T.seen (slice_index_or loaders.old k d).pass) (T.seen (slice_index_or loaders.new k d).pass)
        (slice_index_or loaders.new k d).string }
{
    let threads = loaders.len();
    if threads == 0 {
        return;
    }
    for_each_mut(
        rt,
        loaders,
        threads,
        &|k, loader: &mut Loader<T::Pass>|
            requires bounds { AreBounds (length parts.bytes.now) parts.bounds.now }
            requires place { k + 2 < length parts.bounds.now }
            requires few { k + 1 < 64 }
            requires limit { length parts.bytes.now ≤ 67108864 }
            requires table { T.is_of table.now loader.old.pass }
            ensures table { T.is_of table.entry.now loader.new.pass }
            ensures loaded { HasLoadedPart parts.entry.encoding
                (part_at parts.entry.bytes.now parts.entry.bounds.now (k + 1))
                (T.seen loader.old.pass) (T.seen loader.new.pass) loader.new.string }
        { let_load(alloc, table, parts, k + 1, gate, loader) },
    );
}

/// All parts are loaded at once: the first over the caller's pass, and the others over those of the workers.
fn load_together<R: Threads + Sync, T: Shared, G: Gate>(
    rt: &R,
    alloc: Global,
    table: &T,
    pass: &mut T::Pass,
    parts: FileParts<'_>,
    gate: &G,
    others: &mut [Loader<T::Pass>],
) -> Result<Option<NString>, AllocError>
    requires bounds { AreBounds (length parts.bytes.now) parts.bounds.now }
    requires many { length parts.bounds.now ≡ length others.old + 2 }
    requires few { length others.old < 64 }
    requires limit { length parts.bytes.now ≤ 67108864 }
    requires table { T.is_of table.now pass.old }
    requires fork_tables { All (λ loader. T.is_of table.now loader.pass) others.old }
    ensures table { T.is_of table.now pass.new }
    ensures keeps { Keeps (T.seen pass.old) (T.seen pass.new) }
    ensures counts { SameCounts (T.seen pass.old) (T.seen pass.new) }
    ensures grown { GrowsByParts parts.entry.encoding (part_at parts.entry.bytes.now parts.entry.bounds.now 0)
        (T.seen pass.old).known (T.seen pass.new).known }
    ensures first { IfOk result (IsStringOrNone (T.seen pass.new).known parts.entry.encoding
        (part_at parts.entry.bytes.now parts.entry.bounds.now 0)) }
    ensures many { length others.new ≡ length others.old }
    ensures fork_tables { All (λ loader. T.is_of table.now loader.pass) others.new }
    ensures loaded { (k : ℕ) (d : _) → k < length others.old
        → HasLoadedPart parts.entry.encoding (part_at parts.entry.bytes.now parts.entry.bounds.now (k + 1))
        (T.seen (slice_index_or others.old k d).pass) (T.seen (slice_index_or others.new k d).pass)
        (slice_index_or others.new k d).string }
{
    let mut ours = || -> Result<Option<NString>, AllocError>
        requires bounds { AreBounds (length parts.bytes.now) parts.bounds.now }
        requires place { 1 < length parts.bounds.now }
        requires limit { length parts.bytes.now ≤ 67108864 }
        requires table { T.is_of table.now pass.now }
        ensures table { T.is_of table.entry.now pass.exit.now }
        ensures keeps { Keeps (T.seen pass.entry.now) (T.seen pass.exit.now) }
        ensures counts { SameCounts (T.seen pass.entry.now) (T.seen pass.exit.now) }
        ensures grown { GrowsByParts parts.entry.encoding (part_at parts.entry.bytes.now parts.entry.bounds.now 0)
            (T.seen pass.entry.now).known (T.seen pass.exit.now).known }
        ensures first { IfOk result (IsStringOrNone (T.seen pass.exit.now).known parts.entry.encoding
            (part_at parts.entry.bytes.now parts.entry.bounds.now 0)) }
    { load_at(alloc, table, pass, parts, 0, gate) };
    let mut theirs = ||
        requires bounds { AreBounds (length parts.bytes.now) parts.bounds.now }
        requires many { length parts.bounds.now ≡ length others.now + 2 }
        requires few { length others.now < 64 }
        requires limit { length parts.bytes.now ≤ 67108864 }
        requires tables { All (λ loader. T.is_of table.now loader.pass) others.now }
        ensures many { length others.exit.now ≡ length others.entry.now }
        ensures tables { All (λ loader. T.is_of table.entry.now loader.pass) others.exit.now }
        ensures loaded { (k : ℕ) (d : _) → k < length others.entry.now
            → HasLoadedPart parts.entry.encoding (part_at parts.entry.bytes.now parts.entry.bounds.now (k + 1))
            (T.seen (slice_index_or others.entry.now k d).pass)
            (T.seen (slice_index_or others.exit.now k d).pass) (slice_index_or others.exit.now k d).string }
    { let_all_load(rt, alloc, table, parts, gate, others) };
    let (_, first) = join_mut(rt, &mut theirs, &mut ours);
    first
}

/// All parts are loaded at once: the first over the caller's pass, and each other one over the pass of a worker.
pub(crate) fn load_all<R: Threads + Sync, T: Shared, G: Gate>(
    rt: &R,
    alloc: Global,
    table: &T,
    pass: &mut T::Pass,
    parts: FileParts<'_>,
    gate: &G,
    others: &mut [Loader<T::Pass>],
) -> Result<Option<NString>, AllocError>
    requires bounds { AreBounds (length parts.bytes.now) parts.bounds.now }
    requires many { length parts.bounds.now ≡ length others.old + 2 }
    requires few { length others.old < 64 }
    requires limit { length parts.bytes.now ≤ 67108864 }
    requires table { T.is_of table.now pass.old }
    requires fork_tables { All (λ loader. T.is_of table.now loader.pass) others.old }
    requires ready { All (λ loader. IsReadyToLoad (T.seen pass.old).known (T.seen loader.pass)) others.old }
    ensures table { T.is_of table.now pass.new }
    ensures keeps { Keeps (T.seen pass.old) (T.seen pass.new) }
    ensures counts { SameCounts (T.seen pass.old) (T.seen pass.new) }
    ensures grown { GrowsByParts parts.entry.encoding (part_at parts.entry.bytes.now parts.entry.bounds.now 0)
        (T.seen pass.old).known (T.seen pass.new).known }
    ensures first { IfOk result (IsStringOrNone (T.seen pass.new).known parts.entry.encoding
        (part_at parts.entry.bytes.now parts.entry.bounds.now 0)) }
    ensures many { length others.new ≡ length others.old }
    ensures fork_tables { All (λ loader. T.is_of table.now loader.pass) others.new }
    ensures loaded { (k : ℕ) (d : _) → k < length others.old
        → IsLoaded parts.entry.encoding (part_at parts.entry.bytes.now parts.entry.bounds.now (k + 1))
        (T.seen pass.old).known (T.seen (slice_index_or others.new k d).pass) (slice_index_or others.new k d).string }
{
    if others.is_empty() {
        return load_at(alloc, table, pass, parts, 0, gate);
    }
    load_together(rt, alloc, table, pass, parts, gate, others)
}
