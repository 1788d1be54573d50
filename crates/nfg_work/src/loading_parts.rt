//! One file is loaded by several workers, each of which reads a part of it.
ghost use Rattle.std.specs.Prelude.{◌≡◌, ℕ, ◌+◌, ◌<◌, ◌≤◌, ◌++◌, List, Ok, suc, true, length, get_or, All, IfOk, OnOk};
ghost use Rattle.nfg_decode.specs.Encoding.{decode};
ghost use Rattle.nfg_syn.specs.Seen.{Keeps};
ghost use Rattle.nfg_work.specs.Parts.{AreBounds, GrowsByParts, HasLoadedParts, IsStringOrNone, LoadCountsAlike, TextsGoOn};
ghost use Rattle.nfg_work.specs.Workers.{CountAlike};

use crate::Gate;
use crate::body::body_of;
use crate::bounds::bounds_of;
use crate::file_parts::FileParts;
use crate::loaders::{load_all, new_loaders};
use crate::making::load_bytes;
use crate::part_joining::join_all;
use nfg_decode::Encoding;
use nfg_strand::NString;
use nfg_stream::LoadError;
use nfg_syn::Shared;
use std::alloc::{AllocError, Global};
use std::marker::Sync;
use std::thread::Threads;

/// The string of bytes without a mark, loaded in parts and joined, where each part is a text and nothing is refused.
fn load_joined<R: Threads + Sync, T: Shared, G: Gate>(
    rt: &R,
    alloc: Global,
    table: &T,
    pass: &mut T::Pass,
    parts: FileParts<'_>,
    gate: &G,
) -> Result<Option<NString>, AllocError>
    requires bounds { AreBounds (length parts.bytes.now) parts.bounds.now }
    requires few { length parts.bounds.now < 66 }
    requires limit { length parts.bytes.now ≤ 67108864 }
    requires goes_on { TextsGoOn parts.encoding }
    requires root { (T.seen pass.old).root ≡ true }
    requires table { T.is_of table.now pass.old }
    ensures table { T.is_of table.now pass.new }
    ensures keeps { Keeps (T.seen pass.old) (T.seen pass.new) }
    ensures counted { OnOk result ((most : ℕ) → length parts.entry.bounds.now ≡ most + 2
        → CountAlike most (T.seen pass.old) (T.seen pass.new)) }
    ensures grown { GrowsByParts parts.entry.encoding parts.entry.bytes.now (T.seen pass.old).known (T.seen pass.new).known }
    ensures string { IfOk result (IsStringOrNone (T.seen pass.new).known parts.entry.encoding parts.entry.bytes.now) }
{
    let mut others = new_loaders(alloc, table, pass, parts.bounds.len() - 2)?;
    let first = load_all(rt, alloc, table, pass, parts, gate, others.as_mut_slice())?;
    join_all(alloc, table, pass, parts, first, others)
}

/// The string of a file's bytes, which are cut at `cuts` (in bytes from the front) and read by as many workers as there are
/// parts, each over a pass of its own. A cut moves forward to the next place where a sequence may begin. The parts are
/// numbered from 0, and `gate` is told when a worker begins one and when it is done with it. The string has one
/// piece, or none where it is empty.
///
/// Every refusal is that of reading all bytes at once: `Malformed` at the first place that is so, and else `ClusterLong` at
/// the first cluster of over 1,024 code points; `RowFull` and `NoPortion` where the table has no room. A part
/// that is refused by itself is no refusal. Every pass that was forked has been met again, unless memory was wanting.
pub fn load_parts<R: Threads + Sync, T: Shared, G: Gate>(
    rt: &R,
    alloc: Global,
    table: &T,
    pass: &mut T::Pass,
    e: Encoding,
    bytes: &[u8],
    cuts: &[usize],
    gate: &G,
) -> Result<NString, LoadError>
    requires limit { length bytes.now ≤ 67108864 }
    requires few { length cuts.now ≤ 63 }
    requires ascending { (k : ℕ) → suc k < length cuts.now → get_or cuts.now k 0 ≤ get_or cuts.now (suc k) 0 }
    requires within { All (λ cut. cut ≤ length bytes.now) cuts.now }
    requires root { (T.seen pass.old).root ≡ true }
    requires table { T.is_of table.now pass.old }
    ensures table { T.is_of table.now pass.new }
    ensures keeps { Keeps (T.seen pass.old) (T.seen pass.new) }
    ensures counted { LoadCountsAlike (length cuts.now) (T.seen pass.old) (T.seen pass.new) result }
    ensures loaded { HasLoadedParts e bytes.now (T.seen pass.old) (T.seen pass.new) result }
{
    let body = body_of(e, bytes);
    let behind = &bytes[body.start..];
    let bounds = bounds_of(alloc, body.encoding, behind, body.start, cuts)?;
    let parts = FileParts {
        bytes: behind,
        encoding: body.encoding,
        bounds: bounds.as_slice(),
    };
    match load_joined(rt, alloc, table, pass, parts, gate) {
        Ok(Some(string)) => Ok(string.flatten(alloc)?),
        Ok(None) => load_bytes(alloc, table, pass, e, bytes),
        Err(_) => Err(LoadError::OutOfMemory),
    }
}
