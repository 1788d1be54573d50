//! A worker that loads one part of a file.
ghost use Rattle.std.specs.Prelude.{◌+◌, ◌<◌, ◌≤◌, length, IfOk};
ghost use Rattle.nfg_syn.specs.Seen.{Keeps, SameCounts};
ghost use Rattle.nfg_work.specs.Parts.{AreBounds, part_at, GrowsByParts, IsStringOrNone, HasLoadedPart};

use crate::Gate;
use crate::file_parts::{FileParts, part};
use crate::making::load_bytes;
use nfg_decode::Encoding;
use nfg_strand::NString;
use nfg_stream::LoadError;
use nfg_syn::Synthetics;
use std::alloc::{AllocError, Global};

/// A worker that loads one part of a file, with a pass of its own.
#[derive(Drop)]
pub(crate) struct Loader<P: Drop> {
    pub(crate) pass: P,
    /// The string of the part, where it is a text by itself and the table has room for it.
    pub(crate) string: Option<NString>,
    /// Memory was wanting.
    pub(crate) is_short: bool,
}

/// The string of bytes, where they are a text of which no cluster is too long and the table has room for it.
fn load_part<T: Synthetics>(
    alloc: Global,
    table: &T,
    pass: &mut T::Pass,
    e: Encoding,
    bytes: &[u8],
) -> Result<Option<NString>, AllocError>
    requires table { T.is_of table.now pass.old }
    requires limit { length bytes.now ≤ 67108864 }
    ensures table { T.is_of table.now pass.new }
    ensures keeps { Keeps (T.seen pass.old) (T.seen pass.new) }
    ensures counts { SameCounts (T.seen pass.old) (T.seen pass.new) }
    ensures grown { GrowsByParts e bytes.now (T.seen pass.old).known (T.seen pass.new).known }
    ensures string { IfOk result (IsStringOrNone (T.seen pass.new).known e bytes.now) }
{
    match load_bytes(alloc, table, pass, e, bytes) {
        Ok(string) => Ok(Some(string)),
        Err(LoadError::OutOfMemory) => Err(AllocError),
        Err(_) => Ok(None),
    }
}

/// Loads the part at `k`, between the two calls of the gate.
pub(crate) fn load_at<T: Synthetics, G: Gate>(
    alloc: Global,
    table: &T,
    pass: &mut T::Pass,
    parts: FileParts<'_>,
    k: usize,
    gate: &G,
) -> Result<Option<NString>, AllocError>
    requires bounds { AreBounds (length parts.bytes.now) parts.bounds.now }
    requires place { k + 1 < length parts.bounds.now }
    requires few { k < 64 }
    requires limit { length parts.bytes.now ≤ 67108864 }
    requires table { T.is_of table.now pass.old }
    ensures table { T.is_of table.now pass.new }
    ensures keeps { Keeps (T.seen pass.old) (T.seen pass.new) }
    ensures counts { SameCounts (T.seen pass.old) (T.seen pass.new) }
    ensures grown { GrowsByParts parts.entry.encoding (part_at parts.entry.bytes.now parts.entry.bounds.now k)
        (T.seen pass.old).known (T.seen pass.new).known }
    ensures string { IfOk result (IsStringOrNone (T.seen pass.new).known parts.entry.encoding
        (part_at parts.entry.bytes.now parts.entry.bounds.now k)) }
{
    let bytes = part(parts, k);
    gate.enter(k as u32);
    let loaded = load_part(alloc, table, pass, parts.encoding, bytes);
    gate.leave(k as u32);
    loaded
}

/// The worker loads the part at `k`.
pub(crate) fn let_load<T: Synthetics, G: Gate>(
    alloc: Global,
    table: &T,
    parts: FileParts<'_>,
    k: usize,
    gate: &G,
    loader: &mut Loader<T::Pass>,
)
    requires bounds { AreBounds (length parts.bytes.now) parts.bounds.now }
    requires place { k + 1 < length parts.bounds.now }
    requires few { k < 64 }
    requires limit { length parts.bytes.now ≤ 67108864 }
    requires table { T.is_of table.now loader.old.pass }
    ensures table { T.is_of table.now loader.new.pass }
    ensures loaded { HasLoadedPart parts.entry.encoding (part_at parts.entry.bytes.now parts.entry.bounds.now k)
        (T.seen loader.old.pass) (T.seen loader.new.pass) loader.new.string }
{
    match load_at(alloc, table, &mut loader.pass, parts, k, gate) {
        Ok(string) => loader.string = string,
        Err(_) => {
            loader.string = None;
            loader.is_short = true;
        }
    }
}
