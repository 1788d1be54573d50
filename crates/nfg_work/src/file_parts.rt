//! Bytes that are cut into parts, each of which is read by itself.
ghost use Rattle.std.specs.Prelude.{◌≡◌, ◌+◌, ◌<◌, length};
ghost use Rattle.nfg_work.specs.Parts.{AreBounds, part_at};

use nfg_decode::Encoding;

/// Bytes that are cut into parts.
#[derive(Clone, Copy)]
pub(crate) struct FileParts<'a> {
    pub(crate) bytes: &'a [u8],
    /// Their encoding, which is one without a mark.
    pub(crate) encoding: Encoding,
    /// Where each part begins, in bytes, and at the end where the last one ends.
    pub(crate) bounds: &'a [usize],
}

/// The bytes of the part at `k`.
pub(crate) fn part<'a>(parts: FileParts<'a>, k: usize) -> &'a [u8]
    requires bounds { AreBounds (length parts.bytes.now) parts.bounds.now }
    requires place { k + 1 < length parts.bounds.now }
    ensures { result.now ≡ part_at parts.entry.bytes.now parts.entry.bounds.now k }
{
    let start = parts.bounds[k];
    let end = parts.bounds[k + 1];
    &parts.bytes[start..end]
}
