//! Where bytes are cut into parts.
ghost use Rattle.std.specs.Prelude.{◌≡◌, ◌+◌, ◌≤◌, true, length, IfOk};
ghost use Rattle.nfg_work.specs.Parts.{AreBounds};

use nfg_decode::Encoding;
use std::alloc::{AllocError, Global};

/// The place behind a byte that goes on a sequence of UTF-8, 80..BF, and the place itself where none stands there.
fn past_continuation(bytes: &[u8], at: usize) -> usize
    requires within { at ≤ length bytes.now }
    ensures within { result ≤ length bytes.now }
    ensures forward { at ≤ result }
{
    if at < bytes.len() && (bytes[at] & 0xC0) == 0x80 {
        at + 1
    } else {
        at
    }
}

/// Past at most three bytes of a sequence, which is as many as one has behind its first.
fn utf8_border(bytes: &[u8], at: usize) -> usize
    requires within { at ≤ length bytes.now }
    ensures within { result ≤ length bytes.now }
    ensures forward { at ≤ result }
{
    let second = past_continuation(bytes, at);
    let third = past_continuation(bytes, second);
    past_continuation(bytes, third)
}

/// Whether the unit before an even place is D800..DBFF and the one at it DC00..DFFF, where the first byte of a unit is the
/// high one for `high` = 0, and the second for 1.
fn divides_pair(bytes: &[u8], at: usize, high: usize) -> bool
    requires high { high ≤ 1 }
    ensures within { result ≡ true → at + 2 ≤ length bytes.now }
{
    2 <= at
        && at < bytes.len()
        && bytes.len() - at >= 2
        && (bytes[at - 2 + high] & 0xFC) == 0xD8
        && (bytes[at + high] & 0xFC) == 0xDC
}

/// An even place, and past the second unit of a pair. `high` is the place of the high byte in a unit.
fn utf16_border(bytes: &[u8], at: usize, high: usize) -> usize
    requires within { at ≤ length bytes.now }
    requires high { high ≤ 1 }
    ensures within { result ≤ length bytes.now }
    ensures forward { at ≤ result }
{
    let odd = at % 2;
    if bytes.len() - at < odd {
        return at;
    }
    let even = at + odd;
    if divides_pair(bytes, even, high) {
        even + 2
    } else {
        even
    }
}

/// The place or the next one behind it, in bytes, at which a sequence of the encoding may begin: past at most three bytes
/// 80..BF in UTF-8, and in UTF-16 at an even place and past the second unit of a pair.
fn border(e: Encoding, bytes: &[u8], at: usize) -> usize
    requires within { at ≤ length bytes.now }
    ensures within { result ≤ length bytes.now }
    ensures forward { at ≤ result }
{
    match e {
        Encoding::Utf8 => utf8_border(bytes, at),
        Encoding::Utf16Le => utf16_border(bytes, at, 1),
        Encoding::Utf16Be => utf16_border(bytes, at, 0),
        Encoding::Utf16 | Encoding::Latin1 => at,
    }
}

/// The border of a cut in the body, and no place before `from`.
fn bound_behind(e: Encoding, bytes: &[u8], from: usize, start: usize, cut: usize) -> usize
    requires within { from ≤ length bytes.now }
    ensures within { result ≤ length bytes.now }
    ensures forward { from ≤ result }
{
    let at = cut.saturating_sub(start).min(bytes.len());
    border(e, bytes, at).max(from)
}

/// The bounds of the parts of a body that begins behind `start` bytes of a file, where the file is cut at these places, each moved
/// forward to a border.
pub(crate) fn bounds_of(
    alloc: Global,
    e: Encoding,
    bytes: &[u8],
    start: usize,
    cuts: &[usize],
) -> Result<Vec<usize>, AllocError>
    ensures bounds { IfOk result (λ bounds. AreBounds (length bytes.now) bounds.items) }
    ensures many { IfOk result (λ bounds. length bounds.items ≡ length cuts.now + 2) }
{
    let mut bounds = Vec::with_capacity(alloc, cuts.len() + 2)?;
    bounds.push(0)?;
    let mut last = 0;
    'cutting: for k in 0..cuts.len() {
        last = bound_behind(e, bytes, last, start, cuts[k]);
        bounds.push(last)?;
    }
    bounds.push(bytes.len())?;
    Ok(bounds)
}
