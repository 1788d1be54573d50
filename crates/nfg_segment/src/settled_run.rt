//! How far a text is settled, so that it is its own NFC whatever comes before it.
ghost use Rattle.std.specs.Prelude.{◌≡◌, ◌<◌, ◌≤◌, true, map, take, length, IsTrue};
ghost use Rattle.std.specs.List.{slice_index_or};
ghost use Rattle.nfg_text.specs.Graphemes.{starts_safely};
ghost use Rattle.nfg_text.specs.Text.{IsText};
ghost use Rattle.nfg_passes.specs.Ids.{id_number};
ghost use Rattle.nfg_passes.specs.Unsettled.{IsSettledText};
ghost use Rattle.nfg_segment.specs.Held.{none_safe};

use nfg_passes::{first_unsettled, id_of, ids_of};
use nfg_text::starts_safely;

/// How many code points are looked at together at most.
pub(crate) const WINDOW: usize = 256;

/// How many are looked at first. Then it is four times as many, while all of them are settled.
const FEW: usize = 16;

/// How many plain code points at the end of what is looked at tell that more of them may follow.
const PLAIN: usize = 8;

/// The ids below it are those of code points that start safely.
const FIRST_MARK: u8 = 18;

/// The ids below it are those of code points whose quick check is Yes.
const FIRST_DOUBTFUL: u8 = 71;

/// A place, as late as is looked at, whose code point starts safely and before which all of the text is settled; 0
/// where there is none behind the first. Writes the ids of the code points before it.
pub(crate) fn settled_len(text: &[u32], ids: &mut [u8]) -> usize
    requires some { 0 < length text.now }
    requires first { starts_safely (slice_index_or text.now 0 0) ≡ true }
    requires room { length ids.old ≡ 256 }
    ensures within { result < length text.now }
    ensures safe { starts_safely (slice_index_or text.now result 0) ≡ true }
    ensures settled { IsSettledText (take result text.now) }
    ensures ids { take result ids.new ≡ map id_number (take result text.now) }
    ensures size { length ids.new ≡ 256 }
    ensures few { result ≤ 256 }
{
    let front = settled_front(text, ids);
    last_safe(&ids[..front])
}

/// Whether the text has a second code point whose quick check is Yes.
#[inline(always)]
pub(crate) fn goes_on_settled(text: &[u32]) -> bool {
    text.len() > 1 && id_of(text[1]) < FIRST_DOUBTFUL
}

/// How many code points that are settled the text begins with, as far as it is looked at. Writes their ids.
fn settled_front(text: &[u32], ids: &mut [u8]) -> usize
    requires some { 0 < length text.now }
    requires room { length ids.old ≡ 256 }
    ensures within { result ≤ length text.now }
    ensures few { result ≤ 256 }
    ensures settled { IsSettledText (take result text.now) }
    ensures ids { take result ids.new ≡ map id_number (take result text.now) }
    ensures size { length ids.new ≡ 256 }
{
    let most = text.len().min(WINDOW);
    let mut end = most.min(FEW);
    let mut front = look(text, end, ids);
    while looks_on(&ids[..front], end, most) {
        end = most.min(4 * end);
        front = look(text, end, ids);
    }
    front
}

/// Whether more is looked at: all was settled so far, and it does not end with plain code points.
#[inline(always)]
fn looks_on(ids: &[u8], end: usize, most: usize) -> bool
    ensures { IsTrue result → end < most }
{
    ids.len() == end && end < most && !ends_plain(ids)
}

/// Whether they are the ids of a text that ends with plain code points.
#[inline(always)]
fn ends_plain(ids: &[u8]) -> bool {
    if ids.len() < PLAIN {
        return false;
    }
    let mut all = 0;
    for id in &ids[ids.len() - PLAIN..] {
        all |= *id;
    }
    all == 0
}

/// How many of the first code points are settled. Writes their ids.
#[inline(always)]
fn look(text: &[u32], end: usize, ids: &mut [u8]) -> usize
    requires within { end ≤ length text.now }
    requires room { end ≤ length ids.old }
    ensures within { result ≤ end }
    ensures settled { IsSettledText (take result text.now) }
    ensures ids { take result ids.new ≡ map id_number (take result text.now) }
    ensures size { length ids.new ≡ length ids.old }
{
    ids_of(&text[..end], &mut ids[..end]);
    first_unsettled(&ids[..end])
}

/// The place of the last id of a code point that starts safely, but for the first. Where they end with a row of plain
/// code points, it is that of the first of the row: the others go on faster as plain lines.
#[inline(always)]
fn last_safe(ids: &[u8]) -> usize
    ensures within { 0 < result → result < length ids.now }
    ensures safe { 0 < result → slice_index_or ids.now result 0 < 18 }
{
    let mut at = plain_from(ids);
    if at < ids.len() {
        return at;
    }
    while at > 1 {
        at -= 1;
        if ids[at] < FIRST_MARK {
            return at;
        }
    }
    0
}

/// Where the row of ids of plain code points begins with which they end, but for the first; their length where they end
/// with another.
#[inline(always)]
fn plain_from(ids: &[u8]) -> usize
    ensures within { result ≤ length ids.now }
    ensures plain { result < length ids.now → slice_index_or ids.now result 0 ≡ 0 }
{
    let mut at = ids.len();
    while at > 1 && ids[at - 1] == 0 {
        at -= 1;
    }
    at
}

/// How many code points that do not start safely the text begins with.
pub(crate) fn unsafe_len(text: &[u32]) -> usize
    requires { IsText text.now }
    ensures within { result ≤ length text.now }
    ensures none { none_safe (take result text.now) ≡ true }
    ensures next { result < length text.now → starts_safely (slice_index_or text.now result 0) ≡ true }
{
    for i in 0..text.len() {
        if starts_safely(text[i]) {
            return i;
        }
    }
    text.len()
}
