//! Places that a search passes over.

ghost use Rattle.std.specs.Prelude.{◌≡◌, ◌⊎◌, ◌<◌, ◌≤◌, ◌+◌, ◌^◌, ℕ, false, length, IfNone, IfSome};
ghost use Rattle.nfg_ops.specs.Places.{stand_at};

use nfg_strand::NString;

/// So many graphemes of a needle are tried, each in so many graphemes of the string.
const TRIED: u64 = 16;

const WINDOW: u64 = 1024;

/// The place of a grapheme of the needle that the string has seldom, as far as a look at a few of its graphemes from a
/// place on tells. It takes a bounded time, whatever the lengths.
pub(crate) fn rare_place(string: &NString, needle: &NString, from: u64) -> u64
    requires some { 0 < length needle.now.graphemes }
    requires inside { from ≤ length string.now.graphemes }
    ensures { result < length needle.now.graphemes }
{
    let last = needle.len() - 1;
    let step = needle.len() / TRIED + 1;
    let end = string.len().min(from + WINDOW);
    let mut rare = last;
    let mut passed = 0;
    for k in 0..TRIED {
        let tried = last.min(k * step);
        let distance = distance_to(string, from, end, needle.get(tried));
        if distance > passed {
            passed = distance;
            rare = tried;
        }
    }
    rare
}

/// How many graphemes of a range come before the first that is this one, or more than there are.
fn distance_to(string: &NString, from: u64, end: u64, sought: i32) -> u64
    requires ordered { from ≤ end }
    requires inside { end ≤ length string.now.graphemes }
{
    match string.find(from, end, sought) {
        Some(at) => at.saturating_sub(from),
        None => WINDOW + 1,
    }
}

/// The least place of `place..=last` that has the needle's grapheme `rare` where the needle would have it, by the
/// kernels of the blocks. A place of which something is known is not passed over.
pub(crate) fn candidate(
    string: &NString,
    needle: &NString,
    rare: u64,
    place: u64,
    known: u64,
    last: u64,
) -> Option<u64>
    requires rare { rare < length needle.now.graphemes }
    requires bounded { length string.now.graphemes ≤ 2 ^ 40 }
    requires ordered { place ≤ last }
    requires inside { last + length needle.now.graphemes ≤ length string.now.graphemes }
    ensures none { IfNone result ((k : ℕ) → place ≤ k → k ≤ last
        → stand_at string.now.graphemes needle.now.graphemes k ≡ false) }
    ensures within { IfSome result (λ next. (place ≤ next) × (next ≤ last)) }
    ensures passed { IfSome result (λ next. (k : ℕ) → place ≤ k → k < next
        → stand_at string.now.graphemes needle.now.graphemes k ≡ false) }
    ensures kept { IfSome result (λ next. (next ≡ place) ⊎ (known ≡ 0)) }
{
    if known > 0 {
        return Some(place);
    }
    let sought = needle.get(rare);
    match string.find(place + rare, last + rare + 1, sought) {
        Some(at) => Some(at - rare),
        None => None,
    }
}
