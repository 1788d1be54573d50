//! One step of the two-way search of Crochemore and Perrin.

ghost use Rattle.std.specs.Prelude.{◌≡◌, ◌<◌, ◌≤◌, ◌+◌, ◌^◌, ℕ, false, length};
ghost use Rattle.nfg_ops.specs.Cuts.{number_at, IsCut, known_then};
ghost use Rattle.nfg_ops.specs.Places.{stand_at};

use crate::cut::Cut;
use nfg_strand::NString;

/// What a look at a place tells.
#[derive(Clone, Copy)]
pub(crate) struct Step {
    pub(crate) is_found: bool,
    // The next place at which the needle may stand, and how much of its front is known to stand there.
    pub(crate) next: u64,
    pub(crate) known: u64,
}

/// Looks at a place, at which the first `known` graphemes of the needle are known to stand. From the critical place on,
/// no grapheme of the string is looked at twice over the steps of a search.
pub(crate) fn take_step(
    string: &NString,
    needle: &NString,
    cut: Cut,
    place: u64,
    known: u64,
) -> Step
    requires cut { IsCut (number_at needle.now.graphemes) (length needle.now.graphemes) cut }
    requires inside { place + length needle.now.graphemes ≤ length string.now.graphemes }
    requires bounded { length string.now.graphemes ≤ 2 ^ 40 }
    requires known_less { known < length needle.now.graphemes }
    requires known { (k : ℕ) → k < known
        → number_at needle.now.graphemes k ≡ number_at string.now.graphemes (place + k) }
    ensures found { result.is_found ≡ stand_at string.now.graphemes needle.now.graphemes place }
    ensures onward { place < result.next }
    ensures none { (k : ℕ) → place < k → k < result.next
        → stand_at string.now.graphemes needle.now.graphemes k ≡ false }
    ensures near { result.next ≤ place + length needle.now.graphemes }
    ensures known_less { result.known < length needle.now.graphemes }
    ensures known { (k : ℕ) → k < result.known
        → number_at needle.now.graphemes k ≡ number_at string.now.graphemes (result.next + k) }
{
    let width = needle.len();
    let start = cut.critical.max(known);
    let same = string.common_front(place + start, needle, start, width - start);
    if same < width - start {
        return Step {
            is_found: false,
            next: place + (start + same - cut.critical) + 1,
            known: 0,
        };
    }
    let low = cut.critical.min(known);
    let left = string.common_front(place + low, needle, low, cut.critical - low);
    Step {
        is_found: left == cut.critical - low,
        next: place + cut.shift,
        known: known_after(cut, width),
    }
}

/// How much of the needle's front stands a shift after a place, where all from the critical place on stands at the place.
fn known_after(cut: Cut, width: u64) -> u64
    requires { cut.shift ≤ width }
    ensures { result ≡ known_then cut width }
{
    if cut.is_period { width - cut.shift } else { 0 }
}
