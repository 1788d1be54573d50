//! Searches, comparisons and copies over strands, a block range at a time.

ghost use Rattle.std.specs.Prelude.{◌≡◌, ◌≤◌, ◌+◌, length, slice_range};
ghost use Rattle.std.specs.List.{position_from, common_prefix_len};
ghost use Rattle.std.specs.Ordering.{int_eq};
ghost use Rattle.nfg_strand.specs.Strand.{graphemes};

use crate::place::Place;
use crate::strand::Strand;

/// The least place of `from..until` that holds `x`.
pub(crate) fn find(strands: &[Strand], from: u64, until: u64, x: i32) -> Option<u64>
    requires ordered { from ≤ until }
    requires inside { until ≤ length (graphemes strands.now) }
    ensures { result ≡ position_from (λ y. int_eq y x) from
        (slice_range (graphemes strands.now) from until) }
{
    let mut rest = Place::from(strands, from);
    let mut at = from;
    while at < until {
        let (seen, found) = rest.find_here(until - at, x);
        match found {
            Some(place) => return Some(at + place),
            None => {
                rest.advance(seen);
                at += seen;
            }
        }
    }
    None
}

/// How many graphemes two ranges of `count` have in common from the front on.
pub(crate) fn common_front(
    strands: &[Strand],
    start: u64,
    others: &[Strand],
    other_start: u64,
    count: u64,
) -> u64
    requires inside { start + count ≤ length (graphemes strands.now) }
    requires other_inside { other_start + count ≤ length (graphemes others.now) }
    ensures { result ≡ common_prefix_len int_eq
        (slice_range (graphemes strands.now) start (start + count))
        (slice_range (graphemes others.now) other_start (other_start + count)) }
{
    let mut rest = Place::from(strands, start);
    let mut other = Place::from(others, other_start);
    let mut same = 0;
    while same < count {
        let (seen, common) = rest.common_here(&other, count - same);
        if common < seen {
            return same + common;
        }
        rest.advance(seen);
        other.advance(seen);
        same += seen;
    }
    count
}

/// Copies the graphemes from `start` on, as many as there is room for.
pub(crate) fn copy(strands: &[Strand], start: u64, into: &mut [i32])
    requires { start + length into.old ≤ length (graphemes strands.now) }
    ensures { into.new ≡ slice_range (graphemes strands.now) start (start + length into.old) }
{
    let mut rest = Place::from(strands, start);
    let mut at = 0;
    while at < into.len() {
        let count = rest.copy_here(&mut into[at..]);
        rest.advance(count as u64);
        at += count;
    }
}
