//! The places at which the numbers of one string stand in another.

ghost use Rattle.std.specs.Prelude.{◌≡◌, ◌<◌, ◌≤◌, ◌+◌, ◌^◌, Some, length, if◌then◌else◌};
ghost use Rattle.nfg_ops.specs.Cuts.{number_at, IsCut};
ghost use Rattle.nfg_ops.specs.Places.{stand_at, IsFirst, IsLast, IsLastBetween};

use crate::candidate::{candidate, rare_place};
use crate::cut::{Cut, cut_of};
use crate::step::take_step;
use nfg_strand::NString;

/// A search from the back begins with so many places at least.
const PART: u64 = 1024;

/// The least place, `from` or more, at which the needle stands. It takes time by the lengths, whatever the strings hold.
pub(crate) fn first_occurrence(string: &NString, needle: &NString, from: u64) -> Option<u64>
    ensures { IsFirst (stand_at string.now.graphemes needle.now.graphemes) from result }
{
    let len = string.len();
    let width = needle.len();
    if from > len || width > len - from {
        return None;
    }
    if width == 0 {
        return Some(from);
    }
    first_from(string, needle, cut_of(needle), from)
}

/// The same of a needle that is not empty, by its cut.
fn first_from(string: &NString, needle: &NString, cut: Cut, from: u64) -> Option<u64>
    requires some { 0 < length needle.now.graphemes }
    requires cut { IsCut (number_at needle.now.graphemes) (length needle.now.graphemes) cut }
    requires inside { from + length needle.now.graphemes ≤ length string.now.graphemes }
    ensures { IsFirst (stand_at string.now.graphemes needle.now.graphemes) from result }
{
    let last = string.len() - needle.len();
    let rare = rare_place(string, needle, from);
    let (mut place, mut known) = (from, 0);
    while place <= last {
        match candidate(string, needle, rare, place, known, last) {
            None => return None,
            Some(next) => {
                let step = take_step(string, needle, cut, next, known);
                if step.is_found {
                    return Some(next);
                }
                place = step.next;
                known = step.known;
            }
        }
    }
    None
}

/// The greatest place, `from` or less, at which the needle stands. It takes time by the lengths, whatever the strings
/// hold: the string is searched in parts, the last one first, and each is twice as long as the one behind it.
pub(crate) fn last_occurrence(string: &NString, needle: &NString, from: u64) -> Option<u64>
    ensures { IsLast (stand_at string.now.graphemes needle.now.graphemes) from result }
{
    let len = string.len();
    let width = needle.len();
    if width > len {
        return None;
    }
    let last = from.min(len - width);
    if width == 0 {
        return Some(last);
    }
    last_by_parts(string, needle, cut_of(needle), last)
}

/// The same of a needle that is not empty, by its cut.
fn last_by_parts(string: &NString, needle: &NString, cut: Cut, last: u64) -> Option<u64>
    requires some { 0 < length needle.now.graphemes }
    requires cut { IsCut (number_at needle.now.graphemes) (length needle.now.graphemes) cut }
    requires bounded { length string.now.graphemes ≤ 2 ^ 40 }
    requires inside { last + length needle.now.graphemes ≤ length string.now.graphemes }
    ensures { IsLast (stand_at string.now.graphemes needle.now.graphemes) last result }
{
    let mut part = needle.len().max(PART);
    let mut end = last + 1;
    while end > 0 {
        let start = end.saturating_sub(part);
        match last_between(string, needle, cut, start, end) {
            Some(place) => return Some(place),
            None => {
                end = start;
                part = part.saturating_mul(2);
            }
        }
    }
    None
}

/// The greatest place of `start..end` at which a needle that is not empty stands.
fn last_between(string: &NString, needle: &NString, cut: Cut, start: u64, end: u64) -> Option<u64>
    requires some { 0 < length needle.now.graphemes }
    requires cut { IsCut (number_at needle.now.graphemes) (length needle.now.graphemes) cut }
    requires bounded { length string.now.graphemes ≤ 2 ^ 40 }
    requires ordered { start < end }
    requires inside { end + length needle.now.graphemes ≤ length string.now.graphemes + 1 }
    ensures { IsLastBetween (stand_at string.now.graphemes needle.now.graphemes) start end result }
{
    let rare = rare_place(string, needle, start);
    let mut found = None;
    let (mut place, mut known) = (start, 0);
    while place < end {
        match candidate(string, needle, rare, place, known, end - 1) {
            None => return found,
            Some(next) => {
                let step = take_step(string, needle, cut, next, known);
                found = later(found, next, step.is_found);
                place = step.next;
                known = step.known;
            }
        }
    }
    found
}

/// The place, where the needle stands there, else what was found before.
fn later(found: Option<u64>, place: u64, is_found: bool) -> Option<u64>
    ensures { result ≡ (if is_found then Some place else found) }
{
    if is_found { Some(place) } else { found }
}
