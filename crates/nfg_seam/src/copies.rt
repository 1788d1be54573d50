//! A list several times over, whose seams are repaired.
ghost use Rattle.std.specs.Prelude.{◌≡◌, ◌≤◌, ◌++◌, IsTrue, IfOk, OnOk, length, take, drop};
ghost use Rattle.std.specs.List.{repeat};
ghost use Rattle.nfg_seam.specs.Woven.{woven, IsShifted};

use crate::SeamError;
use std::alloc::{AllocError, Global};

/// So many short runs are put together before they are added as one.
const TOGETHER: u64 = 64;

/// A run of so many numbers is not short.
const LONG_RUN: usize = 1024;

/// What stands before `left`, then `middle` and what stands from `right` to `left` as often as there
/// are seams, and then what stands from `left` on.
pub(crate) fn woven(
    alloc: Global,
    list: &[i32],
    left: usize,
    right: usize,
    middle: &[i32],
    seams: u64,
) -> Result<Vec<i32>, AllocError>
    requires ordered { right ≤ left }
    requires inside { left ≤ length list.now }
    ensures { IfOk result (λ all. all.items ≡ woven list.now left right middle.now seams) }
{
    let mut unit = Vec::from_slice(alloc, middle)?;
    unit.extend_from_slice(&list[right..left])?;
    let room = unit
        .len()
        .saturating_mul(seams as usize)
        .saturating_add(list.len());
    let mut all = Vec::with_capacity(alloc, room)?;
    all.extend_from_slice(&list[..left])?;
    append_repeated(alloc, &mut all, &unit, seams)?;
    all.extend_from_slice(&list[left..])?;
    Ok(all)
}

/// Adds a run so many times at the end. Short runs are put together first, and added many at once.
fn append_repeated(
    alloc: Global,
    into: &mut Vec<i32>,
    run: &[i32],
    times: u64,
) -> Result<(), AllocError>
    ensures { OnOk result (into.new.items ≡ into.old.items ++ repeat times run.now) }
{
    if run.len() >= LONG_RUN || times < TOGETHER {
        return append_each(into, run, times);
    }
    let mut together = Vec::new(alloc);
    append_each(&mut together, run, TOGETHER)?;
    append_each(into, &together, times / TOGETHER)?;
    append_each(into, run, times % TOGETHER)
}

/// Adds a run so many times at the end, one after another.
fn append_each(into: &mut Vec<i32>, run: &[i32], times: u64) -> Result<(), AllocError>
    ensures { OnOk result (into.new.items ≡ into.old.items ++ repeat times run.now) }
{
    'copies: for _copy in 0..times {
        into.extend_from_slice(run)?;
    }
    Ok(())
}

/// Whether the middle of the seam is what stands there anyway: the list's end from `left` on, and its
/// front before `right`.
pub(crate) fn is_plain_seam(list: &[i32], left: usize, right: usize, middle: &[i32]) -> bool
    requires left_inside { left ≤ length list.now }
    requires right_inside { right ≤ length list.now }
    ensures { IsTrue result → middle.now ≡ drop left list.now ++ take right list.now }
{
    let back = list.len() - left;
    if middle.len() < back {
        return false;
    }
    middle[..back] == list[left..] && middle[back..] == list[..right]
}

/// The refusal of a part that begins so many places behind the front.
pub(crate) fn shifted(error: SeamError, by: u64) -> SeamError
    ensures { IsShifted error by result }
{
    match error {
        SeamError::ClusterLong { at } => match at.checked_add(by) {
            Some(place) => SeamError::ClusterLong { at: place },
            None => SeamError::OutOfMemory,
        },
        other => other,
    }
}
