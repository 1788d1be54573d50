//! Parts of two strings, and what is new between them, in a row.
ghost use Rattle.std.specs.Prelude.{◌≡◌, ◌≤◌, ◌+◌, ◌-◌, ◌^◌, ◌++◌, length, take, drop, slice_range, IfOk, OnOk};
ghost use Rattle.nfg_strand.specs.Pieces.{at_most_64, flat_piece};
ghost use Rattle.nfg_seam.specs.ConcatNumbers.{front_of, back_of, between, spliced_numbers, numbers_pieces};

use nfg_lanes::{common_back32, common_front32};
use nfg_strand::NString;
use std::alloc::{AllocError, Global};

/// The most pieces of a string.
const MOST_STRANDS: usize = 64;

/// What is kept of the middle's front and back.
#[derive(Clone, Copy)]
pub(crate) struct Kept {
    pub(crate) front: usize,
    pub(crate) back: usize,
}

/// The graphemes of a string before the front's end, the middle without what both strings have of it,
/// and the graphemes of another string from the back's start on.
pub(crate) fn spliced(
    alloc: Global,
    a: &NString,
    b: &NString,
    left: u64,
    right: u64,
    middle: &[i32],
) -> Result<NString, AllocError>
    requires left { left ≤ length a.now.graphemes }
    requires right { right ≤ length b.now.graphemes }
    requires bounded { length a.now.graphemes + (length middle.now + length b.now.graphemes) ≤ 2 ^ 40 }
    ensures graphemes { IfOk result (λ made. made.graphemes
        ≡ spliced_numbers a.now.graphemes b.now.graphemes middle.now left right
        (front_of a.now.graphemes left middle.now)
        (back_of b.now.graphemes right middle.now (front_of a.now.graphemes left middle.now))) }
    ensures pieces { IfOk result (λ made. made.pieces
        ≡ numbers_pieces a.now b.now middle.now left right
        (front_of a.now.graphemes left middle.now)
        (back_of b.now.graphemes right middle.now (front_of a.now.graphemes left middle.now))) }
{
    let kept = kept_of(alloc, a, b, left, right, middle)?;
    let first = a.clip(alloc, 0, left + kept.front as u64)?;
    let new = NString::from_graphemes(alloc, without(middle, kept))?;
    let last = b.clip(alloc, right - kept.back as u64, b.len())?;
    in_a_row(alloc, first, &new, &last)
}

/// How much of the middle both strings have: the first as far as it goes, the second of the rest.
fn kept_of(
    alloc: Global,
    a: &NString,
    b: &NString,
    left: u64,
    right: u64,
    middle: &[i32],
) -> Result<Kept, AllocError>
    requires left { left ≤ length a.now.graphemes }
    requires right { right ≤ length b.now.graphemes }
    ensures front { IfOk result (λ kept. kept.front ≡ front_of a.now.graphemes left middle.now) }
    ensures back { IfOk result (λ kept. kept.back ≡ back_of b.now.graphemes right middle.now kept.front) }
    ensures inside { IfOk result (λ kept. kept.front + kept.back ≤ length middle.now) }
    ensures front_inside { IfOk result (λ kept. left + kept.front ≤ length a.now.graphemes) }
    ensures back_inside { IfOk result (λ kept. kept.back ≤ right) }
{
    let rest = copied(alloc, a, left, a.len())?;
    let before = copied(alloc, b, 0, right)?;
    let front = common_front32(&rest, middle);
    let back = common_back32(&before, middle).min(middle.len() - front);
    Ok(Kept { front, back })
}

/// The graphemes `start..end` of a string.
fn copied(alloc: Global, string: &NString, start: u64, end: u64) -> Result<Vec<i32>, AllocError>
    requires ordered { start ≤ end }
    requires inside { end ≤ length string.now.graphemes }
    ensures { IfOk result (λ all. all.items ≡ slice_range string.now.graphemes start end) }
{
    let mut all = vec![in alloc; 0; (end - start) as usize]?;
    string.copy_into(start, all.as_mut_slice());
    Ok(all)
}

/// The middle without what is kept elsewhere.
fn without(middle: &[i32], kept: Kept) -> &[i32]
    requires { kept.front + kept.back ≤ length middle.now }
    ensures { result.now ≡ between middle.now kept.front kept.back }
{
    &middle[kept.front..middle.len() - kept.back]
}

/// Three strings in a row, in one piece where they have more than 64 together.
fn in_a_row(
    alloc: Global,
    first: NString,
    second: &NString,
    third: &NString,
) -> Result<NString, AllocError>
    requires { length first.graphemes + (length second.now.graphemes + length third.now.graphemes) ≤ 2 ^ 40 }
    ensures graphemes { IfOk result (λ all. all.graphemes
        ≡ first.graphemes ++ (second.now.graphemes ++ third.now.graphemes)) }
    ensures pieces { IfOk result (λ all. all.pieces
        ≡ at_most_64 all.graphemes (first.pieces ++ (second.now.pieces ++ third.now.pieces))) }
{
    if first.strands() + (second.strands() + third.strands()) > MOST_STRANDS {
        return flat_row(alloc, &first, second, third);
    }
    let mut all = first;
    all.append(alloc, second)?;
    all.append(alloc, third)?;
    Ok(all)
}

/// Three strings in a row, over one new block.
fn flat_row(
    alloc: Global,
    first: &NString,
    second: &NString,
    third: &NString,
) -> Result<NString, AllocError>
    requires { length first.now.graphemes + (length second.now.graphemes + length third.now.graphemes) ≤ 2 ^ 40 }
    ensures graphemes { IfOk result (λ all. all.graphemes
        ≡ first.now.graphemes ++ (second.now.graphemes ++ third.now.graphemes)) }
    ensures pieces { IfOk result (λ all. all.pieces ≡ flat_piece all.graphemes) }
{
    let len = first.len() + (second.len() + third.len());
    let mut all = Vec::with_capacity(alloc, len as usize)?;
    append_all(&mut all, first)?;
    append_all(&mut all, second)?;
    append_all(&mut all, third)?;
    NString::from_vec(alloc, all)
}

/// Adds the graphemes of a string at the end.
fn append_all(into: &mut Vec<i32>, string: &NString) -> Result<(), AllocError>
    requires { length into.old.items + length string.now.graphemes ≤ 2 ^ 40 }
    ensures { OnOk result (into.new.items ≡ into.old.items ++ string.now.graphemes) }
{
    let start = into.len();
    into.resize(start + string.len() as usize, 0)?;
    string.copy_into(0, &mut into[start..]);
    Ok(())
}
