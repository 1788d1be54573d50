//! The first place at which a text might not be its own NFC.
ghost use Rattle.std.specs.Prelude.{◌≡◌, ◌+◌, ◌<◌, ◌≤◌, length};
ghost use Rattle.std.specs.Simd.Lanes.{chunk, mask_l};
ghost use Rattle.nfg_passes.specs.Unsettled.{is_unsettled, unsettled_marks, first_unsettled};

use std::simd::prelude::*;

/// The ids below it are those of code points that start safely.
const FIRST_MARK: u8 = 18;

/// The ids below it are those of code points whose quick check is Yes.
const FIRST_DOUBTFUL: u8 = 71;

/// Ids of a block.
const LANES: usize = 32;

#[inline(always)]
fn is_unsettled(before: u8, id: u8) -> bool
    ensures { result ≡ is_unsettled before id }
{
    (id >= FIRST_DOUBTFUL) | ((id >= FIRST_MARK) & (id < before))
}

// A lane is unsettled where what stands on the left of it is greater: 1 against 0 for a doubtful id, and for a
// mark the id before it against its own.
#[inline(always)]
fn unsettled_in(ids: &[u8], at: usize) -> u64
    requires follows { 0 < at }
    requires room { at + LANES ≤ length ids.now }
    ensures { result ≡ mask_l (chunk at LANES (unsettled_marks ids.now)) }
{
    let here = u8x32::from_slice(&ids[at..]);
    let before = u8x32::from_slice(&ids[at - 1..]);
    let none = u8x32::splat(0);
    let marks = here.simd_ge(u8x32::splat(FIRST_MARK));
    let doubtful = here.simd_ge(u8x32::splat(FIRST_DOUBTFUL));
    let left = doubtful.select(u8x32::splat(1), marks.select(before, none));
    let right = doubtful.select(none, here);
    left.simd_gt(right).to_bitmask()
}

/// The first place at which a text with these ids might not be its own NFC, or the length: the first code
/// point whose quick check is not Yes, or that is a mark and comes after a greater id.
#[inline(never)]
pub fn first_unsettled(ids: &[u8]) -> usize
    ensures { result ≡ first_unsettled ids.now }
{
    if ids.is_empty() || ids[0] >= FIRST_DOUBTFUL {
        return 0;
    }
    let blocks = (ids.len() - 1) / LANES;
    for block in 0..blocks {
        let unsettled = unsettled_in(ids, block * LANES + 1);
        if unsettled != 0 {
            return block * LANES + 1 + unsettled.trailing_zeros() as usize;
        }
    }
    let mut at = blocks * LANES + 1;
    while at < ids.len() && !is_unsettled(ids[at - 1], ids[at]) {
        at += 1;
    }
    at
}
