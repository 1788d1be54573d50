//! Between graphemes of 8 bits and of 32 bits.
ghost use Rattle.std.specs.Prelude.{◌≡◌, ◌+◌, ◌≤◌, true, length};
ghost use Rattle.std.specs.List.{list_all};
ghost use Rattle.std.specs.Simd.Lanes.{chunk, put_chunk};
ghost use Rattle.nfg_lanes.specs.Lanes.{is_narrow_grapheme};

use crate::block::{LANES32, read8, read32};
use std::simd::prelude::*;

/// Elements of a block of `narrow_fits`.
const FITS_LANES: usize = 32;

// The least and the greatest of each four lanes tell whether all four are narrow.
#[inline(always)]
fn fits_in(a: &[i32], at: usize) -> bool
    requires { at + FITS_LANES ≤ length a.now }
    ensures { result ≡ list_all is_narrow_grapheme (chunk at FITS_LANES a.now) }
{
    read32(a, at, FITS_LANES);
    let first = i32x8::from_slice(&a[at..]);
    let second = i32x8::from_slice(&a[at + 8..]);
    let third = i32x8::from_slice(&a[at + 16..]);
    let fourth = i32x8::from_slice(&a[at + 24..]);
    let least = first.simd_min(second).simd_min(third.simd_min(fourth));
    let greatest = first.simd_max(second).simd_max(third.simd_max(fourth));
    let wide = least.simd_lt(i32x8::splat(-1)) | greatest.simd_gt(i32x8::splat(127));
    wide.to_bitmask() == 0
}

/// Whether a block of 8-bit graphemes can hold each element: whether it is 0 to 127 or -1.
pub fn narrow_fits(a: &[i32]) -> bool
    ensures { result ≡ list_all is_narrow_grapheme a.now }
{
    let blocks = a.len() / FITS_LANES;
    for block in 0..blocks {
        if !fits_in(a, block * FITS_LANES) {
            return false;
        }
    }
    for at in blocks * FITS_LANES..a.len() {
        if a[at] < -1 || a[at] > 127 {
            return false;
        }
    }
    true
}

#[inline(always)]
fn widen_in(a: &[i8], at: usize, into: &mut [i32])
    requires source { at + LANES32 ≤ length a.now }
    requires room { at + LANES32 ≤ length into.old }
    ensures { into.new ≡ put_chunk at into.old (chunk at LANES32 a.now) }
{
    read8(a, at, LANES32);
    i8x16::from_slice(&a[at..])
        .cast::<i32>()
        .copy_to_slice(&mut into[at..]);
}

/// Copies each element into 32 bits.
pub fn widen(a: &[i8], into: &mut [i32])
    requires { length a.now ≡ length into.old }
    ensures { into.new ≡ a.now }
{
    let blocks = a.len() / LANES32;
    for block in 0..blocks {
        widen_in(a, block * LANES32, into);
    }
    for at in blocks * LANES32..a.len() {
        into[at] = a[at] as i32;
    }
}

#[inline(always)]
fn narrow_in(a: &[i32], at: usize, into: &mut [i8])
    requires source { at + LANES32 ≤ length a.now }
    requires room { at + LANES32 ≤ length into.old }
    requires fits { list_all is_narrow_grapheme (chunk at LANES32 a.now) ≡ true }
    ensures { into.new ≡ put_chunk at into.old (chunk at LANES32 a.now) }
{
    i32x16::from_slice(&a[at..])
        .cast::<i8>()
        .copy_to_slice(&mut into[at..]);
}

/// Copies each element into 8 bits.
pub fn narrow(a: &[i32], into: &mut [i8])
    requires lengths { length a.now ≡ length into.old }
    requires fits { list_all is_narrow_grapheme a.now ≡ true }
    ensures { into.new ≡ a.now }
{
    let blocks = a.len() / LANES32;
    for block in 0..blocks {
        narrow_in(a, block * LANES32, into);
    }
    for at in blocks * LANES32..a.len() {
        into[at] = a[at] as i8;
    }
}
