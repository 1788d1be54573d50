//! The first element that equals a given one.
ghost use Rattle.std.specs.Prelude.{◌≡◌, ◌+◌, ◌≤◌, length};
ghost use Rattle.std.specs.Ordering.{int_eq};
ghost use Rattle.std.specs.List.{position_or_len};
ghost use Rattle.std.specs.Simd.Lanes.{chunk};
ghost use Rattle.nfg_lanes.specs.Stops.{StopsAfter};

use crate::block::{LANES8, LANES32, read8, read32};
use std::simd::prelude::*;

#[inline(always)]
fn equal8_in(a: &[i8], at: usize, x: i8) -> u64
    requires { at + LANES8 ≤ length a.now }
    ensures { StopsAfter (position_or_len (λ y. int_eq y x) (chunk at LANES8 a.now)) LANES8 result }
{
    read8(a, at, LANES8);
    i8x32::from_slice(&a[at..])
        .simd_eq(i8x32::splat(x))
        .to_bitmask()
}

/// The least index that holds `x`, or the length.
pub fn first_equal8(a: &[i8], x: i8) -> usize
    ensures { result ≡ position_or_len (λ y. int_eq y x) a.now }
{
    let blocks = a.len() / LANES8;
    for block in 0..blocks {
        let equal = equal8_in(a, block * LANES8, x);
        if equal != 0 {
            return block * LANES8 + equal.trailing_zeros() as usize;
        }
    }
    let mut at = blocks * LANES8;
    while at < a.len() && a[at] != x {
        at += 1;
    }
    at
}

#[inline(always)]
fn equal32_in(a: &[i32], at: usize, x: i32) -> u64
    requires { at + LANES32 ≤ length a.now }
    ensures { StopsAfter (position_or_len (λ y. int_eq y x) (chunk at LANES32 a.now)) LANES32 result }
{
    read32(a, at, LANES32);
    i32x16::from_slice(&a[at..])
        .simd_eq(i32x16::splat(x))
        .to_bitmask()
}

/// The least index that holds `x`, or the length.
pub fn first_equal32(a: &[i32], x: i32) -> usize
    ensures { result ≡ position_or_len (λ y. int_eq y x) a.now }
{
    let blocks = a.len() / LANES32;
    for block in 0..blocks {
        let equal = equal32_in(a, block * LANES32, x);
        if equal != 0 {
            return block * LANES32 + equal.trailing_zeros() as usize;
        }
    }
    let mut at = blocks * LANES32;
    while at < a.len() && a[at] != x {
        at += 1;
    }
    at
}
