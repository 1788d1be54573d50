//! Common prefixes and suffixes.
ghost use Rattle.std.specs.Prelude.{◌≡◌, ◌+◌, ◌≤◌, IsTrue, ◌↔◌, length};
ghost use Rattle.std.specs.Ordering.{int_eq};
ghost use Rattle.std.specs.List.{common_prefix_len};
ghost use Rattle.std.specs.Simd.Lanes.{chunk};
ghost use Rattle.nfg_lanes.specs.Lanes.{common_suffix_len};
ghost use Rattle.nfg_lanes.specs.Stops.{StopsAfter};

use crate::block::{LANES8, LANES32, read8, read32};
use std::simd::prelude::*;

#[inline(always)]
fn differ8_in(a: &[i8], b: &[i8], at: usize) -> u64
    requires left { at + LANES8 ≤ length a.now }
    requires right { at + LANES8 ≤ length b.now }
    ensures { StopsAfter (common_prefix_len int_eq (chunk at LANES8 a.now) (chunk at LANES8 b.now)) LANES8 result }
{
    read8(a, at, LANES8);
    read8(b, at, LANES8);
    let differ = i8x32::from_slice(&a[at..]).simd_ne(i8x32::from_slice(&b[at..]));
    differ.to_bitmask()
}

/// How many elements at the front the two have in common.
pub fn common_front8(a: &[i8], b: &[i8]) -> usize
    ensures { result ≡ common_prefix_len int_eq a.now b.now }
{
    let len = a.len().min(b.len());
    let blocks = len / LANES8;
    for block in 0..blocks {
        let differ = differ8_in(a, b, block * LANES8);
        if differ != 0 {
            return block * LANES8 + differ.trailing_zeros() as usize;
        }
    }
    let mut at = blocks * LANES8;
    while at < len && a[at] == b[at] {
        at += 1;
    }
    at
}

#[inline(always)]
fn differ32_in(a: &[i32], b: &[i32], at: usize) -> u64
    requires left { at + LANES32 ≤ length a.now }
    requires right { at + LANES32 ≤ length b.now }
    ensures { StopsAfter (common_prefix_len int_eq (chunk at LANES32 a.now) (chunk at LANES32 b.now)) LANES32 result }
{
    read32(a, at, LANES32);
    read32(b, at, LANES32);
    let differ = i32x16::from_slice(&a[at..]).simd_ne(i32x16::from_slice(&b[at..]));
    differ.to_bitmask()
}

/// How many elements at the front the two have in common.
pub fn common_front32(a: &[i32], b: &[i32]) -> usize
    ensures { result ≡ common_prefix_len int_eq a.now b.now }
{
    let len = a.len().min(b.len());
    let blocks = len / LANES32;
    for block in 0..blocks {
        let differ = differ32_in(a, b, block * LANES32);
        if differ != 0 {
            return block * LANES32 + differ.trailing_zeros() as usize;
        }
    }
    let mut at = blocks * LANES32;
    while at < len && a[at] == b[at] {
        at += 1;
    }
    at
}

#[inline(always)]
fn differ_mixed_in(a: &[i8], b: &[i32], at: usize) -> u64
    requires left { at + LANES32 ≤ length a.now }
    requires right { at + LANES32 ≤ length b.now }
    ensures { StopsAfter (common_prefix_len int_eq (chunk at LANES32 a.now) (chunk at LANES32 b.now)) LANES32 result }
{
    read8(a, at, LANES32);
    read32(b, at, LANES32);
    let wide = i8x16::from_slice(&a[at..]).cast::<i32>();
    let differ = wide.simd_ne(i32x16::from_slice(&b[at..]));
    differ.to_bitmask()
}

/// How many elements at the front the two have in common, whose widths differ.
pub fn common_front_mixed(a: &[i8], b: &[i32]) -> usize
    ensures { result ≡ common_prefix_len int_eq a.now b.now }
{
    let len = a.len().min(b.len());
    let blocks = len / LANES32;
    for block in 0..blocks {
        let differ = differ_mixed_in(a, b, block * LANES32);
        if differ != 0 {
            return block * LANES32 + differ.trailing_zeros() as usize;
        }
    }
    let mut at = blocks * LANES32;
    while at < len && a[at] as i32 == b[at] {
        at += 1;
    }
    at
}

#[inline(always)]
fn equal32_at(a: &[i32], a_at: usize, b: &[i32], b_at: usize) -> bool
    requires left { a_at + LANES32 ≤ length a.now }
    requires right { b_at + LANES32 ≤ length b.now }
    ensures { IsTrue result ↔ (chunk a_at LANES32 a.now ≡ chunk b_at LANES32 b.now) }
{
    read32(a, a_at, LANES32);
    read32(b, b_at, LANES32);
    let differ = i32x16::from_slice(&a[a_at..]).simd_ne(i32x16::from_slice(&b[b_at..]));
    differ.to_bitmask() == 0
}

/// How many elements at the back the two have in common.
pub fn common_back32(a: &[i32], b: &[i32]) -> usize
    ensures { result ≡ common_suffix_len int_eq a.now b.now }
{
    let len = a.len().min(b.len());
    let mut count = 0;
    // whole blocks, the last of them first
    while count + LANES32 <= len
        && equal32_at(a, a.len() - count - LANES32, b, b.len() - count - LANES32)
    {
        count += LANES32;
    }
    while count < len && a[a.len() - 1 - count] == b[b.len() - 1 - count] {
        count += 1;
    }
    count
}
