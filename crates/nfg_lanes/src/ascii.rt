//! The run of ASCII at the front of a text.
ghost use Rattle.std.specs.Prelude.{◌≡◌, ◌+◌, ◌≤◌, length};
ghost use Rattle.std.specs.List.{prefix_len};
ghost use Rattle.std.specs.Char.{is_ascii};
ghost use Rattle.std.specs.Simd.Lanes.{chunk};
ghost use Rattle.nfg_lanes.specs.Stops.{StopsAfter};

use crate::block::LANES8;
use std::simd::prelude::*;

#[inline(always)]
fn others_in(bytes: &[u8], at: usize) -> u64
    requires { at + LANES8 ≤ length bytes.now }
    ensures { StopsAfter (prefix_len is_ascii (chunk at LANES8 bytes.now)) LANES8 result }
{
    u8x32::from_slice(&bytes[at..])
        .simd_ge(u8x32::splat(128))
        .to_bitmask()
}

/// How many bytes at the front are ASCII, below 128.
pub fn ascii_run(bytes: &[u8]) -> usize
    ensures { result ≡ prefix_len is_ascii bytes.now }
{
    let blocks = bytes.len() / LANES8;
    for block in 0..blocks {
        let others = others_in(bytes, block * LANES8);
        if others != 0 {
            return block * LANES8 + others.trailing_zeros() as usize;
        }
    }
    let mut at = blocks * LANES8;
    while at < bytes.len() && bytes[at] < 128 {
        at += 1;
    }
    at
}
