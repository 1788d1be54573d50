//! Where clusters begin, by the rules as a finite automaton.
ghost use Rattle.std.specs.Prelude.{◌≡◌, ◌+◌, ◌≤◌, ℕ, List, ◌++◌, length, map, replicate, reverse, slice_index};
ghost use Rattle.nfg_passes.specs.Ids.{id_number};
ghost use Rattle.nfg_passes.specs.Marks.{marks_after};
ghost use Rattle.nfg_passes.specs.Rows.{HoldsState};
ghost use Rattle.nfg_passes.specs.States.{automaton_state};

use crate::rows::ROWS;
use std::simd::prelude::*;

/// The state after the empty text.
pub const START: u8 = 0;

// The state stands in each lane of a vector: a shuffle takes one cycle, where a load by the last one takes five.
#[inline(always)]
fn entry_at(rows: &[u8], at: usize, states: u8x16) -> u8x16
    requires room { at + 16 ≤ length rows.now }
    requires state { HoldsState states (slice_index states 0) }
    ensures { result ≡ replicate 16 (slice_index rows.now (at + slice_index states 0)) }
{
    u8x16::from_slice(&rows[at..]).swizzle_dyn(states)
}

/// Writes a mark for each code point of a text by their ids: 1 where a cluster ends before it, and 0 elsewhere.
/// It takes the state after what comes before the text, and answers the state after the text.
#[inline(never)]
pub fn mark_breaks(state: u8, ids: &[u8], into: &mut [u8]) -> u8
    requires { length ids.now ≡ length into.old }
    ensures marks { (before t : List ℕ) → state ≡ automaton_state before → ids.now ≡ map id_number t
        → into.new ≡ marks_after before t }
    ensures state { (before t : List ℕ) → state ≡ automaton_state before → ids.now ≡ map id_number t
        → result ≡ automaton_state (reverse t ++ before) }
{
    let mut states = u8x16::splat(state % 16);
    for i in 0..ids.len() {
        let row = ids[i] as usize % 128 * 32;
        into[i] = entry_at(&ROWS, row + 16, states)[0];
        states = entry_at(&ROWS, row, states);
    }
    states[0]
}
