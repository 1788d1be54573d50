//! A strand: a part of a shared block, repeated.

ghost use Rattle.std.specs.Prelude.{◌≡◌, ◌≤◌, ◌<◌, ◌+◌, ◌*◌, ◌^◌, ◌++◌, length, pos, IfOk, slice_index_or, take, drop};
ghost use Rattle.std.specs.List.{position_from, common_prefix_len};
ghost use Rattle.std.specs.Ordering.{int_eq};
ghost use Rattle.std.specs.Arc.{arc_value};
ghost use Rattle.nfg_block.specs.Runs.{DoFit, left_in};
ghost use Rattle.nfg_strand.specs.Strand.{graphemes_of, piece_of};

use crate::piece::Piece;
use nfg_block::{Block, Run, RunCells};
use std::alloc::AllocError;
use std::marker::Model;
use std::sync::Arc;

/// The graphemes `start..end` of a block, `times` times in a row.
#[derive(Drop)]
pub(crate) struct Strand {
    block: Arc<Block>,
    start: usize,
    end: usize,
    times: u64,
}

impl Model for Strand {
    ghost use Rattle.std.specs.Prelude.{slice_range};
    ghost use Rattle.nfg_strand.specs.Strand.{Repetition, IsPartOf};

    ghost Value = { Repetition };

    ghost view = { λ s. record {
      unit = slice_range s.block.value.list s.start s.end;
      times = s.times;
      narrow = s.block.value.is_narrow;
    } };

    ghost invariant = { λ s. IsPartOf s.block.value.list s.start s.end s.times };
}

impl Strand {
    /// The whole block, once.
    pub(crate) fn whole(block: Arc<Block>) -> Strand
        requires nonempty { 0 < length (arc_value block).list }
        requires bounded { length (arc_value block).list ≤ 2 ^ 40 }
        ensures unit { result.unit ≡ (arc_value block).list }
        ensures times { result.times ≡ 1 }
        ensures narrow { result.narrow ≡ (arc_value block).is_narrow }
    {
        let end = block.len();
        Strand {
            block,
            start: 0,
            end,
            times: 1,
        }
    }

    /// `count` graphemes of the unit from place `at` on, `times` times. It shares the block.
    pub(crate) fn part(&self, at: usize, count: usize, times: u64) -> Result<Strand, AllocError>
        requires some { 0 < count }
        requires inside { at + count ≤ length self.now.unit }
        requires repeated { 0 < times }
        requires no_more { times ≤ self.now.times }
        ensures unit { IfOk result (λ s. s.unit ≡ take count (drop at self.now.unit)) }
        ensures times { IfOk result (λ s. s.times ≡ times) }
        ensures narrow { IfOk result (λ s. s.narrow ≡ self.now.narrow) }
    {
        let start = self.start + at;
        let end = start + count;
        Ok(Strand {
            block: Arc::try_clone(&self.block)?,
            start,
            end,
            times,
        })
    }

    /// The same strand over the same block.
    pub(crate) fn share(&self) -> Result<Strand, AllocError>
        ensures { IfOk result (λ s. s ≡ self.now) }
    {
        Ok(Strand {
            block: Arc::try_clone(&self.block)?,
            start: self.start,
            end: self.end,
            times: self.times,
        })
    }

    /// The strand `n` times in a row. It shares the block.
    pub(crate) fn repeated(&self, n: u64) -> Result<Strand, AllocError>
        requires some { 0 < n }
        requires bounded { length self.now.unit * self.now.times * n ≤ 2 ^ 40 }
        ensures { IfOk result (λ s. s ≡ record self.now { times = self.now.times * n }) }
    {
        Ok(Strand {
            block: Arc::try_clone(&self.block)?,
            start: self.start,
            end: self.end,
            times: self.times * n,
        })
    }

    /// The length of the unit in graphemes.
    pub(crate) fn unit_len(&self) -> usize
        ensures len { result ≡ length self.now.unit }
        ensures nonempty { 0 < result }
        ensures bounded { result ≤ 2 ^ 40 }
    {
        self.end - self.start
    }

    /// How often the unit stands in a row.
    pub(crate) fn times(&self) -> u64
        ensures times { result ≡ self.now.times }
        ensures repeated { 0 < result }
        ensures nonempty { 0 < length self.now.unit }
    {
        self.times
    }

    /// How many graphemes the strand covers.
    pub(crate) fn span(&self) -> u64
        ensures len { result ≡ length self.now.unit * self.now.times }
        ensures nonempty { 0 < result }
        ensures bounded { result ≤ 2 ^ 40 }
    {
        (self.end - self.start) as u64 * self.times
    }

    /// Its piece.
    pub(crate) fn piece(&self) -> Piece
        ensures piece { result ≡ piece_of self.now }
        ensures nonempty { 0 < result.length }
        ensures repeated { 0 < result.times }
    {
        Piece {
            length: (self.end - self.start) as u64,
            times: self.times,
            narrow: self.block.is_narrow(),
        }
    }

    /// The grapheme at a place of the unit.
    pub(crate) fn get(&self, at: usize) -> i32
        requires { at < length self.now.unit }
        ensures { result ≡ slice_index_or self.now.unit at (pos 0) }
    {
        self.block.get(self.start + at)
    }

    /// The graphemes of the unit from place `at` on, one after another.
    pub(crate) fn run(&self, at: usize) -> Run<'_>
        requires { at ≤ length self.now.unit }
        ensures { result ≡ drop at self.now.unit }
    {
        self.block.run(self.start + at, self.end)
    }

    /// The unit, as it stands in the block.
    pub(crate) fn cells(&self) -> RunCells<'_>
        ensures cells { left_in result ≡ self.now.unit }
        ensures fit { DoFit result }
    {
        self.block.cells(self.start, self.end)
    }

    /// The place of the first `x` among `count` graphemes of the unit, counted from place `at`.
    pub(crate) fn find(&self, at: usize, count: usize, x: i32) -> Option<usize>
        requires { at + count ≤ length self.now.unit }
        ensures { result ≡ position_from (λ y. int_eq y x) 0 (take count (drop at self.now.unit)) }
    {
        let _end = self.end;
        let from = self.start + at;
        match self.block.find(from, from + count, x) {
            Some(found) => Some(found - from),
            None => None,
        }
    }

    /// The place of the first `x` among `count` graphemes of the unit from place `at` on, and
    /// `again` graphemes from the unit's start on.
    pub(crate) fn find_round(&self, at: usize, count: usize, again: usize, x: i32) -> Option<u64>
        requires inside { at + count ≤ length self.now.unit }
        requires again_inside { again ≤ length self.now.unit }
        ensures { result ≡ position_from (λ y. int_eq y x) 0
            (take count (drop at self.now.unit) ++ take again self.now.unit) }
    {
        let _end = self.end;
        match self.find(at, count, x) {
            Some(found) => Some(found as u64),
            None => match self.find(0, again, x) {
                Some(found) => Some((count + found) as u64),
                None => None,
            },
        }
    }

    /// How many graphemes the units have in common from the two places on, among `count`.
    pub(crate) fn common_front(
        &self,
        at: usize,
        other: &Strand,
        other_at: usize,
        count: usize,
    ) -> usize
        requires inside { at + count ≤ length self.now.unit }
        requires other_inside { other_at + count ≤ length other.now.unit }
        ensures { result ≡ common_prefix_len int_eq (take count (drop at self.now.unit))
            (take count (drop other_at other.now.unit)) }
    {
        let _end = self.end;
        let _other_end = other.end;
        self.block.common_front(self.start + at, &other.block, other.start + other_at, count)
    }

    /// Copies the graphemes of the unit from place `at` on, as many as there is room for.
    pub(crate) fn copy(&self, at: usize, into: &mut [i32])
        requires { at + length into.old ≤ length self.now.unit }
        ensures { into.new ≡ take (length into.old) (drop at self.now.unit) }
    {
        let _end = self.end;
        self.block.copy_into(self.start + at, into);
    }
}
