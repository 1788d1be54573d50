//! A block of graphemes.
ghost use Rattle.std.specs.Prelude.{◌≡◌, ◌↔◌, ◌+◌, ◌<◌, ◌≤◌, ◌^◌, if◌then◌else◌, nat_lt, IfOk, IsOk, IsTrue, pos, true, false, length, slice_index_or};
ghost use Rattle.std.specs.Ordering.{int_eq};
ghost use Rattle.std.specs.List.{common_prefix_len, list_all, position_from, position_or_len, slice_range};
ghost use Rattle.nfg_lanes.specs.Lanes.{is_narrow_grapheme};
ghost use Rattle.nfg_block.specs.Block.{block_of};
ghost use Rattle.nfg_block.specs.Runs.{DoFit, left_in};

use crate::run::{Run, RunCells};
use nfg_lanes::{
    common_front_mixed, common_front8, common_front32, first_equal8, first_equal32, narrow,
    narrow_fits, widen,
};
use std::alloc::{AllocError, Global};
use std::marker::Model;

/// Graphemes in order: a code point that is a cluster of its own by its number, CR LF by -1, and
/// other clusters by the numbers below -1 of their synthetics. A block does not change.
#[derive(Drop)]
pub struct Block {
    cells: Cells,
}

#[derive(Drop)]
enum Cells {
    Narrow(Vec<i8>),
    Wide(Vec<i32>),
}

impl Model for Block {
    ghost use Rattle.nfg_block.specs.Block.{Graphemes};

    ghost Value = { Graphemes };

    ghost use Rattle.nfg_block.specs.Cells.{graphemes_of, AreOfLeastWidth};

    ghost view = { λ block. graphemes_of block.cells };

    ghost invariant = { λ block. AreOfLeastWidth block.cells };
}

fn narrowed(alloc: Global, graphemes: &[i32]) -> Result<Vec<i8>, AllocError>
    requires { list_all is_narrow_grapheme graphemes.now ≡ true }
    ensures { IfOk result (λ cells. cells.items ≡ graphemes.now) }
{
    let mut cells = vec![in alloc; 0; graphemes.len()]?;
    narrow(graphemes, cells.as_mut_slice());
    Ok(cells)
}

// The same graphemes. Unused room is given back where it is more than a quarter of theirs.
fn without_spare<T>(mut graphemes: Vec<T>) -> Vec<T>
    ensures { result.items ≡ graphemes.items }
{
    if graphemes.capacity() - graphemes.len() > graphemes.len() / 4 {
        graphemes.shrink_to_fit();
    }
    graphemes
}

fn find_narrow(cells: &[i8], x: i32) -> usize
    requires { list_all is_narrow_grapheme cells.now ≡ true }
    ensures { result ≡ position_or_len (λ y. int_eq y x) cells.now }
{
    if x < -1 {
        return cells.len();
    }
    if x > 127 {
        return cells.len();
    }
    first_equal8(cells, x as i8)
}

// The index of what was found at `at` of the `count` elements from `from` on.
fn index_from(from: usize, count: usize, at: usize) -> Option<usize>
    requires { from + count < 2 ^ 64 }
    ensures { result ≡ (if nat_lt at count then Some (from + at) else None) }
{
    if at < count { Some(from + at) } else { None }
}

impl Block {
    /// The block of these graphemes, or want of memory.
    pub fn from_graphemes(alloc: Global, graphemes: &[i32]) -> Result<Block, AllocError>
        ensures { IfOk result (λ block. block ≡ block_of graphemes.now) }
    {
        let cells = if narrow_fits(graphemes) {
            Cells::Narrow(narrowed(alloc, graphemes)?)
        } else {
            Cells::Wide(graphemes.to_vec(alloc)?)
        };
        Ok(Block { cells })
    }

    /// The block of these graphemes, or want of memory. Where its cells have 32 bits it keeps the
    /// vector: no grapheme is copied, and no memory can be wanting.
    pub fn from_vec(alloc: Global, graphemes: Vec<i32>) -> Result<Block, AllocError>
        ensures block { IfOk result (λ block. block ≡ block_of graphemes.items) }
        // memory can be wanting only for cells of 8 bits
        ensures kept { list_all is_narrow_grapheme graphemes.items ≡ false → IsOk result }
    {
        let cells = if narrow_fits(graphemes.as_slice()) {
            Cells::Narrow(narrowed(alloc, graphemes.as_slice())?)
        } else {
            Cells::Wide(without_spare(graphemes))
        };
        Ok(Block { cells })
    }

    /// The block of these graphemes, each of which fits 8 bits. It keeps the vector: no grapheme is
    /// copied, and no memory can be wanting.
    pub fn from_narrow(graphemes: Vec<i8>) -> Block
        requires { list_all is_narrow_grapheme graphemes.items ≡ true }
        ensures { result ≡ block_of graphemes.items }
    {
        Block {
            cells: Cells::Narrow(without_spare(graphemes)),
        }
    }

    /// How many graphemes it holds.
    pub fn len(&self) -> usize
        ensures { result ≡ length self.now.list }
    {
        match &self.cells {
            Cells::Narrow(cells) => cells.len(),
            Cells::Wide(cells) => cells.len(),
        }
    }

    /// Whether its cells have 8 bits.
    pub fn is_narrow(&self) -> bool
        ensures cells { result ≡ self.now.is_narrow }
        ensures least { result ≡ list_all is_narrow_grapheme self.now.list }
    {
        match &self.cells {
            Cells::Narrow(_) => true,
            Cells::Wide(_) => false,
        }
    }

    /// The grapheme at index `k`.
    pub fn get(&self, k: usize) -> i32
        requires { k < length self.now.list }
        ensures { result ≡ slice_index_or self.now.list k (pos 0) }
    {
        match &self.cells {
            Cells::Narrow(cells) => cells[k] as i32,
            Cells::Wide(cells) => cells[k],
        }
    }

    /// The graphemes from index `from` to before `until`, one after another.
    pub fn run(&self, from: usize, until: usize) -> Run<'_>
        requires ordered { from ≤ until }
        requires in_range { until ≤ length self.now.list }
        ensures { result ≡ slice_range self.now.list from until }
    {
        match &self.cells {
            Cells::Narrow(cells) => Run::narrow(&cells[from..until]),
            Cells::Wide(cells) => Run::wide(&cells[from..until]),
        }
    }

    /// The cells from index `from` to before `until`, as they stand in the block.
    pub fn cells(&self, from: usize, until: usize) -> RunCells<'_>
        requires ordered { from ≤ until }
        requires in_range { until ≤ length self.now.list }
        ensures cells { left_in result ≡ slice_range self.now.list from until }
        ensures fit { DoFit result }
    {
        match &self.cells {
            Cells::Narrow(cells) => RunCells::Narrow(&cells[from..until]),
            Cells::Wide(cells) => RunCells::Wide(&cells[from..until]),
        }
    }

    /// Copies the graphemes from index `from` on, as many as `into` has room for.
    pub fn copy_into(&self, from: usize, into: &mut [i32])
        requires { from + length into.old ≤ length self.now.list }
        ensures { into.new ≡ slice_range self.now.list from (from + length into.old) }
    {
        let count = into.len();
        match &self.cells {
            Cells::Narrow(cells) => widen(&cells[from..][..count], into),
            Cells::Wide(cells) => into.copy_from_slice(&cells[from..][..count]),
        }
    }

    /// How many graphemes the two ranges of `count` have in common at the front.
    pub fn common_front(
        &self,
        start: usize,
        other: &Block,
        other_start: usize,
        count: usize,
    ) -> usize
        requires left { start + count ≤ length self.now.list }
        requires right { other_start + count ≤ length other.now.list }
        ensures { result ≡ common_prefix_len int_eq
            (slice_range self.now.list start (start + count))
            (slice_range other.now.list other_start (other_start + count)) }
    {
        match &self.cells {
            Cells::Narrow(a) => {
                let a = &a[start..][..count];
                match &other.cells {
                    Cells::Narrow(b) => common_front8(a, &b[other_start..][..count]),
                    Cells::Wide(b) => common_front_mixed(a, &b[other_start..][..count]),
                }
            }
            Cells::Wide(a) => {
                let a = &a[start..][..count];
                match &other.cells {
                    Cells::Narrow(b) => common_front_mixed(&b[other_start..][..count], a),
                    Cells::Wide(b) => common_front32(a, &b[other_start..][..count]),
                }
            }
        }
    }

    /// Whether the two ranges of `count` hold the same graphemes.
    pub fn slice_equal(&self, start: usize, other: &Block, other_start: usize, count: usize) -> bool
        requires left { start + count ≤ length self.now.list }
        requires right { other_start + count ≤ length other.now.list }
        ensures { IsTrue result ↔
            (slice_range self.now.list start (start + count)
            ≡ slice_range other.now.list other_start (other_start + count)) }
    {
        self.common_front(start, other, other_start, count) == count
    }

    /// The least index from `from` to before `until` that holds `x`. `None` where there is none.
    pub fn find(&self, from: usize, until: usize, x: i32) -> Option<usize>
        requires ordered { from ≤ until }
        requires in_range { until ≤ length self.now.list }
        ensures { result ≡ position_from (λ y. int_eq y x) from (slice_range self.now.list from until) }
    {
        let count = until - from;
        match &self.cells {
            Cells::Narrow(cells) => { index_from(from, count, find_narrow(&cells[from..until], x)) }
            Cells::Wide(cells) => index_from(from, count, first_equal32(&cells[from..until], x)),
        }
    }
}
