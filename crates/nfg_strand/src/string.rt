//! Strings of graphemes.

ghost use Rattle.std.specs.Prelude.{◌≡◌, ◌≤◌, ◌<◌, ◌+◌, ◌*◌, ◌^◌, ◌++◌, [], true, length, IfOk, OnOk, OnErr, slice_index_or, slice_get, slice_range};
ghost use Rattle.std.specs.List.{position_from, common_prefix_len, list_all, repeat};
ghost use Rattle.std.specs.Ordering.{int_eq};
ghost use Rattle.nfg_block.specs.Lanes.{is_narrow_grapheme};
ghost use Rattle.nfg_strand.specs.Pieces.{flat_piece, clipped, joined, repeat_pieces, at_most_64};

use crate::graphemes::Graphemes;
use crate::piece::Piece;
use crate::place::Place;
use crate::strand::Strand;
use crate::{cut, join, search};
use nfg_block::Block;
use std::alloc::{AllocError, Global};
use std::marker::Model;

/// A string of graphemes: at most 64 strands over blocks that strings share. Its length is at most
/// 2^40. Places and lengths count graphemes.
#[derive(Drop)]
pub struct NString {
    strands: Vec<Strand>,
    len: u64,
}

impl Model for NString {
    ghost use Rattle.std.specs.Prelude.{◌≡◌, ◌≤◌, ◌^◌, length};
    ghost use Rattle.nfg_strand.specs.Strand.{graphemes, pieces};
    ghost use Rattle.nfg_strand.specs.Value.{Rope};

    ghost Value = { Rope };

    ghost view = { λ s. record { graphemes = graphemes s.strands.items; pieces = pieces s.strands.items } };

    ghost invariant = { λ s. (s.len ≡ length (graphemes s.strands.items)) × (s.len ≤ 2 ^ 40)
        × (length s.strands.items ≤ 64) };
}

impl NString {
    /// The string without graphemes. It takes no memory.
    pub fn empty(alloc: Global) -> NString
        ensures graphemes { result.graphemes ≡ [] }
        ensures pieces { result.pieces ≡ [] }
    {
        NString {
            strands: Vec::new(alloc),
            len: 0,
        }
    }

    /// The string of these graphemes over a new block: in one piece, or in none where it is empty.
    pub fn from_graphemes(alloc: Global, g: &[i32]) -> Result<NString, AllocError>
        requires { length g.now ≤ 2 ^ 40 }
        ensures graphemes { IfOk result (λ s. s.graphemes ≡ g.now) }
        ensures pieces { IfOk result (λ s. s.pieces ≡ flat_piece g.now) }
    {
        Ok(NString {
            strands: join::over(alloc, Block::from_graphemes(alloc, g)?)?,
            len: g.len() as u64,
        })
    }

    /// The same of a vector. Where its block has 32 bits a grapheme, the vector becomes the block, and
    /// no grapheme is copied.
    pub fn from_vec(alloc: Global, g: Vec<i32>) -> Result<NString, AllocError>
        requires { length g.items ≤ 2 ^ 40 }
        ensures graphemes { IfOk result (λ s. s.graphemes ≡ g.items) }
        ensures pieces { IfOk result (λ s. s.pieces ≡ flat_piece g.items) }
    {
        let len = g.len() as u64;
        Ok(NString {
            strands: join::over(alloc, Block::from_vec(alloc, g)?)?,
            len,
        })
    }

    /// The same of a vector of graphemes that fit 8 bits, which becomes the block: no grapheme is
    /// copied.
    pub fn from_narrow(alloc: Global, g: Vec<i8>) -> Result<NString, AllocError>
        requires narrow { list_all is_narrow_grapheme g.items ≡ true }
        requires bounded { length g.items ≤ 2 ^ 40 }
        ensures graphemes { IfOk result (λ s. s.graphemes ≡ g.items) }
        ensures pieces { IfOk result (λ s. s.pieces ≡ flat_piece g.items) }
    {
        let len = g.len() as u64;
        Ok(NString {
            strands: join::over(alloc, Block::from_narrow(g))?,
            len,
        })
    }

    /// How many graphemes the string has, at most 2^40.
    pub fn len(&self) -> u64
        ensures len { result ≡ length self.now.graphemes }
        ensures limit { result ≤ 2 ^ 40 }
    {
        self.len
    }

    /// How many pieces the string has, at most 64.
    pub fn strands(&self) -> usize
        ensures len { result ≡ length self.now.pieces }
        ensures limit { result ≤ 64 }
    {
        self.strands.len()
    }

    /// The piece with that number, from the start of the string.
    pub fn piece(&self, k: usize) -> Piece
        requires { k < length self.now.pieces }
        ensures piece { slice_get self.now.pieces k ≡ Some result }
        ensures holds_some { (0 < result.length) × (0 < result.times) }
    {
        self.strands[k].piece()
    }

    /// The grapheme at a place. It takes time by the strands.
    pub fn get(&self, k: u64) -> i32
        requires { k < length self.now.graphemes }
        ensures { slice_get self.now.graphemes k ≡ Some result }
    {
        Place::from(self.strands.as_slice(), k).first()
    }

    /// The graphemes in order, and then `None`.
    pub fn iter(&self) -> Graphemes<'_>
        ensures { result ≡ self.now.graphemes }
    {
        Graphemes::new(self.strands.as_slice())
    }

    /// Copies the graphemes from a place on, as many as there is room for, a block range at a time.
    pub fn copy_into(&self, start: u64, into: &mut [i32])
        requires { start + length into.old ≤ length self.now.graphemes }
        ensures { into.new ≡ slice_range self.now.graphemes start (start + length into.old) }
    {
        search::copy(self.strands.as_slice(), start, into);
    }

    /// The least place of `from..until` that holds `x`. It takes time by the strands' units: one that
    /// comes again is looked through once.
    pub fn find(&self, from: u64, until: u64, x: i32) -> Option<u64>
        requires ordered { from ≤ until }
        requires inside { until ≤ length self.now.graphemes }
        ensures { result ≡ position_from (λ y. int_eq y x) from
            (slice_range self.now.graphemes from until) }
    {
        search::find(self.strands.as_slice(), from, until, x)
    }

    /// How many graphemes the two ranges of `count` have in common from the front on.
    pub fn common_front(&self, start: u64, other: &NString, other_start: u64, count: u64) -> u64
        requires inside { start + count ≤ length self.now.graphemes }
        requires other_inside { other_start + count ≤ length other.now.graphemes }
        ensures { result ≡ common_prefix_len int_eq
            (slice_range self.now.graphemes start (start + count))
            (slice_range other.now.graphemes other_start (other_start + count)) }
    {
        search::common_front(
            self.strands.as_slice(),
            start,
            other.strands.as_slice(),
            other_start,
            count,
        )
    }

    /// The graphemes `start..end`, over the same blocks. It takes time by the strands, unless the
    /// clip has more than 64 pieces and is made flat.
    pub fn clip(&self, alloc: Global, start: u64, end: u64) -> Result<NString, AllocError>
        requires ordered { start ≤ end }
        requires inside { end ≤ length self.now.graphemes }
        ensures graphemes { IfOk result (λ s. s.graphemes
            ≡ slice_range self.now.graphemes start end) }
        ensures pieces { IfOk result (λ s. s.pieces
            ≡ at_most_64 s.graphemes (clipped self.now.pieces start end)) }
    {
        let len = end - start;
        let parts = cut::clip(alloc, self.strands.as_slice(), start, end)?;
        Ok(NString {
            strands: join::within_limit(alloc, parts, len)?,
            len,
        })
    }

    /// Adds the graphemes of another string at the end, over the same blocks, unless the pieces
    /// become more than 64. On a refusal the string is unchanged.
    pub fn append(&mut self, alloc: Global, other: &NString) -> Result<(), AllocError>
        requires { length self.old.graphemes + length other.now.graphemes ≤ 2 ^ 40 }
        ensures graphemes { OnOk result (self.new.graphemes
            ≡ self.old.graphemes ++ other.now.graphemes) }
        ensures pieces { OnOk result (self.new.pieces
            ≡ at_most_64 self.new.graphemes (joined self.old.pieces other.now.pieces)) }
        ensures unchanged { OnErr result (self.new ≡ self.old) }
    {
        let len = self.len + other.len;
        let strands = join::both(
            alloc,
            self.strands.as_slice(),
            other.strands.as_slice(),
            len,
        )?;
        self.strands = strands;
        self.len = len;
        Ok(())
    }

    /// The graphemes `n` times in a row, as they are: one piece, over the same block where the string
    /// has one piece, and over a new block where it has more. Once is the string itself.
    pub fn repeated(&self, alloc: Global, n: u64) -> Result<NString, AllocError>
        requires { length self.now.graphemes * n ≤ 2 ^ 40 }
        ensures graphemes { IfOk result (λ s. s.graphemes ≡ repeat n self.now.graphemes) }
        ensures pieces { IfOk result (λ s. s.pieces
            ≡ repeat_pieces self.now.graphemes self.now.pieces n) }
    {
        Ok(NString {
            strands: join::repeated(alloc, self.strands.as_slice(), self.len, n)?,
            len: self.len * n,
        })
    }

    /// The same graphemes in one piece over a new block, or in none where there are none.
    pub fn flatten(&self, alloc: Global) -> Result<NString, AllocError>
        ensures graphemes { IfOk result (λ s. s.graphemes ≡ self.now.graphemes) }
        ensures pieces { IfOk result (λ s. s.pieces ≡ flat_piece self.now.graphemes) }
    {
        Ok(NString {
            strands: join::flattened(alloc, self.strands.as_slice(), self.len)?,
            len: self.len,
        })
    }
}
