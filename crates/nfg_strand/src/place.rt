//! A place in strands, and what is left from it on.

ghost use Rattle.std.specs.Prelude.{◌≡◌, ◌↔◌, IsTrue, slice_get, ◌≤◌, ◌<◌, ◌+◌, ◌*◌, ◌++◌, length, take, drop};
ghost use Rattle.std.specs.List.{position_from, common_prefix_len};
ghost use Rattle.std.specs.Ordering.{int_eq};
ghost use Rattle.nfg_strand.specs.Strand.{graphemes, IsInFirst};

use crate::strand::Strand;
use nfg_block::Run;
use std::marker::Model;

/// A place in strands. Contracts see it as the graphemes that are left from it on, in order.
#[derive(Drop)]
pub struct Place<'a> {
    // The strands that are not read to their end.
    strands: &'a [Strand],
    // The place in the first strand's unit, and how often that unit still comes after this time.
    at: usize,
    later: u64,
}

impl<'a> Model for Place<'a> {
    ghost use Rattle.std.specs.Prelude.{ℤ, List};
    ghost use Rattle.nfg_strand.specs.Strand.{left_of, IsPlaceIn};

    ghost Value = { List ℤ };

    ghost view = { λ g. left_of g.strands.now g.at g.later };

    ghost invariant = { λ g. IsPlaceIn g.strands.now g.at g.later };
}

impl<'a> Place<'a> {
    /// All graphemes of the strands.
    pub(crate) fn new(strands: &'a [Strand]) -> Self
        ensures { result ≡ graphemes strands.now }
    {
        let later = if strands.is_empty() {
            0
        } else {
            strands[0].times() - 1
        };
        Place {
            strands,
            at: 0,
            later,
        }
    }

    /// The graphemes of the strands without the first `skip`.
    pub(crate) fn from(strands: &'a [Strand], skip: u64) -> Self
        requires { skip ≤ length (graphemes strands.now) }
        ensures { result ≡ drop skip (graphemes strands.now) }
    {
        let mut left = skip;
        for first in 0..strands.len() {
            let span = strands[first].span();
            if left < span {
                return Place::within(&strands[first..], left);
            }
            left -= span;
        }
        Place::new(&strands[strands.len()..])
    }

    /// The graphemes of the strands without the first `skip`, which are in the first strand.
    fn within(strands: &'a [Strand], skip: u64) -> Self
        requires some { 0 < length strands.now }
        requires inside { IsInFirst strands.now skip }
        ensures { result ≡ drop skip (graphemes strands.now) }
    {
        let strand = &strands[0];
        let unit = strand.unit_len() as u64;
        Place {
            strands,
            at: (skip % unit) as usize,
            later: strand.times() - 1 - skip / unit,
        }
    }

    /// The same place.
    #[inline(always)]
    pub(crate) fn share(&self) -> Place<'a>
        ensures { result ≡ self.now }
    {
        Place {
            strands: self.strands,
            at: self.at,
            later: self.later,
        }
    }

    /// Whether no grapheme is left.
    pub(crate) fn is_empty(&self) -> bool
        ensures { IsTrue result ↔ (length self.now ≡ 0) }
    {
        self.strands.is_empty()
    }

    /// The next grapheme.
    pub(crate) fn first(&self) -> i32
        requires { 0 < length self.now }
        ensures { slice_get self.now 0 ≡ Some result }
    {
        self.strands[0].get(self.at)
    }

    /// The next graphemes, as far as they lie in one block, and the place after them.
    pub(crate) fn take_run(self) -> (Run<'a>, Place<'a>)
        requires { 0 < length self }
        ensures all { self.entry ≡ result.0 ++ result.1 }
        ensures some { 0 < length result.0 }
    {
        let run = self.strands[0].run(self.at);
        if self.later > 0 {
            let again = Place {
                strands: self.strands,
                at: 0,
                later: self.later - 1,
            };
            return (run, again);
        }
        (run, Place::new(&self.strands[1..]))
    }

    /// Passes over the next `count` graphemes.
    pub(crate) fn advance(&mut self, count: u64)
        requires { count ≤ length self.old }
        ensures { self.new ≡ drop count self.old }
    {
        if self.strands.is_empty() {
            return;
        }
        let strand = &self.strands[0];
        let span = strand.span();
        let unit = strand.unit_len();
        if count < (unit - self.at) as u64 {
            self.at += count as usize;
            return;
        }
        let over = (strand.times() - 1 - self.later) * unit as u64 + self.at as u64;
        if count < span - over {
            *self = Place::within(self.strands, over + count);
        } else {
            *self = Place::from(&self.strands[1..], count - (span - over));
        }
    }

    /// Looks for `x` among the next graphemes, as far as the first strand goes: how many were looked
    /// through, and the first place among them. A unit that comes again is looked through once.
    pub(crate) fn find_here(&self, limit: u64, x: i32) -> (u64, Option<u64>)
        requires some { 0 < limit }
        requires within { limit ≤ length self.now }
        ensures progress { 0 < result.0 }
        ensures limited { result.0 ≤ limit }
        ensures found { result.1 ≡ position_from (λ y. int_eq y x) 0 (take result.0 self.now) }
    {
        let strand = &self.strands[0];
        let unit = strand.unit_len();
        let run = (unit - self.at) as u64;
        if limit <= run {
            return (limit, strand.find_round(self.at, limit as usize, 0, x));
        }
        if self.later == 0 {
            return (run, strand.find_round(self.at, unit - self.at, 0, x));
        }
        let _span = strand.span();
        let again = (limit - run).min(self.at as u64) as usize;
        let found = strand.find_round(self.at, unit - self.at, again, x);
        (limit.min(run + self.later * unit as u64), found)
    }

    /// Compares the next graphemes with those of another, as far as both lie in one block: how many
    /// were compared, and how many are the same from the front on.
    pub(crate) fn common_here(&self, other: &Place<'_>, limit: u64) -> (u64, u64)
        requires some { 0 < limit }
        requires within { limit ≤ length self.now }
        requires other_within { limit ≤ length other.now }
        ensures progress { 0 < result.0 }
        ensures limited { result.0 ≤ limit }
        ensures common { result.1
            ≡ common_prefix_len int_eq (take result.0 self.now) (take result.0 other.now) }
    {
        let strand = &self.strands[0];
        let other_strand = &other.strands[0];
        let run = strand.unit_len() - self.at;
        let other_run = other_strand.unit_len() - other.at;
        let count = limit.min(run as u64).min(other_run as u64) as usize;
        let common = strand.common_front(self.at, other_strand, other.at, count);
        (count as u64, common as u64)
    }

    /// Copies the next graphemes to the front of a slice, as far as they lie in one block: how many.
    pub(crate) fn copy_here(&self, into: &mut [i32]) -> usize
        requires some { 0 < length into.old }
        requires within { length into.old ≤ length self.now }
        ensures progress { 0 < result }
        ensures limited { result ≤ length into.old }
        ensures copied { into.new ≡ take result self.now ++ drop result into.old }
    {
        let strand = &self.strands[0];
        let count = into.len().min(strand.unit_len() - self.at);
        strand.copy(self.at, &mut into[..count]);
        count
    }
}
