//! The graphemes of a string, one after another.

ghost use Rattle.std.specs.Prelude.{◌≡◌, ◌++◌, drop, length, min, take};
ghost use Rattle.std.specs.Iterator.{YieldsFirst, item_count};
ghost use Rattle.nfg_strand.specs.Strand.{graphemes};

use crate::source::Source;
use crate::strand::Strand;
use std::marker::Model;

/// So many graphemes are read ahead.
const AHEAD: usize = 64;

/// The graphemes that are left, in order. It reads them ahead, a block range at a time.
#[derive(Drop)]
pub struct Graphemes<'a> {
    // Those of `at..filled` are read and not given, and those of the source come after them.
    buffer: [i32; AHEAD],
    at: usize,
    filled: usize,
    source: Source<'a>,
}

impl<'a> Model for Graphemes<'a> {
    ghost use Rattle.std.specs.Prelude.{ℤ, List, ◌++◌, ◌≤◌, slice_range};

    ghost Value = { List ℤ };

    ghost view = { λ g. slice_range g.buffer g.at g.filled ++ g.source };

    ghost invariant = { λ g. (g.at ≤ g.filled) × (g.filled ≤ 64) };
}

impl<'a> Graphemes<'a> {
    /// All graphemes of the strands.
    pub(crate) fn new(strands: &'a [Strand]) -> Self
        ensures { result ≡ graphemes strands.now }
    {
        Graphemes {
            buffer: [0; AHEAD],
            at: 0,
            filled: 0,
            source: Source::new(strands),
        }
    }

    /// Reads the next graphemes into the front of a slice, as many as there are and as it has room
    /// for: how many. It goes a block range at a time.
    pub fn read(&mut self, into: &mut [i32]) -> usize
        ensures count { result ≡ min (length into.old) (length self.old) }
        ensures read { into.new ≡ take result self.old ++ drop result into.old }
        ensures left { self.new ≡ drop result self.old }
    {
        let count = into.len().min(self.filled - self.at);
        into[..count].copy_from_slice(&self.buffer[self.at..][..count]);
        self.at += count;
        if count == into.len() {
            return count;
        }
        count + self.source.read(&mut into[count..])
    }
}

impl<'a> Iterator for Graphemes<'a> {
    type Item = i32;

    ghost next_gives = { YieldsFirst (λ g. g) };

    ghost remaining = { item_count (λ g. g) };

    #[inline(always)]
    fn next(&mut self) -> Option<i32> {
        if self.at == self.filled {
            let count = self.source.read(&mut self.buffer);
            self.filled = count;
            self.at = 0;
            if count == 0 {
                return None;
            }
        }
        let grapheme = self.buffer[self.at];
        self.at += 1;
        Some(grapheme)
    }
}
