//! Where the graphemes of a string are read from.

ghost use Rattle.std.specs.Prelude.{◌≡◌, ◌++◌, drop, length, min, take};
ghost use Rattle.nfg_strand.specs.Strand.{graphemes};

use crate::place::Place;
use crate::strand::Strand;
use nfg_block::Run;
use std::marker::Model;

/// The graphemes that are left, in order, read by block ranges.
#[derive(Drop)]
pub(crate) struct Source<'a> {
    // What is left of the block range that is read, and the place after it.
    run: Run<'a>,
    rest: Place<'a>,
}

impl<'a> Model for Source<'a> {
    ghost use Rattle.std.specs.Prelude.{ℤ, List, ◌++◌};

    ghost Value = { List ℤ };

    ghost view = { λ g. g.run ++ g.rest };
}

impl<'a> Source<'a> {
    /// All graphemes of the strands.
    pub(crate) fn new(strands: &'a [Strand]) -> Self
        ensures { result ≡ graphemes strands.now }
    {
        Source {
            run: Run::empty(),
            rest: Place::new(strands),
        }
    }

    /// Reads the next graphemes into the front of a slice, as many as there are and as it has room
    /// for: how many. It goes a block range at a time.
    pub(crate) fn read(&mut self, into: &mut [i32]) -> usize
        ensures count { result ≡ min (length into.old) (length self.old) }
        ensures read { into.new ≡ take result self.old ++ drop result into.old }
        ensures left { self.new ≡ drop result self.old }
    {
        let mut count = self.run.read(into);
        while count < into.len() && !self.rest.is_empty() {
            let (run, after) = self.rest.share().take_run();
            self.run = run;
            self.rest = after;
            count += self.run.read(&mut into[count..]);
        }
        count
    }
}
