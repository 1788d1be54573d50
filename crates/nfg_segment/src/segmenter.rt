//! A segmenter.
ghost use Rattle.std.specs.Prelude.{◌≡◌, ℕ, List, [], OnOk, OnErr};
ghost use Rattle.nfg_text.specs.Text.{IsText};
ghost use Rattle.nfg_segment.specs.Follows.{Follows, HasFed, HasFinished};

use crate::ClusterSink;
use crate::held::Held;
use std::alloc::{AllocError, Global};
use std::marker::Model;

/// Finds the graphemes of a text that comes in pieces: the extended grapheme clusters (UAX #29) of
/// its NFC (UAX #15).
#[derive(Drop)]
pub struct Segmenter {
    held: Held,
}

impl Model for Segmenter {
    ghost use Rattle.nfg_segment.specs.Held.{Held};

    ghost Value = { Held };

    ghost view = { λ s. s.held.now };
}

impl Segmenter {
    /// A segmenter of the empty text.
    pub fn new(alloc: Global) -> Segmenter
        ensures { Follows result [] [] }
    {
        Segmenter {
            held: Held::new(alloc),
        }
    }

    /// Goes on with a piece of the text, and gives out the graphemes that nothing that follows can
    /// change.
    pub fn feed<S: ClusterSink>(
        &mut self,
        alloc: Global,
        t: &[u32],
        out: &mut S,
    ) -> Result<(), AllocError>
        requires { IsText t.now }
        ensures fed { (fed : List ℕ) (given : List (List ℕ)) → Follows self.old fed given
            → OnOk result (HasFed self.new (S.given out.old) (S.given out.new) fed t.now given) }
        ensures unchanged { OnErr result ((self.new ≡ self.old) × (S.given out.new ≡ S.given out.old)) }
    {
        let _ = alloc;
        self.held.mark();
        let len = out.len();
        let first_long = out.first_long();
        match self.held.take(t, out) {
            Ok(()) => Ok(()),
            Err(error) => {
                self.held.undo();
                out.cut_back(len, first_long);
                Err(error)
            }
        }
    }

    /// Gives out the rest. Then the segmenter is as new.
    pub fn finish<S: ClusterSink>(&mut self, alloc: Global, out: &mut S) -> Result<(), AllocError>
        ensures finished { (fed : List ℕ) (given : List (List ℕ)) → Follows self.old fed given
            → OnOk result (HasFinished self.new (S.given out.old) (S.given out.new) fed given) }
        ensures unchanged { OnErr result ((self.new ≡ self.old) × (S.given out.new ≡ S.given out.old)) }
    {
        let _ = alloc;
        self.held.mark();
        let len = out.len();
        let first_long = out.first_long();
        match self.held.end(out) {
            Ok(()) => Ok(()),
            Err(error) => {
                self.held.undo();
                out.cut_back(len, first_long);
                Err(error)
            }
        }
    }
}
