//! The walk over the probe sequence of a text.
ghost use Rattle.std.specs.Prelude.{◌≡◌, ◌≢◌, ◌+◌, ◌*◌, ◌<◌, ◌≤◌, ℕ, length, IfOk, OnErr};
ghost use Rattle.nfg_words.specs.Comparing.{ArePassed, IsFound};
ghost use Rattle.nfg_words.specs.Layout.{chunk_count};
ghost use Rattle.nfg_words.specs.Passes.{Finds, HasUnspentRoom, IsPassOf, LooksOn, PutsAtMost, view_of};
ghost use Rattle.nfg_words.specs.ProbeTable.{IsStorable};
ghost use Rattle.nfg_words.specs.View.{places_of};
ghost use Rattle.nfg_words.specs.Writing.{AreChunksSpent};

use crate::layout::{home_place, probed_place};
use crate::pass::WordPass;
use crate::probe_error::ProbeError;
use crate::steps::Steps;
use crate::visit::visit;
use crate::words::Words;
use std::sync::ledger::Ledger;

/// The place of a text: the first on its probe sequence that was empty, or that held it. No place is tried twice.
pub fn walk<L: Ledger>(
    words: &Words,
    pass: &mut WordPass,
    n: usize,
    codes: &[u32],
    steps: &mut Steps<L>,
) -> Result<usize, ProbeError>
    requires pass { IsPassOf words.now.shared.table_id n pass.old }
    requires key { words.now.shared.key ≡ n }
    requires limit { n ≤ 1048576 }
    requires storable { IsStorable codes.now }
    ensures pass { IsPassOf words.now.shared.table_id n pass.new }
    ensures within { IfOk result (λ place. place < n) }
    ensures found { IfOk result (λ place. IsFound n (places_of (view_of pass.new)) place codes.now) }
    ensures finds { IfOk result (λ place. Finds place codes.now (view_of pass.old) (view_of pass.new)) }
    ensures inserted { IfOk result (λ place. PutsAtMost place (view_of pass.old) (view_of pass.new)) }
    ensures already_found { (k : ℕ) → IsFound n (places_of (view_of pass.old)) k codes.now → result ≡ Ok k }
    ensures looks { OnErr result (LooksOn (view_of pass.old) (view_of pass.new)) }
    ensures full { result ≡ Err ProbeError.RowFull → ArePassed n (places_of (view_of pass.new)) codes.now n }
    ensures spent { result ≡ Err ProbeError.NoPortion → AreChunksSpent n (view_of pass.new) }
    ensures one_chunk { (view_of pass.new).taken ≤ (view_of pass.old).taken + 1 }
    ensures no_chunk { HasUnspentRoom (view_of pass.old) codes.now → (view_of pass.new).taken ≡ (view_of pass.old).taken }
    ensures found_no_chunk { (k : ℕ) → IsFound n (places_of (view_of pass.old)) k codes.now
        → (view_of pass.new).taken ≡ (view_of pass.old).taken }
    ensures made { (view_of pass.new).steps ≤ (view_of pass.old).steps + (514 * n + chunk_count n + 512) }
    ensures counted { steps.new + (view_of pass.old).steps ≡ steps.old + (view_of pass.new).steps }
{
    let home = home_place(codes, n);
    let mut ready = false;
    for index in 0..n {
        let place = probed_place(codes, home, n, index);
        match visit(words, pass, n, place, codes, index, &mut ready, steps) {
            Ok(here) => {
                if here {
                    return Ok(place);
                }
            }
            Err(error) => return Err(error),
        }
    }
    Err(ProbeError::RowFull)
}
