//! The place whose number a text gets.
ghost use Rattle.std.specs.Prelude.{◌≡◌, ◌+◌, ◌*◌, ◌<◌, ◌≤◌, ℕ, suc, negsuc, Some, IfOk, OnErr};
ghost use Rattle.nfg_syn.specs.Known.{IsSame, MapsBesides};
ghost use Rattle.nfg_syn.specs.Seen.{Keeps, SameCounts};
ghost use Rattle.nfg_words.specs.Layout.{chunk_count};
ghost use Rattle.nfg_words.specs.Passes.{HasUnspentRoom, IsPassOf, PutsAtMost, view_of};
ghost use Rattle.nfg_words.specs.ProbeTable.{IsStorable};
ghost use Rattle.nfg_words.specs.Table.{seen_of};

use crate::pass::WordPass;
use crate::probe_error::ProbeError;
use crate::steps::Steps;
use crate::walk::walk;
use crate::words::Words;
use std::sync::ledger::Ledger;

/// The place whose number a text has or gets.
pub fn find<L: Ledger>(
    words: &Words,
    pass: &mut WordPass,
    n: usize,
    codes: &[u32],
    steps: &mut Steps<L>,
) -> Result<usize, ProbeError>
    requires pass { IsPassOf words.now.shared.table_id n pass.old }
    requires key { words.now.shared.key ≡ n }
    requires limit { n ≤ 1048576 }
    requires storable { IsStorable codes.now }
    ensures pass { IsPassOf words.now.shared.table_id n pass.new }
    ensures within { IfOk result (λ k. k < n) }
    ensures keeps { Keeps (seen_of pass.old) (seen_of pass.new) }
    ensures counts { SameCounts (seen_of pass.old) (seen_of pass.new) }
    ensures interned { IfOk result (λ k.
        MapsBesides (seen_of pass.old).known (negsuc (suc k)) codes.now (seen_of pass.new).known) }
    ensures already_known { (k : ℕ) → (seen_of pass.old).known (suc k) ≡ Some codes.now → result ≡ Ok k }
    ensures refused { OnErr result (IsSame (seen_of pass.old).known (seen_of pass.new).known) }
    ensures row_full { result ≡ Err ProbeError.RowFull → (seen_of pass.new).full codes.now }
    ensures no_portion { result ≡ Err ProbeError.NoPortion → (seen_of pass.new).drained }
    ensures inserted { IfOk result (λ k. PutsAtMost k (view_of pass.old) (view_of pass.new)) }
    ensures not_inserted { OnErr result ((view_of pass.new).inserted ≡ (view_of pass.old).inserted) }
    ensures one_chunk { (view_of pass.new).taken ≤ (view_of pass.old).taken + 1 }
    ensures no_chunk { HasUnspentRoom (view_of pass.old) codes.now → (view_of pass.new).taken ≡ (view_of pass.old).taken }
    ensures known_no_chunk { (k : ℕ) → (seen_of pass.old).known (suc k) ≡ Some codes.now
        → (view_of pass.new).taken ≡ (view_of pass.old).taken }
    ensures made { (view_of pass.new).steps ≤ (view_of pass.old).steps + (514 * n + chunk_count n + 512) }
    ensures counted { steps.new + (view_of pass.old).steps ≡ steps.old + (view_of pass.new).steps }
{
    match walk(words, pass, n, codes, steps) {
        Ok(k) => Ok(k),
        Err(error) => Err(error),
    }
}
