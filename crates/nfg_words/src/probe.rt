//! Interning a text, by counted steps.
ghost use Rattle.std.specs.Prelude.{◌≡◌, ◌↔◌, ◌+◌, ◌*◌, ◌<◌, ◌≤◌, ◌<ℤ◌, ℕ, suc, negsuc, Some, IfOk, OnErr};
ghost use Rattle.nfg_syn.specs.Known.{IsInternable, IsSame, MapsBesides, crlf};
ghost use Rattle.nfg_syn.specs.Seen.{Keeps, SameCounts};
ghost use Rattle.nfg_words.specs.Layout.{chunk_count};
ghost use Rattle.nfg_words.specs.Passes.{HasUnspentRoom, view_of};
ghost use Rattle.nfg_words.specs.Table.{IsWordPass, PutsAtMostIts, seen_of};

use crate::naming::find;
use crate::pass::WordPass;
use crate::probe_error::ProbeError;
use crate::steps::Steps;
use crate::table::WordTable;
use std::sync::ledger::Ledger;

/// The number of the text at a place.
pub fn number_of(place: usize) -> i32
    requires { place < 1048576 }
    ensures { result ≡ negsuc (suc place) }
{
    -2 - place as i32
}

/// The place of the text of a number that is not -1.
pub fn place_of(n: i32) -> usize
    requires { n <ℤ negsuc 0 }
    ensures { n ≡ negsuc (suc result) }
{
    (-2 - n) as usize
}

impl WordTable {
    /// The number of a text of 2 to 1,024 code points, which is -1 for CR LF, and how many steps it takes. It takes no
    /// memory.
    ///
    /// A text that the pass knows is answered by its number, with no refusal.
    pub fn probe<L: Ledger>(
        &self,
        pass: &mut WordPass,
        codes: &[u32],
        steps: &mut Steps<L>,
    ) -> Result<i32, ProbeError>
        requires internable { IsInternable codes.now }
        requires table { IsWordPass self.now pass.old }
        ensures table { IsWordPass self.now pass.new }
        ensures keeps { Keeps (seen_of pass.old) (seen_of pass.new) }
        ensures counts { SameCounts (seen_of pass.old) (seen_of pass.new) }
        ensures interned { IfOk result
            (λ n. MapsBesides (seen_of pass.old).known n codes.now (seen_of pass.new).known) }
        ensures already_known { (m : ℕ) → (seen_of pass.old).known m ≡ Some codes.now → result ≡ Ok (negsuc m) }
        ensures line_end { (result ≡ Ok (negsuc 0)) ↔ (codes.now ≡ crlf) }
        ensures refused { OnErr result (IsSame (seen_of pass.old).known (seen_of pass.new).known) }
        ensures row_full { result ≡ Err ProbeError.RowFull → (seen_of pass.new).full codes.now }
        ensures no_portion { result ≡ Err ProbeError.NoPortion → (seen_of pass.new).drained }

        // It puts at most this text, takes at most one chunk and none without need, and counts its steps.
        ensures inserted { IfOk result (λ n. PutsAtMostIts n (view_of pass.old) (view_of pass.new)) }
        ensures not_inserted { OnErr result ((view_of pass.new).inserted ≡ (view_of pass.old).inserted) }
        ensures one_chunk { (view_of pass.new).taken ≤ (view_of pass.old).taken + 1 }
        ensures no_chunk { HasUnspentRoom (view_of pass.old) codes.now → (view_of pass.new).taken ≡ (view_of pass.old).taken }
        ensures known_no_chunk { (m : ℕ) → (seen_of pass.old).known m ≡ Some codes.now
            → (view_of pass.new).taken ≡ (view_of pass.old).taken }
        ensures made { (view_of pass.new).steps ≤ (view_of pass.old).steps + (514 * self.now.n + chunk_count self.now.n + 512) }
        ensures counted { steps.new + (view_of pass.old).steps ≡ steps.old + (view_of pass.new).steps }
    {
        if codes == [13, 10].as_slice() {
            return Ok(-1);
        }
        match find(&self.words, pass, self.n as usize, codes, steps) {
            Ok(place) => Ok(number_of(place)),
            Err(error) => Err(error),
        }
    }
}
