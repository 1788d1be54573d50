//! The trait of every table of synthetics.
ghost use Rattle.std.specs.Prelude.{◌≡◌, ◌↔◌, ◌<◌, ℕ, ℤ, negsuc, List, length, slice_get, Some, IsSome, IfSome, IfOk, OnErr};
ghost use Rattle.nfg_syn.specs.Seen.{Seen, Keeps, SameCounts};
ghost use Rattle.nfg_syn.specs.Known.{IsSame, IsKnowledge, IsInternable, IsRowSize, MapsBesides, text_at, crlf};
ghost use Rattle.nfg_syn.specs.Refusal.{IsTableFull};

use std::alloc::{AllocError, Global};

/// Why a text got no number.
#[derive(Clone, Copy, PartialEq, Eq, Debug, Drop)]
pub enum InternError {
    /// Every place of the table holds another text.
    RowFull,
    /// The table has no room left for code points.
    NoPortion,
    /// Want of memory.
    OutOfMemory,
}

impl From<AllocError> for InternError {
    ghost use Rattle.nfg_syn.specs.declared.synthetics.InternError.TheVariants.{OutOfMemory};

    ghost from_gives = { λ _ error. error ≡ OutOfMemory };

    fn from(_error: AllocError) -> InternError {
        InternError::OutOfMemory
    }
}

/// A table that gives each text of 2 to 1,024 code points a negative number.
///
/// Callers reach the table through passes. What a pass knows is a finite map from numbers to texts,
/// in which no text has two numbers; -1 is CR LF in every table. Each call is given a pass of the
/// same table.
pub trait Synthetics {
    /// What one caller knows of the table.
    type Pass: Send + Drop;

    // The number of the table's places.
    ghost size: { Self → ℕ };

    // What contracts see of a pass.
    ghost seen: { Self.Pass → Seen };

    // The pass is of this table.
    ghost is_of: { Self → Self.Pass → Type 0 };

    /// The number of places, which is how many texts the table can number besides CR LF.
    fn capacity(&self) -> u32
        ensures { result ≡ size self.now };

    /// The number of a text of 2 to 1,024 code points, which is -1 for CR LF.
    ///
    /// A text that the pass knows is answered by its number, with no refusal.
    fn intern(
        &self,
        alloc: Global,
        pass: &mut Self::Pass,
        codes: &[u32],
    ) -> Result<i32, InternError>
        requires internable { IsInternable codes.now }
        requires table { is_of self.now pass.old }
        ensures table { is_of self.now pass.new }
        ensures keeps { Keeps (seen pass.old) (seen pass.new) }
        ensures counts { SameCounts (seen pass.old) (seen pass.new) }
        ensures interned { IfOk result (λ n. MapsBesides (seen pass.old).known n codes.now (seen pass.new).known) }
        ensures already_known { (m : ℕ) → (seen pass.old).known m ≡ Some codes.now → result ≡ Ok (negsuc m) }
        ensures line_end { (result ≡ Ok (negsuc 0)) ↔ (codes.now ≡ crlf) }
        ensures refused { OnErr result (IsSame (seen pass.old).known (seen pass.new).known) }
        ensures row_full { result ≡ Err InternError.RowFull → (seen pass.new).full codes.now }
        ensures no_portion { result ≡ Err InternError.NoPortion → (seen pass.new).drained };

    /// The number of code points of a negative number that the pass knows.
    fn count(&self, pass: &mut Self::Pass, n: i32) -> usize
        requires known { IsSome (text_at (seen pass.old).known n) }
        requires table { is_of self.now pass.old }
        ensures table { is_of self.now pass.new }
        ensures keeps { Keeps (seen pass.old) (seen pass.new) }
        ensures counts { SameCounts (seen pass.old) (seen pass.new) }
        ensures known { IsSame (seen pass.old).known (seen pass.new).known }
        ensures count { IfSome (text_at (seen pass.old).known n) (λ t. result ≡ length t) };

    /// The code point at `k`, counted from 0, of a negative number that the pass knows.
    fn code(&self, pass: &mut Self::Pass, n: i32, k: usize) -> u32
        requires known { (t : List ℕ) × (text_at (seen pass.old).known n ≡ Some t) × (k < length t) }
        requires table { is_of self.now pass.old }
        ensures table { is_of self.now pass.new }
        ensures keeps { Keeps (seen pass.old) (seen pass.new) }
        ensures counts { SameCounts (seen pass.old) (seen pass.new) }
        ensures known { IsSame (seen pass.old).known (seen pass.new).known }
        ensures code { IfSome (text_at (seen pass.old).known n) (λ t. slice_get t k ≡ Some result) };

    // A table has a lawful number of places.
    ghost row_size: { (table : Self) (pass : Self.Pass) → is_of table pass → IsRowSize (size table) };

    // What a pass of the table knows is knowledge.
    ghost knows: { (table : Self) (pass : Self.Pass) → is_of table pass
        → IsKnowledge (size table) (seen pass).known (seen pass).places };

    // A text is refused for want of a place only where all places hold other texts.
    ghost full_means: { (table : Self) (pass : Self.Pass) (t : List ℕ) → is_of table pass → (seen pass).full t
        → IsTableFull (size table) (seen pass).places t };
}
