//! The table that callers share, and their passes.
ghost use Rattle.std.specs.Prelude.{◌≡◌, ◌≢◌, ◌↔◌, ◌⊎◌, ◌+◌, ◌<◌, ◌≤◌, ℕ, List, negsuc, length, slice_get, Some, IsSome, IfSome, false, IfOk, IfErr, IsOk, OnOk, OnErr};
ghost use Rattle.nfg_syn.specs.Known.{IsInternable, IsRowSize, IsSame, MapsBesides, crlf, text_at};
ghost use Rattle.nfg_syn.specs.Seen.{IsFirst, IsUnchanged, Keeps, Meets, SameCounts};
ghost use Rattle.nfg_words.specs.Passes.{HasUnspentRoom, view_of};
ghost use Rattle.nfg_words.specs.Table.{IsWordPass, PutsAtMostIts, seen_of};

use crate::pass::WordPass;
use crate::probe::place_of;
use crate::probe_error::ProbeError;
use crate::read::{code_of, count_at};
use crate::steps::Steps;
use crate::words::{Words, join_views, new_words, split_view};
use nfg_syn::{InternError, Refused, Shared, Synthetics};
use std::alloc::{AllocError, Global};
use std::marker::Brand;
use std::sync::ledger::{Blank, Ledger};

/// A table of words, which gives each text one number, whichever callers come first. No call on it waits for another.
#[derive(Drop)]
pub struct WordTable {
    pub(crate) words: Words,
    pub(crate) n: u32,
}

impl WordTable {
    /// A table of `n` places, which knows CR LF alone, and its first pass.
    pub fn new(alloc: Global, n: u32) -> Result<(WordTable, WordPass), AllocError>
        requires { IsRowSize n }
        ensures size { IfOk result (λ made. made.0.n ≡ n) }
        ensures pass { IfOk result (λ made. IsWordPass made.0 made.1) }
        ensures first { IfOk result (λ made. IsFirst (seen_of made.1)) }
    {
        let (words, holder) = new_words(alloc, n as usize)?;
        let table = WordTable { words, n };
        let pass = WordPass {
            holder,
            unspent: 0,
            end: 0,
            tried: 0,
            apart: [0; 8],
        };
        Ok((table, pass))
    }
}

// The same as `WordTable::probe`, with a counter that nobody reads.
fn intern_uncounted<L: Ledger>(
    table: &WordTable,
    pass: &mut WordPass,
    codes: &[u32],
    blank: Blank,
) -> Result<i32, InternError>
    requires name { blank.name ≡ L.name }
    requires parts { blank.parts ≡ L.parts }
    requires some { 0 < blank.parts }
    requires internable { IsInternable codes.now }
    requires table { IsWordPass table.now pass.old }
    ensures table { IsWordPass table.now pass.new }
    ensures keeps { Keeps (seen_of pass.old) (seen_of pass.new) }
    ensures counts { SameCounts (seen_of pass.old) (seen_of pass.new) }
    ensures interned { IfOk result
        (λ n. MapsBesides (seen_of pass.old).known n codes.now (seen_of pass.new).known) }
    ensures already_known { (m : ℕ) → (seen_of pass.old).known m ≡ Some codes.now → result ≡ Ok (negsuc m) }
    ensures line_end { (result ≡ Ok (negsuc 0)) ↔ (codes.now ≡ crlf) }
    ensures refused { OnErr result (IsSame (seen_of pass.old).known (seen_of pass.new).known) }
    ensures row_full { result ≡ Err InternError.RowFull → (seen_of pass.new).full codes.now }
    ensures no_portion { result ≡ Err InternError.NoPortion → (seen_of pass.new).drained }

    // It takes no memory, puts at most this text, and takes at most one chunk, and none without need.
    ensures never_out_of_memory { result ≢ Err InternError.OutOfMemory }
    ensures inserted { IfOk result (λ n. PutsAtMostIts n (view_of pass.old) (view_of pass.new)) }
    ensures not_inserted { OnErr result ((view_of pass.new).inserted ≡ (view_of pass.old).inserted) }
    ensures one_chunk { (view_of pass.new).taken ≤ (view_of pass.old).taken + 1 }
    ensures no_chunk { HasUnspentRoom (view_of pass.old) codes.now → (view_of pass.new).taken ≡ (view_of pass.old).taken }
    ensures known_no_chunk { (m : ℕ) → (seen_of pass.old).known m ≡ Some codes.now
        → (view_of pass.new).taken ≡ (view_of pass.old).taken }
{
    let mut steps = Steps::<L>::new(blank);
    match table.probe(pass, codes, &mut steps) {
        Ok(number) => Ok(number),
        Err(ProbeError::RowFull) => Err(InternError::RowFull),
        Err(ProbeError::NoPortion) => Err(InternError::NoPortion),
    }
}

impl Synthetics for WordTable {
    ghost use Rattle.nfg_words.specs.Table.{IsWordPass, seen_of};
    ghost use Rattle.nfg_words.specs.TableLaws.{row_size_of, knows_of, full_of};

    type Pass = WordPass;

    ghost size = { λ table. table.n };

    ghost seen = { seen_of };

    ghost is_of = { IsWordPass };

    fn capacity(&self) -> u32 {
        self.n
    }

    fn intern(&self, alloc: Global, pass: &mut WordPass, codes: &[u32]) -> Result<i32, InternError>
        requires internable { IsInternable codes.now }
        requires table { IsWordPass self.now pass.old }
        ensures table { IsWordPass self.now pass.new }
        ensures keeps { Keeps (seen_of pass.old) (seen_of pass.new) }
        ensures counts { SameCounts (seen_of pass.old) (seen_of pass.new) }
        ensures interned { IfOk result
            (λ n. MapsBesides (seen_of pass.old).known n codes.now (seen_of pass.new).known) }
        ensures already_known { (m : ℕ) → (seen_of pass.old).known m ≡ Some codes.now → result ≡ Ok (negsuc m) }
        ensures line_end { (result ≡ Ok (negsuc 0)) ↔ (codes.now ≡ crlf) }
        ensures refused { OnErr result (IsSame (seen_of pass.old).known (seen_of pass.new).known) }
        ensures row_full { result ≡ Err InternError.RowFull → (seen_of pass.new).full codes.now }
        ensures no_portion { result ≡ Err InternError.NoPortion → (seen_of pass.new).drained }

        // It takes no memory, puts at most this text, and takes at most one chunk, and none without need.
        ensures never_out_of_memory { result ≢ Err InternError.OutOfMemory }
        ensures inserted { IfOk result (λ n. PutsAtMostIts n (view_of pass.old) (view_of pass.new)) }
        ensures not_inserted { OnErr result ((view_of pass.new).inserted ≡ (view_of pass.old).inserted) }
        ensures one_chunk { (view_of pass.new).taken ≤ (view_of pass.old).taken + 1 }
        ensures no_chunk { HasUnspentRoom (view_of pass.old) codes.now → (view_of pass.new).taken ≡ (view_of pass.old).taken }
        ensures known_no_chunk { (m : ℕ) → (seen_of pass.old).known m ≡ Some codes.now
            → (view_of pass.new).taken ≡ (view_of pass.old).taken }
    {
        let _ = alloc;
        intern_uncounted::<Brand>(self, pass, codes, Blank::new(1))
    }

    fn count(&self, pass: &mut WordPass, n: i32) -> usize
        requires known { IsSome (text_at (seen_of pass.old).known n) }
        requires table { IsWordPass self.now pass.old }
        ensures table { IsWordPass self.now pass.new }
        ensures keeps { Keeps (seen_of pass.old) (seen_of pass.new) }
        ensures counts { SameCounts (seen_of pass.old) (seen_of pass.new) }
        ensures known { IsSame (seen_of pass.old).known (seen_of pass.new).known }
        ensures count { IfSome (text_at (seen_of pass.old).known n) (λ t. result ≡ length t) }

        // It puts no text and takes no chunk.
        ensures not_inserted { (view_of pass.new).inserted ≡ (view_of pass.old).inserted }
        ensures same_chunks { (view_of pass.new).taken ≡ (view_of pass.old).taken }
    {
        if n == -1 {
            return 2;
        }
        let size = self.n as usize;
        count_at::<Brand>(&self.words, pass, size, place_of(n), Blank::new(1))
    }

    fn code(&self, pass: &mut WordPass, n: i32, k: usize) -> u32
        requires known { (t : List ℕ) × (text_at (seen_of pass.old).known n ≡ Some t) × (k < length t) }
        requires table { IsWordPass self.now pass.old }
        ensures table { IsWordPass self.now pass.new }
        ensures keeps { Keeps (seen_of pass.old) (seen_of pass.new) }
        ensures counts { SameCounts (seen_of pass.old) (seen_of pass.new) }
        ensures known { IsSame (seen_of pass.old).known (seen_of pass.new).known }
        ensures code { IfSome (text_at (seen_of pass.old).known n) (λ t. slice_get t k ≡ Some result) }

        // It puts no text and takes no chunk.
        ensures not_inserted { (view_of pass.new).inserted ≡ (view_of pass.old).inserted }
        ensures same_chunks { (view_of pass.new).taken ≡ (view_of pass.old).taken }
    {
        if n == -1 {
            return if k == 0 { 13 } else { 10 };
        }
        let size = self.n as usize;
        code_of::<Brand>(&self.words, pass, size, place_of(n), k, Blank::new(1))
    }

    ghost row_size = { λ table pass of_table. row_size_of table pass of_table };

    ghost knows = { λ table pass of_table. knows_of table pass of_table };

    ghost full_means = { λ table pass t of_table full. full_of table pass t of_table full };
}

// The later of two places among the chunks.
fn later(one: usize, other: usize) -> usize
    ensures { (result ≡ one) ⊎ (result ≡ other) }
{
    if one < other { other } else { one }
}

impl Shared for WordTable {
    fn fork(&self, alloc: Global, pass: &mut WordPass) -> Result<WordPass, AllocError> {
        let _ = alloc;
        let holder = split_view(&self.words, &mut pass.holder, self.n as usize);
        Ok(WordPass {
            holder,
            unspent: 0,
            end: 0,
            tried: pass.tried,
            apart: [0; 8],
        })
    }

    fn meet(
        &self,
        alloc: Global,
        into: &mut WordPass,
        from: WordPass,
    ) -> Result<(), Refused<WordPass>>
        requires no_root { (seen_of from).root ≡ false }
        requires into_table { IsWordPass self.now into.old }
        requires from_table { IsWordPass self.now from }
        ensures table { IsWordPass self.now into.new }
        ensures keeps { Keeps (seen_of into.old) (seen_of into.new) }
        ensures forks { (seen_of into.new).forks ≡ (seen_of into.old).forks }
        ensures met { OnOk result (Meets (seen_of into.old) (seen_of from) (seen_of into.new)) }
        ensures refused { OnErr result (IsUnchanged (seen_of into.old) (seen_of into.new)) }
        ensures given_back { IfErr result (λ refused. refused.from ≡ from) }

        // A meet takes no memory.
        ensures never_refused { IsOk result }
    {
        let _ = alloc;
        let WordPass {
            holder,
            unspent: _,
            end: _,
            tried,
            apart: _,
        } = from;
        join_views(&self.words, &mut into.holder, holder, self.n as usize);
        into.tried = later(into.tried, tried);
        Ok(())
    }
}
