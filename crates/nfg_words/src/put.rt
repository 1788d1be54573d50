//! Getting a text ready, and putting it at an empty place.
ghost use Rattle.std.specs.Prelude.{◌≡◌, ◌≢◌, ◌+◌, ◌*◌, ◌/◌, ◌<◌, ◌≤◌, ◌∷◌, ℕ, true, false, length};
ghost use Rattle.nfg_words.specs.Comparing.{ArePassed};
ghost use Rattle.nfg_words.specs.Layout as specs;
ghost use Rattle.nfg_words.specs.Passes.{AreReadInFull, Finds, HasUnspentRoom, IsHeld, IsReady, LooksOn, view_of};
ghost use Rattle.nfg_words.specs.ProbeTable.{IsStorable, probe_sequence};
ghost use Rattle.nfg_words.specs.Steps.{bucket_read};
ghost use Rattle.nfg_words.specs.View.{Grows, places_of};
ghost use Rattle.nfg_words.specs.Writing.{AreChunksSpent};

use crate::layout;
use crate::pass::WordPass;
use crate::steps::Steps;
use crate::words::{Words, publish_bucket};
use crate::write::{take_free_chunk, write_text};
use std::sync::ledger::Ledger;

/// Takes a chunk, unless the pass has room for a text of so many code words. Answers whether there is room now.
pub fn make_room<L: Ledger>(
    words: &Words,
    pass: &mut WordPass,
    n: usize,
    count: usize,
    steps: &mut Steps<L>,
) -> bool
    requires held { IsHeld words.now.shared.table_id n pass.old }
    requires key { words.now.shared.key ≡ n }
    requires limit { n ≤ 1048576 }
    requires count { count ≤ 512 }
    ensures held { IsHeld words.now.shared.table_id n pass.new }
    ensures looks { LooksOn (view_of pass.old) (view_of pass.new) }
    ensures buckets { (view_of pass.new).buckets ≡ (view_of pass.old).buckets }
    ensures codes { (view_of pass.new).codes ≡ (view_of pass.old).codes }
    ensures room { result ≡ true → pass.new.unspent + count ≤ pass.new.end }
    ensures spent { result ≡ false → AreChunksSpent n (view_of pass.new) }
    ensures one_chunk { (view_of pass.new).taken ≤ (view_of pass.old).taken + 1 }
    ensures no_chunk { pass.old.unspent + count ≤ pass.old.end → view_of pass.new ≡ view_of pass.old }
    ensures made { (view_of pass.new).steps ≤ (view_of pass.old).steps + specs.chunk_count n }
    ensures counted { steps.new + (view_of pass.old).steps ≡ steps.old + (view_of pass.new).steps }
{
    if pass.unspent + count <= pass.end {
        return true;
    }
    let chunk = take_free_chunk(words, &mut pass.holder, n, pass.tried, steps);
    if chunk == layout::chunk_count(n) {
        pass.tried = chunk;
        return false;
    }
    pass.tried = chunk + 1;
    pass.unspent = 512 * chunk;
    pass.end = 512 * chunk + 512;
    true
}

/// Writes a text at the start of the pass's unspent code words. Answers whether there was room for it.
pub fn prepare<L: Ledger>(
    words: &Words,
    pass: &mut WordPass,
    n: usize,
    codes: &[u32],
    steps: &mut Steps<L>,
) -> bool
    requires held { IsHeld words.now.shared.table_id n pass.old }
    requires key { words.now.shared.key ≡ n }
    requires limit { n ≤ 1048576 }
    requires length { length codes.now ≤ 1024 }
    ensures held { IsHeld words.now.shared.table_id n pass.new }
    ensures looks { LooksOn (view_of pass.old) (view_of pass.new) }
    ensures buckets { (view_of pass.new).buckets ≡ (view_of pass.old).buckets }
    ensures codes { (view_of pass.new).codes ≡ (view_of pass.old).codes }
    ensures ready { result ≡ true → IsReady pass.new codes.now }
    ensures spent { result ≡ false → AreChunksSpent n (view_of pass.new) }
    ensures one_chunk { (view_of pass.new).taken ≤ (view_of pass.old).taken + 1 }
    ensures no_chunk { HasUnspentRoom (view_of pass.old) codes.now → (view_of pass.new).taken ≡ (view_of pass.old).taken }
    ensures still_room { HasUnspentRoom (view_of pass.old) codes.now → HasUnspentRoom (view_of pass.new) codes.now }
    ensures made { (view_of pass.new).steps ≤ (view_of pass.old).steps + (specs.chunk_count n + 512) }
    ensures counted { steps.new + (view_of pass.old).steps ≡ steps.old + (view_of pass.new).steps }
{
    if !make_room(words, pass, n, (codes.len() + 1) / 2, steps) {
        return false;
    }
    write_text(words, &mut pass.holder, n, pass.unspent, codes, steps);
    true
}

/// Puts a text that is ready at a place, if that is empty. Returns the bucket word that was found, which is 0 where the
/// text was put.
pub fn put_text<L: Ledger>(
    words: &Words,
    pass: &mut WordPass,
    n: usize,
    place: usize,
    codes: &[u32],
    index: usize,
    steps: &mut Steps<L>,
) -> u64
    requires held { IsHeld words.now.shared.table_id n pass.old }
    requires in_full { AreReadInFull (view_of pass.old) }
    requires key { words.now.shared.key ≡ n }
    requires limit { n ≤ 1048576 }
    requires storable { IsStorable codes.now }
    requires ready { IsReady pass.old codes.now }
    requires index { index < n }
    requires reaches { probe_sequence n codes.now index ≡ place }
    requires passed { ArePassed n (places_of (view_of pass.old)) codes.now index }
    ensures held { IsHeld words.now.shared.table_id n pass.new }
    ensures put { result ≡ 0 → Finds place codes.now (view_of pass.old) (view_of pass.new) }
    ensures put_in_full { result ≡ 0 → AreReadInFull (view_of pass.new) }
    ensures inserted { result ≡ 0 → (view_of pass.new).inserted ≡ place ∷ (view_of pass.old).inserted }
    ensures found { result ≢ 0 → view_of pass.new ≡ bucket_read (view_of pass.old) place result }
    ensures still_ready { result ≢ 0 → IsReady pass.new codes.now }
    ensures still_room { result ≢ 0 → HasUnspentRoom (view_of pass.old) codes.now → HasUnspentRoom (view_of pass.new) codes.now }
    ensures grows { Grows (view_of pass.old) (view_of pass.new) }
    ensures same_chunks { (view_of pass.new).taken ≡ (view_of pass.old).taken }
    ensures made { (view_of pass.new).steps ≡ (view_of pass.old).steps + 1 }
    ensures counted { steps.new ≡ steps.old + 1 }
{
    let bucket = layout::bucket_word(pass.unspent, codes.len());
    let found = publish_bucket(words, &mut pass.holder, n, place, bucket, steps);
    if found == 0 {
        pass.unspent = layout::stop_of(bucket);
    }
    found
}
