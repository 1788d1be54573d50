//! What happens at one place of a text's probe sequence, and the walk over them.
ghost use Rattle.std.specs.Prelude.{◌≡◌, ◌≢◌, ◌+◌, ◌*◌, ◌<◌, ◌≤◌, ◌∷◌, ℕ, Bool, Some, None, true, false, length, OnErr};
ghost use Rattle.nfg_words.specs.Comparing.{ArePassed, HoldsOther};
ghost use Rattle.nfg_words.specs.Layout.{chunk_count};
ghost use Rattle.nfg_words.specs.Passes.{AreReadBut, AreReadInFull, Finds, HasUnspentRoom, IsHeld, IsPassOf, IsReady, LooksOn, PutsAtMost, ready_chunks, ready_steps, view_of};
ghost use Rattle.nfg_words.specs.ProbeTable.{IsStorable, probe_sequence};
ghost use Rattle.nfg_words.specs.View.{Says, places_of};
ghost use Rattle.nfg_words.specs.Writing.{AreChunksSpent};

use crate::compare::read_text;
use crate::pass::WordPass;
use crate::probe_error::ProbeError;
use crate::put::{prepare, put_text};
use crate::steps::Steps;
use crate::words::{Words, read_bucket};
use std::sync::ledger::Ledger;

// Gets a text ready, unless it is. Answers whether there was room for it.
fn get_ready<L: Ledger>(
    words: &Words,
    pass: &mut WordPass,
    n: usize,
    codes: &[u32],
    ready: &mut bool,
    steps: &mut Steps<L>,
) -> bool
    requires held { IsHeld words.now.shared.table_id n pass.old }
    requires key { words.now.shared.key ≡ n }
    requires limit { n ≤ 1048576 }
    requires length { length codes.now ≤ 1024 }
    requires ready { ready.old ≡ true → IsReady pass.old codes.now }
    ensures held { IsHeld words.now.shared.table_id n pass.new }
    ensures looks { LooksOn (view_of pass.old) (view_of pass.new) }
    ensures buckets { (view_of pass.new).buckets ≡ (view_of pass.old).buckets }
    ensures codes { (view_of pass.new).codes ≡ (view_of pass.old).codes }
    ensures ready { result ≡ true → IsReady pass.new codes.now }
    ensures spent { result ≡ false → AreChunksSpent n (view_of pass.new) }
    ensures chunks { result ≡ true → (view_of pass.new).taken + ready_chunks ready.new
        ≤ (view_of pass.old).taken + ready_chunks ready.old }
    ensures made { result ≡ true → (view_of pass.new).steps + ready_steps n ready.new
        ≤ (view_of pass.old).steps + ready_steps n ready.old }
    ensures not_ready { result ≡ false → ready.old ≡ false }
    ensures no_chunk { HasUnspentRoom (view_of pass.old) codes.now → (view_of pass.new).taken ≡ (view_of pass.old).taken }
    ensures still_room { HasUnspentRoom (view_of pass.old) codes.now → HasUnspentRoom (view_of pass.new) codes.now }
    ensures spent_chunks { (view_of pass.new).taken ≤ (view_of pass.old).taken + 1 }
    ensures spent_made { (view_of pass.new).steps ≤ (view_of pass.old).steps + (chunk_count n + 512) }
    ensures counted { steps.new + (view_of pass.old).steps ≡ steps.old + (view_of pass.new).steps }
{
    if *ready {
        return true;
    }
    if !prepare(words, pass, n, codes, steps) {
        return false;
    }
    *ready = true;
    true
}

// Puts a text at a place that was found empty, and gets it ready before, unless it is. Returns the bucket word that was
// found, which is 0 where the text was put, and nothing where there is no room.
fn offer<L: Ledger>(
    words: &Words,
    pass: &mut WordPass,
    n: usize,
    place: usize,
    codes: &[u32],
    index: usize,
    ready: &mut bool,
    steps: &mut Steps<L>,
) -> Option<u64>
    requires held { IsHeld words.now.shared.table_id n pass.old }
    requires in_full { AreReadInFull (view_of pass.old) }
    requires key { words.now.shared.key ≡ n }
    requires limit { n ≤ 1048576 }
    requires storable { IsStorable codes.now }
    requires ready { ready.old ≡ true → IsReady pass.old codes.now }
    requires index { index < n }
    requires reaches { probe_sequence n codes.now index ≡ place }
    requires passed { ArePassed n (places_of (view_of pass.old)) codes.now index }
    ensures held { IsHeld words.now.shared.table_id n pass.new }
    ensures put { result ≡ Some 0 → Finds place codes.now (view_of pass.old) (view_of pass.new) }
    ensures put_in_full { result ≡ Some 0 → AreReadInFull (view_of pass.new) }
    ensures inserted { result ≡ Some 0 → (view_of pass.new).inserted ≡ place ∷ (view_of pass.old).inserted }
    ensures looks { result ≢ Some 0 → LooksOn (view_of pass.old) (view_of pass.new) }
    ensures found { (bucket : ℕ) → bucket ≢ 0 → result ≡ Some bucket → Says (view_of pass.new).buckets place bucket }
    ensures but { AreReadBut place (view_of pass.new) }
    ensures still_ready { (bucket : ℕ) → bucket ≢ 0 → result ≡ Some bucket → IsReady pass.new codes.now }
    ensures spent { result ≡ None → AreChunksSpent n (view_of pass.new) }
    ensures spent_in_full { result ≡ None → AreReadInFull (view_of pass.new) }
    ensures chunks { (bucket : ℕ) → result ≡ Some bucket → (view_of pass.new).taken + ready_chunks ready.new
        ≤ (view_of pass.old).taken + ready_chunks ready.old }
    ensures spent_chunks { result ≡ None → (view_of pass.new).taken ≤ (view_of pass.old).taken + 1 }
    ensures no_chunk { HasUnspentRoom (view_of pass.old) codes.now → (view_of pass.new).taken ≡ (view_of pass.old).taken }
    ensures still_room { result ≢ Some 0 → HasUnspentRoom (view_of pass.old) codes.now → HasUnspentRoom (view_of pass.new) codes.now }
    ensures made { (bucket : ℕ) → result ≡ Some bucket → (view_of pass.new).steps + ready_steps n ready.new
        ≤ (view_of pass.old).steps + ready_steps n ready.old + 1 }
    ensures not_ready { result ≡ None → ready.old ≡ false }
    ensures spent_made { result ≡ None → (view_of pass.new).steps ≤ (view_of pass.old).steps + (chunk_count n + 512) }
    ensures counted { steps.new + (view_of pass.old).steps ≡ steps.old + (view_of pass.new).steps }
{
    if !get_ready(words, pass, n, codes, ready, steps) {
        return None;
    }
    Some(put_text(words, pass, n, place, codes, index, steps))
}

// Reads a bucket word, and puts the text where there is none. Returns the word, or 0 where the text was put, and nothing
// where there is no room for it.
fn find_bucket<L: Ledger>(
    words: &Words,
    pass: &mut WordPass,
    n: usize,
    place: usize,
    codes: &[u32],
    index: usize,
    ready: &mut bool,
    steps: &mut Steps<L>,
) -> Option<u64>
    requires pass { IsPassOf words.now.shared.table_id n pass.old }
    requires key { words.now.shared.key ≡ n }
    requires limit { n ≤ 1048576 }
    requires storable { IsStorable codes.now }
    requires ready { ready.old ≡ true → IsReady pass.old codes.now }
    requires index { index < n }
    requires place { place < n }
    requires reaches { probe_sequence n codes.now index ≡ place }
    requires passed { ArePassed n (places_of (view_of pass.old)) codes.now index }
    ensures held { IsHeld words.now.shared.table_id n pass.new }
    ensures put { result ≡ Some 0 → Finds place codes.now (view_of pass.old) (view_of pass.new) }
    ensures put_in_full { result ≡ Some 0 → AreReadInFull (view_of pass.new) }
    ensures inserted { result ≡ Some 0 → (view_of pass.new).inserted ≡ place ∷ (view_of pass.old).inserted }
    ensures looks { result ≢ Some 0 → LooksOn (view_of pass.old) (view_of pass.new) }
    ensures found { (bucket : ℕ) → bucket ≢ 0 → result ≡ Some bucket → Says (view_of pass.new).buckets place bucket }
    ensures but { AreReadBut place (view_of pass.new) }
    ensures still_ready { (bucket : ℕ) → bucket ≢ 0 → result ≡ Some bucket → ready.new ≡ true → IsReady pass.new codes.now }
    ensures spent { result ≡ None → AreChunksSpent n (view_of pass.new) }
    ensures spent_in_full { result ≡ None → AreReadInFull (view_of pass.new) }
    ensures unseen { result ≡ None → places_of (view_of pass.old) place ≡ None }
    ensures seen { places_of (view_of pass.old) place ≢ None → (view_of pass.new).taken ≡ (view_of pass.old).taken }
    ensures chunks { (bucket : ℕ) → result ≡ Some bucket → (view_of pass.new).taken + ready_chunks ready.new
        ≤ (view_of pass.old).taken + ready_chunks ready.old }
    ensures spent_chunks { result ≡ None → (view_of pass.new).taken ≤ (view_of pass.old).taken + 1 }
    ensures no_chunk { HasUnspentRoom (view_of pass.old) codes.now → (view_of pass.new).taken ≡ (view_of pass.old).taken }
    ensures still_room { result ≢ Some 0 → HasUnspentRoom (view_of pass.old) codes.now → HasUnspentRoom (view_of pass.new) codes.now }
    ensures made { (bucket : ℕ) → result ≡ Some bucket → (view_of pass.new).steps + ready_steps n ready.new
        ≤ (view_of pass.old).steps + ready_steps n ready.old + 2 }
    ensures not_ready { result ≡ None → ready.old ≡ false }
    ensures spent_made { result ≡ None → (view_of pass.new).steps ≤ (view_of pass.old).steps + (chunk_count n + 513) }
    ensures counted { steps.new + (view_of pass.old).steps ≡ steps.old + (view_of pass.new).steps }
{
    let bucket = read_bucket(words, &mut pass.holder, n, place, steps);
    if bucket != 0 {
        return Some(bucket);
    }
    offer(words, pass, n, place, codes, index, ready, steps)
}

/// Looks at a place that is on the text's probe sequence, where the places before it hold other texts, and puts the text
/// there if the place is empty. Answers whether the text is there: then the pass knows its number.
pub fn visit<L: Ledger>(
    words: &Words,
    pass: &mut WordPass,
    n: usize,
    place: usize,
    codes: &[u32],
    index: usize,
    ready: &mut bool,
    steps: &mut Steps<L>,
) -> Result<bool, ProbeError>
    requires pass { IsPassOf words.now.shared.table_id n pass.old }
    requires key { words.now.shared.key ≡ n }
    requires limit { n ≤ 1048576 }
    requires storable { IsStorable codes.now }
    requires ready { ready.old ≡ true → IsReady pass.old codes.now }
    requires index { index < n }
    requires place { place < n }
    requires reaches { probe_sequence n codes.now index ≡ place }
    requires passed { ArePassed n (places_of (view_of pass.old)) codes.now index }
    ensures pass { IsPassOf words.now.shared.table_id n pass.new }
    ensures here { result ≡ Ok true → Finds place codes.now (view_of pass.old) (view_of pass.new) }
    ensures inserted { result ≡ Ok true → PutsAtMost place (view_of pass.old) (view_of pass.new) }
    ensures looks { result ≢ Ok true → LooksOn (view_of pass.old) (view_of pass.new) }
    ensures other { result ≡ Ok false → HoldsOther (view_of pass.new) place codes.now }
    ensures still_ready { result ≡ Ok false → ready.new ≡ true → IsReady pass.new codes.now }
    ensures spent { OnErr result (AreChunksSpent n (view_of pass.new)) }
    ensures unseen { OnErr result (places_of (view_of pass.old) place ≡ None) }
    ensures error { result ≢ Err ProbeError.RowFull }
    ensures chunks { (is : Bool) → result ≡ Ok is → (view_of pass.new).taken + ready_chunks ready.new
        ≤ (view_of pass.old).taken + ready_chunks ready.old }
    ensures spent_chunks { OnErr result ((view_of pass.new).taken ≤ (view_of pass.old).taken + ready_chunks ready.old) }
    ensures no_chunk { HasUnspentRoom (view_of pass.old) codes.now → (view_of pass.new).taken ≡ (view_of pass.old).taken }
    ensures still_room { result ≢ Ok true → HasUnspentRoom (view_of pass.old) codes.now → HasUnspentRoom (view_of pass.new) codes.now }
    ensures seen { places_of (view_of pass.old) place ≢ None → (view_of pass.new).taken ≡ (view_of pass.old).taken }
    ensures made { (is : Bool) → result ≡ Ok is → (view_of pass.new).steps + ready_steps n ready.new
        ≤ (view_of pass.old).steps + ready_steps n ready.old + 514 }
    ensures spent_made { OnErr result ((view_of pass.new).steps ≤ (view_of pass.old).steps + ready_steps n ready.old + 514) }
    ensures counted { steps.new + (view_of pass.old).steps ≡ steps.old + (view_of pass.new).steps }
{
    match find_bucket(words, pass, n, place, codes, index, ready, steps) {
        None => Err(ProbeError::NoPortion),
        Some(bucket) => {
            if bucket == 0 {
                return Ok(true);
            }
            Ok(read_text(
                words,
                &mut pass.holder,
                n,
                place,
                bucket,
                codes,
                index,
                steps,
            ))
        }
    }
}
