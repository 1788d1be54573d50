//! Reading the text of a number that a pass knows.
ghost use Rattle.std.specs.Prelude.{◌≡◌, ◌%◌, ◌<◌, ◌≤◌, ℕ, List, length, slice_get, Some};
ghost use Rattle.nfg_words.specs.Passes.{IsPassOf, LooksOn, view_of};
ghost use Rattle.nfg_words.specs.Layout as specs;
ghost use Rattle.nfg_words.specs.View.{Says, places_of};

use crate::layout;
use crate::loads::read_codes;
use crate::pass::WordPass;
use crate::steps::Steps;
use crate::words::{Words, read_bucket};
use std::sync::ledger::{Blank, Ledger};

// Reads the bucket word at a place again.
fn read_again<L: Ledger>(
    words: &Words,
    pass: &mut WordPass,
    n: usize,
    place: usize,
    steps: &mut Steps<L>,
) -> u64
    requires pass { IsPassOf words.now.shared.table_id n pass.old }
    requires key { words.now.shared.key ≡ n }
    requires limit { n ≤ 1048576 }
    requires read { (text : List ℕ) × (places_of (view_of pass.old) place ≡ Some text) }
    ensures pass { IsPassOf words.now.shared.table_id n pass.new }
    ensures looks { LooksOn (view_of pass.old) (view_of pass.new) }
    ensures same_chunks { (view_of pass.new).taken ≡ (view_of pass.old).taken }
    ensures recorded { (word : ℕ) → Says (view_of pass.old).buckets place word → result ≡ word }
{
    read_bucket(words, &mut pass.holder, n, place, steps)
}

/// The number of code points of the text at a place where the pass has read it.
pub fn count_at<L: Ledger>(
    words: &Words,
    pass: &mut WordPass,
    n: usize,
    place: usize,
    blank: Blank,
) -> usize
    requires name { blank.name ≡ L.name }
    requires parts { blank.parts ≡ L.parts }
    requires some { 0 < blank.parts }
    requires pass { IsPassOf words.now.shared.table_id n pass.old }
    requires key { words.now.shared.key ≡ n }
    requires limit { n ≤ 1048576 }
    requires read { (text : List ℕ) × (places_of (view_of pass.old) place ≡ Some text) }
    ensures pass { IsPassOf words.now.shared.table_id n pass.new }
    ensures looks { LooksOn (view_of pass.old) (view_of pass.new) }
    ensures same_chunks { (view_of pass.new).taken ≡ (view_of pass.old).taken }
    ensures count { (text : List ℕ) → places_of (view_of pass.old) place ≡ Some text → result ≡ length text }
{
    let mut steps = Steps::<L>::new(blank);
    let bucket = read_again(words, pass, n, place, &mut steps);
    layout::length_of(bucket)
}

// Reads the code word that has the code point at `k` of the text at a place.
fn read_word<L: Ledger>(
    words: &Words,
    pass: &mut WordPass,
    n: usize,
    place: usize,
    k: usize,
    steps: &mut Steps<L>,
) -> u64
    requires pass { IsPassOf words.now.shared.table_id n pass.old }
    requires key { words.now.shared.key ≡ n }
    requires limit { n ≤ 1048576 }
    requires read { (text : List ℕ) × (places_of (view_of pass.old) place ≡ Some text) × (k < length text) }
    ensures pass { IsPassOf words.now.shared.table_id n pass.new }
    ensures looks { LooksOn (view_of pass.old) (view_of pass.new) }
    ensures same_chunks { (view_of pass.new).taken ≡ (view_of pass.old).taken }
    ensures even { (text : List ℕ) → places_of (view_of pass.old) place ≡ Some text → k < length text → k % 2 ≡ 0
        → slice_get text k ≡ Some (specs.first_code result) }
    ensures odd { (text : List ℕ) → places_of (view_of pass.old) place ≡ Some text → k < length text → k % 2 ≡ 1
        → slice_get text k ≡ Some (specs.second_code result) }
{
    let bucket = read_again(words, pass, n, place, steps);
    let c = layout::start_of(bucket) + k / 2;
    read_codes(words, &mut pass.holder, n, c, steps)
}

/// The code point at `k` of the text at a place where the pass has read it.
pub fn code_of<L: Ledger>(
    words: &Words,
    pass: &mut WordPass,
    n: usize,
    place: usize,
    k: usize,
    blank: Blank,
) -> u32
    requires name { blank.name ≡ L.name }
    requires parts { blank.parts ≡ L.parts }
    requires some { 0 < blank.parts }
    requires pass { IsPassOf words.now.shared.table_id n pass.old }
    requires key { words.now.shared.key ≡ n }
    requires limit { n ≤ 1048576 }
    requires read { (text : List ℕ) × (places_of (view_of pass.old) place ≡ Some text) × (k < length text) }
    ensures pass { IsPassOf words.now.shared.table_id n pass.new }
    ensures looks { LooksOn (view_of pass.old) (view_of pass.new) }
    ensures same_chunks { (view_of pass.new).taken ≡ (view_of pass.old).taken }
    ensures code { (text : List ℕ) → places_of (view_of pass.old) place ≡ Some text → k < length text
        → slice_get text k ≡ Some result }
{
    let mut steps = Steps::<L>::new(blank);
    let word = read_word(words, pass, n, place, k, &mut steps);
    if k % 2 == 0 {
        layout::first_code(word)
    } else {
        layout::second_code(word)
    }
}
