//! Reading the text at a place in full, and comparing it with another one.
ghost use Rattle.std.specs.Prelude.{◌≡◌, ◌≢◌, ◌+◌, ◌-◌, ◌*◌, ◌/◌, ◌<◌, ◌≤◌, ◌⊎◌, ◌∷◌, ℕ, Some, true, false, length, slice_index};
ghost use Rattle.nfg_words.specs.Comparing.{ReadsOn, AreRecorded, AreCodesOf, HasOther, ArePassed, HoldsOther, numbered};
ghost use Rattle.nfg_words.specs.Layout as specs;
ghost use Rattle.nfg_words.specs.ProbeTable.{probe_sequence};
ghost use Rattle.nfg_words.specs.Steps.{IsNamed, codes_read};
ghost use Rattle.nfg_words.specs.View.{Says, SaysAll, places_of};
ghost use Rattle.nfg_words.specs.Words.{IsSeatOf};

use crate::layout;
use crate::loads::{number_codes, read_codes};
use crate::steps::Steps;
use crate::words::{Holder, Words};
use std::sync::ledger::Ledger;

fn code_or_zero(codes: &[u32], index: usize) -> u32
    ensures { result ≡ slice_index codes.now index }
{
    if index < codes.len() { codes[index] } else { 0 }
}

/// The code word at an index of a text.
pub fn pair_of(codes: &[u32], k: usize) -> u64
    requires { k < 1048576 }
    ensures { result ≡ specs.pair_at codes.now k }
{
    layout::code_pair(code_or_zero(codes, 2 * k), code_or_zero(codes, 2 * k + 1))
}

// Reads the code word `c`, and answers whether it is the one at the index `k` of the text.
fn read_pair<L: Ledger>(
    words: &Words,
    holder: &mut Holder,
    n: usize,
    c: usize,
    codes: &[u32],
    k: usize,
    steps: &mut Steps<L>,
) -> bool
    requires table { IsSeatOf words.now.shared.table_id n holder.old }
    requires key { words.now.shared.key ≡ n }
    requires limit { n ≤ 1048576 }
    requires named { IsNamed holder.old.me.0 c }
    requires index { k < 1048576 }
    ensures table { IsSeatOf words.now.shared.table_id n holder.new }
    ensures read { (word : ℕ) × (holder.new.me.0 ≡ codes_read holder.old.me.0 c word)
        × (result ≡ true → word ≡ specs.pair_at codes.now k) × (result ≡ false → word ≢ specs.pair_at codes.now k) }
    ensures codes { SaysAll holder.old.me.0.codes holder.new.me.0.codes }
    ensures counted { steps.new ≡ steps.old + 1 }
{
    read_codes(words, holder, n, c, steps) == pair_of(codes, k)
}

// Reads the code words of the text at a place but for the last, and answers whether they are those of a text as long.
fn read_front<L: Ledger>(
    words: &Words,
    holder: &mut Holder,
    n: usize,
    place: usize,
    bucket: u64,
    codes: &[u32],
    steps: &mut Steps<L>,
) -> bool
    requires table { IsSeatOf words.now.shared.table_id n holder.old }
    requires key { words.now.shared.key ≡ n }
    requires limit { n ≤ 1048576 }
    requires bucket { Says holder.old.me.0.buckets place bucket }
    requires length { (2 ≤ specs.length_of bucket) × (specs.length_of bucket ≤ 1024) }
    ensures table { IsSeatOf words.now.shared.table_id n holder.new }
    ensures reads { ReadsOn holder.old.me.0 holder.new.me.0 }
    ensures recorded { AreRecorded holder.new.me.0 (specs.start_of bucket) ((specs.length_of bucket + 1) / 2 - 1) }
    ensures same { result ≡ true → (length codes.now ≡ specs.length_of bucket)
        × AreCodesOf holder.new.me.0 (specs.start_of bucket) ((specs.length_of bucket + 1) / 2 - 1) codes.now }
    ensures other { result ≡ false → (length codes.now ≢ specs.length_of bucket)
        ⊎ HasOther holder.new.me.0 (specs.start_of bucket) ((specs.length_of bucket + 1) / 2 - 1) codes.now }
    ensures made { holder.new.me.0.steps + 1 ≡ holder.old.me.0.steps + (specs.length_of bucket + 1) / 2 }
    ensures counted { steps.new + 1 ≡ steps.old + (specs.length_of bucket + 1) / 2 }
{
    let _ = place;
    let start = layout::start_of(bucket);
    let mut same = layout::length_of(bucket) == codes.len();
    for k in 0..(layout::length_of(bucket) + 1) / 2 - 1 {
        let found = read_pair(words, holder, n, start + k, codes, k, steps);
        same = same & found;
    }
    same
}

// Reads the code words of the text at a place, and compares them with none.
fn read_words<L: Ledger>(
    words: &Words,
    holder: &mut Holder,
    n: usize,
    place: usize,
    bucket: u64,
    steps: &mut Steps<L>,
)
    requires table { IsSeatOf words.now.shared.table_id n holder.old }
    requires key { words.now.shared.key ≡ n }
    requires limit { n ≤ 1048576 }
    requires bucket { Says holder.old.me.0.buckets place bucket }
    ensures table { IsSeatOf words.now.shared.table_id n holder.new }
    ensures reads { ReadsOn holder.old.me.0 holder.new.me.0 }
    ensures recorded { AreRecorded holder.new.me.0 (specs.start_of bucket) ((specs.length_of bucket + 1) / 2) }
    ensures made { holder.new.me.0.steps ≡ holder.old.me.0.steps + (specs.length_of bucket + 1) / 2 }
    ensures counted { steps.new ≡ steps.old + (specs.length_of bucket + 1) / 2 }
{
    let _ = place;
    let start = layout::start_of(bucket);
    for k in 0..(layout::length_of(bucket) + 1) / 2 {
        read_codes(words, holder, n, start + k, steps);
    }
}

/// Reads the text at a place in full, and answers whether it is `codes`: then the pass knows the number of the place. The
/// places before it on the text's probe sequence hold other texts.
pub fn read_text<L: Ledger>(
    words: &Words,
    holder: &mut Holder,
    n: usize,
    place: usize,
    bucket: u64,
    codes: &[u32],
    index: usize,
    steps: &mut Steps<L>,
) -> bool
    requires table { IsSeatOf words.now.shared.table_id n holder.old }
    requires key { words.now.shared.key ≡ n }
    requires limit { n ≤ 1048576 }
    requires bucket { Says holder.old.me.0.buckets place bucket }
    requires index { index < n }
    requires reaches { probe_sequence n codes.now index ≡ place }
    requires passed { ArePassed n (places_of holder.old.me.0) codes.now index }
    ensures table { IsSeatOf words.now.shared.table_id n holder.new }
    ensures found { result ≡ true → ReadsOn (numbered holder.old.me.0 place) holder.new.me.0 }
    ensures here { result ≡ true → places_of holder.new.me.0 place ≡ Some codes.now }
    ensures other { result ≡ false → ReadsOn holder.old.me.0 holder.new.me.0 }
    ensures differs { result ≡ false → HoldsOther holder.new.me.0 place codes.now }
    ensures made { holder.new.me.0.steps ≤ holder.old.me.0.steps + 512 }
    ensures counted { steps.new + holder.old.me.0.steps ≡ steps.old + holder.new.me.0.steps }
{
    // A text of another length is known to be another one before its code words are there.
    let length = layout::length_of(bucket);
    if length != codes.len() {
        read_words(words, holder, n, place, bucket, steps);
        return false;
    }
    let same = read_front(words, holder, n, place, bucket, codes, steps);
    let index_of_last = (length + 1) / 2 - 1;
    let last = layout::start_of(bucket) + index_of_last;
    if same {
        let wanted = pair_of(codes, index_of_last);
        number_codes(words, holder, n, last, place, wanted, steps) == wanted
    } else {
        read_codes(words, holder, n, last, steps);
        false
    }
}
