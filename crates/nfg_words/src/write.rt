//! Taking chunks, and writing texts into them.
ghost use Rattle.std.specs.Prelude.{◌≡◌, ◌≢◌, ◌+◌, ◌*◌, ◌/◌, ◌<◌, ◌≤◌, ℕ, true, false, length};
ghost use Rattle.nfg_words.specs.Layout as specs;
ghost use Rattle.nfg_words.specs.View.{IsAmong};
ghost use Rattle.nfg_words.specs.Words.{IsSeatOf};
ghost use Rattle.nfg_words.specs.Writing.{FindsOn, TakesOn, WritesOn, HasWritten};

use crate::compare::pair_of;
use crate::layout;
use crate::steps::Steps;
use crate::words::{Holder, Words, take_chunk, write_codes};
use std::sync::ledger::Ledger;

/// Takes the first free chunk from `first` on. Returns it, or the number of chunks where each one was found taken.
pub fn take_free_chunk<L: Ledger>(
    words: &Words,
    holder: &mut Holder,
    n: usize,
    first: usize,
    steps: &mut Steps<L>,
) -> usize
    requires table { IsSeatOf words.now.shared.table_id n holder.old }
    requires key { words.now.shared.key ≡ n }
    requires limit { n ≤ 1048576 }
    requires first { first ≤ specs.chunk_count n }
    ensures table { IsSeatOf words.now.shared.table_id n holder.new }
    ensures within { (first ≤ result) × (result ≤ specs.chunk_count n) }
    ensures found { (chunk : ℕ) → first ≤ chunk → chunk < result → IsAmong holder.new.me.0.chunks chunk }
    ensures taken { result < specs.chunk_count n → TakesOn holder.old.me.0 result holder.new.me.0 }
    ensures none { result ≡ specs.chunk_count n → FindsOn holder.old.me.0 holder.new.me.0 }
    ensures made { holder.new.me.0.steps + first ≤ holder.old.me.0.steps + specs.chunk_count n }
    ensures counted { steps.new + holder.old.me.0.steps ≡ steps.old + holder.new.me.0.steps }
{
    let count = layout::chunk_count(n);
    let mut chunk = first;
    while chunk < count {
        if take_chunk(words, holder, n, chunk, steps) {
            return chunk;
        }
        chunk = chunk + 1;
    }
    chunk
}

/// Writes a text into the pass's own code words, from the first one on.
pub fn write_text<L: Ledger>(
    words: &Words,
    holder: &mut Holder,
    n: usize,
    start: usize,
    codes: &[u32],
    steps: &mut Steps<L>,
)
    requires table { IsSeatOf words.now.shared.table_id n holder.old }
    requires key { words.now.shared.key ≡ n }
    requires limit { n ≤ 1048576 }
    requires start { holder.old.me.0.unspent ≡ start }
    requires room { start + (length codes.now + 1) / 2 ≤ holder.old.me.0.end }
    requires inside { holder.old.me.0.end ≤ 512 * specs.chunk_count n }
    requires length { length codes.now ≤ 1024 }
    ensures table { IsSeatOf words.now.shared.table_id n holder.new }
    ensures writes { WritesOn holder.old.me.0 holder.new.me.0 }
    ensures written { HasWritten holder.new.me.0 start ((length codes.now + 1) / 2) codes.now }
    ensures made { holder.new.me.0.steps ≡ holder.old.me.0.steps + (length codes.now + 1) / 2 }
    ensures counted { steps.new ≡ steps.old + (length codes.now + 1) / 2 }
{
    for k in 0..(codes.len() + 1) / 2 {
        write_codes(words, holder, n, start + k, pair_of(codes, k), steps);
    }
}
