//! The words of a table under their rule, and the steps of a pass that write them.
ghost use Rattle.std.specs.Prelude.{◌≡◌, ◌≢◌, ◌+◌, ◌*◌, ◌<◌, ◌≤◌, ℕ, List, [], true, false, IfOk};
ghost use Rattle.nfg_words.specs.Layout.{chunk_count};
ghost use Rattle.nfg_words.specs.Steps.{CanPublish, bucket_read, bucket_published, chunk_taken, chunk_found, codes_written, split, split_off, joined};
ghost use Rattle.nfg_words.specs.View.{Grows, Says, fresh_view};
ghost use Rattle.nfg_words.specs.Words.{IsSeatOf};

use crate::layout;
use crate::steps::Steps;
use crate::view::View;
use atomic_table::{Join, Play, Seat, Split, Table, TableRule};
use std::alloc::{AllocError, Global};
use std::sync::ledger::Ledger;

/// The rule of the words. The key of a table is the number of its buckets.
pub struct WordsRule;

impl TableRule<u64, View, u64> for WordsRule {
    ghost use Rattle.nfg_words.specs.View.{fresh_view};
    ghost use Rattle.nfg_words.specs.Words.{IsKept};

    ghost holds = { λ n. IsKept n };

    ghost first = { fresh_view };
}

/// The words of a table, each of which changes in single atomic steps.
pub type Words = Table<u64, View, u64, WordsRule, Global>;

/// What a pass steps with: its view, and no bytes.
pub type Holder = Seat<u64, View>;

struct TakeChunk;

impl Play<u64, View> for TakeChunk {
    ghost use Rattle.nfg_words.specs.Words.{TellsChunk};

    ghost then = { λ step before found later. TellsChunk step before found later };
}

struct WriteCodes;

impl Play<u64, View> for WriteCodes {
    ghost use Rattle.nfg_words.specs.Words.{TellsWriting};

    ghost then = { λ step before written later. TellsWriting step before written later };
}

struct SplitView;

impl Split<View> for SplitView {
    ghost use Rattle.nfg_words.specs.Steps.{split, split_off};

    ghost left = { split };

    ghost right = { split_off };
}

struct JoinViews;

impl Join<View> for JoinViews {
    ghost use Rattle.nfg_words.specs.Steps.{joined};
    ghost use Rattle.nfg_words.specs.View.{emptied};

    ghost both = { joined };

    ghost spent = { emptied };
}

struct ReadBucket;

impl Play<u64, View> for ReadBucket {
    ghost use Rattle.nfg_words.specs.Words.{TellsBucket};

    ghost then = { λ step before found later. TellsBucket step before found later };
}

struct PublishBucket;

impl Play<u64, View> for PublishBucket {
    ghost use Rattle.nfg_words.specs.Words.{TellsPublishing};

    ghost then = { λ step before found later. TellsPublishing step before found later };
}

struct Sight;

impl Play<u64, View> for Sight {
    ghost use Rattle.nfg_words.specs.Words.{TellsSight};

    ghost then = { λ step before found later. TellsSight step before found later };
}

/// The words of a table of `n` buckets, all 0, and the first pass, which knows nothing.
pub fn new_words(alloc: Global, n: usize) -> Result<(Words, Holder), AllocError>
    requires { n ≤ 1048576 }
    ensures table { IfOk result (λ made. IsSeatOf made.0.shared.table_id n made.1) }
    ensures key { IfOk result (λ made. made.0.shared.key ≡ n) }
    ensures fresh { IfOk result (λ made. made.1.me ≡ (fresh_view n, [])) }
{
    let zeros = Vec::from_elem(alloc, 0u64, layout::word_count(n))?;
    let key = n as u64;
    let (words, holder): (Words, Holder) = Table::of_words(alloc, zeros.as_slice(), &key)?;
    Ok((words, holder))
}

/// Takes a chunk, or answers that it was taken.
pub fn take_chunk<L: Ledger>(
    words: &Words,
    holder: &mut Holder,
    n: usize,
    chunk: usize,
    steps: &mut Steps<L>,
) -> bool
    requires table { IsSeatOf words.now.shared.table_id n holder.old }
    requires key { words.now.shared.key ≡ n }
    requires limit { n ≤ 1048576 }
    requires chunk { chunk < chunk_count n }
    ensures table { IsSeatOf words.now.shared.table_id n holder.new }
    ensures taken { result ≡ true → holder.new.me.0 ≡ chunk_taken holder.old.me.0 chunk }
    ensures found { result ≡ false → holder.new.me.0 ≡ chunk_found holder.old.me.0 chunk }
    ensures grows { Grows holder.old.me.0 holder.new.me.0 }
    ensures counted { steps.new ≡ steps.old + 1 }
{
    steps.tick();
    words
        .shared
        .compare_exchange::<TakeChunk>(holder, layout::chunk_word(n, chunk), 0, 1)
        == 0
}

/// Writes the code word `c`, which is one of the pass's unspent ones.
pub fn write_codes<L: Ledger>(
    words: &Words,
    holder: &mut Holder,
    n: usize,
    c: usize,
    codes: u64,
    steps: &mut Steps<L>,
)
    requires table { IsSeatOf words.now.shared.table_id n holder.old }
    requires key { words.now.shared.key ≡ n }
    requires limit { n ≤ 1048576 }
    requires code { c < 512 * chunk_count n }
    requires unspent { (holder.old.me.0.unspent ≤ c) × (c < holder.old.me.0.end) }
    ensures table { IsSeatOf words.now.shared.table_id n holder.new }
    ensures written { holder.new.me.0 ≡ codes_written holder.old.me.0 c codes }
    ensures grows { Grows holder.old.me.0 holder.new.me.0 }
    ensures counted { steps.new ≡ steps.old + 1 }
{
    steps.tick();
    words
        .shared
        .store::<WriteCodes>(holder, layout::code_word(n, c), codes);
}

/// Reads the bucket word of a place.
pub fn read_bucket<L: Ledger>(
    words: &Words,
    holder: &mut Holder,
    n: usize,
    place: usize,
    steps: &mut Steps<L>,
) -> u64
    requires table { IsSeatOf words.now.shared.table_id n holder.old }
    requires key { words.now.shared.key ≡ n }
    requires place { place < n }
    ensures table { IsSeatOf words.now.shared.table_id n holder.new }
    ensures read { holder.new.me.0 ≡ bucket_read holder.old.me.0 place result }
    ensures recorded { (word : ℕ) → Says holder.old.me.0.buckets place word → result ≡ word }
    ensures grows { Grows holder.old.me.0 holder.new.me.0 }
    ensures counted { steps.new ≡ steps.old + 1 }
{
    steps.tick();
    words.shared.load::<ReadBucket>(holder, place)
}

/// Puts a text that the pass has written at a place, where the bucket is empty. Returns the bucket word that was found,
/// which is 0 where the text was put, and else that of the text that stands there.
pub fn publish_bucket<L: Ledger>(
    words: &Words,
    holder: &mut Holder,
    n: usize,
    place: usize,
    bucket: u64,
    steps: &mut Steps<L>,
) -> u64
    requires table { IsSeatOf words.now.shared.table_id n holder.old }
    requires key { words.now.shared.key ≡ n }
    requires place { place < n }
    requires can { (text : List ℕ) × CanPublish n holder.old.me.0 place bucket text }
    ensures table { IsSeatOf words.now.shared.table_id n holder.new }
    ensures published { result ≡ 0 → holder.new.me.0 ≡ bucket_published holder.old.me.0 place bucket }
    ensures read { result ≢ 0 → holder.new.me.0 ≡ bucket_read holder.old.me.0 place result }
    ensures grows { Grows holder.old.me.0 holder.new.me.0 }
    ensures counted { steps.new ≡ steps.old + 1 }
{
    steps.tick();
    words
        .shared
        .compare_exchange::<PublishBucket>(holder, place, 0, bucket)
}

/// A new pass that knows what this one knows.
pub fn split_view(words: &Words, holder: &mut Holder, n: usize) -> Holder
    requires table { IsSeatOf words.now.shared.table_id n holder.old }
    requires key { words.now.shared.key ≡ n }
    ensures table { IsSeatOf words.now.shared.table_id n holder.new }
    ensures new_table { IsSeatOf words.now.shared.table_id n result }
    ensures old { holder.new.me.0 ≡ split holder.old.me.0 }
    ensures new { result.me.0 ≡ split_off holder.old.me.0 }
{
    words.shared.split_seat::<SplitView>(holder)
}

/// Joins another pass to this one. It loads a word besides, by which what both knew is seen to stand at one moment.
pub fn join_views(words: &Words, holder: &mut Holder, other: Holder, n: usize)
    requires table { IsSeatOf words.now.shared.table_id n holder.old }
    requires other_table { IsSeatOf words.now.shared.table_id n other }
    requires key { words.now.shared.key ≡ n }
    ensures table { IsSeatOf words.now.shared.table_id n holder.new }
    ensures joined { holder.new.me.0 ≡ joined holder.old.me.0 other.me.0 }
{
    words.shared.join_seat::<JoinViews>(holder, other);
    words.shared.load::<Sight>(holder, 0);
}
