//! Loads of the code words that a bucket word names.
ghost use Rattle.std.specs.Prelude.{◌≡◌, ◌≢◌, ◌+◌, ◌≤◌};
ghost use Rattle.nfg_words.specs.Rule.{IsJustified};
ghost use Rattle.nfg_words.specs.Steps.{IsNamed, codes_read, number_read};
ghost use Rattle.nfg_words.specs.View.{Grows, SaysAll};
ghost use Rattle.nfg_words.specs.Words.{IsSeatOf};

use crate::layout;
use crate::steps::Steps;
use crate::view::View;
use crate::words::{Holder, Words};
use atomic_table::Play;
use std::marker::{Brand, PhantomData};
use std::sync::ledger::Ledger;

struct ReadCodes;

impl Play<u64, View> for ReadCodes {
    ghost use Rattle.nfg_words.specs.Words.{TellsCodes};

    ghost then = { λ step before found later. TellsCodes step before found later };
}

/// Which place gets a number, and by which code word. Proofs alone speak of it.
pub trait Target {
    ghost use Rattle.std.specs.Prelude.{ℕ};

    ghost place: { ℕ };

    ghost wanted: { ℕ };
}

impl Target for Brand {
    ghost place = { 0 };

    ghost wanted = { 0 };
}

struct NumberPlace<K> {
    target: PhantomData<K>,
}

impl<K: Target> Play<u64, View> for NumberPlace<K> {
    ghost use Rattle.nfg_words.specs.Words.{TellsNumber};

    ghost then = { λ step before found later. TellsNumber K.place K.wanted step before found later };
}

/// Reads the code word `c`, which a bucket word that the pass has read names.
pub fn read_codes<L: Ledger>(
    words: &Words,
    holder: &mut Holder,
    n: usize,
    c: usize,
    steps: &mut Steps<L>,
) -> u64
    requires table { IsSeatOf words.now.shared.table_id n holder.old }
    requires key { words.now.shared.key ≡ n }
    requires limit { n ≤ 1048576 }
    requires named { IsNamed holder.old.me.0 c }
    ensures table { IsSeatOf words.now.shared.table_id n holder.new }
    ensures read { holder.new.me.0 ≡ codes_read holder.old.me.0 c result }
    ensures grows { Grows holder.old.me.0 holder.new.me.0 }
    ensures made { holder.new.me.0.steps ≡ holder.old.me.0.steps + 1 }
    ensures counted { steps.new ≡ steps.old + 1 }
{
    steps.tick();
    words
        .shared
        .load::<ReadCodes>(holder, layout::code_word(n, c))
}

fn read_for<K: Target>(
    words: &Words,
    holder: &mut Holder,
    n: usize,
    c: usize,
    place: usize,
    wanted: u64,
) -> u64
    requires table { IsSeatOf words.now.shared.table_id n holder.old }
    requires key { words.now.shared.key ≡ n }
    requires limit { n ≤ 1048576 }
    requires named { IsNamed holder.old.me.0 c }
    requires justified { SaysAll holder.old.me.0.codes (codes_read holder.old.me.0 c wanted).codes
        → IsJustified n (codes_read holder.old.me.0 c wanted) place }
    requires target { (K.place ≡ place) × (K.wanted ≡ wanted) }
    ensures table { IsSeatOf words.now.shared.table_id n holder.new }
    ensures numbered { result ≡ wanted → holder.new.me.0 ≡ number_read holder.old.me.0 c result place }
    ensures read { result ≢ wanted → holder.new.me.0 ≡ codes_read holder.old.me.0 c result }
    ensures grows { Grows holder.old.me.0 holder.new.me.0 }
    ensures made { holder.new.me.0.steps ≡ holder.old.me.0.steps + 1 }
{
    let (_, _) = (place, wanted);
    words
        .shared
        .load::<NumberPlace<K>>(holder, layout::code_word(n, c))
}

/// Reads the code word `c`, the last that the number of a place wants: where it is `wanted`, the pass knows the number.
pub fn number_codes<L: Ledger>(
    words: &Words,
    holder: &mut Holder,
    n: usize,
    c: usize,
    place: usize,
    wanted: u64,
    steps: &mut Steps<L>,
) -> u64
    requires table { IsSeatOf words.now.shared.table_id n holder.old }
    requires key { words.now.shared.key ≡ n }
    requires limit { n ≤ 1048576 }
    requires named { IsNamed holder.old.me.0 c }
    requires justified { SaysAll holder.old.me.0.codes (codes_read holder.old.me.0 c wanted).codes
        → IsJustified n (codes_read holder.old.me.0 c wanted) place }
    ensures table { IsSeatOf words.now.shared.table_id n holder.new }
    ensures numbered { result ≡ wanted → holder.new.me.0 ≡ number_read holder.old.me.0 c result place }
    ensures read { result ≢ wanted → holder.new.me.0 ≡ codes_read holder.old.me.0 c result }
    ensures grows { Grows holder.old.me.0 holder.new.me.0 }
    ensures made { holder.new.me.0.steps ≡ holder.old.me.0.steps + 1 }
    ensures counted { steps.new ≡ steps.old + 1 }
{
    steps.tick();
    read_for::<Brand>(words, holder, n, c, place, wanted)
}
