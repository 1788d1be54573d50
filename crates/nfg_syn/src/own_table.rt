//! The table of one caller.
ghost use Rattle.std.specs.Prelude.{◌≡◌, ◌≢◌, ◌↔◌, ◌<◌, ◌≤◌, ◌<ℤ◌, ℕ, suc, negsuc, length, Some, IfSome, IfNone, IfOk, OnErr};
ghost use Rattle.nfg_syn.specs.Known.{IsRowSize, IsInternable, IsUnknown, IsSame, MapsBesides, text_at, crlf};
ghost use Rattle.nfg_syn.specs.Seen.{IsFirst, Keeps, SameCounts};
ghost use Rattle.nfg_syn.specs.OwnTexts.{OwnTexts, IsOwnPass, known_of, seen_of};

use crate::text_list::TextList;
use crate::{InternError, Synthetics};
use std::alloc::{AllocError, Global};
use std::marker::Model;

/// A table whose texts stand in its one pass.
#[derive(Drop)]
pub struct OwnTable {
    size: u32,
}

impl Model for OwnTable {
    ghost Value = { ℕ };

    ghost view = { λ table. table.size };
}

/// The pass of an `OwnTable`, which holds the texts of the table.
#[derive(Drop)]
pub struct OwnPass {
    size: u32,
    texts: TextList,
}

impl Model for OwnPass {
    ghost Value = { OwnTexts };

    ghost view = { λ pass. record { size = pass.size; texts = pass.texts } };
}

impl OwnTable {
    /// A table of `n` places, which knows CR LF alone, and its pass.
    pub fn new(alloc: Global, n: u32) -> Result<(OwnTable, OwnPass), AllocError>
        requires { IsRowSize n }
        ensures table { IfOk result (λ made. made.0 ≡ n) }
        ensures pass { IfOk result (λ made. IsOwnPass n made.1) }
        ensures first { IfOk result (λ made. IsFirst (seen_of made.1)) }
    {
        let table = OwnTable { size: n };
        let pass = OwnPass {
            size: n,
            texts: TextList::new(alloc),
        };
        Ok((table, pass))
    }
}

// The number of the text at a place.
fn number_of(place: usize) -> i32
    requires { place < 1048576 }
    ensures { result ≡ negsuc (suc place) }
{
    -2 - place as i32
}

// The place of a synthetic.
fn place_of(n: i32) -> usize
    requires { n <ℤ negsuc 0 }
    ensures { n ≡ negsuc (suc result) }
{
    (-2 - n) as usize
}

// The number of a text that is CR LF or stands among `texts`.
fn known_number(texts: &TextList, codes: &[u32]) -> Option<i32>
    requires { length texts.now ≤ 1048576 }
    ensures known { IfSome result (λ n. text_at (known_of texts.now) n ≡ Some codes.now) }
    ensures unknown { IfNone result (IsUnknown (known_of texts.now) codes.now) }
{
    if codes == [13, 10].as_slice() {
        return Some(-1);
    }
    match texts.find(codes) {
        Some(place) => Some(number_of(place)),
        None => None,
    }
}

impl Synthetics for OwnTable {
    ghost use Rattle.nfg_syn.specs.OwnTexts.{IsOwnPass, seen_of};
    ghost use Rattle.nfg_syn.specs.OwnTextsLaws.{row_size_of, knowledge_of, full_of};

    type Pass = OwnPass;

    ghost size = { λ table. table };

    ghost seen = { seen_of };

    ghost is_of = { IsOwnPass };

    fn capacity(&self) -> u32 {
        self.size
    }

    fn intern(&self, alloc: Global, pass: &mut OwnPass, codes: &[u32]) -> Result<i32, InternError>
        requires internable { IsInternable codes.now }
        requires table { IsOwnPass self.now pass.old }
        ensures table { IsOwnPass self.now pass.new }
        ensures keeps { Keeps (seen_of pass.old) (seen_of pass.new) }
        ensures counts { SameCounts (seen_of pass.old) (seen_of pass.new) }
        ensures interned { IfOk result (λ n. MapsBesides (seen_of pass.old).known n codes.now (seen_of pass.new).known) }
        ensures already_known { (m : ℕ) → (seen_of pass.old).known m ≡ Some codes.now → result ≡ Ok (negsuc m) }
        ensures line_end { (result ≡ Ok (negsuc 0)) ↔ (codes.now ≡ crlf) }
        ensures refused { OnErr result (IsSame (seen_of pass.old).known (seen_of pass.new).known) }
        ensures row_full { result ≡ Err InternError.RowFull → (seen_of pass.new).full codes.now }
        ensures no_portion { result ≡ Err InternError.NoPortion → (seen_of pass.new).drained }

        // A new text gets the next number.
        ensures next_number { IsUnknown (seen_of pass.old).known codes.now
            → IfOk result (λ n. n ≡ negsuc (suc (length pass.old.texts))) }
        ensures row_full_exactly { (result ≡ Err InternError.RowFull)
            ↔ (IsUnknown (seen_of pass.old).known codes.now × (length pass.old.texts ≡ self.now)) }
        ensures never_no_portion { result ≢ Err InternError.NoPortion }
    {
        let _ = alloc;
        if let Some(n) = known_number(&pass.texts, codes) {
            return Ok(n);
        }
        let place = pass.texts.len();
        if place >= self.size as usize {
            return Err(InternError::RowFull);
        }
        pass.texts.push(codes)?;
        Ok(number_of(place))
    }

    fn count(&self, pass: &mut OwnPass, n: i32) -> usize {
        if n == -1 {
            2
        } else {
            pass.texts.get(place_of(n)).len()
        }
    }

    fn code(&self, pass: &mut OwnPass, n: i32, k: usize) -> u32 {
        if n == -1 {
            if k == 0 { 13 } else { 10 }
        } else {
            pass.texts.get(place_of(n))[k]
        }
    }

    ghost row_size = { λ table pass own. row_size_of table pass own };

    ghost knows = { λ table pass own. knowledge_of table pass own };

    ghost full_means = { λ table pass t own full. full_of table pass t own full };
}
