//! Texts in the order in which they were added, found again by their code points.
ghost use Rattle.std.specs.Prelude.{◌≡◌, ◌≢◌, ◌+◌, ◌<◌, ◌≤◌, ℕ, List, [], ◌∷◌, ◌++◌, length, slice_get, vec_len, vec_capacity, Some, IfSome, IfNone, OnOk, OnErr};

use crate::hash_chains::{HashChains, hash};
use crate::span::Span;
use std::alloc::{AllocError, Global};
use std::marker::Model;

/// A list of texts.
#[derive(Drop)]
pub struct TextList {
    // The code points of all texts, one text after another.
    codes: Vec<u32>,
    spans: Vec<Span>,
    hashes: HashChains,
}

impl Model for TextList {
    ghost use Rattle.std.specs.Prelude.{ℕ, List};
    ghost use Rattle.nfg_syn.specs.TextList.{texts_of, IsTextList};

    ghost Value = { List (List ℕ) };

    ghost view = { λ list. texts_of list.codes.items list.spans.items };

    ghost invariant = { λ list. IsTextList list.codes.items list.spans.items list.hashes };
}

// Adds a text, for which there is room.
fn append(codes: &mut Vec<u32>, spans: &mut Vec<Span>, text: &[u32])
    requires code_room { vec_len codes.old + length text.now ≤ vec_capacity codes.old }
    requires span_room { vec_len spans.old + 1 ≤ vec_capacity spans.old }
    ensures codes { codes.new.items ≡ codes.old.items ++ text.now }
    ensures spans { spans.new.items ≡ spans.old.items
        ++ (record { start = vec_len codes.old; end = vec_len codes.old + length text.now }) ∷ [] }
{
    let start = codes.len();
    codes.extend_from_slice(text).unwrap();
    let end = codes.len();
    spans.push(Span { start, end }).unwrap();
}

impl TextList {
    /// The empty list, which takes no memory.
    pub fn new(alloc: Global) -> TextList
        ensures { result ≡ [] }
    {
        TextList {
            codes: Vec::new(alloc),
            spans: Vec::new(alloc),
            hashes: HashChains::new(alloc),
        }
    }

    /// The number of texts.
    pub fn len(&self) -> usize
        ensures { result ≡ length self.now }
    {
        self.spans.len()
    }

    /// The text at `place`, counted from 0.
    pub fn get(&self, place: usize) -> &[u32]
        requires { place < length self.now }
        ensures { slice_get self.now place ≡ Some result.now }
    {
        let span = self.spans[place];
        &self.codes[span.start..span.end]
    }

    /// A place of the text, and nothing exactly where there is none.
    pub fn find(&self, text: &[u32]) -> Option<usize>
        ensures found { IfSome result (λ place. slice_get self.now place ≡ Some text.now) }
        ensures missing { IfNone result ((k : ℕ) → slice_get self.now k ≢ Some text.now) }
    {
        let mut next = self.hashes.last(hash(text));
        while let Some(place) = next {
            if self.get(place) == text {
                return Some(place);
            }
            next = self.hashes.before(place);
        }
        None
    }

    /// Adds a text at the end.
    pub fn push(&mut self, text: &[u32]) -> Result<(), AllocError>
        requires { length self.old < 1048576 }
        ensures added { OnOk result (self.new ≡ self.old ++ text.now ∷ []) }
        ensures refused { OnErr result (self.new ≡ self.old) }
    {
        self.codes.reserve(text.len())?;
        self.spans.reserve(1)?;
        self.hashes.push(hash(text))?;
        append(&mut self.codes, &mut self.spans, text);
        Ok(())
    }
}
