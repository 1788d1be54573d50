//! Texts one after another.
ghost use Rattle.std.specs.Prelude.{◌≡◌, ◌<◌, ◌+◌, ℕ, List, [], ◌∷◌, ◌++◌, length, map, IfOk, OnOk};
ghost use Rattle.std.specs.List.{slice_index_or};
ghost use Rattle.nfg_segment.specs.Kept.{spanned, AreWithin};

use std::alloc::{AllocError, Global};
use std::marker::Model;

/// A list of texts that only grows.
#[derive(Drop)]
pub(crate) struct Texts {
    codes: Vec<u32>,
    spans: Vec<Span>,
}

/// The greatest end of a text.
const LAST: usize = 0xFFFF_FFFF;

/// Where a text begins and ends.
#[derive(Clone, Copy, Drop)]
pub(crate) struct Span {
    start: u32,
    end: u32,
}

impl Model for Texts {
    ghost use Rattle.std.specs.Prelude.{List, ℕ, length, map};

    ghost Value = { List (List ℕ) };

    ghost use Rattle.nfg_segment.specs.Kept.{spanned, AreWithin};

    ghost view = { λ t. map (spanned t.codes.items) t.spans.items };

    ghost invariant = { λ t. AreWithin (length t.codes.items) t.spans.items };
}

impl Texts {
    pub(crate) fn new(alloc: Global) -> Texts
        ensures { result ≡ [] }
    {
        Texts {
            codes: Vec::new(alloc),
            spans: Vec::new(alloc),
        }
    }

    pub(crate) fn len(&self) -> usize
        ensures { result ≡ length self.now }
    {
        self.spans.len()
    }

    pub(crate) fn get(&self, k: usize) -> &[u32]
        requires { k < length self.now }
        ensures { result.now ≡ slice_index_or self.now k [] }
    {
        part(&self.codes, &self.spans, k)
    }

    pub(crate) fn push(&mut self, text: &[u32]) -> Result<(), AllocError>
        ensures pushed { OnOk result (self.new ≡ self.old ++ text.now ∷ []) }
        ensures grew { (more : List (List ℕ)) × (self.new ≡ self.old ++ more) }
    {
        let span = span_from(self.codes.len(), text.len())?;
        self.codes.extend_from_slice(text)?;
        self.spans.push(span)?;
        Ok(())
    }
}

/// The span of so many code points from there on.
#[inline]
fn span_from(start: usize, len: usize) -> Result<Span, AllocError>
    ensures { IfOk result (λ span. (span.start ≡ start) × (span.end ≡ start + len)) }
{
    if start > LAST {
        return Err(AllocError);
    }
    if len > LAST - start {
        return Err(AllocError);
    }
    Ok(Span {
        start: start as u32,
        end: (start + len) as u32,
    })
}

/// The part that a span covers.
fn part<'a>(codes: &'a [u32], spans: &[Span], k: usize) -> &'a [u32]
    requires within { AreWithin (length codes.now) spans.now }
    requires place { k < length spans.now }
    ensures { result.now ≡ slice_index_or (map (spanned codes.now) spans.now) k [] }
{
    let start = spans[k].start as usize;
    let end = spans[k].end as usize;
    &codes[start..end]
}
