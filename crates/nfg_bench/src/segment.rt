//! Segmenting by nfg_segment: a text in one piece beside the same fed code point by code point.
ghost use Rattle.std.specs.Prelude.{◌≡◌, ◌⊎◌, ℕ, [], ◌∷◌, ◌++◌, length, replicate, chars, IfOk, OnOk};
ghost use Rattle.std.specs.List.{concat};
ghost use Rattle.nfg_text.specs.Graphemes.{graphemes_of};
ghost use Rattle.nfg_text.specs.Text.{IsText};

use crate::texts;
use crate::timing::{Comparison, compare_few};
use nfg_segment::{Clusters, Segmenter};
use std::alloc::{AllocError, Global};
use std::io;
use std::marker::Model;
use std::rt::Clock;

/// How many code points a text has, but for what is left of whole samples.
const COUNT: usize = 1 << 20;

/// A text as its code points.
#[derive(Drop)]
struct CodePoints {
    codes: Vec<u32>,
}

impl Model for CodePoints {
    ghost use Rattle.std.specs.Prelude.{ℕ, List};
    ghost use Rattle.nfg_text.specs.Text.{IsText};

    ghost Value = { List ℕ };

    ghost view = { λ text. text.codes.items };

    ghost invariant = { λ text. IsText text.codes.items };
}

impl CodePoints {
    /// A front, and behind it the sample again and again.
    fn repeated(alloc: Global, front: &str, sample: &str) -> Result<CodePoints, AllocError>
        ensures { IfOk result (λ text. (n : ℕ)
            × (text ≡ chars front.now ++ concat (replicate n (chars sample.now)))) }
    {
        let mut text = CodePoints {
            codes: Vec::new(alloc),
        };
        text.append(front)?;
        for _k in 0..COUNT / sample.chars().count().max(1) {
            text.append(sample)?;
        }
        Ok(text)
    }

    fn append(&mut self, part: &str) -> Result<(), AllocError>
        ensures { OnOk result (self.new ≡ self.old ++ chars part.now) }
    {
        for c in part.chars() {
            self.push(c)?;
        }
        Ok(())
    }

    fn push(&mut self, c: char) -> Result<(), AllocError>
        ensures { OnOk result (self.new ≡ self.old ++ c ∷ []) }
    {
        self.codes.push(c as u32)?;
        Ok(())
    }

    fn as_slice(&self) -> &[u32]
        ensures codes { result.now ≡ self.now }
        ensures text { IsText result.now }
    {
        self.codes.as_slice()
    }
}

/// Feeds the text in pieces of a length, and answers how many graphemes it has.
fn segment(alloc: Global, text: &[u32], piece_len: usize) -> Result<usize, AllocError>
    requires { IsText text.now }
    ensures { IfOk result (λ count. count ≡ length (graphemes_of text.now)) }
{
    let mut clusters = Clusters::new(alloc);
    let mut segmenter = Segmenter::new(alloc);
    let mut rest = text;
    while !rest.is_empty() {
        let (piece, after) = rest.split_at(rest.len().min(piece_len).max(1));
        segmenter.feed(alloc, piece, &mut clusters)?;
        rest = after;
    }
    segmenter.finish(alloc, &mut clusters)?;
    Ok(clusters.len())
}

/// A text in one piece beside the same code point by code point.
#[derive(Drop)]
struct Pieces<'a> {
    alloc: Global,
    text: &'a CodePoints,
}

impl Pieces<'_> {
    /// How many graphemes the text has in pieces of a length.
    fn count_by(&self, piece_len: usize) -> usize
        ensures { (result ≡ 0) ⊎ (result ≡ length (graphemes_of self.now.text.now)) }
    {
        segment(self.alloc, self.text.as_slice(), piece_len).unwrap_or(0)
    }
}

impl Comparison for Pieces<'_> {
    fn fast(&self, _run: usize) -> usize
        ensures { (result ≡ 0) ⊎ (result ≡ length (graphemes_of self.now.text.now)) }
    {
        self.count_by(usize::MAX)
    }

    fn plain(&self, _run: usize) -> usize
        ensures { (result ≡ 0) ⊎ (result ≡ length (graphemes_of self.now.text.now)) }
    {
        self.count_by(1)
    }
}

fn report_text(
    rt: &(impl Print + Clock),
    alloc: Global,
    name: &str,
    front: &str,
    sample: &str,
) -> io::Result<()> {
    let text = CodePoints::repeated(alloc, front, sample)?;
    let count = text.as_slice().len();
    compare_few(rt, name, count, &Pieces { alloc, text: &text })
}

pub fn report(rt: &(impl Print + Clock), alloc: Global) -> io::Result<()> {
    report_text(
        rt,
        alloc,
        "French, decomposed",
        "",
        texts::FRENCH_DECOMPOSED,
    )?;
    report_text(rt, alloc, "a letter and marks", "q", "\u{301}\u{323}")?;
    report_text(rt, alloc, "regional indicators", "", "\u{1F1E6}")?;
    report_text(rt, alloc, "Korean, jamo", "", texts::JAMO)?;
    report_text(rt, alloc, "a syllable and vowels", "\u{1100}", "\u{1161}")
}
