//! Loading by nfg_stream: beside the plain way, and a long text beside as many bytes of short ones.
ghost use Rattle.std.specs.Prelude.{◌≡◌, ◌⊎◌, ◌+◌, ◌^◌, ◌≤◌, List, ℕ, ◌++◌, length, IfOk, IfSome, IsOkAnd, OnOk};
ghost use Rattle.nfg_text.specs.Graphemes.{graphemes_of};
ghost use Rattle.nfg_decode.specs.declared.encoding.Encoding.TheVariants.{Utf8};
ghost use Rattle.nfg_decode.specs.Encoding.{decode};
ghost use Rattle.nfg_stream.specs.Stream.{HasRead, fed_count};

use crate::pipeline;
use crate::texts::{self, LONG, MOST, PIECE, SHORT};
use crate::timing::{Comparison, compare_few};
use nfg_decode::Encoding;
use nfg_strand::NString;
use nfg_stream::{DecodeStream, LoadError};
use std::alloc::Global;
use std::io;
use std::rt::Clock;

/// Feeds the bytes in pieces of 64 KiB.
fn feed_all(alloc: Global, stream: &mut DecodeStream, bytes: &[u8]) -> Result<(), LoadError>
    requires { fed_count stream.old + length bytes.now ≤ 2 ^ 32 }
    ensures { (fed : List ℕ) → HasRead stream.old Utf8 fed
        → OnOk result (HasRead stream.new Utf8 (fed ++ bytes.now)) }
{
    let mut rest = bytes;
    while !rest.is_empty() {
        let (piece, after) = rest.split_at(rest.len().min(PIECE));
        stream.feed(alloc, piece)?;
        rest = after;
    }
    Ok(())
}

/// Loads a text over a table of its own.
pub fn load(alloc: Global, bytes: &[u8]) -> Result<NString, LoadError>
    requires { length bytes.now ≤ 2 ^ 32 }
    ensures { IfOk result (λ string. IsOkAnd (decode Utf8 bytes.now)
        (λ text. length string.graphemes ≡ length (graphemes_of text))) }
{
    let (table, mut pass) = pipeline::new_table(alloc)?;
    let mut stream = DecodeStream::new(alloc, Encoding::Utf8);
    feed_all(alloc, &mut stream, bytes)?;
    stream.finish(alloc, &table, &mut pass)
}

/// How many graphemes the bytes have, and none where they are refused.
fn count(alloc: Global, bytes: &[u8]) -> usize
    ensures { (result ≡ 0) ⊎ IsOkAnd (decode Utf8 bytes.now)
        (λ text. result ≡ length (graphemes_of text)) }
{
    if bytes.len() > MOST {
        return 0;
    }
    match load(alloc, bytes) {
        Ok(string) => string.len() as usize,
        Err(_) => 0,
    }
}

/// The same by the plain way, if the bytes are a text and there is memory for it.
fn load_plainly(alloc: Global, bytes: &[u8]) -> Option<usize>
    requires { length bytes.now ≤ 2 ^ 32 }
    ensures { IfSome result (λ count. IsOkAnd (decode Utf8 bytes.now)
        (λ text. count ≡ length (graphemes_of text))) }
{
    let (table, mut pass) = pipeline::new_table(alloc).ok()?;
    let numbers = pipeline::load(alloc, &table, &mut pass, bytes)?;
    Some(numbers.len())
}

fn count_plainly(alloc: Global, bytes: &[u8]) -> usize
    ensures { (result ≡ 0) ⊎ IsOkAnd (decode Utf8 bytes.now)
        (λ text. result ≡ length (graphemes_of text)) }
{
    if bytes.len() > MOST {
        return 0;
    }
    load_plainly(alloc, bytes).unwrap_or(0)
}

/// A text by the stream and by the plain way.
#[derive(Drop)]
struct Loading<'a> {
    alloc: Global,
    bytes: &'a [u8],
}

impl Comparison for Loading<'_> {
    fn fast(&self, _run: usize) -> usize
        ensures { (result ≡ 0) ⊎ IsOkAnd (decode Utf8 self.now.bytes.now)
            (λ text. result ≡ length (graphemes_of text)) }
    {
        count(self.alloc, self.bytes)
    }

    fn plain(&self, _run: usize) -> usize
        ensures { (result ≡ 0) ⊎ IsOkAnd (decode Utf8 self.now.bytes.now)
            (λ text. result ≡ length (graphemes_of text)) }
    {
        count_plainly(self.alloc, self.bytes)
    }
}

/// A long text beside as many bytes of short ones.
#[derive(Drop)]
struct Long<'a> {
    alloc: Global,
    bytes: &'a [u8],
    short: usize,
}

impl Comparison for Long<'_> {
    fn fast(&self, _run: usize) -> usize {
        count(self.alloc, self.bytes)
    }

    fn plain(&self, _run: usize) -> usize {
        let mut graphemes: usize = 0;
        for part in self.bytes.chunks(self.short.max(1)) {
            graphemes = graphemes.wrapping_add(count(self.alloc, part));
        }
        graphemes
    }
}

/// Loads each part of the bytes, keeps the strings until all are loaded, and answers how many graphemes they have.
fn count_kept(alloc: Global, bytes: &[u8], len: usize) -> Result<usize, LoadError> {
    let mut strings = Vec::new(alloc);
    let mut graphemes: usize = 0;
    for part in bytes.chunks(len.clamp(1, MOST)) {
        let string = load(alloc, part)?;
        graphemes = graphemes.wrapping_add(string.len() as usize);
        if strings.push(string).is_err() {
            return Err(LoadError::OutOfMemory);
        }
    }
    Ok(graphemes)
}

/// A long text beside as many bytes of short ones whose strings are all kept, so that both take as much memory.
#[derive(Drop)]
struct Kept<'a> {
    alloc: Global,
    bytes: &'a [u8],
    short: usize,
}

impl Comparison for Kept<'_> {
    fn fast(&self, _run: usize) -> usize {
        count(self.alloc, self.bytes)
    }

    fn plain(&self, _run: usize) -> usize {
        count_kept(self.alloc, self.bytes, self.short).unwrap_or(0)
    }
}

fn report_text(
    rt: &(impl Print + Clock),
    alloc: Global,
    name: &str,
    sample: &str,
) -> io::Result<()> {
    let sample = sample.as_bytes();
    let bytes = texts::repeated(alloc, sample, LONG)?;
    let bytes = bytes.as_slice();
    let short = texts::whole_len(sample, SHORT);
    println!(rt; "{name}")?;
    compare_few(
        rt,
        " by the plain way",
        bytes.len(),
        &Loading { alloc, bytes },
    )?;
    compare_few(
        rt,
        " 16 MiB by 1 MiB",
        bytes.len(),
        &Long {
            alloc,
            bytes,
            short,
        },
    )?;
    compare_few(
        rt,
        " 16 MiB by 1 MiB, all kept",
        bytes.len(),
        &Kept {
            alloc,
            bytes,
            short,
        },
    )
}

pub fn report(rt: &(impl Print + Clock), alloc: Global) -> io::Result<()> {
    report_text(rt, alloc, "ASCII", texts::ASCII)?;
    report_text(rt, alloc, "French, composed", texts::FRENCH)?;
    report_text(rt, alloc, "French, decomposed", texts::FRENCH_DECOMPOSED)?;
    report_text(rt, alloc, "Korean, syllables", texts::HANGUL)?;
    report_text(rt, alloc, "Korean, jamo", texts::JAMO)?;
    report_text(rt, alloc, "Chinese", texts::CHINESE)?;
    report_text(rt, alloc, "Hindi", texts::DEVANAGARI)?;
    report_text(rt, alloc, "emoji", texts::EMOJI)
}
