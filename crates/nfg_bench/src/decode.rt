//! Decoding by nfg_decode: beside the plain widening loop, ever more bytes, and byte by byte.
ghost use Rattle.std.specs.Prelude.{◌≡◌, ◌⊎◌, ◌+◌, ◌%◌, ◌^◌, ◌≤◌, ℕ, List, ◌++◌, length, IfOk, IsOkAnd, OnOk};
ghost use Rattle.nfg_decode.specs.declared.encoding.Encoding.{Encoding};
ghost use Rattle.nfg_decode.specs.Encoding.{decode};
ghost use Rattle.nfg_decode.specs.State.{GivesNext};
ghost use Rattle.nfg_decode.specs.Stream.{HasRead, fed_count};

use crate::plain;
use crate::texts::{self, ByteOrder, LONG, MOST, PIECE, SHORT};
use crate::timing::{Comparison, compare_few};
use nfg_decode::{ByteStream, DecodeError, Encoding};
use nfg_text::CodeList;
use std::alloc::Global;
use std::io;
use std::rt::Clock;

/// How bytes are fed: in pieces of a length, and how many bytes until the list is emptied.
#[derive(Clone, Copy)]
struct Feeding {
    encoding: Encoding,
    piece_len: usize,
    part_len: usize,
}

/// In pieces of 64 KiB, each of which finds an empty list.
fn by_pieces(encoding: Encoding) -> Feeding
    ensures { result.encoding ≡ encoding }
{
    Feeding {
        encoding,
        piece_len: PIECE,
        part_len: PIECE,
    }
}

/// Feeds the bytes in pieces of a length.
fn feed_part(
    alloc: Global,
    stream: &mut ByteStream,
    part: &[u8],
    piece_len: usize,
    into: &mut CodeList,
) -> Result<(), DecodeError>
    requires { fed_count stream.old + length part.now ≤ 2 ^ 32 }
    ensures count { OnOk result (fed_count stream.new ≡ fed_count stream.old + length part.now) }
    // In what follows, the stream has read `fed`.
    ensures read { (e : Encoding) (fed : List ℕ) → HasRead stream.old e fed
        → OnOk result (HasRead stream.new e (fed ++ part.now)) }
    ensures codes { (e : Encoding) (fed : List ℕ) → HasRead stream.old e fed
        → OnOk result (GivesNext e fed part.now into.old into.new) }
{
    let mut rest = part;
    while !rest.is_empty() {
        let (piece, after) = rest.split_at(rest.len().min(piece_len).max(1));
        stream.feed(alloc, piece, into)?;
        rest = after;
    }
    Ok(())
}

/// Decodes the bytes, and answers how many code points they are, in a number that may wrap.
fn decode(alloc: Global, feeding: Feeding, bytes: &[u8]) -> Result<usize, DecodeError>
    requires { length bytes.now ≤ 2 ^ 32 }
    ensures { IfOk result (λ codes. IsOkAnd (decode feeding.encoding bytes.now)
        (λ text. codes ≡ length text % 2 ^ 64)) }
{
    let mut into = CodeList::new(alloc);
    let mut stream = ByteStream::new(feeding.encoding);
    let mut codes: usize = 0;
    let mut rest = bytes;
    while !rest.is_empty() {
        let (part, after) = rest.split_at(rest.len().min(feeding.part_len).max(1));
        into.truncate(0);
        feed_part(alloc, &mut stream, part, feeding.piece_len, &mut into)?;
        codes = codes.wrapping_add(into.len());
        rest = after;
    }
    stream.finish()?;
    Ok(codes)
}

/// How many code points the bytes are, and none where they are refused.
fn count(alloc: Global, feeding: Feeding, bytes: &[u8]) -> usize
    ensures { (result ≡ 0) ⊎ IsOkAnd (decode feeding.encoding bytes.now)
        (λ text. result ≡ length text % 2 ^ 64) }
{
    if bytes.len() > MOST {
        return 0;
    }
    decode(alloc, feeding, bytes).unwrap_or(0)
}

/// ASCII beside the plain widening loop, both into a list of all code points.
#[derive(Drop)]
struct WholeAscii<'a> {
    alloc: Global,
    bytes: &'a [u8],
}

impl Comparison for WholeAscii<'_> {
    fn fast(&self, _run: usize) -> usize
        ensures { (result ≡ 0) ⊎ IsOkAnd (decode Encoding.Utf8 self.now.bytes.now)
            (λ text. result ≡ length text % 2 ^ 64) }
    {
        let feeding = Feeding {
            encoding: Encoding::Utf8,
            piece_len: PIECE,
            part_len: usize::MAX,
        };
        count(self.alloc, feeding, self.bytes)
    }

    fn plain(&self, _run: usize) -> usize
        ensures { (result ≡ 0) ⊎ (result ≡ length self.now.bytes.now) }
    {
        match plain::widened(self.alloc, self.bytes) {
            Ok(codes) => codes.len(),
            Err(_) => 0,
        }
    }
}

/// The same, both into a list that stays short.
#[derive(Drop)]
struct Ascii<'a> {
    alloc: Global,
    bytes: &'a [u8],
}

impl Comparison for Ascii<'_> {
    fn fast(&self, _run: usize) -> usize
        ensures { (result ≡ 0) ⊎ IsOkAnd (decode Encoding.Utf8 self.now.bytes.now)
            (λ text. result ≡ length text % 2 ^ 64) }
    {
        count(self.alloc, by_pieces(Encoding::Utf8), self.bytes)
    }

    fn plain(&self, _run: usize) -> usize
        ensures { (result ≡ 0) ⊎ (result ≡ length self.now.bytes.now) }
    {
        plain::widened_by_pieces(self.alloc, self.bytes, PIECE).unwrap_or(0)
    }
}

/// A long text beside as many bytes of short ones.
#[derive(Drop)]
struct Long<'a> {
    alloc: Global,
    encoding: Encoding,
    bytes: &'a [u8],
    short: usize,
}

impl Comparison for Long<'_> {
    fn fast(&self, _run: usize) -> usize {
        count(self.alloc, by_pieces(self.encoding), self.bytes)
    }

    fn plain(&self, _run: usize) -> usize {
        let mut codes: usize = 0;
        for part in self.bytes.chunks(self.short.max(1)) {
            codes = codes.wrapping_add(count(self.alloc, by_pieces(self.encoding), part));
        }
        codes
    }
}

/// Pieces of 64 KiB beside single bytes, and how many bytes until the list is emptied.
#[derive(Drop)]
struct Pieces<'a> {
    alloc: Global,
    encoding: Encoding,
    bytes: &'a [u8],
    part_len: usize,
}

impl Pieces<'_> {
    /// How many code points the bytes are in pieces of a length.
    fn count_by(&self, piece_len: usize) -> usize {
        let feeding = Feeding {
            encoding: self.encoding,
            piece_len,
            part_len: self.part_len,
        };
        count(self.alloc, feeding, self.bytes)
    }
}

impl Comparison for Pieces<'_> {
    fn fast(&self, _run: usize) -> usize {
        self.count_by(PIECE)
    }

    fn plain(&self, _run: usize) -> usize {
        self.count_by(1)
    }
}

fn report_ascii(rt: &(impl Print + Clock), alloc: Global) -> io::Result<()> {
    let bytes = texts::repeated(alloc, texts::ASCII.as_bytes(), LONG)?;
    let bytes = bytes.as_slice();
    let len = bytes.len();
    compare_few(
        rt,
        "ASCII by the widening loop, into all",
        len,
        &WholeAscii { alloc, bytes },
    )?;
    compare_few(
        rt,
        "ASCII by the widening loop, in parts",
        len,
        &Ascii { alloc, bytes },
    )
}

fn report_sample(
    rt: &(impl Print + Clock),
    alloc: Global,
    name: &str,
    encoding: Encoding,
    sample: &[u8],
) -> io::Result<()> {
    let bytes = texts::repeated(alloc, sample, LONG)?;
    let bytes = bytes.as_slice();
    let short = texts::whole_len(sample, SHORT);
    println!(rt; "{name}")?;
    compare_few(
        rt,
        " 16 MiB by 1 MiB",
        bytes.len(),
        &Long {
            alloc,
            encoding,
            bytes,
            short,
        },
    )?;
    compare_few(
        rt,
        " 64 KiB by bytes, into all",
        bytes.len(),
        &Pieces {
            alloc,
            encoding,
            bytes,
            part_len: usize::MAX,
        },
    )?;
    compare_few(
        rt,
        " 64 KiB by bytes, in parts",
        bytes.len(),
        &Pieces {
            alloc,
            encoding,
            bytes,
            part_len: PIECE,
        },
    )
}

fn report_utf8(
    rt: &(impl Print + Clock),
    alloc: Global,
    name: &str,
    sample: &str,
) -> io::Result<()> {
    report_sample(rt, alloc, name, Encoding::Utf8, sample.as_bytes())
}

fn report_utf16(
    rt: &(impl Print + Clock),
    alloc: Global,
    name: &str,
    sample: &str,
) -> io::Result<()> {
    println!(rt; "{name}")?;
    let little = texts::utf16(alloc, sample, ByteOrder::Little)?;
    report_sample(rt, alloc, "UTF-16LE", Encoding::Utf16Le, little.as_slice())?;
    let big = texts::utf16(alloc, sample, ByteOrder::Big)?;
    report_sample(rt, alloc, "UTF-16BE", Encoding::Utf16Be, big.as_slice())
}

pub fn report(rt: &(impl Print + Clock), alloc: Global) -> io::Result<()> {
    report_ascii(rt, alloc)?;
    report_utf8(rt, alloc, "ASCII", texts::ASCII)?;
    report_utf8(rt, alloc, "French", texts::FRENCH)?;
    report_utf8(rt, alloc, "Chinese", texts::CHINESE)?;
    report_utf8(rt, alloc, "emoji", texts::EMOJI)?;
    report_utf16(rt, alloc, "French", texts::FRENCH)?;
    report_utf16(rt, alloc, "emoji", texts::EMOJI)?;
    report_sample(
        rt,
        alloc,
        "Latin-1",
        Encoding::Latin1,
        texts::ASCII.as_bytes(),
    )
}
