//! Strings in strands: parts of long and of short ones, and searches across strands beside a walk.
ghost use Rattle.std.specs.Prelude.{◌≡◌, ◌%◌, negsuc, drop};
ghost use Rattle.std.specs.List.{common_prefix_len, position_or_len};
ghost use Rattle.std.specs.Ordering.{int_eq};

use crate::plain::first_equal32;
use crate::timing::{Comparison, compare, compare_few};
use nfg_ops::substring;
use nfg_strand::NString;
use std::alloc::{AllocError, Global};
use std::io;
use std::rt::Clock;

/// The strands of each string.
const STRANDS: usize = 16;

/// The graphemes of a short string, of a long one, and of one that is searched.
const SHORT: u32 = 1 << 10;

const LONG: u32 = 1 << 26;

const SEARCHED: u32 = 1 << 18;

/// A run cuts so many parts, since one takes less than the clock tells.
const PARTS: usize = 64;

/// So many graphemes are read at a time.
const BUFFER: usize = 256;

/// More graphemes than a string may have.
const TOO_LONG: u64 = 1 << 40;

/// Adds a string at the end, if there is room for it.
pub fn add(alloc: Global, whole: &mut NString, part: &NString) -> Result<(), AllocError> {
    if whole.len() + part.len() >= TOO_LONG {
        return Ok(());
    }
    whole.append(alloc, part)
}

/// A string of letters in strands over two blocks in turn, a narrow and a wide one.
fn in_strands(alloc: Global, len: u32) -> Result<NString, AllocError> {
    let mut graphemes = vec![in alloc; 97i32; len as usize / STRANDS]?;
    let narrow = NString::from_graphemes(alloc, graphemes.as_slice())?;
    if let Some(first) = graphemes.as_mut_slice().first_mut() {
        *first = 233;
    }
    let wide = NString::from_graphemes(alloc, graphemes.as_slice())?;
    let mut whole = NString::empty(alloc);
    for _ in 0..STRANDS / 2 {
        add(alloc, &mut whole, &narrow)?;
        add(alloc, &mut whole, &wide)?;
    }
    Ok(whole)
}

/// The half of a string from its first quarter on, less a few graphemes. Answers its strands.
fn cut_half(alloc: Global, string: &NString, fewer: u64) -> usize {
    let len = string.len();
    let count = (len / 2).saturating_sub(fewer);
    match substring(alloc, string, len / 4, count) {
        Ok(part) => part.strands(),
        Err(_) => 0,
    }
}

/// The same again and again.
fn cut_halves(alloc: Global, string: &NString, run: usize) -> usize {
    let mut strands: usize = 0;
    for k in 0..PARTS {
        let fewer = (run % 32 + k) as u64;
        strands = strands.wrapping_add(cut_half(alloc, string, fewer));
    }
    strands
}

/// Parts of a long string beside those of a short one.
#[derive(Drop)]
struct Cutting<'a> {
    alloc: Global,
    long: &'a NString,
    short: &'a NString,
}

impl Comparison for Cutting<'_> {
    fn fast(&self, run: usize) -> usize {
        cut_halves(self.alloc, self.long, run)
    }

    fn plain(&self, run: usize) -> usize {
        cut_halves(self.alloc, self.short, run)
    }
}

/// The place of the first -1, or the length, grapheme by grapheme.
fn walk(string: &NString) -> usize
    ensures { result ≡ position_or_len (λ y. int_eq y (negsuc 0)) string.now.graphemes }
{
    let len = string.len() as usize;
    let mut at: usize = 0;
    for grapheme in string.iter() {
        if grapheme == -1 {
            return at;
        }
        at = at.wrapping_add(1);
    }
    len
}

/// The same by a walk that reads a part at a time, and looks at each grapheme in it.
fn walk_by_parts(string: &NString) -> usize
    ensures { result ≡ position_or_len (λ y. int_eq y (negsuc 0)) string.now.graphemes }
{
    let len = string.len() as usize;
    let mut left = string.iter();
    let mut part = [0; BUFFER];
    let mut at: usize = 0;
    while at < len {
        let count = left.read(&mut part);
        let place = first_equal32(&part[..count], -1);
        if place < count {
            return at + place;
        }
        at += count;
    }
    len
}

/// A search for a grapheme that is not there.
#[derive(Drop)]
struct Finding<'a> {
    string: &'a NString,
}

impl Comparison for Finding<'_> {
    fn fast(&self, run: usize) -> usize {
        let len = self.string.len();
        let from = (run as u64 % 32).min(len);
        self.string.find(from, len, -1).unwrap_or(len) as usize
    }

    fn plain(&self, _run: usize) -> usize
        ensures { result
            ≡ position_or_len (λ y. int_eq y (negsuc 0)) self.now.string.now.graphemes }
    {
        walk(self.string)
    }
}

/// A walk that reads many graphemes at a time, beside one that takes each by itself.
#[derive(Drop)]
struct Walking<'a> {
    string: &'a NString,
}

impl Comparison for Walking<'_> {
    fn fast(&self, _run: usize) -> usize
        ensures { result
            ≡ position_or_len (λ y. int_eq y (negsuc 0)) self.now.string.now.graphemes }
    {
        walk_by_parts(self.string)
    }

    fn plain(&self, _run: usize) -> usize
        ensures { result
            ≡ position_or_len (λ y. int_eq y (negsuc 0)) self.now.string.now.graphemes }
    {
        walk(self.string)
    }
}

/// Two strings that are equal, in strands and in one.
#[derive(Drop)]
struct CommonFront<'a> {
    a: &'a NString,
    b: &'a NString,
}

impl Comparison for CommonFront<'_> {
    fn fast(&self, run: usize) -> usize
        ensures { result ≡ common_prefix_len int_eq
            (drop (run % 32) self.now.a.now.graphemes) (drop (run % 32) self.now.b.now.graphemes) }
    {
        let len = self.a.len().min(self.b.len());
        let start = (run as u64 % 32).min(len);
        self.a.common_front(start, self.b, start, len - start) as usize
    }

    fn plain(&self, _run: usize) -> usize
        ensures { result
            ≡ common_prefix_len int_eq self.now.a.now.graphemes self.now.b.now.graphemes }
    {
        let len = self.a.len().min(self.b.len()) as usize;
        let mut at: usize = 0;
        for (x, y) in self.a.iter().zip(self.b.iter()) {
            if x != y {
                return at;
            }
            at = at.wrapping_add(1);
        }
        len
    }
}

fn report_parts(rt: &(impl Print + Clock), alloc: Global) -> io::Result<()> {
    let long = in_strands(alloc, LONG)?;
    let short = in_strands(alloc, SHORT)?;
    let (long, short) = (&long, &short);
    let work = Cutting { alloc, long, short };
    compare(rt, "a part of 2^26 by one of 2^10", PARTS, &work)
}

pub fn report(rt: &(impl Print + Clock), alloc: Global) -> io::Result<()> {
    report_parts(rt, alloc)?;
    let strands = in_strands(alloc, SEARCHED)?;
    let flat = strands.flatten(alloc)?;
    let (a, b) = (&strands, &flat);
    let len = SEARCHED as usize;
    compare_few(rt, "find, 16 strands", len, &Finding { string: a })?;
    compare_few(rt, "find, one strand", len, &Finding { string: b })?;
    compare_few(rt, "read, 16 strands", len, &Walking { string: a })?;
    compare_few(rt, "read, one strand", len, &Walking { string: b })?;
    compare_few(
        rt,
        "common_front, 16 strands by one",
        len,
        &CommonFront { a, b },
    )?;
    compare_few(
        rt,
        "common_front, 16 strands by 16",
        len,
        &CommonFront { a, b: a },
    )
}
