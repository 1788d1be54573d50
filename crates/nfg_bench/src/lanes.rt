//! The kernels of nfg_lanes, over 256 KiB in all. Both ways to a row answer the same.
ghost use Rattle.std.specs.Prelude.{◌≡◌, ◌%◌, negsuc, drop, if◌then◌else◌};
ghost use Rattle.std.specs.Char.{is_ascii};
ghost use Rattle.std.specs.List.{common_prefix_len, list_all, position_or_len, prefix_len};
ghost use Rattle.std.specs.Ordering.{int_eq};
ghost use Rattle.nfg_lanes.specs.Lanes.{common_suffix_len, is_narrow_grapheme};

use crate::plain;
use crate::timing::{Comparison, compare};
use std::alloc::Global;
use std::io;
use std::rt::Clock;

/// What each kernel goes over, in bytes.
const BYTES: usize = 256 * 1024;

/// A letter, of which all lists consist: each kernel goes to their ends.
const LETTER: u8 = b'a';

// The list without a few elements at its front, so that no two runs in a row ask the same.
fn from_run<T>(list: &[T], run: usize) -> &[T]
    ensures { result.now ≡ drop (run % 32) list.now }
{
    let start = (run % 32).min(list.len());
    &list[start..]
}

#[derive(Drop)]
struct AsciiRun<'a> {
    list: &'a [u8],
}

impl Comparison for AsciiRun<'_> {
    fn fast(&self, run: usize) -> usize
        ensures { result ≡ prefix_len is_ascii (drop (run % 32) self.now.list.now) }
    {
        nfg_lanes::ascii_run(from_run(self.list, run))
    }

    fn plain(&self, run: usize) -> usize
        ensures { result ≡ prefix_len is_ascii (drop (run % 32) self.now.list.now) }
    {
        plain::ascii_run(from_run(self.list, run))
    }
}

#[derive(Drop)]
struct FirstEqual8<'a> {
    list: &'a [i8],
}

impl Comparison for FirstEqual8<'_> {
    fn fast(&self, run: usize) -> usize
        ensures { result ≡ position_or_len (λ y. int_eq y (negsuc 0))
            (drop (run % 32) self.now.list.now) }
    {
        nfg_lanes::first_equal8(from_run(self.list, run), -1)
    }

    fn plain(&self, run: usize) -> usize
        ensures { result ≡ position_or_len (λ y. int_eq y (negsuc 0))
            (drop (run % 32) self.now.list.now) }
    {
        plain::first_equal8(from_run(self.list, run), -1)
    }
}

#[derive(Drop)]
struct FirstEqual32<'a> {
    list: &'a [i32],
}

impl Comparison for FirstEqual32<'_> {
    fn fast(&self, run: usize) -> usize
        ensures { result ≡ position_or_len (λ y. int_eq y (negsuc 0))
            (drop (run % 32) self.now.list.now) }
    {
        nfg_lanes::first_equal32(from_run(self.list, run), -1)
    }

    fn plain(&self, run: usize) -> usize
        ensures { result ≡ position_or_len (λ y. int_eq y (negsuc 0))
            (drop (run % 32) self.now.list.now) }
    {
        plain::first_equal32(from_run(self.list, run), -1)
    }
}

#[derive(Drop)]
struct CommonFront8<'a> {
    a: &'a [i8],
    b: &'a [i8],
}

impl Comparison for CommonFront8<'_> {
    fn fast(&self, run: usize) -> usize
        ensures { result ≡ common_prefix_len int_eq
            (drop (run % 32) self.now.a.now) (drop (run % 32) self.now.b.now) }
    {
        nfg_lanes::common_front8(from_run(self.a, run), from_run(self.b, run))
    }

    fn plain(&self, run: usize) -> usize
        ensures { result ≡ common_prefix_len int_eq
            (drop (run % 32) self.now.a.now) (drop (run % 32) self.now.b.now) }
    {
        plain::common_front8(from_run(self.a, run), from_run(self.b, run))
    }
}

#[derive(Drop)]
struct CommonFront32<'a> {
    a: &'a [i32],
    b: &'a [i32],
}

impl Comparison for CommonFront32<'_> {
    fn fast(&self, run: usize) -> usize
        ensures { result ≡ common_prefix_len int_eq
            (drop (run % 32) self.now.a.now) (drop (run % 32) self.now.b.now) }
    {
        nfg_lanes::common_front32(from_run(self.a, run), from_run(self.b, run))
    }

    fn plain(&self, run: usize) -> usize
        ensures { result ≡ common_prefix_len int_eq
            (drop (run % 32) self.now.a.now) (drop (run % 32) self.now.b.now) }
    {
        plain::common_front32(from_run(self.a, run), from_run(self.b, run))
    }
}

#[derive(Drop)]
struct CommonFrontMixed<'a> {
    a: &'a [i8],
    b: &'a [i32],
}

impl Comparison for CommonFrontMixed<'_> {
    fn fast(&self, run: usize) -> usize
        ensures { result ≡ common_prefix_len int_eq
            (drop (run % 32) self.now.a.now) (drop (run % 32) self.now.b.now) }
    {
        nfg_lanes::common_front_mixed(from_run(self.a, run), from_run(self.b, run))
    }

    fn plain(&self, run: usize) -> usize
        ensures { result ≡ common_prefix_len int_eq
            (drop (run % 32) self.now.a.now) (drop (run % 32) self.now.b.now) }
    {
        plain::common_front_mixed(from_run(self.a, run), from_run(self.b, run))
    }
}

#[derive(Drop)]
struct CommonBack32<'a> {
    a: &'a [i32],
    b: &'a [i32],
}

impl Comparison for CommonBack32<'_> {
    fn fast(&self, run: usize) -> usize
        ensures { result ≡ common_suffix_len int_eq
            (drop (run % 32) self.now.a.now) (drop (run % 32) self.now.b.now) }
    {
        nfg_lanes::common_back32(from_run(self.a, run), from_run(self.b, run))
    }

    fn plain(&self, run: usize) -> usize
        ensures { result ≡ common_suffix_len int_eq
            (drop (run % 32) self.now.a.now) (drop (run % 32) self.now.b.now) }
    {
        plain::common_back32(from_run(self.a, run), from_run(self.b, run))
    }
}

#[derive(Drop)]
struct NarrowFits<'a> {
    list: &'a [i32],
}

impl Comparison for NarrowFits<'_> {
    fn fast(&self, run: usize) -> usize
        ensures { result
            ≡ (if list_all is_narrow_grapheme (drop (run % 32) self.now.list.now) then 1 else 0) }
    {
        nfg_lanes::narrow_fits(from_run(self.list, run)) as usize
    }

    fn plain(&self, run: usize) -> usize
        ensures { result
            ≡ (if list_all is_narrow_grapheme (drop (run % 32) self.now.list.now) then 1 else 0) }
    {
        plain::narrow_fits(from_run(self.list, run)) as usize
    }
}

fn report_bytes(rt: &(impl Print + Clock), alloc: Global) -> io::Result<()> {
    let list = vec![in alloc; LETTER; BYTES]?;
    let list = list.as_slice();
    compare(rt, "ascii_run", BYTES, &AsciiRun { list })
}

fn report_narrow(rt: &(impl Print + Clock), alloc: Global) -> io::Result<()> {
    let list = vec![in alloc; LETTER as i8; BYTES]?;
    let list = list.as_slice();
    compare(rt, "first_equal8", BYTES, &FirstEqual8 { list })
}

fn report_narrow_pair(rt: &(impl Print + Clock), alloc: Global) -> io::Result<()> {
    let a = vec![in alloc; LETTER as i8; BYTES / 2]?;
    let b = vec![in alloc; LETTER as i8; BYTES / 2]?;
    let (a, b) = (a.as_slice(), b.as_slice());
    compare(rt, "common_front8", BYTES / 2, &CommonFront8 { a, b })
}

fn report_wide(rt: &(impl Print + Clock), alloc: Global) -> io::Result<()> {
    let list = vec![in alloc; LETTER as i32; BYTES / 4]?;
    let other = vec![in alloc; LETTER as i32; BYTES / 8]?;
    let list = list.as_slice();
    compare(rt, "first_equal32", BYTES / 4, &FirstEqual32 { list })?;
    compare(rt, "narrow_fits", BYTES / 4, &NarrowFits { list })?;
    let (a, b) = (&list[..BYTES / 8], other.as_slice());
    compare(rt, "common_front32", BYTES / 8, &CommonFront32 { a, b })?;
    compare(rt, "common_back32", BYTES / 8, &CommonBack32 { a, b })
}

fn report_mixed(rt: &(impl Print + Clock), alloc: Global) -> io::Result<()> {
    let narrow = vec![in alloc; LETTER as i8; BYTES / 5]?;
    let wide = vec![in alloc; LETTER as i32; BYTES / 5]?;
    let (a, b) = (narrow.as_slice(), wide.as_slice());
    compare(
        rt,
        "common_front_mixed",
        BYTES / 5,
        &CommonFrontMixed { a, b },
    )
}

pub fn report(rt: &(impl Print + Clock), alloc: Global) -> io::Result<()> {
    report_bytes(rt, alloc)?;
    report_narrow(rt, alloc)?;
    report_narrow_pair(rt, alloc)?;
    report_wide(rt, alloc)?;
    report_mixed(rt, alloc)
}
