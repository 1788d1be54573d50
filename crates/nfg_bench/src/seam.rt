//! Strings joined and repeated by nfg_seam: long ones beside short ones, and beside loading or copying as much.
ghost use Rattle.nfg_bench.specs.Workbench.{IsReady};

use crate::timing::compare_jobs;
use crate::workbench::{Job, Workbench};
use std::alloc::{AllocError, Global};
use std::io;
use std::rt::Clock;

/// The graphemes of a short string and of a long one.
const SHORT: usize = 1 << 10;

const LONG: usize = 1 << 25;

/// The strands of a string that is in many.
const STRANDS: usize = 31;

/// The regional indicators of a run, and the repetitions of a half flag.
const RUN: usize = 1 << 20;

const HALVES: u64 = 1 << 22;

/// A code point so many times, and others at the front and at the end in place of it.
fn text_of(
    alloc: Global,
    first: u32,
    middle: u32,
    last: u32,
    count: usize,
) -> Result<Vec<u32>, AllocError> {
    let mut text = vec![in alloc; middle; count]?;
    if let Some(code) = text.as_mut_slice().first_mut() {
        *code = first;
    }
    if let Some(code) = text.as_mut_slice().last_mut() {
        *code = last;
    }
    Ok(text)
}

/// Keeps such a text, and answers its place, or that of no string.
fn keep(
    alloc: Global,
    bench: &mut Workbench,
    first: u32,
    middle: u32,
    last: u32,
    count: usize,
) -> usize
    requires ready { IsReady bench.old }
    ensures ready { IsReady bench.new }
{
    match text_of(alloc, first, middle, last, count) {
        Ok(text) => bench.text(text.as_slice()).unwrap_or(usize::MAX),
        Err(_) => usize::MAX,
    }
}

/// Keeps a string with another behind it so many times, and answers its place.
fn keep_in_strands(bench: &mut Workbench, first: usize, part: usize, more: usize) -> usize
    requires ready { IsReady bench.old }
    ensures ready { IsReady bench.new }
{
    let mut whole = first;
    for _k in 0..more {
        whole = bench.joined(whole, part).unwrap_or(usize::MAX);
    }
    whole
}

/// Keeps two strings of so many letters in so many strands each, and answers their places. The left one ends with e, and the
/// right one begins with a code point.
fn keep_pair(
    alloc: Global,
    bench: &mut Workbench,
    first: u32,
    count: usize,
    strands: usize,
) -> (usize, usize)
    requires ready { IsReady bench.old }
    ensures ready { IsReady bench.new }
{
    let len = count / strands.max(1);
    let more = strands.saturating_sub(2);
    let part = keep(alloc, bench, 0x61, 0x61, 0x61, len);
    let end = keep(alloc, bench, 0x61, 0x61, 0x65, len);
    let start = keep(alloc, bench, first, 0x61, 0x61, len);
    if strands < 2 {
        return (end, start);
    }
    let front = keep_in_strands(bench, part, part, more);
    let left = bench.joined(front, end).unwrap_or(usize::MAX);
    let right = keep_in_strands(bench, start, part, more + 1);
    (left, right)
}

/// Long strings joined beside short ones, at a seam that stays or at one that composes.
fn report_pair(
    rt: &(impl Print + Clock),
    alloc: Global,
    bench: &mut Workbench,
    name: &str,
    first: u32,
    strands: usize,
) -> io::Result<()>
    requires ready { IsReady bench.old }
    ensures ready { IsReady bench.new }
{
    let long = keep_pair(alloc, bench, first, LONG, strands);
    let short = keep_pair(alloc, bench, first, SHORT, strands);
    let fast = Job::Concat {
        a: long.0,
        b: long.1,
    };
    let plain = Job::Concat {
        a: short.0,
        b: short.1,
    };
    compare_jobs(rt, name, 1, bench, fast, plain)
}

/// A run of regional indicators that moves by one, beside a copy of it; and a half flag again and again, beside a copy of
/// the result.
fn report_flags(rt: &(impl Print + Clock), alloc: Global, bench: &mut Workbench) -> io::Result<()>
    requires ready { IsReady bench.old }
    ensures ready { IsReady bench.new }
{
    let half = keep(alloc, bench, 0x1F1E6, 0x1F1E6, 0x1F1E6, 1);
    let run = keep(alloc, bench, 0x1F1E7, 0x1F1E7, 0x1F1E7, RUN);
    let moved = Job::Concat { a: half, b: run };
    let text = Job::Text {
        code: 0x1F1E7,
        count: RUN,
    };
    compare_jobs(
        rt,
        "a flag half before 2^20, by loading them",
        RUN,
        bench,
        moved,
        text,
    )?;
    let repeated = Job::Repeat {
        a: half,
        times: HALVES,
    };
    let whole = bench.repeated(half, HALVES).unwrap_or(usize::MAX);
    let copied = Job::Copy { a: whole };
    compare_jobs(
        rt,
        "a flag half 2^22 times, by a copy",
        RUN * 2,
        bench,
        repeated,
        copied,
    )
}

/// Two letters again and again, very often beside often; and a chain of strings joined to one.
fn report_repeated(
    rt: &(impl Print + Clock),
    alloc: Global,
    bench: &mut Workbench,
) -> io::Result<()>
    requires ready { IsReady bench.old }
    ensures ready { IsReady bench.new }
{
    let two = keep(alloc, bench, 0x61, 0x61, 0x62, 2);
    let very = Job::Repeat {
        a: two,
        times: LONG as u64,
    };
    let often = Job::Repeat {
        a: two,
        times: SHORT as u64 / 2,
    };
    compare_jobs(
        rt,
        "two letters to 2^26, by the same to 2^10",
        1,
        bench,
        very,
        often,
    )?;
    let long = Job::Chain {
        a: two,
        count: 5_000,
    };
    let short = Job::Chain { a: two, count: 500 };
    compare_jobs(
        rt,
        "a chain of 5,000, by one of 500",
        10,
        bench,
        long,
        short,
    )
}

pub fn report(rt: &(impl Print + Clock), alloc: Global) -> io::Result<()> {
    let mut bench = Workbench::new(alloc)?;
    report_pair(
        rt,
        alloc,
        &mut bench,
        "2^25 by 2^10, the seam stays",
        0x61,
        1,
    )?;
    report_pair(
        rt,
        alloc,
        &mut bench,
        "2^25 by 2^10, an accent composes",
        0x301,
        1,
    )?;
    report_pair(
        rt,
        alloc,
        &mut bench,
        "the same in 31 strands, it stays",
        0x61,
        STRANDS,
    )?;
    report_pair(
        rt,
        alloc,
        &mut bench,
        "the same in 31 strands, it composes",
        0x301,
        STRANDS,
    )?;
    report_flags(rt, alloc, &mut bench)?;
    report_repeated(rt, alloc, &mut bench)
}
