//! Files loaded in parts by four workers, each beside one stream, and strings of four pieces made flat.
ghost use Rattle.std.specs.Prelude.{◌≡◌, ◌⊎◌, ◌<◌, ◌≤◌, ℕ, suc, true, length, get_or, All, IfOk, IsOkAnd};
ghost use Rattle.nfg_text.specs.Graphemes.{graphemes_of};
ghost use Rattle.nfg_decode.specs.declared.encoding.Encoding.TheVariants.{Utf8};
ghost use Rattle.nfg_decode.specs.Encoding.{decode};

use crate::strand::add;
use crate::tables::word_table;
use crate::timing::{Round, Timings, medians, nanoseconds, print_row};
use crate::{stream, texts};
use nfg_decode::Encoding;
use nfg_strand::NString;
use nfg_stream::{DecodeStream, LoadError};
use nfg_syn::{Shared, Synthetics};
use nfg_work::{OpenGate, load_parts};
use std::alloc::Global;
use std::io;
use std::marker::Sync;
use std::rt::Clock;
use std::thread::Threads;
use std::time::Instant;

/// The bytes of a file, as many as a script may load, but for a part of a sample at its end.
const FILE: usize = 64 * 1024 * 1024;

/// The workers, and the pieces of a string.
const PARTS: usize = 4;

/// How often each way is timed.
const RUNS: usize = 5;

/// The bytes of a file that is no longer than one that a script may load.
#[derive(Clone, Copy)]
struct File<'a> {
    bytes: &'a [u8],
    ghost limit: { length bytes.now ≤ 67108864 },
}

/// What is timed.
#[derive(Clone, Copy)]
enum Way<'a> {
    /// A file is loaded in four parts.
    Parts(File<'a>),
    /// A file is loaded by one stream, which is fed all of it at once.
    One(File<'a>),
    /// A string is made flat.
    Flat(&'a NString),
}

/// Where so many bytes are cut into four parts of one size, of which the last has the rest besides.
fn even_cuts(count: usize) -> [usize; 3]
    ensures ascending { (k : ℕ) → suc k < 3 → get_or result k 0 ≤ get_or result (suc k) 0 }
    ensures within { All (λ cut. cut ≤ count) result }
{
    let part = count / PARTS;
    [part, 2 * part, 3 * part]
}

/// The string of a file, by four workers over a table that they share.
fn load_by_parts<R: Threads + Sync, S: Shared>(
    rt: &R,
    alloc: Global,
    table: &S,
    pass: &mut S::Pass,
    bytes: &[u8],
) -> Result<NString, LoadError>
    requires limit { length bytes.now ≤ 67108864 }
    requires pass { S.is_of table.now pass.old }
    requires root { (S.seen pass.old).root ≡ true }
    ensures { IfOk result (λ string. IsOkAnd (decode Utf8 bytes.now)
        (λ text. length string.graphemes ≡ length (graphemes_of text))) }
{
    let cuts = even_cuts(bytes.len());
    load_parts(
        rt,
        alloc,
        table,
        pass,
        Encoding::Utf8,
        bytes,
        &cuts,
        &OpenGate,
    )
}

/// The same by one stream.
fn load_by_one<S: Synthetics>(
    alloc: Global,
    table: &S,
    pass: &mut S::Pass,
    bytes: &[u8],
) -> Result<NString, LoadError>
    requires limit { length bytes.now ≤ 67108864 }
    requires pass { S.is_of table.now pass.old }
    ensures { IfOk result (λ string. IsOkAnd (decode Utf8 bytes.now)
        (λ text. length string.graphemes ≡ length (graphemes_of text))) }
{
    let mut stream = DecodeStream::new(alloc, Encoding::Utf8);
    stream.feed(alloc, bytes)?;
    stream.finish(alloc, table, pass)
}

/// How long a file takes in parts, from when the table is there, and how many graphemes it has. The string is dropped
/// behind that.
fn round_of_parts<R: Threads + Sync + Clock>(
    rt: &R,
    alloc: Global,
    bytes: &[u8],
) -> io::Result<Round>
    requires limit { length bytes.now ≤ 67108864 }
    ensures { IfOk result (λ round. (round.answered ≡ 0) ⊎ IsOkAnd (decode Utf8 bytes.now)
        (λ text. round.answered ≡ length (graphemes_of text))) }
{
    let (table, mut pass) = word_table(alloc)?;
    let start = Instant::now(rt)?;
    let made = load_by_parts(rt, alloc, &table, &mut pass, bytes);
    let nanoseconds = nanoseconds(rt, start)?;
    let answered = match made {
        Ok(string) => string.len() as usize,
        Err(_) => 0,
    };
    Ok(Round {
        nanoseconds,
        answered,
    })
}

/// The same by one stream.
fn round_of_one(clock: &impl Clock, alloc: Global, bytes: &[u8]) -> io::Result<Round>
    requires limit { length bytes.now ≤ 67108864 }
    ensures { IfOk result (λ round. (round.answered ≡ 0) ⊎ IsOkAnd (decode Utf8 bytes.now)
        (λ text. round.answered ≡ length (graphemes_of text))) }
{
    let (table, mut pass) = word_table(alloc)?;
    let start = Instant::now(clock)?;
    let made = load_by_one(alloc, &table, &mut pass, bytes);
    let nanoseconds = nanoseconds(clock, start)?;
    let answered = match made {
        Ok(string) => string.len() as usize,
        Err(_) => 0,
    };
    Ok(Round {
        nanoseconds,
        answered,
    })
}

/// How long it takes to make a string flat.
fn round_of_flat(clock: &impl Clock, alloc: Global, string: &NString) -> io::Result<Round>
    ensures { IfOk result (λ round. round.answered ≡ length string.now.graphemes) }
{
    let start = Instant::now(clock)?;
    let flat = string.flatten(alloc)?;
    let nanoseconds = nanoseconds(clock, start)?;
    Ok(Round {
        nanoseconds,
        answered: flat.len() as usize,
    })
}

/// How long one way takes.
fn round<R: Threads + Sync + Clock>(rt: &R, alloc: Global, way: Way<'_>) -> io::Result<Round> {
    match way {
        Way::Parts(file) => round_of_parts(rt, alloc, file.bytes),
        Way::One(file) => round_of_one(rt, alloc, file.bytes),
        Way::Flat(string) => round_of_flat(rt, alloc, string),
    }
}

/// Times two ways in turn.
fn in_turn<R: Threads + Sync + Clock>(
    rt: &R,
    alloc: Global,
    first: Way<'_>,
    second: Way<'_>,
) -> io::Result<Timings> {
    let mut first_times = [0; RUNS];
    let mut second_times = [0; RUNS];
    let mut answered: usize = 0;
    for run in 0..RUNS {
        let one = round(rt, alloc, first)?;
        first_times[run] = one.nanoseconds;
        let other = round(rt, alloc, second)?;
        second_times[run] = other.nanoseconds;
        answered = answered
            .wrapping_add(one.answered)
            .wrapping_add(other.answered);
    }
    Ok(medians(&mut first_times, &mut second_times, answered))
}

/// A string of four pieces over blocks of their own, each of the same bytes.
fn in_pieces(alloc: Global, bytes: &[u8]) -> Result<NString, LoadError>
    requires { length bytes.now ≤ 67108864 }
{
    let mut whole = NString::empty(alloc);
    for _k in 0..PARTS {
        let piece = stream::load(alloc, bytes)?;
        add(alloc, &mut whole, &piece)?;
    }
    Ok(whole)
}

/// A string of four pieces made flat, beside a load of as many bytes by one stream.
fn report_flat<R: Threads + Sync + Print + Clock>(
    rt: &R,
    alloc: Global,
    file: File<'_>,
    quarter: &[u8],
) -> io::Result<()>
    requires { length quarter.now ≤ 67108864 }
{
    match in_pieces(alloc, quarter) {
        Ok(string) => {
            let timings = in_turn(rt, alloc, Way::Flat(&string), Way::One(file))?;
            print_row(rt, " flatten, one", file.bytes.len(), timings)
        }
        Err(_) => println!(rt; " flatten, one: no string"),
    }
}

/// A text. An element is a byte.
fn report_text<R: Threads + Sync + Print + Clock>(
    rt: &R,
    alloc: Global,
    name: &str,
    sample: &str,
) -> io::Result<()> {
    let bytes = texts::repeated(alloc, sample.as_bytes(), FILE)?;
    let file = File {
        bytes: bytes.as_slice(),
    };
    let loads = in_turn(rt, alloc, Way::Parts(file), Way::One(file))?;
    println!(rt; "{name}")?;
    print_row(rt, " parts, one", file.bytes.len(), loads)?;
    let quarter = texts::repeated(alloc, sample.as_bytes(), FILE / PARTS)?;
    report_flat(rt, alloc, file, quarter.as_slice())
}

pub fn report<R: Threads + Sync + Print + Clock>(rt: &R, alloc: Global) -> io::Result<()> {
    report_text(rt, alloc, "ASCII", texts::ASCII)?;
    report_text(rt, alloc, "French, composed", texts::FRENCH)?;
    report_text(rt, alloc, "Chinese", texts::CHINESE)?;
    report_text(rt, alloc, "Hindi", texts::DEVANAGARI)?;
    report_text(rt, alloc, "emoji", texts::EMOJI)
}
