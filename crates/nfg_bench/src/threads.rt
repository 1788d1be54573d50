//! Clusters numbered by several threads at once over words that they share, beside one thread, and a new table of words.
ghost use Rattle.std.specs.Prelude.{◌≡◌, true, All, IfOk};
ghost use Rattle.nfg_words.specs.Table.{IsWordPass, seen_of};

use crate::samples::{Sample, samples};
use crate::tables::{PLACES, number_all, word_table};
use crate::timing::{Round, Timings, medians, nanoseconds, print_row};
use nfg_syn::{Shared, Synthetics};
use nfg_words::layout::word_count;
use nfg_words::{WordPass, WordTable};
use std::alloc::{AllocError, Global};
use std::io;
use std::marker::Sync;
use std::rt::Clock;
use std::thread::{Threads, for_each_mut};
use std::time::Instant;

/// The places of a table that threads share.
const WIDE_PLACES: u32 = 1 << 20;

/// How many clusters each of four threads numbers.
const SHARE: usize = 100_000;

/// How often each way is timed.
const RUNS: usize = 9;

/// How many threads there are, from which place on each of them begins behind the one before, and how many
/// clusters each numbers.
#[derive(Clone, Copy)]
struct Shares {
    threads: usize,
    step: usize,
    many: usize,
}

/// Four threads number the same clusters.
const SAME: Shares = Shares {
    threads: 4,
    step: 0,
    many: SHARE,
};

/// Four threads number clusters of their own.
const OWN: Shares = Shares {
    threads: 4,
    step: SHARE,
    many: SHARE,
};

/// One thread numbers the clusters of one of the four.
const ONE: Shares = Shares {
    threads: 1,
    step: 0,
    many: SHARE,
};

/// One thread numbers the clusters of all four.
const ALL: Shares = Shares {
    threads: 1,
    step: 0,
    many: 4 * SHARE,
};

/// A caller with a pass of its own, which clusters it numbers, and how many got a number.
#[derive(Drop)]
struct Caller<P: Drop> {
    pass: P,
    first: usize,
    many: usize,
    numbered: usize,
}

fn wide_table(alloc: Global) -> Result<(WordTable, WordPass), AllocError>
    ensures pass { IfOk result (λ made. IsWordPass made.0 made.1) }
    ensures root { IfOk result (λ made. (seen_of made.1).root ≡ true) }
{
    WordTable::new(alloc, WIDE_PLACES)
}

/// The clusters from one place on, so many, as far as there are such.
fn part(samples: &[Sample], first: usize, many: usize) -> &[Sample] {
    let start = first.min(samples.len());
    let end = start + many.min(samples.len() - start);
    &samples[start..end]
}

/// A caller with a fork of the pass for each thread.
fn new_callers<S: Shared>(
    alloc: Global,
    table: &S,
    pass: &mut S::Pass,
    shares: Shares,
) -> Result<Vec<Caller<S::Pass>>, AllocError>
    requires pass { S.is_of table.now pass.old }
    requires root { (S.seen pass.old).root ≡ true }
    ensures passes { IfOk result (λ callers. All (λ caller. S.is_of table.now caller.pass) callers.items) }
{
    let mut callers = Vec::new(alloc);
    'forking: for k in 0..shares.threads {
        let fork = table.fork(alloc, pass)?;
        callers.push(Caller {
            pass: fork,
            first: shares.step.saturating_mul(k),
            many: shares.many,
            numbered: 0,
        })?;
    }
    Ok(callers)
}

/// A caller numbers its clusters.
fn let_number<S: Synthetics>(
    alloc: Global,
    table: &S,
    caller: &mut Caller<S::Pass>,
    samples: &[Sample],
)
    requires pass { S.is_of table.now caller.old.pass }
    ensures pass { S.is_of table.now caller.new.pass }
{
    let clusters = part(samples, caller.first, caller.many);
    caller.numbered = number_all(alloc, table, &mut caller.pass, clusters);
}

/// Each caller numbers its clusters on a thread of its own.
fn let_all_number<R: Threads + Sync, S: Shared>(
    rt: &R,
    alloc: Global,
    table: &S,
    callers: &mut [Caller<S::Pass>],
    samples: &[Sample],
)
    requires { All (λ caller. S.is_of table.now caller.pass) callers.old }
{
    let threads = callers.len().max(1);
    for_each_mut(
        rt,
        callers,
        threads,
        &|_k, caller: &mut Caller<S::Pass>|
            requires { S.is_of table.now caller.old.pass }
        { let_number(alloc, table, caller, samples) },
    );
}

/// How many clusters got a number in all.
fn count<P: Drop>(callers: &[Caller<P>]) -> usize {
    let mut numbered: usize = 0;
    for caller in callers {
        numbered = numbered.wrapping_add(caller.numbered);
    }
    numbered
}

/// How long the threads take over a new table, when each has a pass.
fn round<R: Threads + Sync + Clock>(
    rt: &R,
    alloc: Global,
    samples: &[Sample],
    shares: Shares,
) -> io::Result<Round> {
    let (table, mut pass) = wide_table(alloc)?;
    let mut callers = new_callers(alloc, &table, &mut pass, shares)?;
    let start = Instant::now(rt)?;
    let_all_number(rt, alloc, &table, callers.as_mut_slice(), samples);
    let nanoseconds = nanoseconds(rt, start)?;
    let answered = count(callers.as_slice());
    Ok(Round {
        nanoseconds,
        answered,
    })
}

/// Times four threads and one in turn. The time of the one counts so many times.
fn in_turn<R: Threads + Sync + Clock>(
    rt: &R,
    alloc: Global,
    samples: &[Sample],
    four: Shares,
    one: Shares,
    times: u64,
) -> io::Result<Timings> {
    let mut four_times = [0; RUNS];
    let mut one_times = [0; RUNS];
    let mut answered: usize = 0;
    for run in 0..RUNS {
        let fast = round(rt, alloc, samples, four)?;
        four_times[run] = fast.nanoseconds;
        let plain = round(rt, alloc, samples, one)?;
        one_times[run] = plain.nanoseconds.saturating_mul(times);
        answered = answered
            .wrapping_add(fast.answered)
            .wrapping_add(plain.answered);
    }
    Ok(medians(&mut four_times, &mut one_times, answered))
}

/// So many zeros.
#[inline(never)]
fn zeros(alloc: Global, count: usize) -> Result<Vec<u64>, AllocError> {
    Vec::from_elem(alloc, 0u64, count)
}

/// As many words as a new table has, made and copied, and how long it takes.
fn copy_round(clock: &impl Clock, alloc: Global) -> io::Result<Round> {
    let start = Instant::now(clock)?;
    let zeros = zeros(alloc, word_count(PLACES as usize))?;
    let copy = Vec::from_slice(alloc, zeros.as_slice())?;
    drop(zeros);
    let nanoseconds = nanoseconds(clock, start)?;
    let answered = copy.len();
    Ok(Round {
        nanoseconds,
        answered,
    })
}

/// How long a new table takes.
fn table_round(clock: &impl Clock, alloc: Global) -> io::Result<Round> {
    let start = Instant::now(clock)?;
    let (table, _pass) = word_table(alloc)?;
    let nanoseconds = nanoseconds(clock, start)?;
    let answered = table.capacity() as usize;
    Ok(Round {
        nanoseconds,
        answered,
    })
}

/// A new table beside a copy of as many words. An element is a word.
fn report_new_table(rt: &(impl Print + Clock), alloc: Global) -> io::Result<()> {
    let mut copies = [0; RUNS];
    let mut tables = [0; RUNS];
    let mut answered: usize = 0;
    for run in 0..RUNS {
        let copy = copy_round(rt, alloc)?;
        copies[run] = copy.nanoseconds;
        let table = table_round(rt, alloc)?;
        tables[run] = table.nanoseconds;
        answered = answered
            .wrapping_add(copy.answered)
            .wrapping_add(table.answered);
    }
    let name = "a new table over words: as many zeros and their copy, the table";
    let timings = medians(&mut copies, &mut tables, answered);
    print_row(rt, name, word_count(PLACES as usize), timings)
}

/// Four threads beside one, and a new table.
pub fn report<R: Threads + Sync + Print + Clock>(rt: &R, alloc: Global) -> io::Result<()> {
    let samples = samples(alloc, 4 * SHARE)?;
    let samples = samples.as_slice();
    let same = in_turn(rt, alloc, samples, SAME, ONE, 4)?;
    let name = "the same clusters on four threads: four threads, one";
    print_row(rt, name, 4 * SHARE, same)?;
    let own = in_turn(rt, alloc, samples, OWN, ALL, 1)?;
    let name = "clusters of their own on four threads: four threads, one";
    print_row(rt, name, 4 * SHARE, own)?;
    report_new_table(rt, alloc)
}
