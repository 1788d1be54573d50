//! Scripts evaluated by several workers over a table that they share, beside fewer workers and other tables.
ghost use Rattle.std.specs.Prelude.{◌≡◌, ◌⊎◌, length, true, IfOk};
ghost use Rattle.nfg_work.specs.Evaluation.{evaluate};

use crate::scripts;
use crate::tables::{PLACES, cell_table, word_table};
use crate::timing::{Round, Timings, medians, nanoseconds, print_row};
use crate::workload::{Workload, are_within};
use nfg_syn::Shared;
use nfg_work::{OpenGate, run_alone, run_shared};
use std::alloc::Global;
use std::io;
use std::marker::Sync;
use std::rt::Clock;
use std::thread::Threads;
use std::time::Instant;

/// How often each way is timed.
const RUNS: usize = 9;

/// Who evaluates a script, and over which table.
#[derive(Clone, Copy)]
enum Way {
    /// One worker over a table of its own.
    Alone,
    /// So many workers, 1 to 64, over words that they share.
    Words(u32),
    /// The same over cells.
    Cells(u32),
}

/// How many bytes a script prints. The table is made meanwhile.
fn printed_alone(alloc: Global, work: &Workload) -> usize
    ensures { (result ≡ 0) ⊎ (result ≡ length (evaluate work.now.script work.now.reads.items 262144).bytes) }
{
    let reads = work.reads.as_slice();
    if !are_within(reads) {
        return 0;
    }
    match run_alone(alloc, &work.script, reads, PLACES) {
        Ok(output) => output.bytes.len(),
        Err(_) => 0,
    }
}

/// The same by so many workers over a table that they share.
fn printed_shared<R: Threads + Sync, S: Shared>(
    rt: &R,
    alloc: Global,
    table: &S,
    pass: &mut S::Pass,
    work: &Workload,
    workers: u32,
) -> usize
    requires pass { S.is_of table.now pass.old }
    requires root { (S.seen pass.old).root ≡ true }
    ensures { (result ≡ 0) ⊎ (result ≡ length (evaluate work.now.script work.now.reads.items (S.size table.now)).bytes) }
{
    let workers = workers.clamp(1, 64);
    let reads = work.reads.as_slice();
    if !are_within(reads) {
        return 0;
    }
    match run_shared(
        rt,
        alloc,
        table,
        pass,
        &work.script,
        reads,
        workers,
        &OpenGate,
    ) {
        Ok(output) => output.bytes.len(),
        Err(_) => 0,
    }
}

/// How long the workers take over a new table.
fn round_shared<R: Threads + Sync + Clock, S: Shared>(
    rt: &R,
    alloc: Global,
    table: &S,
    pass: &mut S::Pass,
    work: &Workload,
    workers: u32,
) -> io::Result<Round>
    requires pass { S.is_of table.now pass.old }
    requires root { (S.seen pass.old).root ≡ true }
    ensures { IfOk result (λ round. (round.answered ≡ 0)
        ⊎ (round.answered ≡ length (evaluate work.now.script work.now.reads.items (S.size table.now)).bytes)) }
{
    let start = Instant::now(rt)?;
    let answered = printed_shared(rt, alloc, table, pass, work, workers);
    let nanoseconds = nanoseconds(rt, start)?;
    Ok(Round {
        nanoseconds,
        answered,
    })
}

/// How long a script takes one way, from when a shared table is there.
fn round<R: Threads + Sync + Clock>(
    rt: &R,
    alloc: Global,
    work: &Workload,
    way: Way,
) -> io::Result<Round>
    ensures { IfOk result (λ round. (round.answered ≡ 0)
        ⊎ (round.answered ≡ length (evaluate work.now.script work.now.reads.items 262144).bytes)) }
{
    match way {
        Way::Alone => {
            let start = Instant::now(rt)?;
            let answered = printed_alone(alloc, work);
            let nanoseconds = nanoseconds(rt, start)?;
            Ok(Round {
                nanoseconds,
                answered,
            })
        }
        Way::Words(workers) => {
            let (table, mut pass) = word_table(alloc)?;
            round_shared(rt, alloc, &table, &mut pass, work, workers)
        }
        Way::Cells(workers) => {
            let (table, mut pass) = cell_table(alloc)?;
            round_shared(rt, alloc, &table, &mut pass, work, workers)
        }
    }
}

/// Times a script both ways in turn.
fn in_turn<R: Threads + Sync + Clock>(
    rt: &R,
    alloc: Global,
    work: &Workload,
    first: Way,
    second: Way,
) -> io::Result<Timings> {
    let mut first_times = [0; RUNS];
    let mut second_times = [0; RUNS];
    let mut printed: usize = 0;
    for run in 0..RUNS {
        let one = round(rt, alloc, work, first)?;
        first_times[run] = one.nanoseconds;
        let other = round(rt, alloc, work, second)?;
        second_times[run] = other.nanoseconds;
        printed = printed
            .wrapping_add(one.answered)
            .wrapping_add(other.answered);
    }
    Ok(medians(&mut first_times, &mut second_times, printed))
}

/// Times a script both ways, and prints the row of so many elements.
fn report_ways<R: Threads + Sync + Print + Clock>(
    rt: &R,
    alloc: Global,
    name: &str,
    elements: usize,
    work: &Workload,
    first: Way,
    second: Way,
) -> io::Result<()> {
    let timings = in_turn(rt, alloc, work, first, second)?;
    print_row(rt, name, elements, timings)
}

/// Loads that do not wait for one another. An element is a byte.
fn report_loads<R: Threads + Sync + Print + Clock>(rt: &R, alloc: Global) -> io::Result<()> {
    let Some(work) = scripts::loads(alloc)? else {
        return println!(rt; "16 loads: no script");
    };
    let bytes = scripts::LOADED;
    let name = "16 loads over words: four workers, one";
    report_ways(rt, alloc, name, bytes, &work, Way::Words(4), Way::Words(1))?;
    let name = "16 loads over cells: four workers, one";
    report_ways(rt, alloc, name, bytes, &work, Way::Cells(4), Way::Cells(1))?;
    let name = "16 loads by four workers: words, cells";
    report_ways(rt, alloc, name, bytes, &work, Way::Words(4), Way::Cells(4))
}

/// Commands that each hang on the one before. An element is a line.
fn report_chain<R: Threads + Sync + Print + Clock>(rt: &R, alloc: Global) -> io::Result<()> {
    let Some(work) = scripts::chain(alloc)? else {
        return println!(rt; "a chain: no script");
    };
    let lines = work.script.len();
    let name = "a chain: alone, four workers over words";
    report_ways(rt, alloc, name, lines, &work, Way::Alone, Way::Words(4))?;
    let name = "a chain by four workers: words, cells";
    report_ways(rt, alloc, name, lines, &work, Way::Words(4), Way::Cells(4))
}

/// Short texts, a line each. An element is a line.
fn report_texts<R: Threads + Sync + Print + Clock>(rt: &R, alloc: Global) -> io::Result<()> {
    let Some(work) = scripts::texts(alloc)? else {
        return println!(rt; "texts: no script");
    };
    let lines = work.script.len();
    let name = "10,000 texts over words: four workers, one";
    report_ways(rt, alloc, name, lines, &work, Way::Words(4), Way::Words(1))?;
    let name = "10,000 texts over cells: four workers, one";
    report_ways(rt, alloc, name, lines, &work, Way::Cells(4), Way::Cells(1))?;
    let name = "10,000 texts by four workers: words, cells";
    report_ways(rt, alloc, name, lines, &work, Way::Words(4), Way::Cells(4))
}

/// Short strings that are joined, each onto the last. An element is a line.
fn report_joins<R: Threads + Sync + Print + Clock>(rt: &R, alloc: Global) -> io::Result<()> {
    let Some(work) = scripts::joins(alloc)? else {
        return println!(rt; "joins: no script");
    };
    let lines = work.script.len();
    let name = "5,000 joins over words: four workers, one";
    report_ways(rt, alloc, name, lines, &work, Way::Words(4), Way::Words(1))?;
    let name = "5,000 joins: alone, four workers over words";
    report_ways(rt, alloc, name, lines, &work, Way::Alone, Way::Words(4))
}

pub fn report<R: Threads + Sync + Print + Clock>(rt: &R, alloc: Global) -> io::Result<()> {
    report_loads(rt, alloc)?;
    report_chain(rt, alloc)?;
    report_texts(rt, alloc)?;
    report_joins(rt, alloc)
}
