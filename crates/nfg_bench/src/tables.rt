//! Clusters numbered by tables of synthetics: by the two that callers share, beside one of a single caller.
ghost use Rattle.std.specs.Prelude.{◌≡◌, ◌<◌, ◌≤◌, length, IfOk, true};
ghost use Rattle.nfg_syn.specs.OwnTexts.{IsOwnPass};
ghost use Rattle.nfg_cells.specs.Cells.{IsCellPass, seen_of};
ghost use Rattle.nfg_words.specs.Table.{IsWordPass, seen_of as seen_of_words};

use crate::samples::{Sample, samples};
use crate::timing::{medians, nanoseconds, print_row};
use nfg_cells::{CellPass, CellTable};
use nfg_syn::{OwnPass, OwnTable, Shared, Synthetics};
use nfg_words::{WordPass, WordTable};
use std::alloc::{AllocError, Global};
use std::io;
use std::rt::Clock;
use std::time::Instant;

/// The places of a table.
pub const PLACES: u32 = 1 << 18;

/// How many clusters are numbered.
const CLUSTERS: usize = 200_000;

/// How often each way is timed.
const RUNS: usize = 9;

fn own_table(alloc: Global) -> Result<(OwnTable, OwnPass), AllocError>
    ensures { IfOk result (λ made. IsOwnPass made.0 made.1) }
{
    OwnTable::new(alloc, PLACES)
}

/// A new table of cells, and its pass.
pub fn cell_table(alloc: Global) -> Result<(CellTable, CellPass), AllocError>
    ensures size { IfOk result (λ made. length made.0 ≡ 262144) }
    ensures pass { IfOk result (λ made. IsCellPass made.0 made.1) }
    ensures root { IfOk result (λ made. (seen_of made.1).root ≡ true) }
{
    CellTable::new(alloc, PLACES)
}

/// A new table of words, and its pass.
pub fn word_table(alloc: Global) -> Result<(WordTable, WordPass), AllocError>
    ensures size { IfOk result (λ made. made.0.n ≡ 262144) }
    ensures pass { IfOk result (λ made. IsWordPass made.0 made.1) }
    ensures root { IfOk result (λ made. (seen_of_words made.1).root ≡ true) }
{
    WordTable::new(alloc, PLACES)
}

/// Numbers the clusters, and answers how many got a number.
pub fn number_all<S: Synthetics>(
    alloc: Global,
    table: &S,
    pass: &mut S::Pass,
    samples: &[Sample],
) -> usize
    requires pass { S.is_of table.now pass.old }
    ensures pass { S.is_of table.now pass.new }
    ensures root { (S.seen pass.new).root ≡ (S.seen pass.old).root }
{
    let mut numbered: usize = 0;
    for sample in samples {
        let answer = table.intern(alloc, pass, sample.codes.as_slice());
        numbered = numbered.wrapping_add(answer.is_ok() as usize);
    }
    numbered
}

/// How long it takes where the clusters are new, and where they are known, in nanoseconds.
#[derive(Clone, Copy)]
struct RoundTimes {
    new: u64,
    known: u64,
    answered: usize,
}

fn rounds<S: Synthetics>(
    clock: &impl Clock,
    alloc: Global,
    table: &S,
    pass: &mut S::Pass,
    samples: &[Sample],
) -> io::Result<RoundTimes>
    requires pass { S.is_of table.now pass.old }
    ensures pass { S.is_of table.now pass.new }
{
    let start = Instant::now(clock)?;
    let first = number_all(alloc, table, pass, samples);
    let new = nanoseconds(clock, start)?;
    let start = Instant::now(clock)?;
    let second = number_all(alloc, table, pass, samples);
    let known = nanoseconds(clock, start)?;
    Ok(RoundTimes {
        new,
        known,
        answered: first.wrapping_add(second),
    })
}

fn own_rounds(clock: &impl Clock, alloc: Global, samples: &[Sample]) -> io::Result<RoundTimes> {
    let (table, mut pass) = own_table(alloc)?;
    rounds(clock, alloc, &table, &mut pass, samples)
}

fn cell_rounds(clock: &impl Clock, alloc: Global, samples: &[Sample]) -> io::Result<RoundTimes> {
    let (table, mut pass) = cell_table(alloc)?;
    rounds(clock, alloc, &table, &mut pass, samples)
}

fn word_rounds(clock: &impl Clock, alloc: Global, samples: &[Sample]) -> io::Result<RoundTimes> {
    let (table, mut pass) = word_table(alloc)?;
    rounds(clock, alloc, &table, &mut pass, samples)
}

/// How long each run took.
#[derive(Clone, Copy)]
struct Times {
    new: [u64; RUNS],
    known: [u64; RUNS],
    answered: usize,
}

impl Times {
    fn none() -> Times {
        Times {
            new: [0; RUNS],
            known: [0; RUNS],
            answered: 0,
        }
    }

    fn note(&mut self, run: usize, round: RoundTimes)
        requires { run < 9 }
    {
        self.new[run] = round.new;
        self.known[run] = round.known;
        self.answered = self.answered.wrapping_add(round.answered);
    }
}

/// The two rows of a table that callers share.
fn print_rows(
    rt: &impl Print,
    names: [&str; 2],
    count: usize,
    own: &mut Times,
    shared: &mut Times,
) -> io::Result<()> {
    let answered = own.answered.wrapping_add(shared.answered);
    let new = medians(&mut own.new, &mut shared.new, answered);
    print_row(rt, names[0], count, new)?;
    let known = medians(&mut own.known, &mut shared.known, answered);
    print_row(rt, names[1], count, known)
}

/// The same clusters by all three tables, in turn.
fn report_clusters(rt: &(impl Print + Clock), alloc: Global, samples: &[Sample]) -> io::Result<()> {
    let mut own = Times::none();
    let mut cells = Times::none();
    let mut words = Times::none();
    for run in 0..RUNS {
        own.note(run, own_rounds(rt, alloc, samples)?);
        cells.note(run, cell_rounds(rt, alloc, samples)?);
        words.note(run, word_rounds(rt, alloc, samples)?);
    }
    let count = samples.len();
    let of_cells = [
        "new clusters: own table, cells",
        "known clusters: own table, cells",
    ];
    print_rows(rt, of_cells, count, &mut own, &mut cells)?;
    let of_words = [
        "new clusters: own table, words",
        "known clusters: own table, words",
    ];
    print_rows(rt, of_words, count, &mut own, &mut words)
}

/// Forks a pass, and lets the fork go.
fn fork<S: Shared>(alloc: Global, table: &S, pass: &mut S::Pass) -> usize
    requires pass { S.is_of table.now pass.old }
    requires root { (S.seen pass.old).root ≡ true }
    ensures pass { S.is_of table.now pass.new }
    ensures root { (S.seen pass.new).root ≡ true }
{
    table.fork(alloc, pass).is_ok() as usize
}

/// Forks a pass, and meets the fork again.
fn fork_and_meet<S: Shared>(alloc: Global, table: &S, pass: &mut S::Pass) -> usize
    requires pass { S.is_of table.now pass.old }
    requires root { (S.seen pass.old).root ≡ true }
    ensures pass { S.is_of table.now pass.new }
    ensures root { (S.seen pass.new).root ≡ true }
{
    match table.fork(alloc, pass) {
        Ok(fork) => table.meet(alloc, pass, fork).is_ok() as usize,
        Err(_) => 0,
    }
}

/// A pass of a table that has the clusters.
fn report_pass<S: Shared>(
    rt: &(impl Print + Clock),
    alloc: Global,
    name: &str,
    table: &S,
    pass: &mut S::Pass,
    samples: &[Sample],
) -> io::Result<()>
    requires pass { S.is_of table.now pass.old }
    requires root { (S.seen pass.old).root ≡ true }
{
    let mut answered = number_all(alloc, table, pass, samples);
    let mut forks = [0; RUNS];
    let mut meets = [0; RUNS];
    for run in 0..RUNS {
        let start = Instant::now(rt)?;
        let forked = fork(alloc, table, pass);
        forks[run] = nanoseconds(rt, start)?;
        let start = Instant::now(rt)?;
        let met = fork_and_meet(alloc, table, pass);
        meets[run] = nanoseconds(rt, start)?;
        answered = answered.wrapping_add(forked).wrapping_add(met);
    }
    let passes = medians(&mut forks, &mut meets, answered);
    print_row(rt, name, PLACES as usize, passes)
}

fn report_cell_pass(
    rt: &(impl Print + Clock),
    alloc: Global,
    samples: &[Sample],
) -> io::Result<()> {
    let (table, mut pass) = cell_table(alloc)?;
    let name = "a place of a pass over cells: fork, fork and meet";
    report_pass(rt, alloc, name, &table, &mut pass, samples)
}

fn report_word_pass(
    rt: &(impl Print + Clock),
    alloc: Global,
    samples: &[Sample],
) -> io::Result<()> {
    let (table, mut pass) = word_table(alloc)?;
    let name = "a place of a pass over words: fork, fork and meet";
    report_pass(rt, alloc, name, &table, &mut pass, samples)
}

pub fn report(rt: &(impl Print + Clock), alloc: Global) -> io::Result<()> {
    let samples = samples(alloc, CLUSTERS)?;
    report_clusters(rt, alloc, samples.as_slice())?;
    report_cell_pass(rt, alloc, samples.as_slice())?;
    report_word_pass(rt, alloc, samples.as_slice())
}
