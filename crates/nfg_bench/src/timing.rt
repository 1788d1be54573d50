//! Medians of repeated timings, and the line that is printed of them.
ghost use Rattle.std.specs.Prelude.{◌≡◌, ◌<◌, ◌≤◌, ◌/◌, ◌^◌, length, slice_index_or, IfOk};
ghost use Rattle.std.specs.List.Sorted.{IsNonDecreasing, IsPermutation};
ghost use Rattle.nfg_bench.specs.Workbench.{IsReady};

use crate::workbench::{Job, Workbench};
use std::io;
use std::rt::Clock;
use std::time::Instant;

/// How often each way is timed.
const RUNS: usize = 401;

/// And where one run takes milliseconds.
const FEW_RUNS: usize = 9;

/// The medians of two ways to do the same work, in nanoseconds, and how much they answered in all,
/// which keeps the compiler from leaving work out.
#[derive(Clone, Copy)]
pub struct Timings {
    fast: u64,
    plain: u64,
    answered: usize,
}

/// How long one run took, and what it answered.
#[derive(Clone, Copy)]
pub struct Round {
    pub nanoseconds: u64,
    pub answered: usize,
}

/// More than any timing, and small enough for what is computed from it.
const LONGEST: u64 = 1 << 40;

pub fn nanoseconds(clock: &impl Clock, start: Instant) -> io::Result<u64>
    ensures { IfOk result (λ passed. passed ≤ 2 ^ 40) }
{
    let passed = start.elapsed(clock)?.as_nanos();
    Ok(passed.min(LONGEST as u128) as u64)
}

/// Two ways to do the same work. Each gets the number of the run.
pub trait Comparison {
    fn fast(&self, run: usize) -> usize;

    fn plain(&self, run: usize) -> usize;
}

/// The middle one of the times, which it puts in order.
fn median(times: &mut [u64]) -> u64
    requires { 0 < length times.old }
    ensures same_times { IsPermutation times.old times.new }
    ensures in_order { IsNonDecreasing times.new }
    ensures middle { result ≡ slice_index_or times.new (length times.old / 2) 0 }
{
    times.sort_unstable();
    times[times.len() / 2]
}

/// The middle ones of the times of both ways, which it puts in order.
pub fn medians(fast: &mut [u64], plain: &mut [u64], answered: usize) -> Timings
    requires fast { 0 < length fast.old }
    requires plain { 0 < length plain.old }
    ensures fast { IsPermutation fast.old fast.new }
    ensures plain { IsPermutation plain.old plain.new }
{
    Timings {
        fast: median(fast),
        plain: median(plain),
        answered,
    }
}

/// Times both ways in turn, so that they share what else the machine does.
fn in_turn<C: Comparison>(clock: &impl Clock, work: &C, runs: usize) -> io::Result<Timings>
    requires some { 0 < runs }
    requires at_most { runs ≤ 401 }
{
    let mut fast_times = [0; RUNS];
    let mut plain_times = [0; RUNS];
    let mut answered: usize = 0;
    for run in 0..runs {
        let start = Instant::now(clock)?;
        let answer = work.fast(run);
        fast_times[run] = nanoseconds(clock, start)?;
        let start = Instant::now(clock)?;
        let other = work.plain(run);
        plain_times[run] = nanoseconds(clock, start)?;
        answered = answered.wrapping_add(answer).wrapping_add(other);
    }
    Ok(Timings {
        fast: median(&mut fast_times[..runs]),
        plain: median(&mut plain_times[..runs]),
        answered,
    })
}

/// Prints picoseconds an element, the same of the plain way, and how many times as long that takes.
pub fn print_row(rt: &impl Print, name: &str, elements: usize, timings: Timings) -> io::Result<()> {
    let each = (elements as u64).clamp(1, LONGEST);
    let fast = timings.fast.clamp(1, LONGEST);
    let plain = timings.plain.min(LONGEST);
    let tenths = plain * 10 / fast;
    println!(rt;
        "{name}: {} ps an element, plain {} ps, {}.{} times ({})",
        fast * 1000 / each,
        plain * 1000 / each,
        tenths / 10,
        tenths % 10,
        timings.answered
    )
}

/// The same where the first way does the work of the second as well, of which only the rest counts.
pub fn compare_rest<C: Comparison>(
    rt: &(impl Print + Clock),
    name: &str,
    elements: usize,
    work: &C,
) -> io::Result<()> {
    let both = in_turn(rt, work, FEW_RUNS)?;
    let rest = Timings {
        fast: both.fast.saturating_sub(both.plain),
        plain: both.plain,
        answered: both.answered,
    };
    print_row(rt, name, elements, rest)
}

/// Times two jobs on a workbench in turn.
pub fn jobs_in_turn(
    clock: &impl Clock,
    bench: &mut Workbench,
    fast: Job,
    plain: Job,
) -> io::Result<Timings>
    requires ready { IsReady bench.old }
    ensures ready { IsReady bench.new }
{
    let mut fast_times = [0; FEW_RUNS];
    let mut plain_times = [0; FEW_RUNS];
    let mut answered: usize = 0;
    for run in 0..FEW_RUNS {
        let start = Instant::now(clock)?;
        let answer = bench.run(fast);
        fast_times[run] = nanoseconds(clock, start)?;
        let start = Instant::now(clock)?;
        let other = bench.run(plain);
        plain_times[run] = nanoseconds(clock, start)?;
        answered = answered.wrapping_add(answer).wrapping_add(other);
    }
    Ok(Timings {
        fast: median(&mut fast_times),
        plain: median(&mut plain_times),
        answered,
    })
}

/// Times two jobs on a workbench, and prints their row.
pub fn compare_jobs(
    rt: &(impl Print + Clock),
    name: &str,
    elements: usize,
    bench: &mut Workbench,
    fast: Job,
    plain: Job,
) -> io::Result<()>
    requires ready { IsReady bench.old }
    ensures ready { IsReady bench.new }
{
    let timings = jobs_in_turn(rt, bench, fast, plain)?;
    print_row(rt, name, elements, timings)
}

/// Times the work over so many elements, and prints its row.
pub fn compare<C: Comparison>(
    rt: &(impl Print + Clock),
    name: &str,
    elements: usize,
    work: &C,
) -> io::Result<()> {
    print_row(rt, name, elements, in_turn(rt, work, RUNS)?)
}

/// The same by few runs, for work that takes long.
pub fn compare_few<C: Comparison>(
    rt: &(impl Print + Clock),
    name: &str,
    elements: usize,
    work: &C,
) -> io::Result<()> {
    print_row(rt, name, elements, in_turn(rt, work, FEW_RUNS)?)
}
