//! The workers of a level, each on a thread and with a fork of its own beside the caller's pass.
ghost use Rattle.std.specs.Prelude.{◌≡◌, ℕ, ◌+◌, ◌<◌, ◌≤◌, [], true, length, slice_index_or, vec_len, All, IfOk, OnOk};
ghost use Rattle.nfg_syn.specs.Known.{IsSame};
ghost use Rattle.nfg_syn.specs.Seen.{Keeps, SameCounts};
ghost use Rattle.nfg_work.specs.Evaluation.{AreWithinLimit};
ghost use Rattle.nfg_work.specs.Planned.{IsPlan};
ghost use Rattle.nfg_work.specs.Outcomes.{AreRight};
ghost use Rattle.nfg_work.specs.Workers.{HasGiven, HasWorked, IsDone, IsReady};

use crate::Gate;
use crate::work::Work;
use crate::worker::{Given, Level, Worker, do_own_share, let_work};
use nfg_syn::Shared;
use std::alloc::{AllocError, Global};
use std::marker::Sync;
use std::thread::{Threads, for_each_mut, join_mut};

/// A worker with a new fork of the pass.
fn new_worker<T: Shared>(
    alloc: Global,
    table: &T,
    pass: &mut T::Pass,
) -> Result<Worker<T::Pass>, AllocError>
    requires root { (T.seen pass.old).root ≡ true }
    requires table { T.is_of table.now pass.old }
    ensures table { T.is_of table.now pass.new }
    ensures keeps { Keeps (T.seen pass.old) (T.seen pass.new) }
    ensures known { IsSame (T.seen pass.old).known (T.seen pass.new).known }
    ensures meets { (T.seen pass.new).meets ≡ (T.seen pass.old).meets }
    ensures counted { OnOk result ((T.seen pass.new).forks ≡ (T.seen pass.old).forks + 1) }
    ensures fork_table { IfOk result (λ worker. T.is_of table.now worker.pass) }
    ensures ready { IfOk result (λ worker. IsReady (T.seen pass.old).known (T.seen worker.pass) worker.given.items) }
{
    let fork = table.fork(alloc, pass)?;
    Ok(Worker {
        pass: fork,
        given: Vec::new(alloc),
        is_short: false,
    })
}

/// So many workers, each with a new fork of the pass.
pub(crate) fn new_workers<T: Shared>(
    alloc: Global,
    table: &T,
    pass: &mut T::Pass,
    count: usize,
) -> Result<Vec<Worker<T::Pass>>, AllocError>
    requires root { (T.seen pass.old).root ≡ true }
    requires table { T.is_of table.now pass.old }
    ensures table { T.is_of table.now pass.new }
    ensures keeps { Keeps (T.seen pass.old) (T.seen pass.new) }
    ensures known { IsSame (T.seen pass.old).known (T.seen pass.new).known }
    ensures meets { (T.seen pass.new).meets ≡ (T.seen pass.old).meets }
    ensures counted { OnOk result ((T.seen pass.new).forks ≡ (T.seen pass.old).forks + count) }
    ensures many { IfOk result (λ workers. vec_len workers ≡ count) }
    ensures fork_tables { IfOk result (λ workers. All (λ worker. T.is_of table.now worker.pass) workers.items) }
    ensures ready { IfOk result (λ workers.
        All (λ worker. IsReady (T.seen pass.old).known (T.seen worker.pass) worker.given.items) workers.items) }
{
    let mut workers = Vec::new(alloc);
    'forking: for _k in 0..count {
        workers.push(new_worker(alloc, table, pass)?)?;
    }
    Ok(workers)
}

/// Each worker does its share, on a thread of its own. The first of them is worker 1.
fn let_all_work<R: Threads + Sync, T: Shared, G: Gate>(
    rt: &R,
    alloc: Global,
    table: &T,
    work: Work<'_>,
    level: Level<'_>,
    gate: &G,
    workers: &mut [Worker<T::Pass>],
)
    requires jobs { All (λ job. job < length work.script.now) level.jobs.now }
    requires some { 1 ≤ level.workers }
    requires few { level.workers ≤ 64 }
    requires numbers { length workers.old < 64 }
    requires reads { AreWithinLimit work.reads.now }
    requires plan { IsPlan work.script.now work.plan.now }
    requires tables { All (λ worker. T.is_of table.now worker.pass) workers.old }
    requires outcomes { All (λ worker. AreRight (T.seen worker.pass).known work.script.now work.reads.now work.outcomes.now)
        workers.old }
    requires given { All (λ worker. worker.given.items ≡ []) workers.old }
    ensures many { length workers.new ≡ length workers.old }
    ensures tables { All (λ worker. T.is_of table.now worker.pass) workers.new }
    ensures worked { (k : ℕ) (d : _) → k < length workers.old
        → HasWorked work.entry.script.now work.entry.reads.now (T.seen (slice_index_or workers.old k d).pass)
        (T.seen (slice_index_or workers.new k d).pass) (slice_index_or workers.new k d).given.items
        (slice_index_or workers.new k d).is_short }
{
    let threads = workers.len();
    if threads == 0 {
        return;
    }
    for_each_mut(
        rt,
        workers,
        threads,
        &|k, worker: &mut Worker<T::Pass>|
            requires jobs { All (λ job. job < length work.script.now) level.jobs.now }
            requires some { 1 ≤ level.workers }
            requires few { level.workers ≤ 64 }
            requires reads { AreWithinLimit work.reads.now }
            requires plan { IsPlan work.script.now work.plan.now }
            requires number { k < 64 }
            requires table { T.is_of table.now worker.old.pass }
            requires outcomes { AreRight (T.seen worker.old.pass).known work.script.now work.reads.now work.outcomes.now }
            requires given { worker.old.given.items ≡ [] }
            ensures table { T.is_of table.entry.now worker.new.pass }
            ensures worked { HasWorked work.entry.script.now work.entry.reads.now (T.seen worker.old.pass) (T.seen worker.new.pass)
                worker.new.given.items worker.new.is_short }
        { let_work(alloc, table, work, level, k + 1, gate, worker) },
    );
}

/// All workers do their shares at once: worker 0 over the caller's pass, and the others over theirs.
fn do_together<R: Threads + Sync, T: Shared, G: Gate>(
    rt: &R,
    alloc: Global,
    table: &T,
    pass: &mut T::Pass,
    work: Work<'_>,
    level: Level<'_>,
    gate: &G,
    others: &mut [Worker<T::Pass>],
) -> Result<Vec<Given>, AllocError>
    requires jobs { All (λ job. job < length work.script.now) level.jobs.now }
    requires some { 1 ≤ level.workers }
    requires few { level.workers ≤ 64 }
    requires numbers { length others.old < 64 }
    requires reads { AreWithinLimit work.reads.now }
    requires plan { IsPlan work.script.now work.plan.now }
    requires table { T.is_of table.now pass.old }
    requires outcomes { AreRight (T.seen pass.old).known work.script.now work.reads.now work.outcomes.now }
    requires fork_tables { All (λ worker. T.is_of table.now worker.pass) others.old }
    requires fork_outcomes { All (λ worker. AreRight (T.seen worker.pass).known work.script.now work.reads.now
        work.outcomes.now) others.old }
    requires nothing { All (λ worker. worker.given.items ≡ []) others.old }
    ensures table { T.is_of table.now pass.new }
    ensures keeps { Keeps (T.seen pass.old) (T.seen pass.new) }
    ensures counts { SameCounts (T.seen pass.old) (T.seen pass.new) }
    ensures given { IfOk result (λ given. HasGiven work.entry.script.now work.entry.reads.now (T.seen pass.old).known
        (T.seen pass.new).known given.items) }
    ensures many { length others.new ≡ length others.old }
    ensures fork_tables { All (λ worker. T.is_of table.now worker.pass) others.new }
    ensures worked { (k : ℕ) (d : _) → k < length others.old
        → HasWorked work.entry.script.now work.entry.reads.now (T.seen (slice_index_or others.old k d).pass)
        (T.seen (slice_index_or others.new k d).pass) (slice_index_or others.new k d).given.items
        (slice_index_or others.new k d).is_short }
{
    let mut ours = || -> Result<Vec<Given>, AllocError>
        requires jobs { All (λ job. job < length work.script.now) level.jobs.now }
        requires some { 1 ≤ level.workers }
        requires few { level.workers ≤ 64 }
        requires reads { AreWithinLimit work.reads.now }
        requires plan { IsPlan work.script.now work.plan.now }
        requires table { T.is_of table.now pass.now }
        requires outcomes { AreRight (T.seen pass.now).known work.script.now work.reads.now work.outcomes.now }
        ensures table { T.is_of table.entry.now pass.exit.now }
        ensures keeps { Keeps (T.seen pass.entry.now) (T.seen pass.exit.now) }
        ensures counts { SameCounts (T.seen pass.entry.now) (T.seen pass.exit.now) }
        ensures given { IfOk result (λ given. HasGiven work.entry.script.now work.entry.reads.now
            (T.seen pass.entry.now).known (T.seen pass.exit.now).known given.items) }
    { do_own_share(alloc, table, pass, work, level, gate) };
    let mut theirs = ||
        requires jobs { All (λ job. job < length work.script.now) level.jobs.now }
        requires some { 1 ≤ level.workers }
        requires few { level.workers ≤ 64 }
        requires numbers { length others.now < 64 }
        requires reads { AreWithinLimit work.reads.now }
        requires plan { IsPlan work.script.now work.plan.now }
        requires tables { All (λ worker. T.is_of table.now worker.pass) others.now }
        requires outcomes { All (λ worker. AreRight (T.seen worker.pass).known work.script.now work.reads.now
            work.outcomes.now) others.now }
        requires nothing { All (λ worker. worker.given.items ≡ []) others.now }
        ensures many { length others.exit.now ≡ length others.entry.now }
        ensures tables { All (λ worker. T.is_of table.entry.now worker.pass) others.exit.now }
        ensures worked { (k : ℕ) (d : _) → k < length others.entry.now
            → HasWorked work.entry.script.now work.entry.reads.now
            (T.seen (slice_index_or others.entry.now k d).pass)
            (T.seen (slice_index_or others.exit.now k d).pass) (slice_index_or others.exit.now k d).given.items
            (slice_index_or others.exit.now k d).is_short }
    { let_all_work(rt, alloc, table, work, level, gate, others) };
    let (_, done) = join_mut(rt, &mut theirs, &mut ours);
    done
}

/// All workers do their shares: worker 0 over the caller's pass, and the others over theirs.
pub(crate) fn do_shares<R: Threads + Sync, T: Shared, G: Gate>(
    rt: &R,
    alloc: Global,
    table: &T,
    pass: &mut T::Pass,
    work: Work<'_>,
    jobs: &[u32],
    gate: &G,
    others: &mut [Worker<T::Pass>],
) -> Result<Vec<Given>, AllocError>
    requires jobs { All (λ job. job < length work.script.now) jobs.now }
    requires few { length others.old < 64 }
    requires reads { AreWithinLimit work.reads.now }
    requires plan { IsPlan work.script.now work.plan.now }
    requires table { T.is_of table.now pass.old }
    requires outcomes { AreRight (T.seen pass.old).known work.script.now work.reads.now work.outcomes.now }
    requires fork_tables { All (λ worker. T.is_of table.now worker.pass) others.old }
    requires ready { All (λ worker. IsReady (T.seen pass.old).known (T.seen worker.pass) worker.given.items) others.old }
    ensures table { T.is_of table.now pass.new }
    ensures keeps { Keeps (T.seen pass.old) (T.seen pass.new) }
    ensures counts { SameCounts (T.seen pass.old) (T.seen pass.new) }
    ensures given { IfOk result (λ given. HasGiven work.entry.script.now work.entry.reads.now (T.seen pass.old).known
        (T.seen pass.new).known given.items) }
    ensures many { length others.new ≡ length others.old }
    ensures fork_tables { All (λ worker. T.is_of table.now worker.pass) others.new }
    ensures done { All (λ worker. IsDone work.entry.script.now work.entry.reads.now (T.seen pass.old).known
        (T.seen worker.pass) worker.given.items worker.is_short) others.new }
{
    let workers = others.len() + 1;
    let level = Level { jobs, workers };
    if others.is_empty() {
        return do_own_share(alloc, table, pass, work, level, gate);
    }
    do_together(rt, alloc, table, pass, work, level, gate, others)
}
