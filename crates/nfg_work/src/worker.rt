//! A worker of a level, and its share of the level's jobs.
ghost use Rattle.std.specs.Prelude.{◌<◌, ◌≤◌, length, All, IfOk, OnOk};
ghost use Rattle.nfg_syn.specs.Seen.{Keeps, SameCounts};
ghost use Rattle.nfg_work.specs.Evaluation.{AreWithinLimit};
ghost use Rattle.nfg_work.specs.Planned.{IsPlan};
ghost use Rattle.nfg_work.specs.Outcomes.{AreRight};
ghost use Rattle.nfg_work.specs.Workers.{AreGivenRight, HasGiven, HasWorked};

use crate::Gate;
use crate::job::do_job;
use crate::outcome::Outcome;
use crate::work::Work;
use nfg_syn::Synthetics;
use std::alloc::{AllocError, Global};

/// What the job of a command has given.
#[derive(Drop)]
pub(crate) struct Given {
    /// The place of the command in the script, counted from 0.
    pub(crate) command: u32,
    pub(crate) outcome: Outcome,
}

/// A worker with a pass of its own.
#[derive(Drop)]
pub(crate) struct Worker<P: Drop> {
    pub(crate) pass: P,
    /// What its jobs have given.
    pub(crate) given: Vec<Given>,
    /// Memory was wanting.
    pub(crate) is_short: bool,
}

/// The jobs of a level, and how many workers do them.
#[derive(Clone, Copy)]
pub(crate) struct Level<'a> {
    /// The places of the commands in the script.
    pub(crate) jobs: &'a [u32],
    pub(crate) workers: usize,
}

/// Does one job, between the two calls of the gate.
fn do_one<T: Synthetics, G: Gate>(
    alloc: Global,
    table: &T,
    pass: &mut T::Pass,
    work: Work<'_>,
    command: u32,
    gate: &G,
    given: &mut Vec<Given>,
) -> Result<(), AllocError>
    requires place { command < length work.script.now }
    requires reads { AreWithinLimit work.reads.now }
    requires plan { IsPlan work.script.now work.plan.now }
    requires table { T.is_of table.now pass.old }
    requires outcomes { AreRight (T.seen pass.old).known work.script.now work.reads.now work.outcomes.now }
    requires given { AreGivenRight (T.seen pass.old).known work.script.now work.reads.now given.old.items }
    ensures table { T.is_of table.now pass.new }
    ensures keeps { Keeps (T.seen pass.old) (T.seen pass.new) }
    ensures counts { SameCounts (T.seen pass.old) (T.seen pass.new) }
    ensures given { OnOk result (HasGiven work.entry.script.now work.entry.reads.now (T.seen pass.old).known
        (T.seen pass.new).known given.new.items) }
{
    gate.enter(command);
    let done = do_job(alloc, table, pass, work, command as usize);
    gate.leave(command);
    let outcome = done?;
    given.push(Given { command, outcome })?;
    Ok(())
}

/// Does every job of a level whose number leaves `first` by the number of workers.
pub(crate) fn do_share<T: Synthetics, G: Gate>(
    alloc: Global,
    table: &T,
    pass: &mut T::Pass,
    work: Work<'_>,
    level: Level<'_>,
    first: usize,
    gate: &G,
    given: &mut Vec<Given>,
) -> Result<(), AllocError>
    requires jobs { All (λ job. job < length work.script.now) level.jobs.now }
    requires some { 1 ≤ level.workers }
    requires few { level.workers ≤ 64 }
    requires reads { AreWithinLimit work.reads.now }
    requires plan { IsPlan work.script.now work.plan.now }
    requires table { T.is_of table.now pass.old }
    requires outcomes { AreRight (T.seen pass.old).known work.script.now work.reads.now work.outcomes.now }
    requires given { AreGivenRight (T.seen pass.old).known work.script.now work.reads.now given.old.items }
    ensures table { T.is_of table.now pass.new }
    ensures keeps { Keeps (T.seen pass.old) (T.seen pass.new) }
    ensures counts { SameCounts (T.seen pass.old) (T.seen pass.new) }
    ensures given { OnOk result (HasGiven work.entry.script.now work.entry.reads.now (T.seen pass.old).known
        (T.seen pass.new).known given.new.items) }
{
    let mut place = first;
    'sharing: while place < level.jobs.len() {
        do_one(alloc, table, pass, work, level.jobs[place], gate, given)?;
        place += level.workers;
    }
    Ok(())
}

/// Does the share of worker 0, over the caller's pass, and gives what it has given.
pub(crate) fn do_own_share<T: Synthetics, G: Gate>(
    alloc: Global,
    table: &T,
    pass: &mut T::Pass,
    work: Work<'_>,
    level: Level<'_>,
    gate: &G,
) -> Result<Vec<Given>, AllocError>
    requires jobs { All (λ job. job < length work.script.now) level.jobs.now }
    requires some { 1 ≤ level.workers }
    requires few { level.workers ≤ 64 }
    requires reads { AreWithinLimit work.reads.now }
    requires plan { IsPlan work.script.now work.plan.now }
    requires table { T.is_of table.now pass.old }
    requires outcomes { AreRight (T.seen pass.old).known work.script.now work.reads.now work.outcomes.now }
    ensures table { T.is_of table.now pass.new }
    ensures keeps { Keeps (T.seen pass.old) (T.seen pass.new) }
    ensures counts { SameCounts (T.seen pass.old) (T.seen pass.new) }
    ensures given { IfOk result (λ given. HasGiven work.entry.script.now work.entry.reads.now (T.seen pass.old).known
        (T.seen pass.new).known given.items) }
{
    let mut given = Vec::new(alloc);
    do_share(alloc, table, pass, work, level, 0, gate, &mut given)?;
    Ok(given)
}

/// The worker does its share.
pub(crate) fn let_work<T: Synthetics, G: Gate>(
    alloc: Global,
    table: &T,
    work: Work<'_>,
    level: Level<'_>,
    first: usize,
    gate: &G,
    worker: &mut Worker<T::Pass>,
)
    requires jobs { All (λ job. job < length work.script.now) level.jobs.now }
    requires some { 1 ≤ level.workers }
    requires few { level.workers ≤ 64 }
    requires reads { AreWithinLimit work.reads.now }
    requires plan { IsPlan work.script.now work.plan.now }
    requires table { T.is_of table.now worker.old.pass }
    requires outcomes { AreRight (T.seen worker.old.pass).known work.script.now work.reads.now work.outcomes.now }
    requires given { AreGivenRight (T.seen worker.old.pass).known work.script.now work.reads.now worker.old.given.items }
    ensures table { T.is_of table.now worker.new.pass }
    ensures worked { HasWorked work.entry.script.now work.entry.reads.now (T.seen worker.old.pass) (T.seen worker.new.pass)
        worker.new.given.items worker.new.is_short }
{
    match do_share(
        alloc,
        table,
        &mut worker.pass,
        work,
        level,
        first,
        gate,
        &mut worker.given,
    ) {
        Ok(()) => worker.is_short = false,
        Err(_) => worker.is_short = true,
    }
}
