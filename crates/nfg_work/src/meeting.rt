//! The forks of a level are met again, and what their workers have given is kept.
ghost use Rattle.std.specs.Prelude.{◌≡◌, ◌+◌, List, false, vec_len, All, OnOk};
ghost use Rattle.nfg_syn.specs.Known.{Texts};
ghost use Rattle.nfg_syn.specs.Seen.{Keeps};
ghost use Rattle.nfg_script.specs.Script.{NumberedCommand};
ghost use Rattle.nfg_work.specs.declared.output.FileRead.{FileRead};
ghost use Rattle.nfg_work.specs.Outcomes.{AreRight, IsRightAt};
ghost use Rattle.nfg_work.specs.Workers.{AreGivenRight, HasMet, IsDone};

use crate::outcome::Outcome;
use crate::worker::{Given, Worker};
use nfg_syn::Shared;
use std::alloc::{AllocError, Global};

/// Keeps what the job of a command has given, where the script has the command.
fn keep(outcomes: &mut [Outcome], one: Given)
    ensures { (known : Texts) (script : List NumberedCommand) (reads : List FileRead)
        → AreRight known script reads outcomes.old → IsRightAt known script reads one.command one.outcome
        → AreRight known script reads outcomes.new }
{
    let Given { command, outcome } = one;
    let place = command as usize;
    if place < outcomes.len() {
        outcomes[place] = outcome;
    }
}

/// Keeps all that was given.
pub(crate) fn keep_all(outcomes: &mut [Outcome], mut given: Vec<Given>)
    ensures { (known : Texts) (script : List NumberedCommand) (reads : List FileRead)
        → AreRight known script reads outcomes.old → AreGivenRight known script reads given.items
        → AreRight known script reads outcomes.new }
{
    'keeping: while let Some(one) = given.pop() {
        keep(outcomes, one);
    }
}

/// The pass meets the fork of a worker, and what the worker has given is kept.
fn meet_one<T: Shared>(
    alloc: Global,
    table: &T,
    pass: &mut T::Pass,
    outcomes: &mut [Outcome],
    worker: Worker<T::Pass>,
) -> Result<(), AllocError>
    requires table { T.is_of table.now pass.old }
    requires fork_table { T.is_of table.now worker.pass }
    requires no_root { (T.seen worker.pass).root ≡ false }
    ensures table { T.is_of table.now pass.new }
    ensures keeps { Keeps (T.seen pass.old) (T.seen pass.new) }
    ensures forks { (T.seen pass.new).forks ≡ (T.seen pass.old).forks }
    ensures meets { OnOk result ((T.seen pass.new).meets ≡ (T.seen pass.old).meets + (T.seen worker.pass).meets + 1) }
    ensures met { OnOk result ((script : List NumberedCommand) (reads : List FileRead)
        → IsDone script reads (T.seen pass.old).known (T.seen worker.pass) worker.given.items worker.is_short
        → AreRight (T.seen pass.old).known script reads outcomes.old
        → HasMet script reads (T.seen pass.old).known (T.seen pass.new).known outcomes.new) }
{
    let Worker {
        pass: fork,
        given,
        is_short,
    } = worker;
    if is_short {
        return Err(AllocError);
    }
    match table.meet(alloc, pass, fork) {
        Ok(()) => {
            keep_all(outcomes, given);
            Ok(())
        }
        Err(_) => Err(AllocError),
    }
}

/// The pass meets the fork of each worker, and what they have given is kept.
pub(crate) fn meet_all<T: Shared>(
    alloc: Global,
    table: &T,
    pass: &mut T::Pass,
    outcomes: &mut [Outcome],
    mut workers: Vec<Worker<T::Pass>>,
) -> Result<(), AllocError>
    requires table { T.is_of table.now pass.old }
    requires fork_tables { All (λ worker. T.is_of table.now worker.pass) workers.items }
    requires no_roots { All (λ worker. (T.seen worker.pass).root ≡ false) workers.items }
    requires no_meets { All (λ worker. (T.seen worker.pass).meets ≡ 0) workers.items }
    ensures table { T.is_of table.now pass.new }
    ensures keeps { Keeps (T.seen pass.old) (T.seen pass.new) }
    ensures forks { (T.seen pass.new).forks ≡ (T.seen pass.old).forks }
    ensures meets { OnOk result ((T.seen pass.new).meets ≡ (T.seen pass.old).meets + vec_len workers) }
    ensures met { OnOk result ((script : List NumberedCommand) (reads : List FileRead)
        → All (λ worker. IsDone script reads (T.seen pass.old).known (T.seen worker.pass) worker.given.items worker.is_short)
        workers.items
        → AreRight (T.seen pass.old).known script reads outcomes.old
        → HasMet script reads (T.seen pass.old).known (T.seen pass.new).known outcomes.new) }
{
    'meeting: while let Some(worker) = workers.pop() {
        meet_one(alloc, table, pass, outcomes, worker)?;
    }
    Ok(())
}
