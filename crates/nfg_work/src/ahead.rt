//! The jobs of a script are done ahead of the answers, level by level.
ghost use Rattle.std.specs.Prelude.{◌≡◌, ◌+◌, ◌-◌, ◌*◌, ◌<◌, ◌≤◌, true, length, All, IfOk, OnOk};
ghost use Rattle.nfg_syn.specs.Seen.{Keeps};
ghost use Rattle.nfg_work.specs.Evaluation.{AreWithinLimit};
ghost use Rattle.nfg_work.specs.Planned.{IsPlan};
ghost use Rattle.nfg_work.specs.Outcomes.{AreRight, GrowsBy};
ghost use Rattle.nfg_work.specs.Workers.{CountAlike, HasMet};

use crate::affordable::affordable;
use crate::large::{least_of_large, load_large};
use crate::level_jobs::jobs_by_level;
use crate::meeting::{keep_all, meet_all};
use crate::outcome::Outcome;
use crate::plan::Plan;
use crate::progress::{Progress, note_done};
use crate::work::Work;
use crate::workers::{do_shares, new_workers};
use crate::{FileRead, Gate};
use nfg_script::Script;
use nfg_syn::Shared;
use std::alloc::{AllocError, Global};
use std::marker::Sync;
use std::thread::Threads;

/// How many workers do so many jobs beside the first.
fn others(workers: u32, jobs: usize) -> usize
    requires { workers ≤ 64 }
    ensures few { result < 64 }
    ensures within { result ≤ workers }
{
    let most = jobs.min(workers as usize);
    if most == 0 { 0 } else { most - 1 }
}

/// Does the jobs of one level, and keeps what they give.
fn do_level<R: Threads + Sync, T: Shared, G: Gate>(
    rt: &R,
    alloc: Global,
    table: &T,
    pass: &mut T::Pass,
    script: &Script,
    plan: &Plan,
    reads: &[FileRead],
    outcomes: &mut [Outcome],
    jobs: &[u32],
    workers: u32,
    gate: &G,
) -> Result<(), AllocError>
    requires workers { workers ≤ 64 }
    requires jobs { All (λ job. job < length script.now) jobs.now }
    requires plan { IsPlan script.now plan.now }
    requires reads { AreWithinLimit reads.now }
    requires root { (T.seen pass.old).root ≡ true }
    requires table { T.is_of table.now pass.old }
    requires outcomes { AreRight (T.seen pass.old).known script.now reads.now outcomes.old }
    ensures table { T.is_of table.now pass.new }
    ensures keeps { Keeps (T.seen pass.old) (T.seen pass.new) }
    ensures counted { OnOk result (CountAlike workers (T.seen pass.old) (T.seen pass.new)) }
    ensures met { OnOk result (HasMet script.now reads.now (T.seen pass.old).known (T.seen pass.new).known outcomes.new) }
{
    let mut forks = new_workers(alloc, table, pass, others(workers, jobs.len()))?;
    let work = Work {
        script,
        plan,
        reads,
        outcomes,
    };
    let given = do_shares(
        rt,
        alloc,
        table,
        pass,
        work,
        jobs,
        gate,
        forks.as_mut_slice(),
    )?;
    keep_all(outcomes, given);
    meet_all(alloc, table, pass, outcomes, forks)
}

/// An outcome for each of so many commands: nothing yet.
fn no_outcomes(alloc: Global, count: usize) -> Result<Vec<Outcome>, AllocError>
    ensures many { IfOk result (λ outcomes. length outcomes.items ≡ count) }
    ensures nothing { IfOk result (λ outcomes. All (λ outcome. outcome ≡ Outcome.Nothing) outcomes.items) }
{
    let mut outcomes = Vec::with_capacity(alloc, count)?;
    'filling: for _k in 0..count {
        outcomes.push(Outcome::Nothing)?;
    }
    Ok(outcomes)
}

/// Does those jobs of one level that the cost of all strings has room for and that stand behind no refused command.
fn do_affordable<R: Threads + Sync, T: Shared, G: Gate>(
    rt: &R,
    alloc: Global,
    table: &T,
    pass: &mut T::Pass,
    script: &Script,
    plan: &Plan,
    reads: &[FileRead],
    outcomes: &mut [Outcome],
    jobs: &[u32],
    workers: u32,
    progress: &mut Progress,
    gate: &G,
) -> Result<(), AllocError>
    requires workers { workers ≤ 64 }
    requires jobs { All (λ job. job < length script.now) jobs.now }
    requires plan { IsPlan script.now plan.now }
    requires reads { AreWithinLimit reads.now }
    requires root { (T.seen pass.old).root ≡ true }
    requires table { T.is_of table.now pass.old }
    requires outcomes { AreRight (T.seen pass.old).known script.now reads.now outcomes.old }
    ensures table { T.is_of table.now pass.new }
    ensures keeps { Keeps (T.seen pass.old) (T.seen pass.new) }
    ensures counted { OnOk result (CountAlike workers (T.seen pass.old) (T.seen pass.new)) }
    ensures met { OnOk result (HasMet script.now reads.now (T.seen pass.old).known (T.seen pass.new).known outcomes.new) }
{
    let work = Work {
        script,
        plan,
        reads,
        outcomes,
    };
    let list = affordable(alloc, work, jobs, progress, gate)?;
    let kept = list.as_slice();
    do_level(
        rt, alloc, table, pass, script, plan, reads, outcomes, kept, workers, gate,
    )?;
    let work = Work {
        script,
        plan,
        reads,
        outcomes,
    };
    note_done(work, kept, progress);
    Ok(())
}

/// Does the jobs of a script on so many workers, and gives what each command has given.
pub(crate) fn do_levels<R: Threads + Sync, T: Shared, G: Gate>(
    rt: &R,
    alloc: Global,
    table: &T,
    pass: &mut T::Pass,
    script: &Script,
    reads: &[FileRead],
    workers: u32,
    gate: &G,
) -> Result<Vec<Outcome>, AllocError>
    requires some { 1 ≤ workers }
    requires few { workers ≤ 64 }
    requires reads { AreWithinLimit reads.now }
    requires table { T.is_of table.now pass.old }
    requires root { (T.seen pass.old).root ≡ true }
    ensures table { T.is_of table.now pass.new }
    ensures keeps { Keeps (T.seen pass.old) (T.seen pass.new) }
    // the loads of large files, and the levels
    ensures counted { OnOk result (CountAlike ((workers - 1) * length script.now + workers * length script.now)
        (T.seen pass.old) (T.seen pass.new)) }
    ensures grown { OnOk result (GrowsBy script.now reads.now (T.seen pass.old).known (T.seen pass.new).known) }
    ensures right { IfOk result (λ outcomes. AreRight (T.seen pass.new).known script.now reads.now outcomes.items) }
{
    let plan = Plan::new(alloc, script)?;
    let jobs = jobs_by_level(alloc, script)?;
    let mut list = no_outcomes(alloc, script.len())?;
    let mut progress = Progress {
        spent: 0,
        end: script.len(),
        large: least_of_large(reads, workers),
    };
    load_large(
        rt,
        alloc,
        table,
        pass,
        script,
        &plan,
        reads,
        list.as_mut_slice(),
        workers - 1,
        &mut progress,
        gate,
    )?;
    'leveling: for level in 0..jobs.len() {
        let outcomes = list.as_mut_slice();
        let all = jobs[level].as_slice();
        do_affordable(
            rt,
            alloc,
            table,
            pass,
            script,
            &plan,
            reads,
            outcomes,
            all,
            workers,
            &mut progress,
            gate,
        )?;
    }
    Ok(list)
}
