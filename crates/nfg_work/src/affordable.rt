//! The jobs of a level that are done ahead: the cost of all strings has room for them.
ghost use Rattle.std.specs.Prelude.{◌<◌, length, All, IfOk};
ghost use Rattle.nfg_work.specs.Planned.{IsPlan};

use crate::defining::is_over;
use crate::job::string_before;
use crate::large::large_file;
use crate::progress::Progress;
use crate::work::Work;
use crate::{FileRead, Gate};
use nfg_script::Command;
use nfg_strand::NString;
use std::alloc::{AllocError, Global};

/// How many graphemes a string has that may be there.
fn len_of(string: Option<&NString>) -> u64 {
    match string {
        Some(string) => string.len(),
        None => 0,
    }
}

/// What the string of the job at `k` costs, as far as the strings of its names are there.
fn cost_of(work: Work<'_>, k: usize) -> u64
    requires place { k < length work.script.now }
    requires plan { IsPlan work.script.now work.plan.now }
{
    match work.script.command(k) {
        Command::Load { .. } => match work.reads.get(work.plan.loads_before[k]) {
            Some(FileRead::Bytes(bytes)) => bytes.len() as u64,
            _ => 0,
        },
        Command::Text { .. } => work.script.codes(k).len() as u64,
        Command::Cat { name: _, a, b } => {
            let left = len_of(string_before(work, k, a));
            left.saturating_add(len_of(string_before(work, k, b)))
        }
        Command::Sub {
            name: _,
            a,
            start,
            count,
        } => len_of(string_before(work, k, a))
            .saturating_sub(start)
            .min(count),
        Command::Rep { name: _, a, count } => len_of(string_before(work, k, a)).saturating_mul(
            count,
        ),
        _ => 0,
    }
}

/// Whether the job at `k` is none of its level: it stands behind a refused command, or it is a load of a large file and those
/// were done before, in parts.
fn is_left_out(work: Work<'_>, k: usize, progress: &Progress) -> bool
    requires place { k < length work.script.now }
    requires plan { IsPlan work.script.now work.plan.now }
{
    if k >= progress.end {
        return true;
    }
    large_file(work.script, work.plan, work.reads, progress.large, k).is_some()
}

/// The jobs whose strings, with those that were made before, don't cost too much. The others are put off: the gate is
/// told of them, and nothing is done. It is told nothing of those that are left out.
pub(crate) fn affordable<G: Gate>(
    alloc: Global,
    work: Work<'_>,
    jobs: &[u32],
    progress: &mut Progress,
    gate: &G,
) -> Result<Vec<u32>, AllocError>
    requires plan { IsPlan work.script.now work.plan.now }
    requires jobs { All (λ job. job < length work.script.now) jobs.now }
    ensures jobs { IfOk result (λ kept. All (λ job. job < length work.entry.script.now) kept.items) }
{
    let mut kept = Vec::with_capacity(alloc, jobs.len())?;
    'affording: for job in jobs {
        let k = *job as usize;
        if is_left_out(work, k, progress) {
            continue;
        }
        let cost = cost_of(work, k);
        if is_over(progress.spent, cost) {
            gate.enter(*job);
            gate.leave(*job);
        } else {
            progress.spent = progress.spent.saturating_add(cost);
            kept.push(*job)?;
        }
    }
    Ok(kept)
}
