//! How far the jobs of a script are done, ahead of the answers.
ghost use Rattle.std.specs.Prelude.{◌<◌, length, All};
ghost use Rattle.nfg_work.specs.Planned.{IsPlan};

use crate::job::string_before;
use crate::outcome::Outcome;
use crate::work::Work;
use nfg_script::Command;

/// How far the jobs of a script are done, ahead of the answers.
#[derive(Clone, Copy)]
pub(crate) struct Progress {
    /// What the strings cost that were made so far.
    pub(crate) spent: u64,
    /// The first command that gave nothing though all that it needs was there, or else the number of commands. What
    /// stands behind it is left out: the answers end there.
    pub(crate) end: usize,
    /// How many bytes a large file has at least. Such files are loaded in parts before the levels.
    pub(crate) large: usize,
}

impl Progress {
    /// Notes that the command at `k` was done, and what it gave.
    pub(crate) fn note(&mut self, k: usize, outcome: &Outcome) {
        match outcome {
            Outcome::Nothing => self.end = self.end.min(k),
            _ => {}
        }
    }
}

/// Whether the command at `k` makes a string, and the strings that it needs are there.
fn has_operands(work: Work<'_>, k: usize) -> bool
    requires place { k < length work.script.now }
    requires plan { IsPlan work.script.now work.plan.now }
{
    match work.script.command(k) {
        Command::Load { .. } => true,
        Command::Text { .. } => true,
        Command::Cat { name: _, a, b } => {
            string_before(work, k, a).is_some() & string_before(work, k, b).is_some()
        }
        Command::Sub { name: _, a, .. } => string_before(work, k, a).is_some(),
        Command::Rep { name: _, a, .. } => string_before(work, k, a).is_some(),
        _ => false,
    }
}

/// Notes which of these jobs gave nothing, now that they are done.
pub(crate) fn note_done(work: Work<'_>, jobs: &[u32], progress: &mut Progress)
    requires plan { IsPlan work.script.now work.plan.now }
    requires jobs { All (λ job. job < length work.script.now) jobs.now }
{
    'noting: for job in jobs {
        let k = *job as usize;
        if has_operands(work, k) {
            if let Some(outcome) = work.outcomes.get(k) {
                progress.note(k, outcome);
            }
        }
    }
}
