//! The jobs of each level of a script.
ghost use Rattle.std.specs.Prelude.{◌+◌, ◌<◌, ◌≤◌, ℕ, length, vec_len, All, IfOk};

use crate::level::levels;
use nfg_script::{Command, Script};
use std::alloc::{AllocError, Global};

/// Whether the command is a job: it makes a string, searches or compares.
fn is_job(command: Command) -> bool {
    match command {
        Command::Len { .. } => false,
        Command::Show { .. } => false,
        Command::Shape { .. } => false,
        Command::Put { .. } => false,
        _ => true,
    }
}

/// Adds a job to the list of its level. A level stands at most one above those that are there, since a job
/// stands one above jobs of lower levels.
fn add_job(lists: &mut Vec<Vec<u32>>, alloc: Global, level: u32, job: u32) -> Result<(), AllocError>
    ensures places { (end : ℕ) → job < end → All (λ list. All (λ place. place < end) list.items) lists.old.items
        → All (λ list. All (λ place. place < end) list.items) lists.new.items }
    ensures few { vec_len lists.new ≤ vec_len lists.old + 1 }
{
    let level = level as usize;
    if level == lists.len() {
        lists.push(Vec::new(alloc))?;
    }
    if level < lists.len() {
        lists[level].push(job)?;
    }
    Ok(())
}

/// Adds the command at `k` to the list of its level, where it is a job. No script that memory holds has 2^32 commands.
fn add_command(
    lists: &mut Vec<Vec<u32>>,
    alloc: Global,
    level: u32,
    command: Command,
    k: usize,
) -> Result<(), AllocError>
    ensures places { (end : ℕ) → k < end → All (λ list. All (λ place. place < end) list.items) lists.old.items
        → All (λ list. All (λ place. place < end) list.items) lists.new.items }
    ensures few { vec_len lists.new ≤ vec_len lists.old + 1 }
{
    if !is_job(command) {
        return Ok(());
    }
    match u32::try_from(k) {
        Ok(job) => add_job(lists, alloc, level, job),
        Err(_) => Err(AllocError),
    }
}

/// The jobs of each level, in order.
pub(crate) fn jobs_by_level(alloc: Global, script: &Script) -> Result<Vec<Vec<u32>>, AllocError>
    ensures places { IfOk result (λ lists. All (λ list. All (λ place. place < length script.now) list.items)
        lists.items) }
    ensures few { IfOk result (λ lists. vec_len lists ≤ length script.now) }
{
    let list = levels(alloc, script)?;
    let levels = list.as_slice();
    let mut lists = Vec::new(alloc);
    'listing: for k in 0..script.len() {
        add_command(&mut lists, alloc, levels[k], script.command(k), k)?;
    }
    Ok(lists)
}
