//! Large files are loaded in parts, before the jobs of the levels.
ghost use Rattle.std.specs.Prelude.{◌≡◌, ◌+◌, ◌*◌, ◌<◌, ◌≤◌, ℕ, List, suc, true, length, get_or, All, IfOk, IfSome, OnOk};
ghost use Rattle.nfg_script.specs.Script.{NumberedCommand};
ghost use Rattle.nfg_syn.specs.Seen.{Keeps};
ghost use Rattle.nfg_work.specs.declared.output.FileRead.{FileRead as Read};
ghost use Rattle.nfg_work.specs.Evaluation.{AreWithinLimit};
ghost use Rattle.nfg_work.specs.Jobs.{IsFileAt, IsJobDone};
ghost use Rattle.nfg_work.specs.Outcomes.{AreRight};
ghost use Rattle.nfg_work.specs.Planned.{IsPlan};
ghost use Rattle.nfg_work.specs.Workers.{CountAlike, HasMet};

use crate::defining::is_over;
use crate::job::outcome_of;
use crate::loading_parts::load_parts;
use crate::making::stop_of;
use crate::outcome::Outcome;
use crate::plan::Plan;
use crate::progress::Progress;
use crate::{FileRead, Gate, OpenGate};
use nfg_decode::Encoding;
use nfg_script::{Command, Script};
use nfg_syn::Shared;
use std::alloc::{AllocError, Global};
use std::marker::Sync;
use std::thread::Threads;

/// How many bytes a file has at least that is worth parts.
const LARGE: usize = 1 << 20;

/// How many bytes a large file has at least, where so many workers do a script of these files. One worker takes no file
/// in parts. Where the files are many, workers take whole ones side by side, since then nothing is joined: a file is
/// large where it is more than its worker's share of two rounds.
pub(crate) fn least_of_large(reads: &[FileRead], workers: u32) -> usize
    requires some { 1 ≤ workers }
{
    if workers == 1 {
        return usize::MAX;
    }
    let mut all = 0usize;
    for read in reads {
        all = all.saturating_add(len_of(read));
    }
    LARGE.max(all / 2 / workers as usize + 1)
}

/// How many bytes were read.
fn len_of(read: &FileRead) -> usize {
    match read {
        FileRead::Bytes(bytes) => bytes.len(),
        _ => 0,
    }
}

/// A large file, and the encoding in which a command loads it.
#[derive(Clone, Copy)]
pub(crate) struct LargeFile<'a> {
    pub(crate) encoding: Encoding,
    pub(crate) bytes: &'a [u8],
}

/// The file of the command at `k`, where it loads a large one, which has `least` bytes or more.
pub(crate) fn large_file<'a>(
    script: &Script,
    plan: &Plan,
    reads: &'a [FileRead],
    least: usize,
    k: usize,
) -> Option<LargeFile<'a>>
    requires place { k < length script.now }
    requires plan { IsPlan script.now plan.now }
    ensures file { IfSome result (λ file. IsFileAt script.entry.now reads.entry.now k file.encoding file.bytes.now) }
    ensures limit { AreWithinLimit reads.entry.now → IfSome result (λ file. length file.bytes.now ≤ 67108864) }
{
    let encoding = match script.command(k) {
        Command::Load { name: _, enc } => enc,
        _ => return None,
    };
    let loads = plan.loads_before[k];
    match reads.get(loads) {
        Some(FileRead::Bytes(bytes)) => {
            if bytes.len() < least {
                return None;
            }
            Some(LargeFile {
                encoding,
                bytes: bytes.as_slice(),
            })
        }
        _ => None,
    }
}

/// So many places that cut so many bytes into parts of one size, of which the last has the rest besides.
fn even_cuts(alloc: Global, len: usize, count: u32) -> Result<Vec<usize>, AllocError>
    requires few { count ≤ 63 }
    ensures many { IfOk result (λ cuts. length cuts.items ≡ count) }
    ensures ascending { IfOk result (λ cuts. (k : ℕ) → suc k < length cuts.items
        → get_or cuts.items k 0 ≤ get_or cuts.items (suc k) 0) }
    ensures within { IfOk result (λ cuts. All (λ cut. cut ≤ len) cuts.items) }
{
    let part = len / (count as usize + 1);
    let mut cuts = Vec::new(alloc);
    let mut at = 0;
    'cutting: for _k in 0..count {
        at += part;
        cuts.push(at)?;
    }
    Ok(cuts)
}

/// What a command gives that loads a large file, in parts of which `others` are read beside the first.
fn load_large_file<R: Threads + Sync, T: Shared>(
    rt: &R,
    alloc: Global,
    table: &T,
    pass: &mut T::Pass,
    file: LargeFile<'_>,
    others: u32,
) -> Result<Outcome, AllocError>
    requires others { others ≤ 63 }
    requires limit { length file.bytes.now ≤ 67108864 }
    requires root { (T.seen pass.old).root ≡ true }
    requires table { T.is_of table.now pass.old }
    ensures table { T.is_of table.now pass.new }
    ensures keeps { Keeps (T.seen pass.old) (T.seen pass.new) }
    ensures counted { OnOk result (CountAlike others (T.seen pass.old) (T.seen pass.new)) }
    ensures done { (script : List NumberedCommand) (reads : List Read) (k : ℕ)
        → IsFileAt script reads k file.entry.encoding file.entry.bytes.now
        → IsJobDone script reads k (T.seen pass.old).known (T.seen pass.new).known result }
{
    let cuts = even_cuts(alloc, file.bytes.len(), others)?;
    let made = load_parts(
        rt,
        alloc,
        table,
        pass,
        file.encoding,
        file.bytes,
        cuts.as_slice(),
        &OpenGate,
    );
    match made {
        Ok(string) => Ok(Outcome::Made(string)),
        Err(error) => outcome_of(Err(stop_of(error))),
    }
}

/// Does the command at `k`, where it loads a large file and stands behind no refused command. Where the strings would cost too
/// much with this one, it is put off: the gate is told of it, and nothing is done.
fn load_at<R: Threads + Sync, T: Shared, G: Gate>(
    rt: &R,
    alloc: Global,
    table: &T,
    pass: &mut T::Pass,
    script: &Script,
    plan: &Plan,
    reads: &[FileRead],
    outcomes: &mut [Outcome],
    k: usize,
    others: u32,
    progress: &mut Progress,
    gate: &G,
) -> Result<(), AllocError>
    requires others { others ≤ 63 }
    requires place { k < length script.now }
    requires plan { IsPlan script.now plan.now }
    requires reads { AreWithinLimit reads.now }
    requires root { (T.seen pass.old).root ≡ true }
    requires table { T.is_of table.now pass.old }
    requires outcomes { AreRight (T.seen pass.old).known script.now reads.now outcomes.old }
    ensures table { T.is_of table.now pass.new }
    ensures keeps { Keeps (T.seen pass.old) (T.seen pass.new) }
    ensures counted { OnOk result (CountAlike others (T.seen pass.old) (T.seen pass.new)) }
    ensures met { OnOk result (HasMet script.now reads.now (T.seen pass.old).known (T.seen pass.new).known outcomes.new) }
{
    if k >= progress.end {
        return Ok(());
    }
    let file = match large_file(script, plan, reads, progress.large, k) {
        Some(file) => file,
        None => return Ok(()),
    };
    let job = match u32::try_from(k) {
        Ok(job) => job,
        Err(_) => return Err(AllocError),
    };
    let cost = file.bytes.len() as u64;
    gate.enter(job);
    if is_over(progress.spent, cost) {
        gate.leave(job);
        return Ok(());
    }
    progress.spent = progress.spent.saturating_add(cost);
    let loaded = load_large_file(rt, alloc, table, pass, file, others);
    gate.leave(job);
    let outcome = loaded?;
    progress.note(k, &outcome);
    outcomes[k] = outcome;
    Ok(())
}

/// Loads each large file of the script, in the order of the commands, in parts of which `others` are read beside the first.
/// Where there are none, nothing is done: such a load is a job like any other.
pub(crate) fn load_large<R: Threads + Sync, T: Shared, G: Gate>(
    rt: &R,
    alloc: Global,
    table: &T,
    pass: &mut T::Pass,
    script: &Script,
    plan: &Plan,
    reads: &[FileRead],
    outcomes: &mut [Outcome],
    others: u32,
    progress: &mut Progress,
    gate: &G,
) -> Result<(), AllocError>
    requires others { others ≤ 63 }
    requires plan { IsPlan script.now plan.now }
    requires reads { AreWithinLimit reads.now }
    requires root { (T.seen pass.old).root ≡ true }
    requires table { T.is_of table.now pass.old }
    requires outcomes { AreRight (T.seen pass.old).known script.now reads.now outcomes.old }
    ensures table { T.is_of table.now pass.new }
    ensures keeps { Keeps (T.seen pass.old) (T.seen pass.new) }
    ensures counted { OnOk result (CountAlike (others * length script.now) (T.seen pass.old) (T.seen pass.new)) }
    ensures met { OnOk result (HasMet script.now reads.now (T.seen pass.old).known (T.seen pass.new).known outcomes.new) }
{
    if others == 0 {
        return Ok(());
    }
    'loading: for k in 0..script.len() {
        load_at(
            rt, alloc, table, pass, script, plan, reads, outcomes, k, others, progress, gate,
        )?;
    }
    Ok(())
}
