//! A script is evaluated by workers over a table that they share.
ghost use Rattle.std.specs.Prelude.{◌≡◌, ◌≤◌, true, IfOk, IfSome};
ghost use Rattle.nfg_syn.specs.Known.{IsRowSize};
ghost use Rattle.nfg_work.specs.Evaluation.{evaluate, AreWithinLimit};
ghost use Rattle.nfg_work.specs.Laws.{HasEnoughPlaces};
ghost use Rattle.nfg_run.specs.CommandLine.{IsWorkerCount};

use crate::{Cause, FileRead, Output};
use nfg_script::{Command, Script};
use nfg_words::WordTable;
use nfg_work::laws::more_places_change_nothing;
use nfg_work::{Gate, SharedError, run_alone, run_shared};
use std::alloc::{AllocError, Global};
use std::marker::Sync;
use std::thread::Threads;

/// So many places a small table that the workers share has.
const SMALL: u32 = 1 << 12;

/// So many places one of middle size has.
const MIDDLE: u32 = 1 << 16;

/// So many places bring one chunk of code words, and each line of a script may make a pass that takes one.
const PLACES_A_LINE: usize = 64;

/// How a script is evaluated: by how many workers, over a table of how many places.
#[derive(Clone, Copy)]
pub(crate) struct Means {
    pub(crate) workers: u32,
    pub(crate) places: u32,
}

/// How many bytes the files have together.
fn bytes_of(reads: &[FileRead]) -> usize {
    let mut bytes: usize = 0;
    for read in reads {
        if let FileRead::Bytes(list) = read {
            bytes = bytes.saturating_add(list.len());
        }
    }
    bytes
}

/// How many code points the texts of the script have together.
fn codes_of(script: &Script) -> usize {
    let mut codes: usize = 0;
    for k in 0..script.len() {
        if let Command::Text { .. } = script.command(k) {
            codes = codes.saturating_add(script.codes(k).len());
        }
    }
    codes
}

/// How many places the table that the workers share has: at most `places`, and fewer where the script and its files are too
/// small to take them. A table of 262,144 places takes longer to make than most scripts to evaluate.
fn enough_places(script: &Script, reads: &[FileRead], places: u32) -> u32
    requires { IsRowSize places }
    ensures size { IsRowSize result }
    ensures fewer { result ≤ places }
{
    let wanted = script
        .len()
        .saturating_mul(PLACES_A_LINE)
        .saturating_add(codes_of(script))
        .saturating_add(bytes_of(reads));
    if wanted <= SMALL as usize {
        return lesser(SMALL, places);
    }
    if wanted <= MIDDLE as usize {
        return lesser(MIDDLE, places);
    }
    places
}

/// The lesser of two sizes.
fn lesser(size: u32, places: u32) -> u32
    requires size { IsRowSize size }
    requires places { IsRowSize places }
    ensures size { IsRowSize result }
    ensures fewer { result ≤ places }
{
    if size < places { size } else { places }
}

/// Whether no line was refused for a full table.
fn has_room(output: &Output) -> bool
    ensures { result ≡ true → HasEnoughPlaces output.now }
{
    match &output.refused {
        Some(line) => match line.cause {
            Cause::TableFull => false,
            _ => true,
        },
        None => true,
    }
}

/// What the script gives, by workers over a table that they share. None where the table has no room for a cluster.
fn shared_output<R: Threads + Sync, G: Gate>(
    rt: &R,
    alloc: Global,
    script: &Script,
    reads: &[FileRead],
    means: Means,
    gate: &G,
) -> Result<Option<Output>, AllocError>
    requires workers { IsWorkerCount means.workers }
    requires places { IsRowSize means.places }
    requires reads { AreWithinLimit reads.now }
    ensures { IfOk result (λ given. IfSome given (λ output. output ≡ evaluate script.now reads.now means.places)) }
{
    let (table, mut pass) = WordTable::new(alloc, means.places)?;
    match run_shared(
        rt,
        alloc,
        &table,
        &mut pass,
        script,
        reads,
        means.workers,
        gate,
    ) {
        Ok(output) => Ok(Some(output)),
        Err(SharedError::OutOfMemory) => Err(AllocError),
        Err(_) => Ok(None),
    }
}

/// What the script gives, from what was read for its loads, over a table of so many places. The workers share one of as many or
/// fewer. Where it has no room for a cluster, be it one of a refused line or of a line after it, one worker evaluates the
/// script over a table of its own.
pub(crate) fn evaluated<R: Threads + Sync, G: Gate>(
    rt: &R,
    alloc: Global,
    script: &Script,
    reads: &[FileRead],
    means: Means,
    gate: &G,
) -> Result<Output, AllocError>
    requires workers { IsWorkerCount means.workers }
    requires places { IsRowSize means.places }
    requires reads { AreWithinLimit reads.now }
    ensures { IfOk result (λ output. output ≡ evaluate script.now reads.now means.places) }
{
    more_places_change_nothing();
    let shared = Means {
        workers: means.workers,
        places: enough_places(script, reads, means.places),
    };
    match shared_output(rt, alloc, script, reads, shared, gate)? {
        Some(output) => {
            if has_room(&output) {
                return Ok(output);
            }
            run_alone(alloc, script, reads, means.places)
        }
        None => run_alone(alloc, script, reads, means.places),
    }
}
