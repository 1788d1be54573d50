//! A script is evaluated by one worker over a table of its own.
ghost use Rattle.std.specs.Prelude.{◌≡◌, IfOk};
ghost use Rattle.nfg_syn.specs.Known.{IsRowSize};
ghost use Rattle.nfg_work.specs.Evaluation.{evaluate, AreWithinLimit};
ghost use Rattle.nfg_work.specs.Holding.{IsEnd, cause_of as cause_of_stop};

use crate::evaluation::Evaluation;
use crate::outcome::Outcome;
use crate::stepping::step;
use crate::stop::Stop;
use crate::{Cause, FileRead, Output, RefusedLine};
use nfg_script::Script;
use nfg_syn::OwnTable;
use nfg_text::ByteList;
use std::alloc::{AllocError, Global};

/// Why a line is refused, or nothing for want of memory. The table has no other caller, so it refuses a
/// cluster just where the script has too many.
fn cause_of(stop: Stop) -> Option<Cause>
    ensures { result ≡ cause_of_stop stop }
{
    match stop {
        Stop::Refused(cause) => Some(cause),
        Stop::RowFull => Some(Cause::TableFull),
        Stop::NoPortion => Some(Cause::TableFull),
        Stop::OutOfMemory => None,
    }
}

/// What a script gives that has given these bytes and ends with this line.
fn ended(bytes: ByteList, line: u32, stop: Stop) -> Result<Output, AllocError>
    ensures { IfOk result (IsEnd bytes line (cause_of_stop stop)) }
{
    match cause_of(stop) {
        Some(cause) => Ok(Output {
            bytes,
            refused: Some(RefusedLine { line, cause }),
        }),
        None => Err(AllocError),
    }
}

/// What the script gives, from what was read for its loads, over a table of `n` places.
pub fn run_alone(
    alloc: Global,
    script: &Script,
    reads: &[FileRead],
    n: u32,
) -> Result<Output, AllocError>
    requires row_size { IsRowSize n }
    requires reads { AreWithinLimit reads.now }
    ensures { IfOk result (λ output. output ≡ evaluate script.now reads.now n) }
{
    let (table, mut pass) = OwnTable::new(alloc, n)?;
    let mut held = Evaluation {
        strings: Vec::new(alloc),
        spent: 0,
        output: ByteList::new(alloc),
        next_read: 0,
    };
    'running: for k in 0..script.len() {
        let outcome = Outcome::Nothing;
        match step(
            alloc, &table, &mut pass, &mut held, script, k, reads, outcome,
        ) {
            Ok(()) => {}
            Err(stop) => return ended(held.output, script.line(k), stop),
        }
    }
    Ok(Output {
        bytes: held.output,
        refused: None,
    })
}
