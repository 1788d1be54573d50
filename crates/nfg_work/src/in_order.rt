//! The commands of a script are answered in order, from what their jobs have given.
ghost use Rattle.std.specs.Prelude.{◌≡◌, ◌<◌, length, slice_get, slice_set, Some};
ghost use Rattle.nfg_syn.specs.Seen.{Keeps, SameCounts};
ghost use Rattle.nfg_work.specs.declared.outcome.Outcome.TheVariants.{Nothing};
ghost use Rattle.nfg_work.specs.Evaluation.{AreWithinLimit};
ghost use Rattle.nfg_work.specs.Outcomes.{AreRight};
ghost use Rattle.nfg_work.specs.Answers.{IsAnswered, IsStopAt};

use crate::evaluation::Evaluation;
use crate::outcome::Outcome;
use crate::stepping::step;
use crate::stop::Stop;
use crate::{FileRead, Output, RefusedLine};
use nfg_script::Script;
use nfg_syn::{InternError, Synthetics};
use nfg_text::ByteList;
use std::alloc::Global;
use std::mem;

/// What a script gives that has given these bytes and stops at this line.
fn stopped(bytes: ByteList, line: u32, stop: Stop) -> Result<Output, InternError>
    ensures { IsStopAt bytes line stop result }
{
    match stop {
        Stop::Refused(cause) => Ok(Output {
            bytes,
            refused: Some(RefusedLine { line, cause }),
        }),
        Stop::RowFull => Err(InternError::RowFull),
        Stop::NoPortion => Err(InternError::NoPortion),
        Stop::OutOfMemory => Err(InternError::OutOfMemory),
    }
}

/// What the job of the command at `k` has given. Nothing is left in its place.
fn take_outcome(outcomes: &mut Vec<Outcome>, k: usize) -> Outcome
    requires { k < length outcomes.old.items }
    ensures taken { slice_get outcomes.old.items k ≡ Some result }
    ensures left { outcomes.new.items ≡ slice_set outcomes.old.items k Nothing }
{
    mem::replace(&mut outcomes[k], Outcome::Nothing)
}

/// What the script gives over a table that others may share, from what was read for its loads and what its
/// jobs have given.
pub(crate) fn answer_in_order<T: Synthetics>(
    alloc: Global,
    table: &T,
    pass: &mut T::Pass,
    script: &Script,
    reads: &[FileRead],
    mut outcomes: Vec<Outcome>,
) -> Result<Output, InternError>
    requires reads { AreWithinLimit reads.now }
    requires table { T.is_of table.now pass.old }
    requires outcomes { AreRight (T.seen pass.old).known script.now reads.now outcomes.items }
    ensures table { T.is_of table.now pass.new }
    ensures keeps { Keeps (T.seen pass.old) (T.seen pass.new) }
    ensures counts { SameCounts (T.seen pass.old) (T.seen pass.new) }
    ensures answered { IsAnswered (T.size table.now) script.now reads.now (T.seen pass.old) (T.seen pass.new) result }
{
    let mut held = Evaluation {
        strings: Vec::new(alloc),
        spent: 0,
        output: ByteList::new(alloc),
        next_read: 0,
    };
    'answering: for k in 0..script.len() {
        let outcome = take_outcome(&mut outcomes, k);
        match step(alloc, table, pass, &mut held, script, k, reads, outcome) {
            Ok(()) => {}
            Err(stop) => return stopped(held.output, script.line(k), stop),
        }
    }
    Ok(Output {
        bytes: held.output,
        refused: None,
    })
}
