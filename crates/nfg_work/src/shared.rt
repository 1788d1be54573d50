//! The commands of a script are answered over a table that others share.
ghost use Rattle.std.specs.Prelude.{◌≡◌, true};
ghost use Rattle.nfg_syn.specs.Seen.{Keeps};
ghost use Rattle.nfg_work.specs.Evaluation.{AreWithinLimit};
ghost use Rattle.nfg_work.specs.Outcomes.{AreRight};
ghost use Rattle.nfg_work.specs.Sharing.{IsSharedAnswer, MeetsOne, told};

use crate::in_order::answer_in_order;
use crate::outcome::Outcome;
use crate::recording::{Recording, RecordingPass};
use crate::{FileRead, Output, SharedError};
use nfg_script::Script;
use nfg_syn::{InternError, Shared};
use nfg_text::CodeList;
use std::alloc::Global;

/// What the caller is told, where this text was refused.
fn told(answered: Result<Output, InternError>, refused: CodeList) -> Result<Output, SharedError>
    ensures { result ≡ told answered refused }
{
    match answered {
        Ok(output) => Ok(output),
        Err(InternError::RowFull) => Err(SharedError::RowFull { codes: refused }),
        Err(InternError::NoPortion) => Err(SharedError::NoPortion),
        Err(InternError::OutOfMemory) => Err(SharedError::OutOfMemory),
    }
}

/// What the script gives over a shared table, from what was read for its loads and what its jobs have given.
pub(crate) fn answer_shared<T: Shared>(
    alloc: Global,
    table: &T,
    pass: &mut T::Pass,
    script: &Script,
    reads: &[FileRead],
    outcomes: Vec<Outcome>,
) -> Result<Output, SharedError>
    requires root { (T.seen pass.old).root ≡ true }
    requires reads { AreWithinLimit reads.now }
    requires table { T.is_of table.now pass.old }
    requires outcomes { AreRight (T.seen pass.old).known script.now reads.now outcomes.items }
    ensures table { T.is_of table.now pass.new }
    ensures keeps { Keeps (T.seen pass.old) (T.seen pass.new) }
    ensures counts { MeetsOne (T.seen pass.old) (T.seen pass.new) result }
    ensures answered { IsSharedAnswer (T.size table.now) script.now reads.now (T.seen pass.old) (T.seen pass.new) result }
{
    let fork = match table.fork(alloc, pass) {
        Ok(fork) => fork,
        Err(_) => return Err(SharedError::OutOfMemory),
    };
    let recording = Recording { table };
    let mut noting = RecordingPass {
        pass: fork,
        refused: CodeList::new(alloc),
    };
    let answered = answer_in_order(alloc, &recording, &mut noting, script, reads, outcomes);
    let RecordingPass {
        pass: fork,
        refused,
    } = noting;
    match table.meet(alloc, pass, fork) {
        Ok(()) => told(answered, refused),
        Err(_) => Err(SharedError::OutOfMemory),
    }
}
