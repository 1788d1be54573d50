//! A script is evaluated by several workers over a table that they share.
ghost use Rattle.std.specs.Prelude.{◌≡◌, ◌*◌, ◌≤◌, length, true};
ghost use Rattle.nfg_syn.specs.Seen.{Keeps};
ghost use Rattle.nfg_work.specs.Evaluation.{AreWithinLimit};
ghost use Rattle.nfg_work.specs.Sharing.{IsSharedAnswer, CountAlikeUnless};

use crate::ahead::do_levels;
use crate::shared::answer_shared;
use crate::{FileRead, Gate, Output, SharedError};
use nfg_script::Script;
use nfg_syn::Shared;
use nfg_text::ByteList;
use std::alloc::Global;
use std::marker::Sync;
use std::thread::Threads;

/// What the script gives, from what was read for its loads, by so many workers over a table that they share. Commands
/// that need no others of their level are done at once: the k-th of a level by worker k modulo the number of workers.
/// With two workers or more, the loads of files of at least 2^20 bytes go before the levels: one after another in the order of the
/// script, each in as many parts as there are workers, and they are not counted among the jobs of a level. What stands behind
/// a command that is found to be refused is left out of the levels that follow.
/// `gate` is told when a worker begins a command, and when it is done with it. What is printed is put together at the end, in
/// the order of the lines.
///
/// `RowFull` has the first grapheme cluster of the answers for which the table has no place, and `NoPortion` says that it
/// has no room for code points. Every pass that was forked has been met again then.
pub fn run_shared<R: Threads + Sync, T: Shared, G: Gate>(
    rt: &R,
    alloc: Global,
    table: &T,
    pass: &mut T::Pass,
    script: &Script,
    reads: &[FileRead],
    workers: u32,
    gate: &G,
) -> Result<Output, SharedError>
    requires at_least { 1 ≤ workers }
    requires at_most { workers ≤ 64 }
    requires reads { AreWithinLimit reads.now }
    requires table { T.is_of table.now pass.old }
    requires root { (T.seen pass.old).root ≡ true }
    ensures table { T.is_of table.now pass.new }
    ensures keeps { Keeps (T.seen pass.old) (T.seen pass.new) }
    ensures counted { CountAlikeUnless (2 * workers * length script.now) (T.seen pass.old) (T.seen pass.new) result }
    ensures answered { IsSharedAnswer (T.size table.now) script.now reads.now (T.seen pass.old) (T.seen pass.new) result }
{
    if script.len() == 0 {
        return Ok(Output {
            bytes: ByteList::new(alloc),
            refused: None,
        });
    }
    match do_levels(rt, alloc, table, pass, script, reads, workers, gate) {
        Ok(outcomes) => answer_shared(alloc, table, pass, script, reads, outcomes),
        Err(_) => Err(SharedError::OutOfMemory),
    }
}
