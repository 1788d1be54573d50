//! One command of a script is done, over any table.
ghost use Rattle.std.specs.Prelude.{◌≡◌, ◌<◌, Some, length, slice_get};
ghost use Rattle.nfg_syn.specs.Seen.{Keeps, SameCounts};
ghost use Rattle.nfg_script.specs.Script.{NumberedCommand};
ghost use Rattle.nfg_work.specs.Evaluation.{State, step as step_of, AreWithinLimit};
ghost use Rattle.nfg_work.specs.Holding.{Holds, IsHeld, Follows};
ghost use Rattle.nfg_work.specs.Outcomes.{IsOutcomeOf, given_value};
ghost use Rattle.nfg_work.specs.Given.{Brings, reached_of};

use crate::FileRead;
use crate::answering::{print_len, print_put, print_shape, print_show};
use crate::comparing::{print_cmp, print_eq, print_find, print_rfind};
use crate::defining::{load, sub, text};
use crate::evaluation::Evaluation;
use crate::given::{equivalence, made, ordering, place};
use crate::joining::{cat, rep};
use crate::outcome::Outcome;
use crate::stop::Stop;
use nfg_script::{Command, Script};
use nfg_syn::Synthetics;
use std::alloc::Global;

/// Does the command at `k` of the script, from what its job has given.
pub(crate) fn step<T: Synthetics>(
    alloc: Global,
    table: &T,
    pass: &mut T::Pass,
    held: &mut Evaluation,
    script: &Script,
    k: usize,
    reads: &[FileRead],
    outcome: Outcome,
) -> Result<(), Stop>
    requires place { k < length script.now }
    requires reads { AreWithinLimit reads.now }
    requires table { T.is_of table.now pass.old }
    requires held { IsHeld (T.seen pass.old).known reads.now held.old }
    ensures table { T.is_of table.now pass.new }
    ensures keeps { Keeps (T.seen pass.old) (T.seen pass.new) }
    ensures counts { SameCounts (T.seen pass.old) (T.seen pass.new) }
    ensures done { (numbered : NumberedCommand) (state : State)
        → slice_get script.now k ≡ Some numbered
        → Holds (T.seen pass.old).known reads.now held.old state
        → IsOutcomeOf (T.seen pass.old).known (reached_of state) numbered numbered.command outcome
        → Follows (T.size table.now) (T.seen pass.old) (T.seen pass.new) reads.now state.used held.old held.new
        result (step_of (T.size table.now) state numbered numbered.command) }
    ensures brings { (numbered : NumberedCommand) (state : State)
        → slice_get script.now k ≡ Some numbered
        → Holds (T.seen pass.old).known reads.now held.old state
        → IsOutcomeOf (T.seen pass.old).known (reached_of state) numbered numbered.command outcome
        → Brings (given_value (reached_of state) numbered numbered.command)
        (T.seen pass.old) (T.seen pass.new) result }
{
    match script.command(k) {
        Command::Load { name: _, enc } => load(alloc, table, pass, held, enc, reads, made(outcome)),
        Command::Text { name: _ } => text(alloc, table, pass, held, script.codes(k), made(outcome)),
        Command::Cat { name: _, a, b } => cat(alloc, table, pass, held, a, b, made(outcome)),
        Command::Sub {
            name: _,
            a,
            start,
            count,
        } => sub(alloc, held, a, start, count, made(outcome)),
        Command::Rep { name: _, a, count } => rep(
            alloc,
            table,
            pass,
            held,
            a,
            count,
            made(outcome),
        ),
        Command::Find { a, b, at } => print_find(
            alloc,
            table,
            pass,
            held,
            a,
            b,
            at,
            place(outcome),
        ),
        Command::Rfind { a, b, at } => print_rfind(
            alloc,
            table,
            pass,
            held,
            a,
            b,
            at,
            place(outcome),
        ),
        Command::Eq { a, b } => print_eq(alloc, table, pass, held, a, b, equivalence(outcome)),
        Command::Cmp { a, b } => print_cmp(alloc, table, pass, held, a, b, ordering(outcome)),
        Command::Len { a } => print_len(alloc, held, a),
        Command::Show { a } => print_show(alloc, table, pass, held, a),
        Command::Shape { a } => print_shape(alloc, held, a),
        Command::Put { a, enc } => print_put(alloc, table, pass, held, a, enc),
    }
}
