//! One job of a script is done, ahead of the answers.
ghost use Rattle.std.specs.Prelude.{◌≡◌, ◌<◌, ℕ, true, length, slice_get, Some, Ok, OnOk, IfOk, IfSome};
ghost use Rattle.nfg_script.specs.declared.command.Command.TheVariants.{Load, Text, Cat, Sub, Rep, Find, Rfind, Eq, Cmp};
ghost use Rattle.nfg_script.specs.Script.{NumberedCommand, is_text};
ghost use Rattle.nfg_syn.specs.Known.{Texts, IsKnowledge};
ghost use Rattle.nfg_syn.specs.Seen.{Keeps, SameCounts};
ghost use Rattle.nfg_work.specs.Evaluation.{AreWithinLimit};
ghost use Rattle.nfg_work.specs.Jobs.{IsStringAt, IsOutcomeFor, IsJobDone};
ghost use Rattle.nfg_work.specs.Outcomes.{AreRight, IsRightAt, GrowsBy};
ghost use Rattle.nfg_work.specs.Planned.{IsPlan};

use crate::FileRead;
use crate::making::{string_of_both, string_of_copies, string_of_file, string_of_text};
use crate::outcome::Outcome;
use crate::stop::Stop;
use crate::work::Work;
use nfg_decode::Encoding;
use nfg_ops::{SubError, compare, equal, index, rindex, substring};
use nfg_script::Command;
use nfg_strand::NString;
use nfg_syn::Synthetics;
use std::alloc::{AllocError, Global};

/// The string of a name, where a command before the one at `k` has given it.
pub(crate) fn string_before<'a>(work: Work<'a>, k: usize, name: u32) -> Option<&'a NString>
    requires plan { IsPlan work.script.now work.plan.now }
    ensures { (known : Texts) → AreRight known work.entry.script.now work.entry.reads.now work.entry.outcomes.now
        → IfSome result (λ string. IsStringAt known
        work.entry.script.now work.entry.reads.now k name string.now) }
{
    let at = match work.plan.definitions.get(name as usize) {
        Some(at) => *at,
        None => return None,
    };
    if at >= k {
        return None;
    }
    match work.outcomes.get(at) {
        Some(Outcome::Made(string)) => Some(string),
        _ => None,
    }
}

/// What a job gives that makes a string.
pub(crate) fn outcome_of(made: Result<NString, Stop>) -> Result<Outcome, AllocError>
    ensures { IsOutcomeFor made result }
{
    match made {
        Ok(string) => Ok(Outcome::Made(string)),
        Err(Stop::OutOfMemory) => Err(AllocError),
        Err(_) => Ok(Outcome::Nothing),
    }
}

/// Reads the file of the load at `k`.
fn load<T: Synthetics>(
    alloc: Global,
    table: &T,
    pass: &mut T::Pass,
    work: Work<'_>,
    k: usize,
    e: Encoding,
) -> Result<Outcome, AllocError>
    requires place { k < length work.script.now }
    requires reads { AreWithinLimit work.reads.now }
    requires plan { IsPlan work.script.now work.plan.now }
    requires table { T.is_of table.now pass.old }
    requires outcomes { AreRight (T.seen pass.old).known work.script.now work.reads.now
        work.outcomes.now }
    ensures table { T.is_of table.now pass.new }
    ensures keeps { Keeps (T.seen pass.old) (T.seen pass.new) }
    ensures counts { SameCounts (T.seen pass.old) (T.seen pass.new) }
    ensures done { (numbered : NumberedCommand) (name : ℕ)
        → slice_get work.entry.script.now k ≡ Some numbered
        → numbered.command ≡ Load name e
        → IsJobDone work.entry.script.now work.entry.reads.now k
        (T.seen pass.old).known (T.seen pass.new).known result }
{
    let loads = work.plan.loads_before[k];
    match work.reads.get(loads) {
        Some(FileRead::Bytes(bytes)) => {
            outcome_of(string_of_file(alloc, table, pass, e, bytes.as_slice()))
        }
        _ => Ok(Outcome::Nothing),
    }
}

/// Makes the string of the text at `k`.
fn text<T: Synthetics>(
    alloc: Global,
    table: &T,
    pass: &mut T::Pass,
    work: Work<'_>,
    k: usize,
) -> Result<Outcome, AllocError>
    requires place { k < length work.script.now }
    requires text { IfSome (slice_get work.script.now k)
        (λ numbered. is_text numbered.command ≡ true) }
    requires plan { IsPlan work.script.now work.plan.now }
    requires table { T.is_of table.now pass.old }
    requires outcomes { AreRight (T.seen pass.old).known work.script.now work.reads.now
        work.outcomes.now }
    ensures table { T.is_of table.now pass.new }
    ensures keeps { Keeps (T.seen pass.old) (T.seen pass.new) }
    ensures counts { SameCounts (T.seen pass.old) (T.seen pass.new) }
    ensures done { (numbered : NumberedCommand) (name : ℕ)
        → slice_get work.entry.script.now k ≡ Some numbered
        → numbered.command ≡ Text name
        → IsJobDone work.entry.script.now work.entry.reads.now k
        (T.seen pass.old).known (T.seen pass.new).known result }
{
    outcome_of(string_of_text(alloc, table, pass, work.script.codes(k)))
}

/// Joins two strings.
fn cat<T: Synthetics>(
    alloc: Global,
    table: &T,
    pass: &mut T::Pass,
    work: Work<'_>,
    k: usize,
    a: u32,
    b: u32,
) -> Result<Outcome, AllocError>
    requires plan { IsPlan work.script.now work.plan.now }
    requires table { T.is_of table.now pass.old }
    requires outcomes { AreRight (T.seen pass.old).known work.script.now work.reads.now
        work.outcomes.now }
    ensures table { T.is_of table.now pass.new }
    ensures keeps { Keeps (T.seen pass.old) (T.seen pass.new) }
    ensures counts { SameCounts (T.seen pass.old) (T.seen pass.new) }
    ensures done { (numbered : NumberedCommand) (name : ℕ)
        → slice_get work.entry.script.now k ≡ Some numbered
        → numbered.command ≡ Cat name a b
        → IsJobDone work.entry.script.now work.entry.reads.now k
        (T.seen pass.old).known (T.seen pass.new).known result }
{
    let left = match string_before(work, k, a) {
        Some(left) => left,
        None => return Ok(Outcome::Nothing),
    };
    let right = match string_before(work, k, b) {
        Some(right) => right,
        None => return Ok(Outcome::Nothing),
    };
    outcome_of(string_of_both(alloc, table, pass, left, right))
}

/// Repeats a string.
fn rep<T: Synthetics>(
    alloc: Global,
    table: &T,
    pass: &mut T::Pass,
    work: Work<'_>,
    k: usize,
    a: u32,
    times: u64,
) -> Result<Outcome, AllocError>
    requires plan { IsPlan work.script.now work.plan.now }
    requires table { T.is_of table.now pass.old }
    requires outcomes { AreRight (T.seen pass.old).known work.script.now work.reads.now
        work.outcomes.now }
    ensures table { T.is_of table.now pass.new }
    ensures keeps { Keeps (T.seen pass.old) (T.seen pass.new) }
    ensures counts { SameCounts (T.seen pass.old) (T.seen pass.new) }
    ensures done { (numbered : NumberedCommand) (name : ℕ)
        → slice_get work.entry.script.now k ≡ Some numbered
        → numbered.command ≡ Rep name a times
        → IsJobDone work.entry.script.now work.entry.reads.now k
        (T.seen pass.old).known (T.seen pass.new).known result }
{
    let string = match string_before(work, k, a) {
        Some(string) => string,
        None => return Ok(Outcome::Nothing),
    };
    outcome_of(string_of_copies(alloc, table, pass, string, times))
}

/// Takes a part of a string.
fn sub(
    alloc: Global,
    work: Work<'_>,
    k: usize,
    a: u32,
    start: u64,
    count: u64,
) -> Result<Outcome, AllocError>
    requires plan { IsPlan work.script.now work.plan.now }
    ensures { (size : ℕ) (known places : Texts) → IsKnowledge size known places
        → AreRight known work.entry.script.now work.entry.reads.now work.entry.outcomes.now
        → (numbered : NumberedCommand) (name : ℕ)
        → slice_get work.entry.script.now k ≡ Some numbered
        → numbered.command ≡ Sub name a start count
        → IsJobDone work.entry.script.now work.entry.reads.now k known known result }
{
    let string = match string_before(work, k, a) {
        Some(string) => string,
        None => return Ok(Outcome::Nothing),
    };
    match substring(alloc, string, start, count) {
        Ok(part) => Ok(Outcome::Made(part)),
        Err(SubError::OutOfRange) => Ok(Outcome::Nothing),
        Err(SubError::OutOfMemory) => Err(AllocError),
    }
}

/// Finds the least place, `at` or more, where a string stands in another.
fn find<T: Synthetics>(
    table: &T,
    pass: &T::Pass,
    work: Work<'_>,
    k: usize,
    a: u32,
    b: u32,
    at: u64,
) -> Outcome
    requires plan { IsPlan work.script.now work.plan.now }
    requires table { T.is_of table.now pass.now }
    requires outcomes { AreRight (T.seen pass.now).known work.script.now work.reads.now
        work.outcomes.now }
    ensures { (numbered : NumberedCommand) → slice_get work.entry.script.now k ≡ Some numbered
        → numbered.command ≡ Find a b at
        → IsJobDone work.entry.script.now work.entry.reads.now k
        (T.seen pass.now).known (T.seen pass.now).known (Ok result) }
{
    let string = match string_before(work, k, a) {
        Some(string) => string,
        None => return Outcome::Nothing,
    };
    let part = match string_before(work, k, b) {
        Some(part) => part,
        None => return Outcome::Nothing,
    };
    Outcome::Found(index(table, pass, string, part, at))
}

/// Finds the greatest place, `at` or less, where a string stands in another.
fn rfind<T: Synthetics>(
    table: &T,
    pass: &T::Pass,
    work: Work<'_>,
    k: usize,
    a: u32,
    b: u32,
    at: u64,
) -> Outcome
    requires plan { IsPlan work.script.now work.plan.now }
    requires table { T.is_of table.now pass.now }
    requires outcomes { AreRight (T.seen pass.now).known work.script.now work.reads.now
        work.outcomes.now }
    ensures { (numbered : NumberedCommand) → slice_get work.entry.script.now k ≡ Some numbered
        → numbered.command ≡ Rfind a b at
        → IsJobDone work.entry.script.now work.entry.reads.now k
        (T.seen pass.now).known (T.seen pass.now).known (Ok result) }
{
    let string = match string_before(work, k, a) {
        Some(string) => string,
        None => return Outcome::Nothing,
    };
    let part = match string_before(work, k, b) {
        Some(part) => part,
        None => return Outcome::Nothing,
    };
    Outcome::Found(rindex(table, pass, string, part, at))
}

/// Tests whether two texts are canonically equivalent.
fn eq<T: Synthetics>(table: &T, pass: &T::Pass, work: Work<'_>, k: usize, a: u32, b: u32) -> Outcome
    requires plan { IsPlan work.script.now work.plan.now }
    requires table { T.is_of table.now pass.now }
    requires outcomes { AreRight (T.seen pass.now).known work.script.now work.reads.now
        work.outcomes.now }
    ensures { (numbered : NumberedCommand) → slice_get work.entry.script.now k ≡ Some numbered
        → numbered.command ≡ Eq a b
        → IsJobDone work.entry.script.now work.entry.reads.now k
        (T.seen pass.now).known (T.seen pass.now).known (Ok result) }
{
    let left = match string_before(work, k, a) {
        Some(left) => left,
        None => return Outcome::Nothing,
    };
    let right = match string_before(work, k, b) {
        Some(right) => right,
        None => return Outcome::Nothing,
    };
    Outcome::Compared(equal(table, pass, left, right))
}

/// Orders two texts.
fn cmp<T: Synthetics>(
    table: &T,
    pass: &mut T::Pass,
    work: Work<'_>,
    k: usize,
    a: u32,
    b: u32,
) -> Outcome
    requires plan { IsPlan work.script.now work.plan.now }
    requires table { T.is_of table.now pass.old }
    requires outcomes { AreRight (T.seen pass.old).known work.script.now work.reads.now
        work.outcomes.now }
    ensures table { T.is_of table.now pass.new }
    ensures keeps { Keeps (T.seen pass.old) (T.seen pass.new) }
    ensures counts { SameCounts (T.seen pass.old) (T.seen pass.new) }
    ensures done { (numbered : NumberedCommand) → slice_get work.entry.script.now k ≡ Some numbered
        → numbered.command ≡ Cmp a b
        → IsJobDone work.entry.script.now work.entry.reads.now k
        (T.seen pass.old).known (T.seen pass.new).known (Ok result) }
{
    let left = match string_before(work, k, a) {
        Some(left) => left,
        None => return Outcome::Nothing,
    };
    let right = match string_before(work, k, b) {
        Some(right) => right,
        None => return Outcome::Nothing,
    };
    Outcome::Ordered(compare(table, pass, left, right))
}

/// Does the job at `k` of the script, from what the commands below its level have given.
pub(crate) fn do_job<T: Synthetics>(
    alloc: Global,
    table: &T,
    pass: &mut T::Pass,
    work: Work<'_>,
    k: usize,
) -> Result<Outcome, AllocError>
    requires place { k < length work.script.now }
    requires plan { IsPlan work.script.now work.plan.now }
    requires reads { AreWithinLimit work.reads.now }
    requires table { T.is_of table.now pass.old }
    requires outcomes { AreRight (T.seen pass.old).known work.script.now work.reads.now
        work.outcomes.now }
    ensures table { T.is_of table.now pass.new }
    ensures keeps { Keeps (T.seen pass.old) (T.seen pass.new) }
    ensures counts { SameCounts (T.seen pass.old) (T.seen pass.new) }
    ensures grown { OnOk result (GrowsBy work.entry.script.now work.entry.reads.now
        (T.seen pass.old).known (T.seen pass.new).known) }
    ensures right { IfOk result (λ outcome. IsRightAt (T.seen pass.new).known
        work.entry.script.now work.entry.reads.now k outcome) }
{
    match work.script.command(k) {
        Command::Load { name: _, enc } => load(alloc, table, pass, work, k, enc),
        Command::Text { name: _ } => text(alloc, table, pass, work, k),
        Command::Cat { name: _, a, b } => cat(alloc, table, pass, work, k, a, b),
        Command::Sub {
            name: _,
            a,
            start,
            count,
        } => sub(alloc, work, k, a, start, count),
        Command::Rep { name: _, a, count } => rep(alloc, table, pass, work, k, a, count),
        Command::Find { a, b, at } => Ok(find(table, pass, work, k, a, b, at)),
        Command::Rfind { a, b, at } => Ok(rfind(table, pass, work, k, a, b, at)),
        Command::Eq { a, b } => Ok(eq(table, pass, work, k, a, b)),
        Command::Cmp { a, b } => Ok(cmp(table, pass, work, k, a, b)),
        Command::Len { a: _ } => Ok(Outcome::Nothing),
        Command::Show { a: _ } => Ok(Outcome::Nothing),
        Command::Shape { a: _ } => Ok(Outcome::Nothing),
        Command::Put { a: _, enc: _ } => Ok(Outcome::Nothing),
    }
}
