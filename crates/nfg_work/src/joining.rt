//! The commands that join: `cat` and `rep`.
ghost use Rattle.std.specs.Prelude.{◌≡◌, List, Some, None};
ghost use Rattle.nfg_syn.specs.Seen.{Keeps, SameCounts};
ghost use Rattle.nfg_work.specs.declared.output.FileRead.{FileRead};
ghost use Rattle.nfg_work.specs.Evaluation.{State, define_cat, define_rep, value_of};
ghost use Rattle.nfg_work.specs.Holding.{Holds, IsHeld, Follows, join_refusal};
ghost use Rattle.nfg_work.specs.Making.{cat_wanted, rep_wanted};
ghost use Rattle.nfg_work.specs.Given.{IsAlreadyMade, Brings};
ghost use Rattle.nfg_work.specs.Reach.{cat_value, rep_value};

use crate::Cause;
use crate::defining::{define, is_over};
use crate::evaluation::Evaluation;
use crate::given_strings::{both_given, copies_given};
use crate::naming::string_of_name;
use crate::stop::Stop;
use nfg_strand::NString;
use nfg_syn::Synthetics;
use std::alloc::Global;

/// The most graphemes that a line joins.
const JOIN_LIMIT: u64 = 1 << 26;

/// Why so many graphemes are not joined, where all strings have cost so much.
fn join_refusal(spent: u64, count: u64) -> Option<Cause>
    ensures { result ≡ join_refusal spent count }
{
    if count > JOIN_LIMIT {
        return Some(Cause::StringTooLong);
    }
    if is_over(spent, count) {
        return Some(Cause::AllTooLong);
    }
    None
}

/// The next name gets two strings, joined.
pub(crate) fn cat<T: Synthetics>(
    alloc: Global,
    table: &T,
    pass: &mut T::Pass,
    held: &mut Evaluation,
    a: u32,
    b: u32,
    given: Option<NString>,
) -> Result<(), Stop>
    requires table { T.is_of table.now pass.old }
    requires held { (reads : List FileRead) × IsHeld (T.seen pass.old).known reads held.old }
    ensures table { T.is_of table.now pass.new }
    ensures keeps { Keeps (T.seen pass.old) (T.seen pass.new) }
    ensures counts { SameCounts (T.seen pass.old) (T.seen pass.new) }
    ensures joined { (reads : List FileRead) (state : State)
        → Holds (T.seen pass.old).known reads held.old state
        → IsAlreadyMade (cat_wanted (value_of state a) (value_of state b)) (T.seen pass.old).known given
        → Follows (T.size table.now) (T.seen pass.old) (T.seen pass.new) reads state.used held.old held.new result
        (define_cat (T.size table.now) state (value_of state a) (value_of state b)) }
    ensures brings { (reads : List FileRead) (state : State)
        → Holds (T.seen pass.old).known reads held.old state
        → IsAlreadyMade (cat_wanted (value_of state a) (value_of state b)) (T.seen pass.old).known given
        → Brings (cat_value (Some (value_of state a)) (Some (value_of state b)))
        (T.seen pass.old) (T.seen pass.new) result }
{
    let nothing = NString::empty(alloc);
    let left = string_of_name(&held.strings, a, &nothing);
    let right = string_of_name(&held.strings, b, &nothing);
    let count = left.len() + right.len();
    if let Some(cause) = join_refusal(held.spent, count) {
        return Err(Stop::Refused(cause));
    }
    match both_given(alloc, table, pass, left, right, given) {
        Ok(string) => define(held, count, string),
        Err(stop) => Err(stop),
    }
}

/// The next name gets a string, repeated.
pub(crate) fn rep<T: Synthetics>(
    alloc: Global,
    table: &T,
    pass: &mut T::Pass,
    held: &mut Evaluation,
    a: u32,
    times: u64,
    given: Option<NString>,
) -> Result<(), Stop>
    requires table { T.is_of table.now pass.old }
    requires held { (reads : List FileRead) × IsHeld (T.seen pass.old).known reads held.old }
    ensures table { T.is_of table.now pass.new }
    ensures keeps { Keeps (T.seen pass.old) (T.seen pass.new) }
    ensures counts { SameCounts (T.seen pass.old) (T.seen pass.new) }
    ensures joined { (reads : List FileRead) (state : State)
        → Holds (T.seen pass.old).known reads held.old state
        → IsAlreadyMade (rep_wanted (value_of state a) times) (T.seen pass.old).known given
        → Follows (T.size table.now) (T.seen pass.old) (T.seen pass.new) reads state.used held.old held.new result
        (define_rep (T.size table.now) state (value_of state a) times) }
    ensures brings { (reads : List FileRead) (state : State)
        → Holds (T.seen pass.old).known reads held.old state
        → IsAlreadyMade (rep_wanted (value_of state a) times) (T.seen pass.old).known given
        → Brings (rep_value (Some (value_of state a)) times)
        (T.seen pass.old) (T.seen pass.new) result }
{
    let nothing = NString::empty(alloc);
    let string = string_of_name(&held.strings, a, &nothing);
    let count = match string.len().checked_mul(times) {
        Some(count) => count,
        None => return Err(Stop::Refused(Cause::StringTooLong)),
    };
    if let Some(cause) = join_refusal(held.spent, count) {
        return Err(Stop::Refused(cause));
    }
    match copies_given(alloc, table, pass, string, times, given) {
        Ok(string) => define(held, count, string),
        Err(stop) => Err(stop),
    }
}
