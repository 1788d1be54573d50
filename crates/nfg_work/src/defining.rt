//! The commands that define a name: `text`, `load` and `sub`.
ghost use Rattle.std.specs.Prelude.{◌≡◌, ℕ, ◌+◌, ◌≤◌, nat_lt, List, length, OnOk, IfErr};
ghost use Rattle.nfg_text.specs.Text.{IsText};
ghost use Rattle.nfg_text.specs.Graphemes.{graphemes_of};
ghost use Rattle.nfg_decode.specs.Encoding.{decode};
ghost use Rattle.nfg_syn.specs.Known.{Texts, IsKnowledge};
ghost use Rattle.nfg_work.specs.Values.{flat};
ghost use Rattle.nfg_syn.specs.Seen.{Keeps, SameCounts};
ghost use Rattle.nfg_work.specs.declared.output.FileRead.{FileRead};
ghost use Rattle.nfg_work.specs.declared.stop.Stop.{Stop};
ghost use Rattle.nfg_work.specs.Evaluation.{State, define_new, define_decoded, load as load_next, define_part, value_of, AreWithinLimit};
ghost use Rattle.nfg_work.specs.Holding.{Holds, Does, Follows, IsDefined};
ghost use Rattle.nfg_work.specs.Making.{IsStopAfter, unless_long, file_value};
ghost use Rattle.nfg_work.specs.Given.{IsAlreadyMade, Brings, load_wanted, part_wanted};
ghost use Rattle.nfg_work.specs.Reach.{if_short, decoded_value, load_value};

use crate::evaluation::Evaluation;
use crate::given_strings::{file_given, part_given, text_given};
use crate::naming::string_of_name;
use crate::stop::Stop;
use crate::{Cause, FileRead};
use nfg_decode::Encoding;
use nfg_strand::NString;
use nfg_syn::Synthetics;
use std::alloc::Global;

/// What all strings of a script may cost together.
const COST_LIMIT: u64 = 1 << 29;

/// Whether the strings cost too much with one more of this cost.
pub(crate) fn is_over(spent: u64, cost: u64) -> bool
    ensures { result ≡ nat_lt 536870912 (spent + cost) }
{
    if spent > COST_LIMIT {
        return true;
    }
    cost > COST_LIMIT - spent
}

/// Why a load defines no name: malformed bytes come before the cost, and the cost before the rest.
fn stop_after(stop: Stop, over: bool) -> Stop
    ensures { IsStopAfter over stop result }
{
    match stop {
        Stop::Refused(Cause::Malformed { at }) => Stop::Refused(Cause::Malformed { at }),
        Stop::OutOfMemory => Stop::OutOfMemory,
        _ => {
            if over {
                Stop::Refused(Cause::AllTooLong)
            } else {
                stop
            }
        }
    }
}

/// The next name gets the string, at this cost.
pub(crate) fn define(held: &mut Evaluation, cost: u64, string: NString) -> Result<(), Stop>
    requires { held.old.spent + cost ≤ 536870912 }
    ensures defined { OnOk result (IsDefined held.old held.new cost string) }
    ensures refused { IfErr result (λ stop. stop ≡ Stop.OutOfMemory) }
{
    match held.strings.push(string) {
        Ok(()) => {
            held.spent += cost;
            Ok(())
        }
        Err(_) => Err(Stop::OutOfMemory),
    }
}

/// The next name gets the graphemes of a text.
pub(crate) fn text<T: Synthetics>(
    alloc: Global,
    table: &T,
    pass: &mut T::Pass,
    held: &mut Evaluation,
    codes: &[u32],
    given: Option<NString>,
) -> Result<(), Stop>
    requires text { IsText codes.now }
    requires table { T.is_of table.now pass.old }
    ensures table { T.is_of table.now pass.new }
    ensures keeps { Keeps (T.seen pass.old) (T.seen pass.new) }
    ensures counts { SameCounts (T.seen pass.old) (T.seen pass.new) }
    ensures defined { (reads : List FileRead) (state : State)
        → Holds (T.seen pass.old).known reads held.old state
        → IsAlreadyMade (unless_long (flat (graphemes_of codes.now))) (T.seen pass.old).known given
        → Follows (T.size table.now) (T.seen pass.old) (T.seen pass.new) reads state.used held.old held.new result
        (define_new (T.size table.now) state (length codes.now) (graphemes_of codes.now)) }
    ensures brings { IsAlreadyMade (unless_long (flat (graphemes_of codes.now))) (T.seen pass.old).known given
        → Brings (if_short (flat (graphemes_of codes.now))) (T.seen pass.old) (T.seen pass.new) result }
{
    let cost = codes.len() as u64;
    if is_over(held.spent, cost) {
        return Err(Stop::Refused(Cause::AllTooLong));
    }
    match text_given(alloc, table, pass, codes, given) {
        Ok(string) => define(held, cost, string),
        Err(stop) => Err(stop),
    }
}

/// The next name gets the text of a file's bytes.
fn load_file<T: Synthetics>(
    alloc: Global,
    table: &T,
    pass: &mut T::Pass,
    held: &mut Evaluation,
    e: Encoding,
    bytes: &[u8],
    given: Option<NString>,
) -> Result<(), Stop>
    requires limit { length bytes.now ≤ 67108864 }
    requires table { T.is_of table.now pass.old }
    ensures table { T.is_of table.now pass.new }
    ensures keeps { Keeps (T.seen pass.old) (T.seen pass.new) }
    ensures counts { SameCounts (T.seen pass.old) (T.seen pass.new) }
    ensures loaded { (reads : List FileRead) (state : State)
        → Holds (T.seen pass.old).known reads held.old state
        → IsAlreadyMade (file_value (decode e bytes.now)) (T.seen pass.old).known given
        → Follows (T.size table.now) (T.seen pass.old) (T.seen pass.new) reads state.used held.old held.new result
        (define_decoded (T.size table.now) state (length bytes.now) (decode e bytes.now)) }
    ensures brings { IsAlreadyMade (file_value (decode e bytes.now)) (T.seen pass.old).known given
        → Brings (decoded_value (decode e bytes.now)) (T.seen pass.old) (T.seen pass.new) result }
{
    let cost = bytes.len() as u64;
    let over = is_over(held.spent, cost);
    match file_given(alloc, table, pass, e, bytes, given) {
        Ok(string) => {
            if over {
                return Err(Stop::Refused(Cause::AllTooLong));
            }
            define(held, cost, string)
        }
        Err(stop) => Err(stop_after(stop, over)),
    }
}

/// The next name gets what the next load has read.
pub(crate) fn load<T: Synthetics>(
    alloc: Global,
    table: &T,
    pass: &mut T::Pass,
    held: &mut Evaluation,
    e: Encoding,
    reads: &[FileRead],
    given: Option<NString>,
) -> Result<(), Stop>
    requires reads { AreWithinLimit reads.now }
    requires table { T.is_of table.now pass.old }
    ensures table { T.is_of table.now pass.new }
    ensures keeps { Keeps (T.seen pass.old) (T.seen pass.new) }
    ensures counts { SameCounts (T.seen pass.old) (T.seen pass.new) }
    ensures loaded { (state : State) → Holds (T.seen pass.old).known reads.now held.old state
        → IsAlreadyMade (load_wanted e state.reads) (T.seen pass.old).known given
        → Follows (T.size table.now) (T.seen pass.old) (T.seen pass.new) reads.now state.used held.old held.new result
        (load_next (T.size table.now) state e state.reads) }
    ensures brings { (state : State) → Holds (T.seen pass.old).known reads.now held.old state
        → IsAlreadyMade (load_wanted e state.reads) (T.seen pass.old).known given
        → Brings (load_value e state.reads) (T.seen pass.old) (T.seen pass.new) result }
{
    match reads.get(held.next_read) {
        None => Err(Stop::Refused(Cause::CannotRead)),
        Some(FileRead::Failed) => Err(Stop::Refused(Cause::CannotRead)),
        Some(FileRead::TooLong) => Err(Stop::Refused(Cause::FileTooLong)),
        Some(FileRead::Bytes(bytes)) => {
            held.next_read += 1;
            load_file(alloc, table, pass, held, e, bytes.as_slice(), given)
        }
    }
}

/// The next name gets a part of a string.
pub(crate) fn sub(
    alloc: Global,
    held: &mut Evaluation,
    a: u32,
    start: u64,
    count: u64,
    given: Option<NString>,
) -> Result<(), Stop>
    ensures { (size : ℕ) (known places : Texts) (reads : List FileRead) (state : State)
        → IsKnowledge size known places → Holds known reads held.old state
        → IsAlreadyMade (part_wanted (value_of state a) start count) known given
        → Does known reads state.used held.old held.new result
        (define_part state (value_of state a) start count) }
{
    let nothing = NString::empty(alloc);
    let string = string_of_name(&held.strings, a, &nothing);
    let part = match part_given(alloc, string, start, count, given) {
        Ok(part) => part,
        Err(stop) => return Err(stop),
    };
    let cost = part.len();
    if is_over(held.spent, cost) {
        return Err(Stop::Refused(Cause::AllTooLong));
    }
    define(held, cost, part)
}
