//! The commands that print, on the string of a name.
ghost use Rattle.std.specs.Prelude.{◌≡◌, ℕ, List, length};
ghost use Rattle.std.specs.Fmt.{decimal};
ghost use Rattle.nfg_text.specs.Text.{text_of};
ghost use Rattle.nfg_syn.specs.Known.{Texts};
ghost use Rattle.nfg_ops.specs.Reads.{HasAsked};
ghost use Rattle.nfg_decode.specs.Encoding.{encode};
ghost use Rattle.nfg_work.specs.declared.output.FileRead.{FileRead};
ghost use Rattle.nfg_work.specs.Printing.{shown, shape as shape_of};
ghost use Rattle.nfg_work.specs.Evaluation.{State, value_of, print_line, put as put_bytes, first_lacking};
ghost use Rattle.nfg_work.specs.Holding.{Holds, IsHeld, Does};

use crate::evaluation::Evaluation;
use crate::naming::string_of_name;
use crate::printing::{len, shape, show};
use crate::put::put;
use crate::stop::Stop;
use nfg_decode::Encoding;
use nfg_strand::NString;
use nfg_syn::Synthetics;
use std::alloc::Global;

/// Prints how many graphemes a name has.
pub(crate) fn print_len(alloc: Global, held: &mut Evaluation, a: u32) -> Result<(), Stop>
    ensures { (known : Texts) (reads : List FileRead) (state : State)
        → Holds known reads held.old state
        → Does known reads state.used held.old held.new result
        (print_line state (decimal (length (value_of state a).clusters))) }
{
    let nothing = NString::empty(alloc);
    let string = string_of_name(&held.strings, a, &nothing);
    len(alloc, string, &mut held.output)
}

/// Prints the clusters of a name.
pub(crate) fn print_show<T: Synthetics>(
    alloc: Global,
    table: &T,
    pass: &mut T::Pass,
    held: &mut Evaluation,
    a: u32,
) -> Result<(), Stop>
    requires table { T.is_of table.now pass.old }
    requires held { (reads : List FileRead) × IsHeld (T.seen pass.old).known reads held.old }
    ensures table { T.is_of table.now pass.new }
    ensures asked { HasAsked (T.seen pass.old) (T.seen pass.new) }
    ensures printed { (reads : List FileRead) (state : State)
        → Holds (T.seen pass.old).known reads held.old state
        → Does (T.seen pass.old).known reads state.used held.old held.new result
        (print_line state (shown (value_of state a).clusters)) }
{
    let nothing = NString::empty(alloc);
    let string = string_of_name(&held.strings, a, &nothing);
    show(table, pass, string, &mut held.output)
}

/// Prints the pieces of a name.
pub(crate) fn print_shape(alloc: Global, held: &mut Evaluation, a: u32) -> Result<(), Stop>
    ensures { (known : Texts) (reads : List FileRead) (state : State)
        → Holds known reads held.old state
        → Does known reads state.used held.old held.new result
        (print_line state (shape_of (value_of state a).pieces)) }
{
    let nothing = NString::empty(alloc);
    let string = string_of_name(&held.strings, a, &nothing);
    shape(alloc, string, &mut held.output)
}

/// Writes the bytes of a name in the encoding.
pub(crate) fn print_put<T: Synthetics>(
    alloc: Global,
    table: &T,
    pass: &mut T::Pass,
    held: &mut Evaluation,
    a: u32,
    e: Encoding,
) -> Result<(), Stop>
    requires table { T.is_of table.now pass.old }
    requires held { (reads : List FileRead) × IsHeld (T.seen pass.old).known reads held.old }
    ensures table { T.is_of table.now pass.new }
    ensures asked { HasAsked (T.seen pass.old) (T.seen pass.new) }
    ensures printed { (reads : List FileRead) (state : State)
        → Holds (T.seen pass.old).known reads held.old state
        → Does (T.seen pass.old).known reads state.used held.old held.new result
        (put_bytes state (encode e (text_of (value_of state a).clusters))
        (first_lacking e (value_of state a).clusters)) }
{
    let nothing = NString::empty(alloc);
    let string = string_of_name(&held.strings, a, &nothing);
    put(alloc, table, pass, string, e, &mut held.output)
}
