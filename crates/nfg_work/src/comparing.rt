//! The commands that search and compare: `find`, `rfind`, `eq` and `cmp`.
ghost use Rattle.std.specs.Prelude.{◌≡◌, ℕ, List};
ghost use Rattle.nfg_text.specs.Operations.{first_place, last_place, text_order};
ghost use Rattle.nfg_ops.specs.Reads.{HasAsked};
ghost use Rattle.nfg_work.specs.declared.output.FileRead.{FileRead};
ghost use Rattle.nfg_work.specs.Printing.{place_text, truth_text, order_text};
ghost use Rattle.nfg_work.specs.Evaluation.{State, value_of, are_equivalent, print_line};
ghost use Rattle.nfg_work.specs.Holding.{Holds, IsHeld, Does};
ghost use Rattle.nfg_work.specs.Given.{IsAlreadyFound};

use crate::evaluation::Evaluation;
use crate::given_answers::{compare_given, equal_given, index_given, rindex_given};
use crate::naming::string_of_name;
use crate::printing::{order, place, truth};
use crate::stop::Stop;
use nfg_strand::NString;
use nfg_syn::Synthetics;
use std::alloc::Global;
use std::cmp::Ordering;

/// Prints the least place, `at` or more, where a string stands in another.
pub(crate) fn print_find<T: Synthetics>(
    alloc: Global,
    table: &T,
    pass: &T::Pass,
    held: &mut Evaluation,
    a: u32,
    b: u32,
    at: u64,
    given: Option<Option<u64>>,
) -> Result<(), Stop>
    requires table { T.is_of table.now pass.now }
    requires held { (reads : List FileRead) × IsHeld (T.seen pass.now).known reads held.old }
    ensures { (reads : List FileRead) (state : State)
        → Holds (T.seen pass.now).known reads held.old state
        → IsAlreadyFound (first_place (value_of state a).clusters (value_of state b).clusters at) given
        → Does (T.seen pass.now).known reads state.used held.old held.new result
        (print_line state (place_text (first_place (value_of state a).clusters
        (value_of state b).clusters at))) }
{
    let nothing = NString::empty(alloc);
    let string = string_of_name(&held.strings, a, &nothing);
    let part = string_of_name(&held.strings, b, &nothing);
    let found = index_given(table, pass, string, part, at, given);
    place(alloc, found, &mut held.output)
}

/// Prints the greatest place, `at` or less, where a string stands in another.
pub(crate) fn print_rfind<T: Synthetics>(
    alloc: Global,
    table: &T,
    pass: &T::Pass,
    held: &mut Evaluation,
    a: u32,
    b: u32,
    at: u64,
    given: Option<Option<u64>>,
) -> Result<(), Stop>
    requires table { T.is_of table.now pass.now }
    requires held { (reads : List FileRead) × IsHeld (T.seen pass.now).known reads held.old }
    ensures { (reads : List FileRead) (state : State)
        → Holds (T.seen pass.now).known reads held.old state
        → IsAlreadyFound (last_place (value_of state a).clusters (value_of state b).clusters at) given
        → Does (T.seen pass.now).known reads state.used held.old held.new result
        (print_line state (place_text (last_place (value_of state a).clusters
        (value_of state b).clusters at))) }
{
    let nothing = NString::empty(alloc);
    let string = string_of_name(&held.strings, a, &nothing);
    let part = string_of_name(&held.strings, b, &nothing);
    let found = rindex_given(table, pass, string, part, at, given);
    place(alloc, found, &mut held.output)
}

/// Prints whether two texts are canonically equivalent.
pub(crate) fn print_eq<T: Synthetics>(
    alloc: Global,
    table: &T,
    pass: &T::Pass,
    held: &mut Evaluation,
    a: u32,
    b: u32,
    given: Option<bool>,
) -> Result<(), Stop>
    requires table { T.is_of table.now pass.now }
    requires held { (reads : List FileRead) × IsHeld (T.seen pass.now).known reads held.old }
    ensures { (reads : List FileRead) (state : State)
        → Holds (T.seen pass.now).known reads held.old state
        → IsAlreadyFound (are_equivalent (value_of state a).clusters (value_of state b).clusters) given
        → Does (T.seen pass.now).known reads state.used held.old held.new result
        (print_line state (truth_text (are_equivalent (value_of state a).clusters
        (value_of state b).clusters))) }
{
    let nothing = NString::empty(alloc);
    let left = string_of_name(&held.strings, a, &nothing);
    let right = string_of_name(&held.strings, b, &nothing);
    let holds = equal_given(table, pass, left, right, given);
    truth(holds, &mut held.output)
}

/// Prints the order of two texts.
pub(crate) fn print_cmp<T: Synthetics>(
    alloc: Global,
    table: &T,
    pass: &mut T::Pass,
    held: &mut Evaluation,
    a: u32,
    b: u32,
    given: Option<Ordering>,
) -> Result<(), Stop>
    requires table { T.is_of table.now pass.old }
    requires held { (reads : List FileRead) × IsHeld (T.seen pass.old).known reads held.old }
    ensures table { T.is_of table.now pass.new }
    ensures asked { HasAsked (T.seen pass.old) (T.seen pass.new) }
    ensures printed { (reads : List FileRead) (state : State)
        → Holds (T.seen pass.old).known reads held.old state
        → IsAlreadyFound (text_order (value_of state a).clusters (value_of state b).clusters) given
        → Does (T.seen pass.old).known reads state.used held.old held.new result
        (print_line state (order_text (text_order (value_of state a).clusters
        (value_of state b).clusters))) }
{
    let nothing = NString::empty(alloc);
    let left = string_of_name(&held.strings, a, &nothing);
    let right = string_of_name(&held.strings, b, &nothing);
    let ordering = compare_given(table, pass, left, right, given);
    order(ordering, &mut held.output)
}
