//! The right end of a seam.
ghost use Rattle.std.specs.Prelude.{◌≡◌, ◌<◌, ◌≤◌, ◌==◌, slice_get, ℕ, List, ◌∷◌, ◌++◌, Some, true, length, reverse, drop, slice_range, OnOk, IfOk};
ghost use Rattle.nfg_syn.specs.Represents.{Represents, AreKnown, spelling};
ghost use Rattle.nfg_text.specs.Breaks.{Remembers};
ghost use Rattle.nfg_text.specs.Text.{text_of, IsText};
ghost use Rattle.nfg_seam.specs.Seam.{GoOnSafely};
ghost use Rattle.nfg_seam.specs.SeamReads.{HasAsked};

use crate::left_end::first_code;
use nfg_strand::{Graphemes, NString};
use nfg_syn::{Synthetics, append_cluster};
use nfg_text::{CodeList, Kind, Memory};
use std::alloc::AllocError;

/// Adds clusters of the string to the text, from place `start` on, until one begins safely before which
/// the rules put a boundary, or the string ends: the place reached. The memory is that of the text.
pub(crate) fn append_to_boundary<T: Synthetics>(
    table: &T,
    pass: &mut T::Pass,
    b: &NString,
    start: u64,
    memory: Memory,
    text: &mut CodeList,
) -> Result<u64, AllocError>
    requires table { T.is_of table.now pass.old }
    requires known { AreKnown (T.seen pass.old).known b.now.graphemes }
    requires start { start ≤ length b.now.graphemes }
    requires memory { Remembers memory (reverse text.old) }
    ensures table { T.is_of table.now pass.new }
    ensures asked { HasAsked (T.seen pass.old) (T.seen pass.new) }
    ensures later { IfOk result (λ right. start ≤ right) }
    ensures within { IfOk result (λ right. right ≤ length b.now.graphemes) }
    ensures text { (list : List (List ℕ)) → Represents (T.seen pass.old).known b.now.graphemes list
        → IfOk result (λ right. text.new ≡ text.old ++ text_of (slice_range list start right)) }
    ensures boundary { (list : List (List ℕ)) → Represents (T.seen pass.old).known b.now.graphemes list
        → IfOk result (λ right. GoOnSafely text.new (drop right list)) }
{
    let mut memory = memory;
    let mut right = start;
    let mut numbers = graphemes_from(b, start);
    while right < b.len() {
        let number = next_of(&mut numbers);
        if is_boundary(table, pass, number, memory, text.is_empty()) {
            return Ok(right);
        }
        memory = append_remembered(table, pass, number, memory, text)?;
        right += 1;
    }
    Ok(right)
}

/// The graphemes of a string from a place on.
fn graphemes_from(b: &NString, start: u64) -> Graphemes<'_>
    requires { start ≤ length b.now.graphemes }
    ensures { result ≡ drop start b.now.graphemes }
{
    let mut numbers = b.iter();
    'skipping: for _place in 0..start {
        next_of(&mut numbers);
    }
    numbers
}

/// The next grapheme, of one at least.
fn next_of(numbers: &mut Graphemes<'_>) -> i32
    requires { 0 < length numbers.old }
    ensures first { slice_get numbers.old 0 ≡ Some result }
    ensures left { numbers.new ≡ drop 1 numbers.old }
{
    match numbers.next() {
        Some(number) => number,
        None => 0,
    }
}

/// Whether the cluster of a number begins safely and the rules put a boundary between it and the text
/// that is remembered.
pub(crate) fn is_boundary<T: Synthetics>(
    table: &T,
    pass: &mut T::Pass,
    n: i32,
    memory: Memory,
    is_first: bool,
) -> bool
    requires table { T.is_of table.now pass.old }
    requires known { (cluster : List ℕ) × (spelling (T.seen pass.old).known n ≡ Some cluster) }
    ensures table { T.is_of table.now pass.new }
    ensures asked { HasAsked (T.seen pass.old) (T.seen pass.new) }
    ensures boundary { (cluster text : List ℕ) (clusters : List (List ℕ))
        → spelling (T.seen pass.old).known n ≡ Some cluster → Remembers memory (reverse text)
        → is_first ≡ (length text == 0) → result ≡ true → GoOnSafely text (cluster ∷ clusters) }
{
    let kind = Kind::of_number(first_code(table, pass, n));
    kind.starts_safely() & (is_first | memory.breaks_before(kind))
}

/// Adds the cluster of a number to a text that is remembered: the memory of both.
fn append_remembered<T: Synthetics>(
    table: &T,
    pass: &mut T::Pass,
    n: i32,
    memory: Memory,
    text: &mut CodeList,
) -> Result<Memory, AllocError>
    requires table { T.is_of table.now pass.old }
    requires known { (cluster : List ℕ) × (spelling (T.seen pass.old).known n ≡ Some cluster) }
    requires memory { Remembers memory (reverse text.old) }
    ensures table { T.is_of table.now pass.new }
    ensures asked { HasAsked (T.seen pass.old) (T.seen pass.new) }
    ensures memory { IfOk result (λ memory. Remembers memory (reverse text.new)) }
    ensures added { (cluster : List ℕ) → spelling (T.seen pass.old).known n ≡ Some cluster
        → OnOk result (text.new ≡ text.old ++ cluster) }
{
    let start = text.len();
    append_cluster(table, pass, n, text)?;
    Ok(remembered(memory, behind(text.as_slice(), start)))
}

fn behind(text: &[u32], start: usize) -> &[u32]
    requires { start ≤ length text.now }
    ensures { result.now ≡ drop start text.now }
{
    &text[start..]
}

/// The memory of a text with more code points.
pub(crate) fn remembered(memory: Memory, more: &[u32]) -> Memory
    requires { IsText more.now }
    ensures { (text : List ℕ) → Remembers memory (reverse text)
        → Remembers result (reverse (text ++ more.now)) }
{
    let mut memory = memory;
    for i in 0..more.len() {
        memory = memory.then(Kind::of_number(more[i]));
    }
    memory
}
