//! The ends of the repair of a seam, and the text between them.
ghost use Rattle.std.specs.Prelude.{◌≡◌, ◌≤◌, ◌++◌, ℕ, List, length, take, drop, OnOk, IfOk};
ghost use Rattle.nfg_syn.specs.Known.{IsSame};
ghost use Rattle.nfg_syn.specs.Represents.{Represents, AreGraphemes, AreKnown};
ghost use Rattle.nfg_syn.specs.Seen.{Keeps, SameCounts};
ghost use Rattle.nfg_text.specs.Text.{text_of};
ghost use Rattle.nfg_seam.specs.Seam.{IsSeam};
ghost use Rattle.nfg_seam.specs.SeamReads.{HasAsked, StartSafely};

use crate::left_end::{begins_safely, left_end};
use crate::right_end::{append_to_boundary, remembered};
use nfg_strand::NString;
use nfg_syn::{Synthetics, append_cluster};
use nfg_text::{CodeList, Memory, nfc_of};
use std::alloc::{AllocError, Global};

/// What a seam changes at most: the graphemes of the left string from `left` on, and those of the right
/// string before `right`. Their joined text, in NFC, is `text`.
#[derive(Drop)]
pub(crate) struct Seam {
    pub(crate) left: u64,
    pub(crate) right: u64,
    pub(crate) text: CodeList,
}

/// The seam of two strings. It takes time by what it repairs, and by the strands.
pub(crate) fn seam_of<T: Synthetics>(
    alloc: Global,
    table: &T,
    pass: &mut T::Pass,
    a: &NString,
    b: &NString,
) -> Result<Seam, AllocError>
    requires table { T.is_of table.now pass.old }
    requires left { AreGraphemes (T.seen pass.old).known a.now.graphemes }
    requires right { AreGraphemes (T.seen pass.old).known b.now.graphemes }
    ensures table { T.is_of table.now pass.new }
    ensures keeps { Keeps (T.seen pass.old) (T.seen pass.new) }
    ensures counts { SameCounts (T.seen pass.old) (T.seen pass.new) }
    ensures known { IsSame (T.seen pass.old).known (T.seen pass.new).known }
    ensures found { (left right : List (List ℕ))
        → Represents (T.seen pass.old).known a.now.graphemes left
        → Represents (T.seen pass.old).known b.now.graphemes right
        → IfOk result (IsSeam left right) }
{
    let left = left_end(table, pass, a);
    let mut joined = CodeList::new(alloc);
    append_from(table, pass, a, left, &mut joined)?;
    let start = append_to_safe_start(table, pass, b, &mut joined)?;
    let mut text = nfc_of(alloc, joined.as_slice())?;
    let memory = remembered(Memory::new(), text.as_slice());
    let right = append_to_boundary(table, pass, b, start, memory, &mut text)?;
    Ok(Seam { left, right, text })
}

/// Adds the text of the string from place `start` on.
fn append_from<T: Synthetics>(
    table: &T,
    pass: &mut T::Pass,
    a: &NString,
    start: u64,
    into: &mut CodeList,
) -> Result<(), AllocError>
    requires table { T.is_of table.now pass.old }
    requires known { AreKnown (T.seen pass.old).known a.now.graphemes }
    requires start { start ≤ length a.now.graphemes }
    ensures table { T.is_of table.now pass.new }
    ensures asked { HasAsked (T.seen pass.old) (T.seen pass.new) }
    ensures added { (list : List (List ℕ)) → Represents (T.seen pass.old).known a.now.graphemes list
        → OnOk result (into.new ≡ into.old ++ text_of (drop start list)) }
{
    let mut place = start;
    while place < a.len() {
        append_cluster(table, pass, a.get(place), into)?;
        place += 1;
    }
    Ok(())
}

/// Adds the text of the clusters before the first one that begins safely: its place, or the length.
fn append_to_safe_start<T: Synthetics>(
    table: &T,
    pass: &mut T::Pass,
    b: &NString,
    into: &mut CodeList,
) -> Result<u64, AllocError>
    requires table { T.is_of table.now pass.old }
    requires known { AreKnown (T.seen pass.old).known b.now.graphemes }
    ensures table { T.is_of table.now pass.new }
    ensures asked { HasAsked (T.seen pass.old) (T.seen pass.new) }
    ensures within { IfOk result (λ place. place ≤ length b.now.graphemes) }
    ensures added { (list : List (List ℕ)) → Represents (T.seen pass.old).known b.now.graphemes list
        → IfOk result (λ place. into.new ≡ into.old ++ text_of (take place list)) }
    ensures safe { (list : List (List ℕ)) → Represents (T.seen pass.old).known b.now.graphemes list
        → IfOk result (λ place. StartSafely (drop place list)) }
{
    let mut place = 0;
    while place < b.len() {
        let number = b.get(place);
        if begins_safely(table, pass, number) {
            return Ok(place);
        }
        append_cluster(table, pass, number, into)?;
        place += 1;
    }
    Ok(place)
}
