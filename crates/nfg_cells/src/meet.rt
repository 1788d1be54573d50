//! What a pass knows of a row, copied, and what two know, joined.
ghost use Rattle.std.specs.Prelude.{◌≡◌, ◌≢◌, ◌<◌, ℕ, List, length, get_or, IfSome, IfOk, is_some, true, false, Bool, ◌||◌};
ghost use Rattle.once_cell.specs.Once.{Agrees};
ghost use Rattle.nfg_syn.specs.Known.{IsUnion, or_else};
ghost use Rattle.nfg_cells.specs.Notes.{AreMarked, AreNotesOf, is_named, places_of, text_of};

use crate::place::{Cluster, Place};
use once_cell::race::OnceBox;
use std::alloc::{AllocError, Global};

// A second place that knows the same.
fn again(place: &mut Place) -> Place
    ensures same { place.new ≡ place.old }
    ensures copied { result ≡ place.old }
{
    Place {
        note: place.note.again(),
        seen: place.seen,
        named: place.named,
    }
}

/// What a pass knows, for another pass.
pub fn copied(alloc: Global, notes: &mut [Place]) -> Result<Vec<Place>, AllocError>
    ensures same { notes.new ≡ notes.old }
    ensures copied { IfOk result (λ copy. copy.items ≡ notes.old) }
{
    let mut copy = Vec::with_capacity(alloc, notes.len())?;
    for k in 0..notes.len() {
        copy.push(again(&mut notes[k]))?;
    }
    Ok(copy)
}

// Joins what two passes know of one cell.
fn join(into: &mut Place, from: &mut Place)
    requires cell { into.old.note.cell ≡ from.old.note.cell }
    requires into_marked { into.old.seen ≡ is_some (text_of into.old.note.known) }
    requires from_marked { from.old.seen ≡ is_some (text_of from.old.note.known) }
    ensures cell { into.new.note.cell ≡ into.old.note.cell }
    ensures marked { into.new.seen ≡ is_some (text_of into.new.note.known) }
    ensures agree { IfSome from.old.note.known (Agrees into.old.note.known) }
    ensures text { text_of into.new.note.known
        ≡ or_else (text_of into.old.note.known) (text_of from.old.note.known) }
    ensures from { from.new ≡ from.old }
    ensures named { into.new.named ≡ (into.old.named || from.old.named) }
{
    into.note.compare(from.note.again());
    if !into.seen {
        into.note = from.note.again();
        into.seen = from.seen;
    }
    into.named = into.named | from.named;
}

/// Joins what two passes know of one row.
pub fn join_all(cells: &[OnceBox<Cluster>], into: &mut [Place], from: &mut [Place])
    requires into_notes { AreNotesOf cells.now into.old }
    requires from_notes { AreNotesOf cells.now from.old }
    requires into_marked { AreMarked into.old }
    requires from_marked { AreMarked from.old }
    ensures notes { AreNotesOf cells.now into.new }
    ensures marked { AreMarked into.new }
    ensures places { IsUnion (places_of into.old) (places_of from.old) (places_of into.new) }
    ensures named { (k : ℕ) → is_named into.new k ≡ (is_named into.old k || is_named from.old k) }
{
    for k in 0..into.len() {
        join(&mut into[k], &mut from[k]);
    }
}
