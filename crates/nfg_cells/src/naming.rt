//! The place whose number a text gets.
ghost use Rattle.std.specs.Prelude.{◌≡◌, ◌≢◌, ◌<◌, ◌≤◌, ℕ, suc, negsuc, List, length, Some, true, IfOk, OnErr};
ghost use Rattle.nfg_syn.specs.Known.{IsInternable, IsWithin, IsSame, MapsBesides, crlf};
ghost use Rattle.nfg_syn.specs.Refusal.{IsTableFull};
ghost use Rattle.nfg_cells.specs.Notes.{AreFound, AreMarked, AreNotesOf, is_named, is_seen, known_of, places_of};

use crate::place::{Cluster, Place};
use crate::probe::walk;
use nfg_syn::InternError;
use once_cell::race::OnceBox;
use std::alloc::Global;

// Marks that the number of place k is known.
fn mark_named(cells: &[OnceBox<Cluster>], notes: &mut [Place], k: usize)
    requires notes { AreNotesOf cells.now notes.old }
    requires place { k < length notes.old }
    requires marked { AreMarked notes.old }
    ensures notes { AreNotesOf cells.now notes.new }
    ensures places { IsSame (places_of notes.old) (places_of notes.new) }
    ensures here { is_named notes.new k ≡ true }
    ensures others { (j : ℕ) → j ≢ k → is_named notes.new j ≡ is_named notes.old j }
    ensures marked { AreMarked notes.new }
{
    let _ = cells;
    notes[k].named = true;
}

/// The place whose number a text has or gets.
pub fn find(
    cells: &[OnceBox<Cluster>],
    notes: &mut [Place],
    alloc: Global,
    codes: &[u32],
) -> Result<usize, InternError>
    requires internable { IsInternable codes.now }
    requires other { codes.now ≢ crlf }
    requires notes { AreNotesOf cells.now notes.old }
    requires found { AreFound (length cells.now) notes.old }
    requires marked { AreMarked notes.old }
    requires some { 0 < length cells.now }
    requires few { length cells.now ≤ 1048576 }
    ensures notes { AreNotesOf cells.now notes.new }
    ensures found { AreFound (length cells.now) notes.new }
    ensures marked { AreMarked notes.new }
    ensures places { IsWithin (places_of notes.old) (places_of notes.new) }
    ensures known { IsWithin (known_of notes.old) (known_of notes.new) }
    ensures within { IfOk result (λ k. k < length cells.now) }
    ensures interned { IfOk result (λ k.
        MapsBesides (known_of notes.old) (negsuc (suc k)) codes.now (known_of notes.new)) }
    ensures already_known { (k : ℕ) → known_of notes.old (suc k) ≡ Some codes.now → result ≡ Ok k }
    ensures refused { OnErr result (IsSame (known_of notes.old) (known_of notes.new)) }
    ensures row_full { result ≡ Err InternError.RowFull
        → IsTableFull (length cells.now) (places_of notes.new) codes.now }
    ensures never_no_portion { result ≢ Err InternError.NoPortion }
{
    match walk(cells, notes, alloc, codes) {
        Ok(k) => {
            mark_named(cells, notes, k);
            Ok(k)
        }
        Err(error) => Err(error),
    }
}
