//! A new row of cells, and the notes of a pass that has seen nothing of it.
ghost use Rattle.std.specs.Prelude.{◌≡◌, ℕ, List, length, None, false, IfOk};
ghost use Rattle.once_cell.specs.Once.{cell_name};
ghost use Rattle.nfg_cells.specs.Notes.{AreMarked, AreNotesOf, is_named, places_of};

use crate::place::{Cluster, Place};
use once_cell::race::OnceBox;
use std::alloc::{AllocError, Global};

/// A row of empty cells.
pub fn empty_row(alloc: Global, count: usize) -> Result<Vec<OnceBox<Cluster>>, AllocError>
    ensures count { IfOk result (λ cells. length cells.items ≡ count) }
{
    let mut cells = Vec::with_capacity(alloc, count)?;
    for _ in 0..count {
        cells.push(OnceBox::new(alloc))?;
    }
    Ok(cells)
}

// What a pass knows at first of the place of a cell.
fn first_place(cell: &OnceBox<Cluster>) -> Place
    ensures cell { result.note.cell ≡ cell_name cell.now }
    ensures known { result.note.known ≡ None }
    ensures seen { result.seen ≡ false }
    ensures named { result.named ≡ false }
{
    Place {
        note: cell.note(),
        seen: false,
        named: false,
    }
}

/// What a pass knows at first of a row, which is nothing.
pub fn first_places(alloc: Global, cells: &[OnceBox<Cluster>]) -> Result<Vec<Place>, AllocError>
    ensures notes { IfOk result (λ notes. AreNotesOf cells.now notes.items) }
    ensures marked { IfOk result (λ notes. AreMarked notes.items) }
    ensures places { IfOk result (λ notes. (k : ℕ) → places_of notes.items k ≡ None) }
    ensures named { IfOk result (λ notes. (k : ℕ) → is_named notes.items k ≡ false) }
{
    let mut notes = Vec::with_capacity(alloc, cells.len())?;
    for k in 0..cells.len() {
        notes.push(first_place(&cells[k]))?;
    }
    Ok(notes)
}
