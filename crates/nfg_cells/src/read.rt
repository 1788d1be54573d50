//! The text of a place that a pass has seen.
ghost use Rattle.std.specs.Prelude.{◌≡◌, Some, IsSome};
ghost use Rattle.nfg_syn.specs.Known.{IsSame};
ghost use Rattle.nfg_cells.specs.Notes.{AreNotesOf, HaveSameMarks, places_of};

use crate::place::{Cluster, Place};
use once_cell::race::OnceBox;

/// The text at place k, which the pass has seen.
pub fn text_at<'a>(cells: &'a [OnceBox<Cluster>], notes: &mut [Place], k: usize) -> &'a [u32]
    requires notes { AreNotesOf cells.now notes.old }
    requires seen { IsSome (places_of notes.old k) }
    ensures notes { AreNotesOf cells.now notes.new }
    ensures places { IsSame (places_of notes.old) (places_of notes.new) }
    ensures marks { HaveSameMarks notes.old notes.new }
    ensures text { places_of notes.old k ≡ Some result.now }
{
    match cells[k].get_as(&mut notes[k].note) {
        Some(cluster) => cluster.codes.as_slice(),
        None => unreachable!(),
    }
}
