//! The walk over the places at which a text may stand.
ghost use Rattle.std.specs.Prelude.{◌≡◌, ◌≢◌, ◌<◌, ◌≤◌, ℕ, List, length, Some, None, IsSome, is_some, IfOk, OnErr};
ghost use Rattle.nfg_syn.specs.Known.{IsInternable, IsWithin, IsSame, crlf};
ghost use Rattle.nfg_cells.specs.Notes.{AreMarked, AreNotesOf, HaveSameMarks, is_named, is_seen, places_of};
ghost use Rattle.nfg_cells.specs.Probe.{hash_from, ArePassed, IsFound};

use crate::place::{Cluster, Place};
use nfg_syn::InternError;
use once_cell::race::OnceBox;
use std::alloc::{AllocError, Global};

fn boxed(alloc: Global, codes: &[u32]) -> Result<Box<Cluster>, AllocError>
    requires internable { IsInternable codes.now }
    requires other { codes.now ≢ crlf }
{
    let codes = codes.to_vec(alloc)?;
    Ok(Box::new(alloc, Cluster { codes })?)
}

// The text at place k, which is `codes` where the place was empty. A place that the pass has seen
// takes no memory.
fn offer<'a>(
    cells: &'a [OnceBox<Cluster>],
    notes: &mut [Place],
    alloc: Global,
    k: usize,
    codes: &[u32],
) -> Result<&'a Cluster, AllocError>
    requires internable { IsInternable codes.now }
    requires other { codes.now ≢ crlf }
    requires notes { AreNotesOf cells.now notes.old }
    requires place { k < length cells.now }
    ensures notes { AreNotesOf cells.now notes.new }
    ensures grown { IsWithin (places_of notes.old) (places_of notes.new) }
    ensures seen { IfOk result (λ cluster. places_of notes.new k ≡ Some cluster.now.codes.items) }
    ensures others { (j : ℕ) → j ≢ k → places_of notes.new j ≡ places_of notes.old j }
    ensures refused { OnErr result (IsSame (places_of notes.old) (places_of notes.new)) }
    ensures unseen { OnErr result (places_of notes.old k ≡ None) }
    ensures marks { HaveSameMarks notes.old notes.new }
{
    cells[k].get_or_try_init_as(move || boxed(alloc, codes), &mut notes[k].note)
}

// Marks that the text of place k is seen.
fn mark_seen(cells: &[OnceBox<Cluster>], notes: &mut [Place], k: usize)
    requires notes { AreNotesOf cells.now notes.old }
    requires place { k < length notes.old }
    requires text { IsSome (places_of notes.old k) }
    requires others { (j : ℕ) → j ≢ k → is_seen notes.old j ≡ is_some (places_of notes.old j) }
    ensures notes { AreNotesOf cells.now notes.new }
    ensures places { IsSame (places_of notes.old) (places_of notes.new) }
    ensures named { (j : ℕ) → is_named notes.new j ≡ is_named notes.old j }
    ensures marked { AreMarked notes.new }
{
    let _ = cells;
    notes[k].seen = true;
}

// The same as `offer`, where the places that are seen are marked.
fn look<'a>(
    cells: &'a [OnceBox<Cluster>],
    notes: &mut [Place],
    alloc: Global,
    k: usize,
    codes: &[u32],
) -> Result<&'a Cluster, AllocError>
    requires internable { IsInternable codes.now }
    requires other { codes.now ≢ crlf }
    requires notes { AreNotesOf cells.now notes.old }
    requires marked { AreMarked notes.old }
    requires place { k < length cells.now }
    ensures notes { AreNotesOf cells.now notes.new }
    ensures marked { AreMarked notes.new }
    ensures named { (j : ℕ) → is_named notes.new j ≡ is_named notes.old j }
    ensures grown { IsWithin (places_of notes.old) (places_of notes.new) }
    ensures seen { IfOk result (λ cluster. places_of notes.new k ≡ Some cluster.now.codes.items) }
    ensures unseen { OnErr result (places_of notes.old k ≡ None) }
{
    match offer(cells, notes, alloc, k, codes) {
        Ok(cluster) => {
            mark_seen(cells, notes, k);
            Ok(cluster)
        }
        Err(error) => Err(error),
    }
}

fn hash(codes: &[u32]) -> usize
    ensures hash { result ≡ hash_from 0 codes.now }
    ensures within { result < 4294967296 }
{
    let mut hash = 0usize;
    for code in codes {
        hash = (hash * 31 + *code as usize) % 4294967296;
    }
    hash
}

/// The place where the text is found, walking from its hash on around the row.
pub fn walk(
    cells: &[OnceBox<Cluster>],
    notes: &mut [Place],
    alloc: Global,
    codes: &[u32],
) -> Result<usize, InternError>
    requires internable { IsInternable codes.now }
    requires other { codes.now ≢ crlf }
    requires notes { AreNotesOf cells.now notes.old }
    requires marked { AreMarked notes.old }
    requires some { 0 < length cells.now }
    requires few { length cells.now ≤ 1048576 }
    ensures notes { AreNotesOf cells.now notes.new }
    ensures marked { AreMarked notes.new }
    ensures named { (j : ℕ) → is_named notes.new j ≡ is_named notes.old j }
    ensures grown { IsWithin (places_of notes.old) (places_of notes.new) }
    ensures found { IfOk result (λ k. IsFound (length cells.now) (places_of notes.new) k codes.now) }
    ensures already_found { (k : ℕ) → IsFound (length cells.now) (places_of notes.old) k codes.now
        → result ≡ Ok k }
    ensures full { result ≡ Err InternError.RowFull
        → ArePassed (length cells.now) (places_of notes.new) codes.now (length cells.now) }
    ensures never_no_portion { result ≢ Err InternError.NoPortion }
{
    let count = cells.len();
    let hash = hash(codes);
    for step in 0..count {
        let k = (hash + step) % count;
        match look(cells, notes, alloc, k, codes) {
            Ok(cluster) => {
                if cluster.codes.as_slice() == codes {
                    return Ok(k);
                }
            }
            Err(_) => return Err(InternError::OutOfMemory),
        }
    }
    Err(InternError::RowFull)
}
