//! The table that callers share, and their passes.
ghost use Rattle.std.specs.Prelude.{◌≡◌, ◌≢◌, ◌↔◌, ◌<◌, ◌<ℤ◌, ℕ, suc, negsuc, List, length, Some, false, IfOk, IfErr, IsOk, OnOk, OnErr};
ghost use Rattle.std.specs.declared.alloc.Global.{Global as Heap};
ghost use Rattle.nfg_syn.specs.Known.{IsRowSize, IsInternable, IsSame, MapsBesides, crlf};
ghost use Rattle.nfg_syn.specs.Seen.{IsFirst, IsUnchanged, Keeps, Meets, SameCounts};
ghost use Rattle.nfg_cells.specs.Cells.{CellNotes, IsCellPass, seen_of};

use crate::meet::{copied, join_all};
use crate::naming::find;
use crate::place::{Cluster, Place};
use crate::read::text_at;
use crate::row::{empty_row, first_places};
use crate::tally::Tally;
use nfg_syn::{InternError, Refused, Shared, Synthetics};
use once_cell::race::OnceBox;
use std::alloc::{AllocError, Global};
use std::marker::Model;
use std::mem;

/// A row of cells, each of which is set once, by whichever caller comes first.
#[derive(Drop)]
pub struct CellTable {
    cells: Vec<OnceBox<Cluster>>,
}

impl Model for CellTable {
    ghost use Rattle.std.specs.Prelude.{ℕ, List, length};
    ghost use Rattle.std.specs.declared.alloc.Global.{Global as Heap};
    ghost use Rattle.nfg_syn.specs.Known.{IsRowSize};

    ghost Value = { List (Heap × ℕ) };

    ghost view = { λ table. table.cells.items };

    ghost invariant = { λ table. IsRowSize (length table.cells.items) };
}

/// What one caller knows of a `CellTable`.
#[derive(Drop)]
pub struct CellPass {
    notes: Vec<Place>,
    // `CellTable::new` made the pass.
    root: bool,
    tally: Tally,
}

impl Model for CellPass {
    ghost use Rattle.nfg_cells.specs.Cells.{CellNotes};

    ghost Value = { CellNotes };

    ghost view = { λ pass. record {
      notes = pass.notes.items;
      root = pass.root;
      forks = pass.tally.forks;
      meets = pass.tally.meets;
    } };
}

impl CellTable {
    /// A table of `n` places, which knows CR LF alone, and its first pass.
    pub fn new(alloc: Global, n: u32) -> Result<(CellTable, CellPass), AllocError>
        requires { IsRowSize n }
        ensures table { IfOk result (λ made. length made.0 ≡ n) }
        ensures pass { IfOk result (λ made. IsCellPass made.0 made.1) }
        ensures first { IfOk result (λ made. IsFirst (seen_of made.1)) }
    {
        let cells = empty_row(alloc, n as usize)?;
        let notes = first_places(alloc, cells.as_slice())?;
        let table = CellTable { cells };
        let pass = CellPass {
            notes,
            root: true,
            tally: Tally::first(),
        };
        Ok((table, pass))
    }
}

// The number of the text at a place.
fn number_of(place: usize) -> i32
    requires { place < 1048576 }
    ensures { result ≡ negsuc (suc place) }
{
    -2 - place as i32
}

// The place of a synthetic.
fn place_of(n: i32) -> usize
    requires { n <ℤ negsuc 0 }
    ensures { n ≡ negsuc (suc result) }
{
    (-2 - n) as usize
}

impl Synthetics for CellTable {
    ghost use Rattle.std.specs.Prelude.{length};
    ghost use Rattle.nfg_cells.specs.Cells.{IsCellPass, seen_of};
    ghost use Rattle.nfg_cells.specs.CellsLaws.{row_size_of, knows_of, full_of};

    type Pass = CellPass;

    ghost size = { λ table. length table };

    ghost seen = { seen_of };

    ghost is_of = { IsCellPass };

    fn capacity(&self) -> u32 {
        self.cells.len() as u32
    }

    fn intern(&self, alloc: Global, pass: &mut CellPass, codes: &[u32]) -> Result<i32, InternError>
        requires internable { IsInternable codes.now }
        requires table { IsCellPass self.now pass.old }
        ensures table { IsCellPass self.now pass.new }
        ensures keeps { Keeps (seen_of pass.old) (seen_of pass.new) }
        ensures counts { SameCounts (seen_of pass.old) (seen_of pass.new) }
        ensures interned { IfOk result
            (λ n. MapsBesides (seen_of pass.old).known n codes.now (seen_of pass.new).known) }
        ensures already_known { (m : ℕ) → (seen_of pass.old).known m ≡ Some codes.now → result ≡ Ok (negsuc m) }
        ensures line_end { (result ≡ Ok (negsuc 0)) ↔ (codes.now ≡ crlf) }
        ensures refused { OnErr result (IsSame (seen_of pass.old).known (seen_of pass.new).known) }
        ensures row_full { result ≡ Err InternError.RowFull → (seen_of pass.new).full codes.now }
        ensures no_portion { result ≡ Err InternError.NoPortion → (seen_of pass.new).drained }

        // The table has no chunks that could be used up.
        ensures never_no_portion { result ≢ Err InternError.NoPortion }
    {
        if codes == [13, 10].as_slice() {
            return Ok(-1);
        }
        match find(
            self.cells.as_slice(),
            pass.notes.as_mut_slice(),
            alloc,
            codes,
        ) {
            Ok(place) => Ok(number_of(place)),
            Err(error) => Err(error),
        }
    }

    fn count(&self, pass: &mut CellPass, n: i32) -> usize {
        if n == -1 {
            2
        } else {
            text_at(
                self.cells.as_slice(),
                pass.notes.as_mut_slice(),
                place_of(n),
            )
            .len()
        }
    }

    fn code(&self, pass: &mut CellPass, n: i32, k: usize) -> u32 {
        if n == -1 {
            if k == 0 { 13 } else { 10 }
        } else {
            text_at(
                self.cells.as_slice(),
                pass.notes.as_mut_slice(),
                place_of(n),
            )[k]
        }
    }

    ghost row_size = { λ table pass of_table. row_size_of table pass of_table };

    ghost knows = { λ table pass of_table. knows_of table pass of_table };

    ghost full_means = { λ table pass t of_table full. full_of table pass t of_table full };
}

impl Shared for CellTable {
    fn fork(&self, alloc: Global, pass: &mut CellPass) -> Result<CellPass, AllocError> {
        let notes = copied(alloc, pass.notes.as_mut_slice())?;
        let tally = mem::replace(&mut pass.tally, Tally::first());
        pass.tally = tally.forked();
        Ok(CellPass {
            notes,
            root: false,
            tally: Tally::first(),
        })
    }

    fn meet(
        &self,
        alloc: Global,
        into: &mut CellPass,
        from: CellPass,
    ) -> Result<(), Refused<CellPass>>
        requires no_root { (seen_of from).root ≡ false }
        requires into_table { IsCellPass self.now into.old }
        requires from_table { IsCellPass self.now from }
        ensures table { IsCellPass self.now into.new }
        ensures keeps { Keeps (seen_of into.old) (seen_of into.new) }
        ensures forks { (seen_of into.new).forks ≡ (seen_of into.old).forks }
        ensures met { OnOk result (Meets (seen_of into.old) (seen_of from) (seen_of into.new)) }
        ensures refused { OnErr result (IsUnchanged (seen_of into.old) (seen_of into.new)) }
        ensures given_back { IfErr result (λ refused. refused.from ≡ from) }

        // A meet takes no memory.
        ensures never_refused { IsOk result }
    {
        let _ = alloc;
        let CellPass {
            mut notes,
            root: _,
            tally,
        } = from;
        join_all(
            self.cells.as_slice(),
            into.notes.as_mut_slice(),
            notes.as_mut_slice(),
        );
        let own_tally = mem::replace(&mut into.tally, Tally::first());
        into.tally = own_tally.met(tally);
        Ok(())
    }
}
