//! A range of a block, read from the front.

ghost use Rattle.std.specs.Prelude.{◌≡◌, ◌++◌, [], drop, length, min, take};

use nfg_lanes::widen;
use std::marker::Model;

/// The graphemes of a range of a block that are left, in order. It reads the block's cells in place.
#[derive(Drop)]
pub struct Run<'a> {
    cells: RunCells<'a>,
}

/// Cells of a block in a row, as they stand there.
#[derive(Clone, Copy)]
pub enum RunCells<'a> {
    /// Of 8 bits.
    Narrow(&'a [i8]),
    /// Of 32 bits.
    Wide(&'a [i32]),
}

impl<'a> Model for Run<'a> {
    ghost use Rattle.std.specs.Prelude.{ℤ, List};
    ghost use Rattle.nfg_block.specs.Runs.{left_in};

    ghost Value = { List ℤ };

    ghost view = { λ run. left_in run.cells };
}

impl<'a> Run<'a> {
    /// The run of no graphemes.
    pub fn empty() -> Run<'a>
        ensures { result ≡ [] }
    {
        Run::narrow(&[])
    }

    #[inline]
    pub(crate) fn narrow(cells: &'a [i8]) -> Run<'a>
        ensures { result ≡ cells.now }
    {
        Run {
            cells: RunCells::Narrow(cells),
        }
    }

    #[inline]
    pub(crate) fn wide(cells: &'a [i32]) -> Run<'a>
        ensures { result ≡ cells.now }
    {
        Run {
            cells: RunCells::Wide(cells),
        }
    }

    /// Reads the next graphemes into the front of a slice, as many as there are and as it has room
    /// for: how many.
    pub fn read(&mut self, into: &mut [i32]) -> usize
        ensures count { result ≡ min (length into.old) (length self.old) }
        ensures read { into.new ≡ take result self.old ++ drop result into.old }
        ensures left { self.new ≡ drop result self.old }
    {
        match &mut self.cells {
            RunCells::Narrow(left) => {
                let cells = *left;
                let count = into.len().min(cells.len());
                widen(&cells[..count], &mut into[..count]);
                *left = &cells[count..];
                count
            }
            RunCells::Wide(left) => {
                let cells = *left;
                let count = into.len().min(cells.len());
                into[..count].copy_from_slice(&cells[..count]);
                *left = &cells[count..];
                count
            }
        }
    }
}
