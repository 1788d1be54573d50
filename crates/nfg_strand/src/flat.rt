//! The graphemes of strands in one list, where each is written once.

ghost use Rattle.std.specs.Prelude.{◌≡◌, ◌≤◌, ◌++◌, true, OnOk, IfOk, IfSome};
ghost use Rattle.std.specs.List.{list_all, repeat};
ghost use Rattle.nfg_block.specs.Block.{block_of};
ghost use Rattle.nfg_block.specs.Lanes.{is_narrow_grapheme};
ghost use Rattle.nfg_strand.specs.Strand.{graphemes, graphemes_of};

use crate::strand::Strand;
use nfg_block::{Block, RunCells};
use nfg_lanes::widen;
use std::alloc::{AllocError, Global};

/// So many cells become wider at once, so that they are still at hand when they are written a second time.
const PART: usize = 4096;

/// Adds cells at the end, so many times in a row.
fn push_times<T: Copy>(cells: &[T], times: u64, into: &mut Vec<T>) -> Result<(), AllocError>
    ensures { OnOk result (into.new.items ≡ into.old.items ++ repeat times cells.now) }
{
    'times: for _k in 0..times {
        into.extend_from_slice(cells)?;
    }
    Ok(())
}

/// Adds cells of 8 bits at the end of a list in 32.
fn push_part(cells: &[i8], into: &mut Vec<i32>) -> Result<(), AllocError>
    ensures { OnOk result (into.new.items ≡ into.old.items ++ cells.now) }
{
    let start = into.len();
    if cells.len() >= usize::MAX - start {
        return Err(AllocError);
    }
    into.resize(start + cells.len(), 0)?;
    widen(cells, &mut into[start..]);
    Ok(())
}

/// The same by parts.
fn push_widened(cells: &[i8], into: &mut Vec<i32>) -> Result<(), AllocError>
    ensures { OnOk result (into.new.items ≡ into.old.items ++ cells.now) }
{
    let mut rest = cells;
    'parts: while rest.len() > PART {
        push_part(&rest[..PART], into)?;
        rest = &rest[PART..];
    }
    push_part(rest, into)
}

/// The same, so many times in a row.
fn push_widened_times(cells: &[i8], times: u64, into: &mut Vec<i32>) -> Result<(), AllocError>
    ensures { OnOk result (into.new.items ≡ into.old.items ++ repeat times cells.now) }
{
    'times: for _k in 0..times {
        push_widened(cells, into)?;
    }
    Ok(())
}

/// Adds the graphemes of a strand at the end, if its block has 8 bits a grapheme. Answers whether it has.
fn push_narrow(strand: &Strand, into: &mut Vec<i8>) -> Result<bool, AllocError>
    ensures added { IfOk result (λ is. is ≡ true → into.new.items ≡ into.old.items ++ graphemes_of strand.now) }
    ensures fit { IfOk result (λ is. is ≡ true → list_all is_narrow_grapheme (graphemes_of strand.now) ≡ true) }
{
    match strand.cells() {
        RunCells::Narrow(cells) => {
            push_times(cells, strand.times(), into)?;
            Ok(true)
        }
        RunCells::Wide(_) => Ok(false),
    }
}

/// Adds the graphemes of a strand at the end.
fn push_wide(strand: &Strand, into: &mut Vec<i32>) -> Result<(), AllocError>
    ensures { OnOk result (into.new.items ≡ into.old.items ++ graphemes_of strand.now) }
{
    match strand.cells() {
        RunCells::Narrow(cells) => push_widened_times(cells, strand.times(), into),
        RunCells::Wide(cells) => push_times(cells, strand.times(), into),
    }
}

/// The graphemes of the strands, which are `len`, in 8 bits, or none where one of the blocks has more.
fn narrow_list(alloc: Global, strands: &[Strand], len: u64) -> Result<Option<Vec<i8>>, AllocError>
    ensures graphemes { IfOk result (λ some. IfSome some (λ list. list.items ≡ graphemes strands.now)) }
    ensures fit { IfOk result (λ some. IfSome some (λ list. list_all is_narrow_grapheme list.items ≡ true)) }
{
    let mut list = Vec::with_capacity(alloc, len as usize)?;
    for strand in strands {
        if !push_narrow(strand, &mut list)? {
            return Ok(None);
        }
    }
    Ok(Some(list))
}

/// The same in 32 bits.
fn wide_list(alloc: Global, strands: &[Strand], len: u64) -> Result<Vec<i32>, AllocError>
    ensures { IfOk result (λ list. list.items ≡ graphemes strands.now) }
{
    let mut list = Vec::with_capacity(alloc, len as usize)?;
    for strand in strands {
        push_wide(strand, &mut list)?;
    }
    Ok(list)
}

/// Whether each block has 8 bits a grapheme.
fn are_narrow(strands: &[Strand]) -> bool {
    for strand in strands {
        if !strand.piece().narrow {
            return false;
        }
    }
    true
}

/// The block of the graphemes of the strands, which are `len`.
pub(crate) fn flat_block(alloc: Global, strands: &[Strand], len: u64) -> Result<Block, AllocError>
    ensures { IfOk result (λ block. block ≡ block_of (graphemes strands.now)) }
{
    if are_narrow(strands) {
        if let Some(list) = narrow_list(alloc, strands, len)? {
            return Ok(Block::from_narrow(list));
        }
    }
    Block::from_vec(alloc, wide_list(alloc, strands, len)?)
}
