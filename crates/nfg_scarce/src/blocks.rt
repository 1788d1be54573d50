//! Blocks and strings that are made of graphemes.
use crate::outcome::{Outcome, print, refused};
use nfg_block::Block;
use nfg_strand::NString;
use std::alloc::{AllocError, Global};
use std::io;

/// Graphemes that fit 8 bits: `a`, CR LF, `b`.
const NARROW: [i32; 3] = [0x61, -1, 0x62];

/// Graphemes that don't.
const WIDE: [i32; 2] = [0x4E00, 0x62];

/// What came of a call that takes what it was given, or only reads it: where it was refused, the same call gives a
/// block or a string of so many graphemes the next time.
fn outcome_of(was_refused: bool, again: Result<usize, AllocError>, len: usize) -> Outcome {
    if !was_refused {
        return Outcome::Done;
    }
    refused(again == Ok(len))
}

fn len_of_block(block: Result<Block, AllocError>) -> Result<usize, AllocError> {
    match block {
        Ok(block) => Ok(block.len()),
        Err(error) => Err(error),
    }
}

fn len_of(string: Result<NString, AllocError>) -> Result<usize, AllocError> {
    match string {
        Ok(string) => Ok(string.len() as usize),
        Err(error) => Err(error),
    }
}

fn narrow_block(alloc: Global) -> Result<Outcome, AllocError> {
    let was_refused = Block::from_graphemes(alloc, &NARROW).is_err();
    let again = len_of_block(Block::from_graphemes(alloc, &NARROW));
    Ok(outcome_of(was_refused, again, 3))
}

fn wide_block(alloc: Global) -> Result<Outcome, AllocError> {
    let was_refused = Block::from_graphemes(alloc, &WIDE).is_err();
    let again = len_of_block(Block::from_graphemes(alloc, &WIDE));
    Ok(outcome_of(was_refused, again, 2))
}

fn block_of_vector(alloc: Global) -> Result<Outcome, AllocError> {
    let vector = Vec::from_slice(alloc, &NARROW)?;
    let other = Vec::from_slice(alloc, &NARROW)?;
    let was_refused = Block::from_vec(alloc, vector).is_err();
    let again = len_of_block(Block::from_vec(alloc, other));
    Ok(outcome_of(was_refused, again, 3))
}

fn string_of_graphemes(alloc: Global) -> Result<Outcome, AllocError> {
    let was_refused = NString::from_graphemes(alloc, &WIDE).is_err();
    let again = len_of(NString::from_graphemes(alloc, &WIDE));
    Ok(outcome_of(was_refused, again, 2))
}

fn string_of_vector(alloc: Global) -> Result<Outcome, AllocError> {
    let vector = Vec::from_slice(alloc, &WIDE)?;
    let other = Vec::from_slice(alloc, &WIDE)?;
    if vector.len() > 2 || other.len() > 2 {
        return Ok(Outcome::Changed);
    }
    let was_refused = NString::from_vec(alloc, vector).is_err();
    let again = len_of(NString::from_vec(alloc, other));
    Ok(outcome_of(was_refused, again, 2))
}

fn string_of_narrow_vector(alloc: Global) -> Result<Outcome, AllocError> {
    let vector = Vec::from_slice(alloc, &[0x61i8, -1])?;
    let other = Vec::from_slice(alloc, &[0x61i8, -1])?;
    let was_refused = NString::from_narrow(alloc, vector).is_err();
    let again = len_of(NString::from_narrow(alloc, other));
    Ok(outcome_of(was_refused, again, 2))
}

pub(crate) fn report(rt: &impl Print, alloc: Global) -> io::Result<()> {
    print(rt, "Block::from_graphemes, 8 bits", narrow_block(alloc))?;
    print(rt, "Block::from_graphemes, 32 bits", wide_block(alloc))?;
    print(rt, "Block::from_vec", block_of_vector(alloc))?;
    print(rt, "NString::from_graphemes", string_of_graphemes(alloc))?;
    print(rt, "NString::from_vec", string_of_vector(alloc))?;
    print(rt, "NString::from_narrow", string_of_narrow_vector(alloc))
}
