//! Strings of graphemes.
use crate::outcome::{Outcome, print, refused};
use nfg_ops::{SubError, substring};
use nfg_strand::NString;
use std::alloc::{AllocError, Global};
use std::io;

/// Whether a string has these graphemes, in so many pieces.
fn is_of(string: &NString, graphemes: &[i32], pieces: usize) -> bool {
    if string.len() != graphemes.len() as u64 {
        return false;
    }
    let mut at = 0;
    for number in string.iter() {
        if at >= graphemes.len() {
            return false;
        }
        if number != graphemes[at] {
            return false;
        }
        at += 1;
    }
    string.strands() == pieces
}

/// The string whose calls are made: `a`, CR LF, an ideograph, `b`, in two pieces.
fn two_pieces(alloc: Global) -> Result<NString, AllocError> {
    let mut string = NString::from_graphemes(alloc, &[0x61, -1])?;
    let behind = NString::from_graphemes(alloc, &[0x4E00, 0x62])?;
    if string.len() + behind.len() > 4 {
        return Err(AllocError);
    }
    string.append(alloc, &behind)?;
    Ok(string)
}

fn is_two_pieces(string: &NString) -> bool {
    is_of(string, &[0x61, -1, 0x4E00, 0x62], 2)
}

fn append(alloc: Global) -> Result<Outcome, AllocError> {
    let mut string = two_pieces(alloc)?;
    let other = two_pieces(alloc)?;
    if string.len() + other.len() > 8 {
        return Ok(Outcome::Changed);
    }
    match string.append(alloc, &other) {
        Ok(()) => Ok(Outcome::Done),
        Err(_) => Ok(refused(is_two_pieces(&string) && is_two_pieces(&other))),
    }
}

fn flatten(alloc: Global) -> Result<Outcome, AllocError> {
    let string = two_pieces(alloc)?;
    match string.flatten(alloc) {
        Ok(_) => Ok(Outcome::Done),
        Err(_) => Ok(refused(is_two_pieces(&string))),
    }
}

fn repeated(alloc: Global) -> Result<Outcome, AllocError> {
    let string = two_pieces(alloc)?;
    if string.len() > 4 {
        return Ok(Outcome::Changed);
    }
    match string.repeated(alloc, 3) {
        Ok(_) => Ok(Outcome::Done),
        Err(_) => Ok(refused(is_two_pieces(&string))),
    }
}

fn clip(alloc: Global) -> Result<Outcome, AllocError> {
    let string = two_pieces(alloc)?;
    if string.len() < 3 {
        return Ok(Outcome::Changed);
    }
    match string.clip(alloc, 1, 3) {
        Ok(_) => Ok(Outcome::Done),
        Err(_) => Ok(refused(is_two_pieces(&string))),
    }
}

fn part(alloc: Global) -> Result<Outcome, AllocError> {
    let string = two_pieces(alloc)?;
    match substring(alloc, &string, 1, 2) {
        Ok(_) => Ok(Outcome::Done),
        Err(SubError::OutOfMemory) => Ok(refused(is_two_pieces(&string))),
        Err(SubError::OutOfRange) => Ok(Outcome::Changed),
    }
}

pub(crate) fn report(rt: &impl Print, alloc: Global) -> io::Result<()> {
    print(rt, "NString::append", append(alloc))?;
    print(rt, "NString::flatten", flatten(alloc))?;
    print(rt, "NString::repeated", repeated(alloc))?;
    print(rt, "NString::clip", clip(alloc))?;
    print(rt, "substring", part(alloc))
}
