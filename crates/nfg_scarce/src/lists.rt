//! Lists that grow.
use crate::outcome::{Outcome, print, refused};
use nfg_decode::Encoding;
use nfg_encode::{EncodeError, encode_into};
use nfg_text::{ByteList, CodeList, EndList, is_text};
use std::alloc::{AllocError, Global};
use std::io;

fn append_codes(alloc: Global) -> Result<Outcome, AllocError> {
    let mut list = CodeList::from_slice(alloc, &[0x61, 0x301])?;
    match list.append(&[0x62; 100]) {
        Ok(()) => Ok(Outcome::Done),
        Err(_) => Ok(refused(list.as_slice() == [0x61, 0x301].as_slice())),
    }
}

/// A list whose room is full.
fn push_code(alloc: Global) -> Result<Outcome, AllocError> {
    let mut list = CodeList::from_slice(alloc, &[0x61; 4])?;
    match list.push(0x62) {
        Ok(()) => Ok(Outcome::Done),
        Err(_) => Ok(refused(list.as_slice() == [0x61; 4].as_slice())),
    }
}

fn reserve_codes(alloc: Global) -> Result<Outcome, AllocError> {
    let mut list = CodeList::from_slice(alloc, &[0x61, 0x301])?;
    match list.reserve(100) {
        Ok(()) => Ok(Outcome::Done),
        Err(_) => Ok(refused(list.as_slice() == [0x61, 0x301].as_slice())),
    }
}

fn append_ends(alloc: Global) -> Result<Outcome, AllocError> {
    let mut list = EndList::from_slice(alloc, &[2, 5])?;
    match list.append(&[7; 100]) {
        Ok(()) => Ok(Outcome::Done),
        Err(_) => Ok(refused(list.as_slice() == [2, 5].as_slice())),
    }
}

fn reserve_ends(alloc: Global) -> Result<Outcome, AllocError> {
    let mut list = EndList::from_slice(alloc, &[2, 5])?;
    match list.reserve(100) {
        Ok(()) => Ok(Outcome::Done),
        Err(_) => Ok(refused(list.as_slice() == [2, 5].as_slice())),
    }
}

fn append_bytes(alloc: Global) -> Result<Outcome, AllocError> {
    let mut list = ByteList::from_slice(alloc, b"no")?;
    match list.append(&[0x62; 100]) {
        Ok(()) => Ok(Outcome::Done),
        Err(_) => Ok(refused(list.as_slice() == b"no".as_slice())),
    }
}

fn reserve_bytes(alloc: Global) -> Result<Outcome, AllocError> {
    let mut list = ByteList::from_slice(alloc, b"no")?;
    match list.reserve(100) {
        Ok(()) => Ok(Outcome::Done),
        Err(_) => Ok(refused(list.as_slice() == b"no".as_slice())),
    }
}

/// Code points are encoded behind bytes that stand in a list.
fn encode(alloc: Global) -> Result<Outcome, AllocError> {
    let codes = [0x20AC; 100];
    let mut bytes = ByteList::from_slice(alloc, b"no")?;
    if !is_text(&codes) {
        return Ok(Outcome::Changed);
    }
    match encode_into(alloc, Encoding::Utf8, &codes, &mut bytes) {
        Ok(()) => Ok(Outcome::Done),
        Err(EncodeError::OutOfMemory) => Ok(refused(bytes.as_slice() == b"no".as_slice())),
        Err(EncodeError::Unencodable { .. }) => Ok(Outcome::Changed),
    }
}

pub(crate) fn report(rt: &impl Print, alloc: Global) -> io::Result<()> {
    print(rt, "CodeList::append", append_codes(alloc))?;
    print(rt, "CodeList::push", push_code(alloc))?;
    print(rt, "CodeList::reserve", reserve_codes(alloc))?;
    print(rt, "EndList::append", append_ends(alloc))?;
    print(rt, "EndList::reserve", reserve_ends(alloc))?;
    print(rt, "ByteList::append", append_bytes(alloc))?;
    print(rt, "ByteList::reserve", reserve_bytes(alloc))?;
    print(rt, "encode_into", encode(alloc))
}
