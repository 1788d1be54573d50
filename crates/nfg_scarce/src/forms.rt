//! Normal forms of texts, and where their clusters end.
use crate::outcome::{Outcome, print, refused};
use nfg_text::{append_nfc, cluster_ends, is_text, nfc_of};
use std::alloc::{AllocError, Global};
use std::io;

/// A letter with two marks that are not in canonical order, and another letter.
const TEXT: [u32; 4] = [0x71, 0x307, 0x323, 0x62];

/// Where a text is refused, it is composed the next time.
fn compose(alloc: Global) -> Result<Outcome, AllocError> {
    if !is_text(&TEXT) {
        return Ok(Outcome::Changed);
    }
    match nfc_of(alloc, &TEXT) {
        Ok(_) => Ok(Outcome::Done),
        Err(_) => match nfc_of(alloc, &TEXT) {
            Ok(codes) => Ok(refused(codes.as_slice() == [0x71, 0x323, 0x307, 0x62].as_slice())),
            Err(_) => Ok(Outcome::Changed),
        },
    }
}

fn compose_behind(alloc: Global) -> Result<Outcome, AllocError> {
    let mut chars = Vec::from_slice(alloc, &['a', '\u{301}'])?;
    match append_nfc(&mut chars, &['q', '\u{307}', '\u{323}']) {
        Ok(()) => Ok(Outcome::Done),
        Err(_) => Ok(refused(chars.as_slice() == ['a', '\u{301}'].as_slice())),
    }
}

fn cut(alloc: Global) -> Result<Outcome, AllocError> {
    if !is_text(&TEXT) {
        return Ok(Outcome::Changed);
    }
    match cluster_ends(alloc, &TEXT) {
        Ok(_) => Ok(Outcome::Done),
        Err(_) => match cluster_ends(alloc, &TEXT) {
            Ok(ends) => Ok(refused(ends.as_slice() == [3, 4].as_slice())),
            Err(_) => Ok(Outcome::Changed),
        },
    }
}

pub(crate) fn report(rt: &impl Print, alloc: Global) -> io::Result<()> {
    print(rt, "nfc_of", compose(alloc))?;
    print(rt, "append_nfc", compose_behind(alloc))?;
    print(rt, "cluster_ends", cut(alloc))
}
