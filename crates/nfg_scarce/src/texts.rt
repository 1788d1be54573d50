//! Strings over numbers of a table.
ghost use Rattle.std.specs.Prelude.{◌≡◌, IfOk};
ghost use Rattle.nfg_syn.specs.Represents.{AreGraphemes};

use crate::outcome::{Outcome, print, refused};
use nfg_ops::{append_codes, codes};
use nfg_seam::{SeamError, concat, repeat};
use nfg_strand::NString;
use nfg_stream::string_of;
use nfg_syn::{OwnTable, Synthetics, append_cluster};
use nfg_text::{CodeList, is_text};
use std::alloc::{AllocError, Global};
use std::io;

/// A letter with a mark, and half of a flag: two graphemes.
const TEXT: [u32; 3] = [0x71, 0x323, 0x1F1E9];

/// The string of a text.
fn string<T: Synthetics>(
    alloc: Global,
    table: &T,
    pass: &mut T::Pass,
    text: &[u32],
) -> Result<NString, AllocError>
    requires { T.is_of table.now pass.old }
    ensures table { T.is_of table.now pass.new }
    ensures known { IfOk result (λ s. AreGraphemes (T.seen pass.new).known s.graphemes) }
{
    if !is_text(text) {
        return Err(AllocError);
    }
    match string_of(alloc, table, pass, text) {
        Ok(string) => Ok(string),
        Err(_) => Err(AllocError),
    }
}

fn is_as_before(string: &NString) -> bool {
    string.len() == 2 && string.strands() == 1
}

fn join(alloc: Global) -> Result<Outcome, AllocError> {
    let (table, mut pass) = OwnTable::new(alloc, 16)?;
    let a = string(alloc, &table, &mut pass, &TEXT)?;
    match concat(alloc, &table, &mut pass, &a, &a) {
        Ok(_) => Ok(Outcome::Done),
        Err(error) => Ok(refused(error == SeamError::OutOfMemory && is_as_before(&a))),
    }
}

fn join_again(alloc: Global) -> Result<Outcome, AllocError> {
    let (table, mut pass) = OwnTable::new(alloc, 16)?;
    let a = string(alloc, &table, &mut pass, &TEXT)?;
    match repeat(alloc, &table, &mut pass, &a, 3) {
        Ok(_) => Ok(Outcome::Done),
        Err(error) => Ok(refused(error == SeamError::OutOfMemory && is_as_before(&a))),
    }
}

fn spell(alloc: Global) -> Result<Outcome, AllocError> {
    let (table, mut pass) = OwnTable::new(alloc, 16)?;
    let a = string(alloc, &table, &mut pass, &TEXT)?;
    match codes(alloc, &table, &mut pass, &a) {
        Ok(_) => Ok(Outcome::Done),
        Err(_) => Ok(refused(is_as_before(&a))),
    }
}

/// Where code points are refused, those that stood in the list stand in front of what was added.
fn spell_behind(alloc: Global) -> Result<Outcome, AllocError> {
    let (table, mut pass) = OwnTable::new(alloc, 16)?;
    let a = string(alloc, &table, &mut pass, &TEXT)?;
    let mut list = CodeList::from_slice(alloc, &[0x61, 0x301])?;
    match append_codes(&table, &mut pass, &a, 0, a.len(), &mut list) {
        Ok(()) => Ok(Outcome::Done),
        Err(_) => {
            let codes = list.as_slice();
            let stand = codes.len() >= 2 && codes[..2] == [0x61, 0x301];
            Ok(refused(stand && is_as_before(&a)))
        }
    }
}

/// A list whose room is full.
fn spell_one(alloc: Global) -> Result<Outcome, AllocError> {
    let (table, mut pass) = OwnTable::new(alloc, 16)?;
    let mut list = CodeList::from_slice(alloc, &[0x61; 4])?;
    match append_cluster(&table, &mut pass, 0x62, &mut list) {
        Ok(()) => Ok(Outcome::Done),
        Err(_) => Ok(refused(list.as_slice() == [0x61; 4].as_slice())),
    }
}

/// Where a text is refused, its string is made the next time.
fn make(alloc: Global) -> Result<Outcome, AllocError> {
    let (table, mut pass) = OwnTable::new(alloc, 16)?;
    match string(alloc, &table, &mut pass, &TEXT) {
        Ok(_) => Ok(Outcome::Done),
        Err(_) => match string(alloc, &table, &mut pass, &TEXT) {
            Ok(made) => Ok(refused(is_as_before(&made))),
            Err(_) => Ok(Outcome::Changed),
        },
    }
}

pub(crate) fn report(rt: &impl Print, alloc: Global) -> io::Result<()> {
    print(rt, "concat", join(alloc))?;
    print(rt, "repeat", join_again(alloc))?;
    print(rt, "codes", spell(alloc))?;
    print(rt, "append_codes", spell_behind(alloc))?;
    print(rt, "append_cluster", spell_one(alloc))?;
    print(rt, "string_of", make(alloc))
}
