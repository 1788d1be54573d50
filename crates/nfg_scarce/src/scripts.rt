//! Scripts, and files in parts.
use crate::outcome::{Outcome, print, refused};
use nfg_decode::Encoding;
use nfg_script::{Script, parse};
use nfg_words::WordTable;
use nfg_work::{LevelList, OpenGate, load_parts, run_alone, run_shared};
use std::alloc::{AllocError, Global};
use std::io;
use std::marker::Sync;
use std::thread::Threads;

/// A script of two levels.
const SCRIPT: &[u8] = b"text a 71 323\ntext b 65 301\ncat c a b\nlen c\n";

/// What it prints.
const PRINTED: &[u8] = b"2\n";

fn script(alloc: Global) -> Result<Script, AllocError> {
    match parse(alloc, SCRIPT) {
        Ok(script) => Ok(script),
        Err(_) => Err(AllocError),
    }
}

/// Where a script was refused, it is evaluated the next time.
fn run_by_one(alloc: Global) -> Result<Outcome, AllocError> {
    let script = script(alloc)?;
    match run_alone(alloc, &script, &[], 16) {
        Ok(_) => Ok(Outcome::Done),
        Err(_) => match run_alone(alloc, &script, &[], 16) {
            Ok(output) => Ok(refused(output.bytes.as_slice() == PRINTED)),
            Err(_) => Ok(Outcome::Changed),
        },
    }
}

fn run_by_two<R: Threads + Sync>(rt: &R, alloc: Global) -> Result<Outcome, AllocError> {
    let script = script(alloc)?;
    let (table, mut pass) = WordTable::new(alloc, 16)?;
    match run_shared(rt, alloc, &table, &mut pass, &script, &[], 2, &OpenGate) {
        Ok(_) => Ok(Outcome::Done),
        Err(_) => match run_shared(rt, alloc, &table, &mut pass, &script, &[], 2, &OpenGate) {
            Ok(output) => Ok(refused(output.bytes.as_slice() == PRINTED)),
            Err(_) => Ok(Outcome::Changed),
        },
    }
}

/// Where a file in parts was refused, it is loaded the next time.
fn load<R: Threads + Sync>(rt: &R, alloc: Global) -> Result<Outcome, AllocError> {
    let bytes = b"q\xCC\xA3 plain";
    let (table, mut pass) = WordTable::new(alloc, 16)?;
    match load_parts(
        rt,
        alloc,
        &table,
        &mut pass,
        Encoding::Utf8,
        bytes,
        &[1, 5],
        &OpenGate,
    ) {
        Ok(_) => Ok(Outcome::Done),
        Err(_) => match load_parts(
            rt,
            alloc,
            &table,
            &mut pass,
            Encoding::Utf8,
            bytes,
            &[1, 5],
            &OpenGate,
        ) {
            Ok(string) => Ok(refused(string.len() == 7)),
            Err(_) => Ok(Outcome::Changed),
        },
    }
}

fn append(alloc: Global) -> Result<Outcome, AllocError> {
    let mut list = LevelList::from_slice(alloc, &[0, 1])?;
    match list.append(&[2; 100]) {
        Ok(()) => Ok(Outcome::Done),
        Err(_) => Ok(refused(list.as_slice() == [0, 1].as_slice())),
    }
}

pub(crate) fn report<R: Print + Threads + Sync>(rt: &R, alloc: Global) -> io::Result<()> {
    print(rt, "run_alone", run_by_one(alloc))?;
    print(rt, "run_shared", run_by_two(rt, alloc))?;
    print(rt, "load_parts", load(rt, alloc))?;
    print(rt, "LevelList::append", append(alloc))
}
