//! Scripts that are read and generated, and whole runs.
use crate::outcome::{Outcome, print, refused};
use nfg_io::{MemoryFiles, MemorySink};
use nfg_run::{Status, Words, generated, run};
use nfg_script::{ScriptError, parse};
use nfg_work::{OpenGate, levels};
use std::alloc::{AllocError, Global};
use std::io;
use std::marker::Sync;
use std::thread::Threads;

/// A script of two levels that loads a file.
const SCRIPT: &[u8] = b"load a utf8 f\ntext b 65 301\ncat c a b\nlen c\n";

/// What it prints.
const PRINTED: &[u8] = b"3\n";

/// Where a script is refused for want of memory, it is read the next time.
fn read(alloc: Global) -> Result<Outcome, AllocError> {
    match parse(alloc, SCRIPT) {
        Ok(_) => Ok(Outcome::Done),
        Err(ScriptError::OutOfMemory) => match parse(alloc, SCRIPT) {
            Ok(script) => Ok(refused(script.len() == 4)),
            Err(_) => Ok(Outcome::Changed),
        },
        Err(_) => Ok(Outcome::Changed),
    }
}

fn tell_levels(alloc: Global) -> Result<Outcome, AllocError> {
    let script = match parse(alloc, SCRIPT) {
        Ok(script) => script,
        Err(_) => return Err(AllocError),
    };
    match levels(alloc, &script) {
        Ok(_) => Ok(Outcome::Done),
        Err(_) => match levels(alloc, &script) {
            Ok(list) => Ok(refused(list.as_slice() == [0, 0, 1, 2].as_slice())),
            Err(_) => Ok(Outcome::Changed),
        },
    }
}

fn generate(alloc: Global) -> Result<Outcome, AllocError> {
    match generated(alloc, 1, 20) {
        Ok(_) => Ok(Outcome::Done),
        Err(_) => Ok(refused(generated(alloc, 1, 20).is_ok())),
    }
}

/// Where a run ends for want of memory, nothing is written, and the next one over the same files prints all.
fn run_both<R: Threads + Sync>(rt: &R, alloc: Global) -> Result<Outcome, AllocError> {
    let mut words = Words::new(alloc);
    words.push("run")?;
    words.push("s")?;
    let mut files = MemoryFiles::new(alloc, 16);
    files.add("s", SCRIPT)?;
    files.add("f", b"q\xCC\xA3 ")?;
    let mut out = MemorySink::new(alloc, 16, 16)?;
    match run(rt, alloc, &words, &mut files, &mut out, &OpenGate) {
        Status::Done => Ok(Outcome::Done),
        Status::OutOfMemory => {
            let is_empty = out.taken().is_empty();
            let again = run(rt, alloc, &words, &mut files, &mut out, &OpenGate);
            Ok(refused(is_empty && again == Status::Done && out.taken() == PRINTED))
        }
        _ => Ok(Outcome::Changed),
    }
}

pub(crate) fn report<R: Print + Threads + Sync>(rt: &R, alloc: Global) -> io::Result<()> {
    print(rt, "parse", read(alloc))?;
    print(rt, "levels", tell_levels(alloc))?;
    print(rt, "generated", generate(alloc))?;
    print(rt, "run", run_both(rt, alloc))
}
