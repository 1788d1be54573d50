//! Files in memory, output in memory, and the words of a command line.
use crate::outcome::{Outcome, print, refused};
use nfg_io::{Files, MemoryFiles, MemorySink, Sink};
use nfg_run::Words;
use std::alloc::{AllocError, Global};
use std::io;

/// Whether a path has these bytes, at most 16.
fn has(files: &mut MemoryFiles, path: &str, bytes: &[u8]) -> bool {
    if files.open(path).is_err() {
        return false;
    }
    let mut buffer = [0; 16];
    match files.read(&mut buffer) {
        Ok(count) => count <= 16 && &buffer[..count] == bytes,
        Err(_) => false,
    }
}

/// Where a file is refused, it is not there, and the earlier one is.
fn add(alloc: Global) -> Result<Outcome, AllocError> {
    let mut files = MemoryFiles::new(alloc, 16);
    files.add("f", b"first")?;
    match files.add("g", b"second") {
        Ok(()) => Ok(Outcome::Done),
        Err(_) => {
            let first = has(&mut files, "f", b"first");
            let second = has(&mut files, "g", b"second");
            Ok(refused(first && !second))
        }
    }
}

/// Where the number of a call that fails is refused, that call goes well.
fn fail_at(alloc: Global) -> Result<Outcome, AllocError> {
    let mut files = MemoryFiles::new(alloc, 16);
    files.add("f", b"first")?;
    match files.fail_at(0) {
        Ok(()) => Ok(Outcome::Done),
        Err(_) => Ok(refused(has(&mut files, "f", b"first"))),
    }
}

/// The same of a write.
fn fail_a_write_at(alloc: Global) -> Result<Outcome, AllocError> {
    let mut sink = MemorySink::new(alloc, 16, 16)?;
    match sink.fail_at(0) {
        Ok(()) => Ok(Outcome::Done),
        Err(_) => {
            let taken = sink.write(b"out");
            Ok(refused(taken == Ok(3) && sink.taken() == b"out".as_slice()))
        }
    }
}

fn push(alloc: Global) -> Result<Outcome, AllocError> {
    let mut words = Words::new(alloc);
    words.push("run")?;
    match words.push("s") {
        Ok(()) => Ok(Outcome::Done),
        Err(_) => Ok(refused(words.len() == 1 && words.get(0) == "run")),
    }
}

pub(crate) fn report(rt: &impl Print, alloc: Global) -> io::Result<()> {
    print(rt, "MemoryFiles::add", add(alloc))?;
    print(rt, "MemoryFiles::fail_at", fail_at(alloc))?;
    print(rt, "MemorySink::fail_at", fail_a_write_at(alloc))?;
    print(rt, "Words::push", push(alloc))
}
