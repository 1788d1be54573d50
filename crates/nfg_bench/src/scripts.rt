//! The scripts that several workers evaluate. Each prints a number at its end, so that one that is refused is seen.
use crate::texts;
use crate::workload::Workload;
use nfg_script::parse;
use nfg_text::ByteList;
use nfg_work::FileRead;
use std::alloc::{AllocError, Global};

/// The bytes of each of the files that do not wait for one another, and how many they are.
const FILE: usize = 4 * 1024 * 1024;

const FILES: usize = 16;

/// The bytes of all these files, but for a part of a sample at the end of each.
pub const LOADED: usize = FILES * FILE;

/// How many regional indicators the one file of a chain begins with. The last stands alone.
const INDICATORS: usize = (1 << 21) - 1;

/// The bytes that follow.
const LONG_FILE: usize = 56 * 1024 * 1024;

/// How many lines of texts there are.
const TEXTS: u32 = 9_999;

/// How many joins there are.
const JOINS: u32 = 5_000;

/// The script of these lines over what was read, where it is one.
fn workload(alloc: Global, lines: &str, reads: Vec<FileRead>) -> Option<Workload> {
    match parse(alloc, lines.as_bytes()) {
        Ok(script) => Some(Workload { script, reads }),
        Err(_) => None,
    }
}

fn file_of(bytes: Vec<u8>) -> FileRead {
    FileRead::Bytes(ByteList::from_vec(bytes))
}

/// Files of all texts, none of which waits for another.
pub fn loads(alloc: Global) -> Result<Option<Workload>, AllocError> {
    let mut lines = String::new(alloc);
    let mut reads = Vec::new(alloc);
    for k in 0..FILES {
        let line = format!(in alloc; "load f{k} utf8 f\n")?;
        lines.push_str(line.as_str())?;
        reads.push(file_of(texts::mixed(alloc, FILE)?))?;
    }
    lines.push_str("len f15\n")?;
    Ok(workload(alloc, lines.as_str(), reads))
}

/// The last regional indicator is put before all, so that they pair anew, and again before each result. Then strings are
/// repeated, joined and cut, each of the last one.
const CHAIN: &str = "\
load a utf8 f
sub b a 0 1048576
sub c b 1048575 1
cat d c b
cat e c d
cat f c e
cat g c f
cat h c g
cat i c h
cat j c i
cat k c j
rep l k 8
cat m l a
sub n m 7 20000000
rep o n 3
len o
";

/// One file of regional indicators and then of all texts, and commands that each hang on the one before.
pub fn chain(alloc: Global) -> Result<Option<Workload>, AllocError> {
    let mut bytes = texts::repeated(alloc, "\u{1F1E6}".as_bytes(), INDICATORS * 4)?;
    bytes.extend_from_slice(texts::mixed(alloc, LONG_FILE)?.as_slice())?;
    let mut reads = Vec::new(alloc);
    reads.push(file_of(bytes))?;
    Ok(workload(alloc, CHAIN, reads))
}

/// 9,999 lines of a text of a word, a cluster of two code points, and an ideograph, and one that prints.
pub fn texts(alloc: Global) -> Result<Option<Workload>, AllocError> {
    let mut lines = String::new(alloc);
    for k in 0..TEXTS {
        let mark = 0x300 + k % 0x70;
        let ideograph = 0x4E00 + k;
        let line = format!(in alloc;
            "text t{k} 6E 75 6D 62 65 72 20 71 {:X} 20 {:X}\n",
            mark, ideograph
        )?;
        lines.push_str(line.as_str())?;
    }
    lines.push_str("len t9998\n")?;
    Ok(workload(alloc, lines.as_str(), Vec::new(alloc)))
}

/// 5,000 lines that each join two letters to the string of the line before.
pub fn joins(alloc: Global) -> Result<Option<Workload>, AllocError> {
    let mut lines = String::new(alloc);
    lines.push_str("text s0 61 62\n")?;
    for k in 0..JOINS {
        let line = format!(in alloc; "cat s{} s{k} s0\n", k + 1)?;
        lines.push_str(line.as_str())?;
    }
    lines.push_str("len s5000\n")?;
    Ok(workload(alloc, lines.as_str(), Vec::new(alloc)))
}
