//! Runs a script of string operations over files.
#![tactic(auto)]

use nfg_io::{RealFiles, RealSink};
use nfg_run::{OpenGate, Words, run};
use std::alloc::Global;
use std::process::ExitCode;
use std::rt::Env;
use std::{env, io};

/// The words after the program's name.
fn gather<R: Env + Alloc<A = Global>>(rt: &R) -> io::Result<Words> {
    let mut words = Words::new(rt.alloc());
    for word in env::args(rt)?.skip(1) {
        words.push(word.as_str())?;
    }
    Ok(words)
}

fn main(rt: HostRuntime) -> ExitCode {
    let words = match gather(&rt) {
        Ok(words) => words,
        Err(error) if error.kind() == io::ErrorKind::OutOfMemory => return ExitCode::from(4),
        // a word that isn't UTF-8: the answer is that to no words, the usage text
        Err(_) => Words::new(rt.alloc()),
    };
    let mut files = RealFiles::new(&rt);
    let mut out = RealSink::new(&rt);
    let status = run(&rt, rt.alloc(), &words, &mut files, &mut out, &OpenGate);
    ExitCode::from(status.code())
}
