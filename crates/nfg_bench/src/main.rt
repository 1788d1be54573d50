//! Times the crates of this repository, each beside a plain way to do the same work in the same run.
#![tactic(auto)]

use std::{env, io};

mod blocks;
mod decode;
mod lanes;
mod machine;
mod parts;
mod pipeline;
mod plain;
mod print;
mod samples;
mod scripts;
mod seam;
mod search;
mod segment;
mod strand;
mod stream;
mod tables;
mod texts;
mod threads;
mod timing;
mod workbench;
mod workers;
mod workload;

// The first word after the program's name says what to time; with none, nothing is.
fn main(rt: HostRuntime) -> io::Result<()> {
    let mut words = env::args(&rt)?;
    let _program = words.next();
    match words.next() {
        Some(word) => match word.as_str() {
            "lanes" => lanes::report(&rt, rt.alloc()),
            "blocks" => blocks::report(&rt, rt.alloc()),
            "decode" => decode::report(&rt, rt.alloc()),
            "strand" => strand::report(&rt, rt.alloc()),
            "stream" => stream::report(&rt, rt.alloc()),
            "seam" => seam::report(&rt, rt.alloc()),
            "search" => search::report(&rt, rt.alloc()),
            "print" => print::report(&rt, rt.alloc()),
            "tables" => {
                tables::report(&rt, rt.alloc())?;
                threads::report(&rt, rt.alloc())
            }
            "segment" => segment::report(&rt, rt.alloc()),
            "workers" => workers::report(&rt, rt.alloc()),
            "parts" => parts::report(&rt, rt.alloc()),
            "machine" => machine::report(&rt, rt.alloc()),
            _ => println!(rt; "No such subject: {word}"),
        },
        None => println!(rt;
            "Name what to time: lanes, blocks, decode, strand, stream, segment, seam, search, print, tables, workers, \
             parts, machine"
        ),
    }
}
