//! What printing a string costs beside loading it, by scripts that nfg_work evaluates.
use crate::texts::{self, LONG};
use crate::timing::{Comparison, compare_rest};
use crate::workload::are_within;
use nfg_script::{Script, parse};
use nfg_text::ByteList;
use nfg_work::{FileRead, run_alone};
use std::alloc::Global;
use std::io;
use std::rt::Clock;

/// The places of a table.
const PLACES: u32 = 1 << 18;

/// How many bytes a script prints.
fn printed(alloc: Global, script: &Script, reads: &[FileRead]) -> usize {
    if !are_within(reads) {
        return 0;
    }
    match run_alone(alloc, script, reads, PLACES) {
        Ok(output) => output.bytes.len(),
        Err(_) => 0,
    }
}

/// A script that loads a file and prints it, and one that loads it.
#[derive(Drop)]
struct Printing<'a> {
    alloc: Global,
    prints: &'a Script,
    loads: &'a Script,
    reads: &'a [FileRead],
}

impl Comparison for Printing<'_> {
    fn fast(&self, _run: usize) -> usize {
        printed(self.alloc, self.prints, self.reads)
    }

    fn plain(&self, _run: usize) -> usize {
        printed(self.alloc, self.loads, self.reads)
    }
}

/// The script of these lines, and that of its first line alone, over a text.
fn report_script(
    rt: &(impl Print + Clock),
    alloc: Global,
    name: &str,
    sample: &str,
    prints: &[u8],
) -> io::Result<()> {
    let bytes = texts::repeated(alloc, sample.as_bytes(), LONG)?;
    let count = bytes.len();
    let reads = [FileRead::Bytes(ByteList::from_vec(bytes))];
    let reads = reads.as_slice();
    match (parse(alloc, prints), parse(alloc, b"load a utf8 f\n")) {
        (Ok(prints), Ok(loads)) => {
            let (prints, loads) = (&prints, &loads);
            compare_rest(
                rt,
                name,
                count,
                &Printing {
                    alloc,
                    prints,
                    loads,
                    reads,
                },
            )
        }
        _ => println!(rt; "{name}: no script"),
    }
}

const PUT: &[u8] = b"load a utf8 f\nput a utf8\n";

const SHOW: &[u8] = b"load a utf8 f\nshow a\n";

pub fn report(rt: &(impl Print + Clock), alloc: Global) -> io::Result<()> {
    report_script(rt, alloc, "put of ASCII, by its load", texts::ASCII, PUT)?;
    report_script(rt, alloc, "put of French, by its load", texts::FRENCH, PUT)?;
    report_script(
        rt,
        alloc,
        "put of Chinese, by its load",
        texts::CHINESE,
        PUT,
    )?;
    report_script(
        rt,
        alloc,
        "put of Hindi, by its load",
        texts::DEVANAGARI,
        PUT,
    )?;
    report_script(rt, alloc, "show of ASCII, by its load", texts::ASCII, SHOW)?;
    report_script(
        rt,
        alloc,
        "show of Hindi, by its load",
        texts::DEVANAGARI,
        SHOW,
    )
}
