//! Search and comparison by nfg_ops: beside walks through both strings, and beside each other.
ghost use Rattle.nfg_bench.specs.Workbench.{IsReady};

use crate::timing::{Comparison, compare_few, compare_jobs};
use crate::workbench::{Job, Workbench};
use std::alloc::Global;
use std::io;
use std::rt::Clock;

/// The graphemes of the strings.
const NARROW: usize = 1 << 26;

const WIDE: usize = 1 << 24;

/// How often one letter stands in a string that is hard to search, and in what is looked for.
const HARD: usize = 1 << 25;

const NEEDLE: usize = 1 << 12;

/// A number that no string has.
const NONE: i32 = 0x7F;

/// English words, and Chinese ones.
const ENGLISH: &str = "the ferry left at seven and nobody on the pier had seen the lamp go out ";

const CHINESE: &str = "渡船每天早上七点离开码头没有人看见灯塔的灯是什么时候熄灭的";

/// French and Hindi.
const FRENCH: &str = "les élèves étaient déjà là près de la fenêtre à l'heure ";

const HINDI: &str = "नाव हर सुबह सात बजे घाट छोड़ती है ";

/// Adds the code points of a sample.
fn add(text: &mut Vec<u32>, sample: &str) -> Option<()> {
    for c in sample.chars() {
        text.push(c as u32).ok()?;
    }
    Some(())
}

/// A sample again and again, up to so many code points or a few more, and an end of its own.
fn words(alloc: Global, sample: &str, end: &str, count: usize) -> Option<Vec<u32>> {
    let mut text = Vec::new(alloc);
    for _k in 0..count / sample.chars().count().max(1) {
        add(&mut text, sample)?;
    }
    add(&mut text, end)?;
    Some(text)
}

/// Keeps such a text, and answers its place, or that of no string.
fn keep(alloc: Global, bench: &mut Workbench, sample: &str, end: &str, count: usize) -> usize
    requires ready { IsReady bench.old }
    ensures ready { IsReady bench.new }
{
    match words(alloc, sample, end, count) {
        Some(text) => bench.text(text.as_slice()).unwrap_or(usize::MAX),
        None => usize::MAX,
    }
}

/// A needle of eight graphemes at the end of words, from the front and from the back.
fn report_words(
    rt: &(impl Print + Clock),
    alloc: Global,
    bench: &mut Workbench,
    name: &str,
    sample: &str,
    count: usize,
) -> io::Result<()>
    requires ready { IsReady bench.old }
    ensures ready { IsReady bench.new }
{
    println!(rt; "{name}")?;
    let string = keep(alloc, bench, sample, "ferry 17", count);
    let same = keep(alloc, bench, sample, "ferry 17", count);
    let front = keep(alloc, bench, "", "ferry 17", 0);
    let back = keep(alloc, bench, "", "17 ferry", 0);
    let index = Job::Index {
        a: string,
        b: front,
        from: 0,
    };
    let rindex = Job::Rindex {
        a: string,
        b: back,
        from: u64::MAX,
    };
    let find = Job::Find {
        a: string,
        number: NONE,
    };
    let equal = Job::Equal { a: string, b: same };
    let compare = Job::Compare { a: string, b: same };
    let walk = Job::Walk { a: string, b: same };
    compare_jobs(rt, " index, by find", count, bench, index, find)?;
    compare_jobs(rt, " rindex, by index", count, bench, rindex, index)?;
    compare_jobs(rt, " equal, by two walks", count, bench, equal, walk)?;
    compare_jobs(rt, " compare, by equal", count, bench, compare, equal)
}

/// One letter very often, and as a needle often with another behind it; in one block, and as one strand.
fn report_hard(rt: &(impl Print + Clock), alloc: Global, bench: &mut Workbench) -> io::Result<()>
    requires ready { IsReady bench.old }
    ensures ready { IsReady bench.new }
{
    let flat = keep(alloc, bench, "a", "", HARD);
    let needle = keep(alloc, bench, "a", "b", NEEDLE);
    let letter = keep(alloc, bench, "a", "", 1);
    let strand = bench.repeated(letter, HARD as u64).unwrap_or(usize::MAX);
    let easy = keep(alloc, bench, "", "zzzzzzzz", 0);
    let worst = Job::Index {
        a: flat,
        b: needle,
        from: 0,
    };
    let usual = Job::Index {
        a: flat,
        b: easy,
        from: 0,
    };
    let repeated = Job::Index {
        a: strand,
        b: needle,
        from: 0,
    };
    let from_the_back = Job::Rindex {
        a: flat,
        b: needle,
        from: u64::MAX,
    };
    compare_jobs(
        rt,
        "one letter, a needle that almost fits, by one that doesn't",
        HARD,
        bench,
        worst,
        usual,
    )?;
    compare_jobs(
        rt,
        "the same from the back, by from the front",
        HARD,
        bench,
        from_the_back,
        worst,
    )?;
    compare_jobs(
        rt,
        "the same over one letter repeated, by flat",
        HARD,
        bench,
        repeated,
        worst,
    )
}

/// The code points of a string, beside a copy of a string that has one grapheme for each code point.
fn report_codes(
    rt: &(impl Print + Clock),
    alloc: Global,
    bench: &mut Workbench,
    name: &str,
    sample: &str,
) -> io::Result<()>
    requires ready { IsReady bench.old }
    ensures ready { IsReady bench.new }
{
    let string = keep(alloc, bench, sample, "", WIDE);
    let singles = keep(alloc, bench, CHINESE, "", WIDE);
    let listed = Job::Codes { a: string };
    let copied = Job::Copy { a: singles };
    compare_jobs(rt, name, WIDE, bench, listed, copied)
}

/// As many bytes as a narrow string has graphemes, compared by `==` and by a loop.
#[derive(Drop)]
struct Bytes<'a> {
    a: &'a [u8],
    b: &'a [u8],
}

impl Comparison for Bytes<'_> {
    fn fast(&self, _run: usize) -> usize {
        (self.a == self.b) as usize
    }

    fn plain(&self, _run: usize) -> usize {
        let mut same: usize = 0;
        for (x, y) in self.a.iter().zip(self.b.iter()) {
            if x != y {
                return same;
            }
            same = same.wrapping_add(1);
        }
        same
    }
}

fn report_bytes(rt: &(impl Print + Clock), alloc: Global) -> io::Result<()> {
    let a = vec![in alloc; 97u8; NARROW]?;
    let b = vec![in alloc; 97u8; NARROW]?;
    let (a, b) = (a.as_slice(), b.as_slice());
    compare_few(
        rt,
        "as many bytes by ==, by a loop",
        NARROW,
        &Bytes { a, b },
    )
}

pub fn report(rt: &(impl Print + Clock), alloc: Global) -> io::Result<()> {
    report_bytes(rt, alloc)?;
    let mut bench = Workbench::new(alloc)?;
    report_words(rt, alloc, &mut bench, "English, 2^26", ENGLISH, NARROW)?;
    report_words(rt, alloc, &mut bench, "Chinese, 2^24", CHINESE, WIDE)?;
    report_hard(rt, alloc, &mut bench)?;
    report_codes(rt, alloc, &mut bench, "codes of French, by a copy", FRENCH)?;
    report_codes(rt, alloc, &mut bench, "codes of Hindi, by a copy", HINDI)
}
