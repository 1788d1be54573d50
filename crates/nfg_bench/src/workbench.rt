//! Strings over one table, and what is done with them while it is timed.
ghost use Rattle.std.specs.Prelude.{◌≡◌, ◌≤◌, ◌<◌, ◌^◌, IfOk, IfSome, OnOk, OnErr};
ghost use Rattle.nfg_text.specs.Text.{IsText};
ghost use Rattle.nfg_syn.specs.OwnTexts.{IsOwnPass, known_of};
ghost use Rattle.nfg_syn.specs.Represents.{AreGraphemes};
ghost use Rattle.nfg_syn.specs.Known.{Texts};
ghost use Rattle.nfg_bench.specs.Workbench.{AreLawful, IsReady};

use crate::pipeline::new_table;
use nfg_ops::{codes, compare, equal, index, rindex};
use nfg_seam::{concat, repeat};
use nfg_strand::NString;
use nfg_stream::string_of;
use nfg_syn::{OwnPass, OwnTable};
use nfg_text::is_text;
use std::alloc::{AllocError, Global};
use std::cmp::Ordering;

/// Strings that stand for graphemes, in the order in which they were made. They are named by their places.
#[derive(Drop)]
pub struct Workbench {
    alloc: Global,
    table: OwnTable,
    pass: OwnPass,
    strings: Vec<NString>,
}

/// What is done with strings, which are named by their places.
#[derive(Clone, Copy)]
pub enum Job {
    /// Two strings are joined.
    Concat { a: usize, b: usize },
    /// A string is repeated.
    Repeat { a: usize, times: u64 },
    /// The string of a code point so many times is made.
    Text { code: u32, count: usize },
    /// A string is joined to what was joined so far, so many times.
    Chain { a: usize, count: usize },
    /// A string's numbers are copied into a new string.
    Copy { a: usize },
    /// A string is looked for in another, from a place on.
    Index { a: usize, b: usize, from: u64 },
    /// A string is looked for in another, up to a place.
    Rindex { a: usize, b: usize, from: u64 },
    /// A number that is not there is looked for.
    Find { a: usize, number: i32 },
    /// Two strings are compared for equality.
    Equal { a: usize, b: usize },
    /// Two strings are compared for their order.
    Compare { a: usize, b: usize },
    /// Two strings are walked through, grapheme by grapheme.
    Walk { a: usize, b: usize },
    /// The code points of a string are listed.
    Codes { a: usize },
}

impl Workbench {
    pub fn new(alloc: Global) -> Result<Workbench, AllocError>
        ensures { IfOk result IsReady }
    {
        let (table, pass) = new_table(alloc)?;
        Ok(Workbench {
            alloc,
            table,
            pass,
            strings: Vec::new(alloc),
        })
    }

    /// Keeps a string, and answers its place, if there is memory for it.
    fn keep(&mut self, string: NString) -> Option<usize>
        requires graphemes { AreGraphemes (known_of self.old.pass.texts) string.graphemes }
        requires ready { IsReady self.old }
        ensures ready { IsReady self.new }
    {
        let place = self.strings.len();
        match self.strings.push(string) {
            Ok(()) => {}
            Err(_) => return None,
        }
        Some(place)
    }

    /// Keeps the string of a text, and answers its place.
    pub fn text(&mut self, text: &[u32]) -> Option<usize>
        requires ready { IsReady self.old }
        ensures ready { IsReady self.new }
    {
        if !is_text(text) {
            return None;
        }
        match string_of(self.alloc, &self.table, &mut self.pass, text) {
            Ok(string) => self.keep(string),
            Err(_) => None,
        }
    }

    /// Two strings, joined.
    fn concat(&mut self, a: usize, b: usize) -> Option<NString>
        requires ready { IsReady self.old }
        ensures ready { IsReady self.new }
        ensures graphemes { IfSome result (λ string. AreGraphemes (known_of self.new.pass.texts) string.graphemes) }
    {
        if a >= self.strings.len() {
            return None;
        }
        if b >= self.strings.len() {
            return None;
        }
        match concat(
            self.alloc,
            &self.table,
            &mut self.pass,
            &self.strings[a],
            &self.strings[b],
        ) {
            Ok(string) => Some(string),
            Err(_) => None,
        }
    }

    /// A string, repeated.
    fn repeat(&mut self, a: usize, times: u64) -> Option<NString>
        requires ready { IsReady self.old }
        ensures ready { IsReady self.new }
        ensures graphemes { IfSome result (λ string. AreGraphemes (known_of self.new.pass.texts) string.graphemes) }
    {
        if a >= self.strings.len() {
            return None;
        }
        match repeat(
            self.alloc,
            &self.table,
            &mut self.pass,
            &self.strings[a],
            times,
        ) {
            Ok(string) => Some(string),
            Err(_) => None,
        }
    }

    /// Keeps two strings, joined, and answers the place of the result.
    pub fn joined(&mut self, a: usize, b: usize) -> Option<usize>
        requires ready { IsReady self.old }
        ensures ready { IsReady self.new }
    {
        match self.concat(a, b) {
            Some(string) => self.keep(string),
            None => None,
        }
    }

    /// Keeps a string, repeated, and answers the place of the result.
    pub fn repeated(&mut self, a: usize, times: u64) -> Option<usize>
        requires ready { IsReady self.old }
        ensures ready { IsReady self.new }
    {
        match self.repeat(a, times) {
            Some(string) => self.keep(string),
            None => None,
        }
    }

    /// Makes the string of a code point so many times, and lets it go.
    fn make(&mut self, code: u32, count: usize) -> usize
        requires ready { IsReady self.old }
        ensures ready { IsReady self.new }
    {
        match vec![in self.alloc; code; count] {
            Ok(text) => {
                let place = self.text(text.as_slice());
                self.drop_last(place)
            }
            Err(_) => 0,
        }
    }

    /// Joins a string to what was joined so far, so many times, and lets the result go.
    fn chain(&mut self, a: usize, count: usize) -> usize
        requires ready { IsReady self.old }
        ensures ready { IsReady self.new }
    {
        let kept = self.strings.len();
        let mut whole = a;
        for _k in 0..count {
            whole = self.joined(whole, a).unwrap_or(usize::MAX);
        }
        self.strings.truncate(kept);
        whole
    }

    /// Lets the last string go, where there is one at the place.
    fn drop_last(&mut self, place: Option<usize>) -> usize
        requires ready { IsReady self.old }
        ensures ready { IsReady self.new }
    {
        match place {
            Some(place) => {
                self.strings.truncate(place);
                place
            }
            None => 0,
        }
    }

    /// How many graphemes are left of a string where another is found, and 0 where it is not.
    fn index(&self, a: usize, b: usize, from: u64) -> usize
        requires ready { IsReady self.now }
    {
        match two(&self.strings, a, b) {
            Some((string, part)) => place_of(index(&self.table, &self.pass, string, part, from)),
            None => 0,
        }
    }

    fn rindex(&self, a: usize, b: usize, from: u64) -> usize
        requires ready { IsReady self.now }
    {
        match two(&self.strings, a, b) {
            Some((string, part)) => place_of(rindex(&self.table, &self.pass, string, part, from)),
            None => 0,
        }
    }

    fn equal(&self, a: usize, b: usize) -> usize
        requires ready { IsReady self.now }
    {
        match two(&self.strings, a, b) {
            Some((left, right)) => equal(&self.table, &self.pass, left, right) as usize,
            None => 0,
        }
    }

    fn compare(&mut self, a: usize, b: usize) -> usize
        requires ready { IsReady self.old }
        ensures ready { IsReady self.new }
    {
        match two(&self.strings, a, b) {
            Some((left, right)) => { rank(compare(&self.table, &mut self.pass, left, right)) }
            None => 0,
        }
    }

    /// How many code points a string has.
    fn codes(&mut self, a: usize) -> usize
        requires ready { IsReady self.old }
        ensures ready { IsReady self.new }
    {
        match two(&self.strings, a, a) {
            Some((string, _)) => match codes(self.alloc, &self.table, &mut self.pass, string) {
                Ok(codes) => codes.len(),
                Err(_) => 0,
            },
            None => 0,
        }
    }

    /// Copies the numbers of a string into a new one, and answers how many they are.
    fn copy(&self, a: usize) -> usize {
        match self.strings.get(a) {
            Some(string) => match string.flatten(self.alloc) {
                Ok(copy) => copy.len() as usize,
                Err(_) => 0,
            },
            None => 0,
        }
    }

    /// Looks for a number in a string.
    fn find(&self, a: usize, number: i32) -> usize {
        match self.strings.get(a) {
            Some(string) => place_of(string.find(0, string.len(), number)),
            None => 0,
        }
    }

    /// Walks through two strings up to the first grapheme that differs.
    fn walk(&self, a: usize, b: usize) -> usize {
        match (self.strings.get(a), self.strings.get(b)) {
            (Some(left), Some(right)) => walk_both(left, right),
            _ => 0,
        }
    }

    /// Does the job, and answers a number that depends on what came of it.
    pub fn run(&mut self, job: Job) -> usize
        requires ready { IsReady self.old }
        ensures ready { IsReady self.new }
    {
        match job {
            Job::Concat { a, b } => len_of(self.concat(a, b)),
            Job::Repeat { a, times } => len_of(self.repeat(a, times)),
            Job::Text { code, count } => self.make(code, count),
            Job::Chain { a, count } => self.chain(a, count),
            Job::Copy { a } => self.copy(a),
            Job::Index { a, b, from } => self.index(a, b, from),
            Job::Rindex { a, b, from } => self.rindex(a, b, from),
            Job::Find { a, number } => self.find(a, number),
            Job::Equal { a, b } => self.equal(a, b),
            Job::Compare { a, b } => self.compare(a, b),
            Job::Walk { a, b } => self.walk(a, b),
            Job::Codes { a } => self.codes(a),
        }
    }
}

/// Two of the strings, where there are such.
fn two<'a>(strings: &'a [NString], a: usize, b: usize) -> Option<(&'a NString, &'a NString)>
    ensures { (known : Texts) → AreLawful known strings.now
        → IfSome result (λ both. AreGraphemes known both.0.now.graphemes
        × AreGraphemes known both.1.now.graphemes) }
{
    if a >= strings.len() {
        return None;
    }
    if b >= strings.len() {
        return None;
    }
    Some((&strings[a], &strings[b]))
}

fn len_of(string: Option<NString>) -> usize {
    match string {
        Some(string) => string.len() as usize,
        None => 0,
    }
}

fn place_of(place: Option<u64>) -> usize {
    place.unwrap_or(0) as usize
}

fn rank(ordering: Ordering) -> usize {
    match ordering {
        Ordering::Less => 1,
        Ordering::Equal => 2,
        Ordering::Greater => 3,
    }
}

/// How many graphemes two strings begin with alike, one by one.
fn walk_both(left: &NString, right: &NString) -> usize {
    let mut same: usize = 0;
    for (x, y) in left.iter().zip(right.iter()) {
        if x != y {
            return same;
        }
        same = same.wrapping_add(1);
    }
    same
}
