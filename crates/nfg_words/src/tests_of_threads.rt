//! What no clause says: that threads which intern the same texts at once all get numbers, each text one.
ghost use Rattle.std.specs.Prelude.{◌≡◌, ◌<◌, All, IfOk, true, false};
ghost use Rattle.nfg_words.specs.Table.{IsWordPass, seen_of};

use crate::{WordPass, WordTable};
use nfg_syn::{Shared, Synthetics};
use nfg_text::is_text;
use std::alloc::{AllocError, Global};
use std::process::Abort;
use std::test::Fail;
use std::thread::{Threads, for_each_mut};

// How many texts there are, how many each thread interns, and how many threads there are.
const TEXTS: u32 = 5_000;

const DRAWS: u32 = 20_000;

const THREADS: u32 = 8;

// What a thread works with: its fork, the number of each text that it has interned, and 0 for each other one.
#[derive(Drop)]
struct Caller {
    fork: WordPass,
    numbers: Vec<i32>,
    seed: u32,
    // How many answers were refusals, or other numbers than before.
    wrong: u32,
}

// Keeps the number of a text. Answers 1 where it is 0, or another one than before.
fn note(numbers: &mut [i32], text: usize, number: i32) -> u32 {
    if text >= numbers.len() {
        return 1;
    }
    let before = numbers[text];
    numbers[text] = number;
    ((number == 0) | ((before != 0) & (before != number))) as u32
}

// The number of a text, or 0 where it is refused.
fn intern_text(alloc: Global, table: &WordTable, pass: &mut WordPass, text: u32) -> i32
    requires { IsWordPass table.now pass.old }
    ensures table { IsWordPass table.now pass.new }
    ensures root { (seen_of pass.new).root ≡ (seen_of pass.old).root }
{
    let codes = [0x4E00 + text / 16, 0x300 + text % 16];
    if !is_text(codes.as_slice()) {
        return 0;
    }
    match table.intern(alloc, pass, codes.as_slice()) {
        Ok(number) => number,
        Err(_) => 0,
    }
}

// Interns the text that is drawn next.
fn intern_next(alloc: Global, table: &WordTable, caller: &mut Caller)
    requires { IsWordPass table.now caller.old.fork }
    ensures table { IsWordPass table.now caller.new.fork }
    ensures root { (seen_of caller.new.fork).root ≡ (seen_of caller.old.fork).root }
{
    caller.seed = caller.seed.wrapping_mul(1_103_515_245).wrapping_add(12_345);
    let text = (caller.seed >> 12) % TEXTS;
    let number = intern_text(alloc, table, &mut caller.fork, text);
    let wrong = note(caller.numbers.as_mut_slice(), text as usize, number);
    caller.wrong = caller.wrong.saturating_add(wrong);
}

// Interns all that a thread draws.
fn intern_drawn(alloc: Global, table: &WordTable, caller: &mut Caller)
    requires { IsWordPass table.now caller.old.fork }
    ensures table { IsWordPass table.now caller.new.fork }
    ensures root { (seen_of caller.new.fork).root ≡ (seen_of caller.old.fork).root }
{
    for _k in 0..DRAWS {
        intern_next(alloc, table, caller);
    }
}

fn new_caller(
    alloc: Global,
    table: &WordTable,
    root: &mut WordPass,
    seed: u32,
) -> Result<Caller, AllocError>
    requires table { IsWordPass table.now root.old }
    requires root { (seen_of root.old).root ≡ true }
    ensures table { IsWordPass table.now root.new }
    ensures root { (seen_of root.new).root ≡ true }
    ensures fork_table { IfOk result (λ caller. IsWordPass table.now caller.fork) }
    ensures no_root { IfOk result (λ caller. (seen_of caller.fork).root ≡ false) }
{
    let fork = table.fork(alloc, root)?;
    Ok(Caller {
        fork,
        numbers: Vec::from_elem(alloc, 0, TEXTS as usize)?,
        seed,
        wrong: 0,
    })
}

// A caller for each thread, with seeds of their own.
fn new_callers(
    alloc: Global,
    table: &WordTable,
    root: &mut WordPass,
) -> Result<Vec<Caller>, AllocError>
    requires table { IsWordPass table.now root.old }
    requires root { (seen_of root.old).root ≡ true }
    ensures table { IsWordPass table.now root.new }
    ensures root { (seen_of root.new).root ≡ true }
    ensures fork_tables { IfOk result (λ callers. All (λ caller. IsWordPass table.now caller.fork) callers.items) }
    ensures no_roots { IfOk result (λ callers. All (λ caller. (seen_of caller.fork).root ≡ false) callers.items) }
{
    let mut callers = Vec::new(alloc);
    'forking: for k in 0..THREADS {
        callers.push(new_caller(alloc, table, root, k)?)?;
    }
    Ok(callers)
}

// Each caller interns what it draws, on a thread of its own.
fn intern_at_once<R: Threads + Sync>(
    rt: &R,
    alloc: Global,
    table: &WordTable,
    callers: &mut [Caller],
)
    requires tables { All (λ caller. IsWordPass table.now caller.fork) callers.old }
    requires no_roots { All (λ caller. (seen_of caller.fork).root ≡ false) callers.old }
    ensures tables { All (λ caller. IsWordPass table.now caller.fork) callers.new }
    ensures no_roots { All (λ caller. (seen_of caller.fork).root ≡ false) callers.new }
{
    for_each_mut(
        rt,
        callers,
        THREADS as usize,
        &|_, caller: &mut Caller|
            requires table { IsWordPass table.now caller.old.fork }
            ensures table { IsWordPass table.entry.now caller.new.fork }
            ensures root { (seen_of caller.new.fork).root ≡ (seen_of caller.old.fork).root }
        { intern_drawn(alloc, table, caller) },
    );
}

// Gives one list the numbers that a caller has got, and answers how many differ from those of an earlier caller.
fn gather(all: &mut [i32], numbers: &[i32]) -> u32 {
    let mut wrong: u32 = 0;
    for text in 0..numbers.len() {
        if numbers[text] != 0 {
            wrong = wrong.saturating_add(note(all, text, numbers[text]));
        }
    }
    wrong
}

// The pass meets the fork of each caller, and one list gets the numbers of all.
fn meet_all(
    rt: &impl Abort,
    alloc: Global,
    table: &WordTable,
    root: &mut WordPass,
    all: &mut [i32],
    mut callers: Vec<Caller>,
)
    requires table { IsWordPass table.now root.old }
    requires fork_tables { All (λ caller. IsWordPass table.now caller.fork) callers.items }
    requires no_roots { All (λ caller. (seen_of caller.fork).root ≡ false) callers.items }
    ensures { IsWordPass table.now root.new }
{
    'meeting: while let Some(caller) = callers.pop() {
        let Caller {
            fork,
            numbers,
            seed: _,
            wrong,
        } = caller;
        assert_eq!(rt; wrong, 0);
        assert_eq!(rt; gather(all, numbers.as_slice()), 0);
        assert!(rt; table.meet(alloc, root, fork).is_ok());
    }
}

// Interns each text again, and compares the numbers.
fn intern_again(rt: &impl Abort, alloc: Global, table: &WordTable, root: &mut WordPass, all: &[i32])
    requires { IsWordPass table.now root.old }
{
    for text in 0..TEXTS {
        let number = intern_text(alloc, table, root, text);
        assert_eq!(rt; all.get(text as usize), Some(&number), "{text}");
    }
}

#[test]
fn eight_threads_give_each_text_one_number(rt: HostRuntime) -> Result<(), Fail> {
    let alloc = rt.alloc();
    let (table, mut root) = WordTable::new(alloc, 8192)?;
    let mut callers = new_callers(alloc, &table, &mut root)?;
    intern_at_once(&rt, alloc, &table, callers.as_mut_slice());
    let mut all = Vec::from_elem(alloc, 0, TEXTS as usize)?;
    meet_all(&rt, alloc, &table, &mut root, all.as_mut_slice(), callers);
    intern_again(&rt, alloc, &table, &mut root, all.as_slice());
    Ok(())
}
