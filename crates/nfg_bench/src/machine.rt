//! How many times as much four threads do as one on this machine, with nothing of this repository in their work.
use crate::timing::{Round, Timings, medians, nanoseconds, print_row};
use std::alloc::{AllocError, Global};
use std::io;
use std::marker::Sync;
use std::rt::Clock;
use std::thread::{Threads, for_each_mut};
use std::time::Instant;

/// How many threads there are beside one.
const THREADS: usize = 4;

/// How many steps a thread takes.
const STEPS: usize = 50_000_000;

/// How many words it draws in a step where none of them waits for another: so many that no more of them would be drawn in the
/// same time.
const WORDS: usize = 8;

/// The bytes of each list that a thread fills, and how many it fills.
const LIST: usize = 16 * 1024 * 1024;

const LISTS: usize = 4;

/// The bytes of the list that all threads read, and how many of them each reads.
const SHARED: usize = 32 * 1024 * 1024;

const READS: usize = 10_000_000;

/// How often each way is timed.
const RUNS: usize = 5;

/// What each thread does.
#[derive(Clone, Copy)]
enum Task<'a> {
    /// It draws eight words in each step, none of which waits for another.
    Words,
    /// It draws one word in each step, and each step waits for the one before.
    Word,
    /// It fills lists.
    Lists,
    /// It reads bytes of a list, at places that it draws.
    Reads(&'a [u8]),
}

/// What a thread begins with, what it answers, and the lists that it has filled.
#[derive(Drop)]
struct Share {
    seed: u64,
    answer: u64,
    lists: Vec<Vec<u8>>,
}

/// The word that is drawn after another.
fn next(word: u64) -> u64 {
    let word = word ^ (word << 13);
    let word = word ^ (word >> 7);
    word ^ (word << 17)
}

/// The words that are drawn after others, none of which waits for another.
fn next_words(words: &mut [u64; WORDS]) {
    for k in 0..WORDS {
        words[k] = next(words[k]);
    }
}

fn draw_words(seed: u64) -> u64 {
    let mut words = [seed, 2, 3, 5, 7, 11, 13, 17];
    for _step in 0..STEPS {
        next_words(&mut words);
    }
    words
        .iter()
        .fold(0, |sum: u64, word| sum.wrapping_add(*word))
}

fn draw_word(seed: u64) -> u64 {
    let mut word = seed;
    for _step in 0..STEPS {
        word = next(word);
    }
    word
}

/// The same byte so many times.
#[inline(never)]
fn filled(alloc: Global, byte: u8, count: usize) -> Result<Vec<u8>, AllocError> {
    Vec::from_elem(alloc, byte, count)
}

/// Fills lists, and keeps them in the share. Answers how many there are.
fn fill_lists(alloc: Global, share: &mut Share) -> Result<u64, AllocError> {
    for _k in 0..LISTS {
        share.lists.push(filled(alloc, 1, LIST)?)?;
    }
    Ok(share.lists.len() as u64)
}

/// The byte at a place that a word draws.
fn byte_at(list: &[u8], word: u64) -> u64 {
    match list.get(word as usize & (SHARED - 1)) {
        Some(&byte) => u64::from(byte),
        None => 0,
    }
}

fn read_bytes(list: &[u8], seed: u64) -> u64 {
    let mut word = seed;
    let mut sum: u64 = 0;
    for _k in 0..READS {
        word = next(word);
        sum = sum.wrapping_add(byte_at(list, word));
    }
    sum
}

/// A thread does its share.
fn do_share(alloc: Global, task: Task<'_>, share: &mut Share) {
    share.answer = match task {
        Task::Words => draw_words(share.seed),
        Task::Word => draw_word(share.seed),
        Task::Lists => fill_lists(alloc, share).unwrap_or(0),
        Task::Reads(list) => read_bytes(list, share.seed),
    };
}

/// A share for each thread.
fn new_shares(alloc: Global, threads: usize) -> Result<Vec<Share>, AllocError> {
    let mut shares = Vec::new(alloc);
    for k in 0..threads {
        shares.push(Share {
            seed: k as u64 | 1 << 32,
            answer: 0,
            lists: Vec::new(alloc),
        })?;
    }
    Ok(shares)
}

/// The sum of what the threads answered.
fn sum(shares: &[Share]) -> usize {
    let mut sum: usize = 0;
    for share in shares {
        sum = sum.wrapping_add(share.answer as usize);
    }
    sum
}

/// How long the threads take, each with its share.
fn round<R: Threads + Sync + Clock>(
    rt: &R,
    alloc: Global,
    task: Task<'_>,
    shares: &mut [Share],
) -> io::Result<Round> {
    let threads = shares.len().max(1);
    let start = Instant::now(rt)?;
    for_each_mut(
        rt,
        shares,
        threads,
        &|_k, share: &mut Share| { do_share(alloc, task, share) },
    );
    let nanoseconds = nanoseconds(rt, start)?;
    let answered = sum(shares);
    Ok(Round {
        nanoseconds,
        answered,
    })
}

/// Times four threads and one in turn. The time of the one counts four times. What the threads fill is kept until all is
/// timed, so that none of them takes memory that another one left.
fn in_turn<R: Threads + Sync + Clock>(
    rt: &R,
    alloc: Global,
    task: Task<'_>,
) -> io::Result<Timings> {
    let mut four_times = [0; RUNS];
    let mut one_times = [0; RUNS];
    let mut answered: usize = 0;
    let mut kept = Vec::new(alloc);
    for run in 0..RUNS {
        let mut shares = new_shares(alloc, THREADS)?;
        let four = round(rt, alloc, task, shares.as_mut_slice())?;
        kept.push(shares)?;
        four_times[run] = four.nanoseconds;
        let mut share = new_shares(alloc, 1)?;
        let one = round(rt, alloc, task, share.as_mut_slice())?;
        kept.push(share)?;
        one_times[run] = one.nanoseconds.saturating_mul(THREADS as u64);
        answered = answered
            .wrapping_add(four.answered)
            .wrapping_add(one.answered);
    }
    Ok(medians(&mut four_times, &mut one_times, answered))
}

/// Times a task, which has so many elements in each thread, and prints its row.
fn report_task<R: Threads + Sync + Print + Clock>(
    rt: &R,
    alloc: Global,
    name: &str,
    elements: usize,
    task: Task<'_>,
) -> io::Result<()> {
    let timings = in_turn(rt, alloc, task)?;
    print_row(rt, name, elements.saturating_mul(THREADS), timings)
}

pub fn report<R: Threads + Sync + Print + Clock>(rt: &R, alloc: Global) -> io::Result<()> {
    let name = "eight words in a step: four threads, one";
    report_task(rt, alloc, name, STEPS, Task::Words)?;
    let name = "one word in a step: four threads, one";
    report_task(rt, alloc, name, STEPS, Task::Word)?;
    let name = "fresh memory: four threads, one";
    report_task(rt, alloc, name, LISTS * LIST, Task::Lists)?;
    let list = filled(alloc, 1, SHARED)?;
    let name = "bytes at drawn places: four threads, one";
    report_task(rt, alloc, name, READS, Task::Reads(list.as_slice()))
}
