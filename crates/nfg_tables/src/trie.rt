//! A property of a byte a code point, as a trie for `ucd_table::get::<8, 8>`.
ghost use Rattle.std.specs.Prelude.{◌≤◌, length};

use std::alloc::{AllocError, Global};

/// How many code points a block has.
const BLOCK: usize = 64;

/// How many of them a word has, a byte each.
const IN_WORD: usize = 8;

/// How many blocks the index has.
const INDEX_LEN: usize = 2048;

/// Blocks that are found by their index, and runs for what lies beyond it.
#[derive(Drop)]
pub struct Trie {
    pub index: Vec<u64>,
    pub words: Vec<u64>,
    pub tail: Vec<u64>,
}

/// Eight numbers in a word, the first lowest.
fn word_of(numbers: &[u8]) -> u64 {
    let mut word = 0;
    for number in numbers.iter().rev() {
        word = word << 8 | *number as u64;
    }
    word
}

fn words_of(alloc: Global, numbers: &[u8]) -> Result<Vec<u64>, AllocError> {
    let mut words = Vec::new(alloc);
    for part in numbers.chunks(IN_WORD) {
        words.push(word_of(part))?;
    }
    Ok(words)
}

/// The number of the first block with these words.
fn place_of(words: &[u64], block: &[u64]) -> Option<usize> {
    words.chunks(BLOCK / IN_WORD).position(|kept| kept == block)
}

/// The runs of equal numbers from the first code point on: 2048 times the end above, and the number.
fn runs_from(alloc: Global, numbers: &[u8], first: usize) -> Result<Vec<u64>, AllocError>
    requires { length numbers.now ≤ 0x11_0000 }
{
    let mut runs = Vec::new(alloc);
    for i in first..numbers.len() {
        if i + 1 == numbers.len() || numbers[i] != numbers[i + 1] {
            runs.push(2048 * (i as u64 + 1) + numbers[i] as u64)?;
        }
    }
    Ok(runs)
}

impl Trie {
    /// The trie of the numbers of all code points. Blocks stand in the order in which they are first used.
    pub fn of(alloc: Global, numbers: &[u8]) -> Result<Trie, AllocError>
        requires { length numbers.now ≤ 0x11_0000 }
    {
        let mut index = Vec::new(alloc);
        let mut words = Vec::new(alloc);
        for part in numbers.chunks(BLOCK).take(INDEX_LEN) {
            let block = words_of(alloc, part)?;
            match place_of(words.as_slice(), block.as_slice()) {
                Some(place) => index.push(place as u64)?,
                None => {
                    index.push((words.len() / (BLOCK / IN_WORD)) as u64)?;
                    words.extend_from_slice(block.as_slice())?;
                }
            }
        }
        let tail = runs_from(alloc, numbers, INDEX_LEN * BLOCK)?;
        Ok(Trie { index, words, tail })
    }
}
