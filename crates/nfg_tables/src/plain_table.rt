//! `plain_table.rt` of `nfg_text`.
ghost use Rattle.std.specs.Prelude.{◌≤◌};

use crate::layout::{Digits, Layout, print_array};
use crate::properties::is_plain;
use std::alloc::{AllocError, Global};
use std::io;

/// How many words hold the bits of the first plane.
const WORDS: u32 = 1024;

/// The bits of 64 code points, that of the first lowest.
fn word_from(first: u32) -> u64
    requires { first ≤ 0xFFFF }
{
    let mut word = 0;
    for k in 0..64 {
        if is_plain(first + k) {
            word |= 1 << k;
        }
    }
    word
}

fn words(alloc: Global) -> Result<Vec<u64>, AllocError> {
    let mut words = Vec::new(alloc);
    for k in 0..WORDS {
        words.push(word_from(64 * k))?;
    }
    Ok(words)
}

pub fn print(rt: &impl Print, alloc: Global) -> io::Result<()> {
    println!(rt;
        "//! Which code points of the first plane are plain, a bit each: 64 of them a word."
    )?;
    let layout = Layout {
        name: "PLAIN_WORDS",
        element: "u64",
        digits: Digits::Sixteen,
        in_line: 8,
    };
    print_array(rt, alloc, layout, words(alloc)?.as_slice())
}
