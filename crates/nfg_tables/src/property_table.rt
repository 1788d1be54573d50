//! `property_table.rt` of `nfg_text`.
ghost use Rattle.std.specs.Prelude.{◌≡◌, length, IfOk};

use crate::layout::{Digits, Layout, print_array};
use crate::properties::{CODE_POINTS, property_number};
use crate::trie::Trie;
use std::alloc::{AllocError, Global};
use std::io;

fn numbers(alloc: Global) -> Result<Vec<u8>, AllocError>
    ensures { IfOk result (λ numbers. length numbers.items ≡ 0x11_0000) }
{
    let mut numbers = Vec::new(alloc);
    for c in 0..CODE_POINTS {
        numbers.push(property_number(c))?;
    }
    Ok(numbers)
}

const INDEX: Layout<'static> = Layout {
    name: "INDEX",
    element: "u8",
    digits: Digits::Two,
    in_line: 24,
};

const WORDS: Layout<'static> = Layout {
    name: "WORDS",
    element: "u64",
    digits: Digits::Sixteen,
    in_line: 8,
};

const TAIL: Layout<'static> = Layout {
    name: "TAIL",
    element: "u32",
    digits: Digits::Eight,
    in_line: 8,
};

pub fn print(rt: &impl Print, alloc: Global) -> io::Result<()> {
    let numbers = numbers(alloc)?;
    let trie = Trie::of(alloc, numbers.as_slice())?;
    println!(rt;
        "//! What this crate reads of each code point, a byte each: a trie for `ucd_table::get`."
    )?;
    print_array(rt, alloc, INDEX, trie.index.as_slice())?;
    print_array(rt, alloc, WORDS, trie.words.as_slice())?;
    print_array(rt, alloc, TAIL, trie.tail.as_slice())
}
