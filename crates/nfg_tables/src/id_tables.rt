//! `id_table.rt` and `id_blocks.rt` of `nfg_passes`.
use crate::ids::ids;
use crate::layout::{Digits, Layout, print_array};
use crate::trie::Trie;
use std::alloc::Global;
use std::io;

const INDEX: Layout<'static> = Layout {
    name: "INDEX",
    element: "u8",
    digits: Digits::Decimal,
    in_line: 24,
};

const TAIL: Layout<'static> = Layout {
    name: "TAIL",
    element: "u32",
    digits: Digits::Eight,
    in_line: 8,
};

const WORDS: Layout<'static> = Layout {
    name: "WORDS",
    element: "u64",
    digits: Digits::Sixteen,
    in_line: 6,
};

pub fn print_table(rt: &impl Print, alloc: Global) -> io::Result<()> {
    let trie = Trie::of(alloc, ids(alloc)?.as_slice())?;
    println!(rt;
        "//! The id of each code point, a byte each: a trie for `ucd_table::get`, with its blocks in `id_blocks`."
    )?;
    print_array(rt, alloc, INDEX, trie.index.as_slice())?;
    print_array(rt, alloc, TAIL, trie.tail.as_slice())
}

pub fn print_blocks(rt: &impl Print, alloc: Global) -> io::Result<()> {
    let trie = Trie::of(alloc, ids(alloc)?.as_slice())?;
    println!(rt; "//! The blocks of `id_table`, eight ids in each word.")?;
    print_array(rt, alloc, WORDS, trie.words.as_slice())
}
