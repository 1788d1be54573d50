//! Prints the tables of other crates as their source files have them, computed from the toolchain's Unicode libraries.
#![tactic(auto)]

use std::alloc::Global;
use std::{env, io};

mod id_tables;
mod ids;
mod layout;
mod plain_table;
mod properties;
mod property_table;
mod trie;

fn print_table(rt: &impl Print, alloc: Global, name: &str) -> io::Result<()> {
    match name {
        "property_table" => property_table::print(rt, alloc),
        "plain_table" => plain_table::print(rt, alloc),
        "id_table" => id_tables::print_table(rt, alloc),
        "id_blocks" => id_tables::print_blocks(rt, alloc),
        _ => println!(rt; "No such table: {name}"),
    }
}

// Each word after the program's name is that of a table.
fn main(rt: HostRuntime) -> io::Result<()> {
    for name in env::args(&rt)?.skip(1) {
        print_table(&rt, rt.alloc(), name.as_str())?;
    }
    Ok(())
}
