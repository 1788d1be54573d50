//! The levels of a script.
ghost use Rattle.std.specs.Prelude.{◌≡◌, ◌+◌, max, IfOk, OnOk};
ghost use Rattle.nfg_work.specs.Levels.{levels as levels_of, command_level as level_of_command, level_of, names_with, is_definition};

use crate::LevelList;
use nfg_script::{Command, Script};
use std::alloc::{AllocError, Global};

/// The level of a name, or 0 where no line defines the name.
fn level_of_name(names: &[u32], name: u32) -> u32
    ensures { result ≡ level_of names.now name }
{
    match names.get(name as usize) {
        Some(level) => *level,
        None => 0,
    }
}

/// The next level. No script that memory holds has 2^32 of them.
fn above(level: u32) -> Result<u32, AllocError>
    ensures { IfOk result (λ next. next ≡ level + 1) }
{
    match level.checked_add(1) {
        Some(next) => Ok(next),
        None => Err(AllocError),
    }
}

/// The level of a command with one name.
fn above_one(names: &[u32], a: u32) -> Result<u32, AllocError>
    ensures { IfOk result (λ level. level ≡ level_of names.now a + 1) }
{
    above(level_of_name(names, a))
}

/// The level of a command with two names.
fn above_both(names: &[u32], a: u32, b: u32) -> Result<u32, AllocError>
    ensures { IfOk result (λ level. level ≡ max (level_of names.now a) (level_of names.now b) + 1) }
{
    above(level_of_name(names, a).max(level_of_name(names, b)))
}

/// The level of a command, where the names before it have these levels.
fn command_level(names: &[u32], command: Command) -> Result<u32, AllocError>
    ensures { IfOk result (λ level. level ≡ level_of_command names.now command) }
{
    match command {
        Command::Load { name: _, enc: _ } => Ok(0),
        Command::Text { name: _ } => Ok(0),
        Command::Cat { name: _, a, b } => above_both(names, a, b),
        Command::Sub {
            name: _,
            a,
            start: _,
            count: _,
        } => above_one(names, a),
        Command::Rep {
            name: _,
            a,
            count: _,
        } => above_one(names, a),
        Command::Find { a, b, at: _ } => above_both(names, a, b),
        Command::Rfind { a, b, at: _ } => above_both(names, a, b),
        Command::Eq { a, b } => above_both(names, a, b),
        Command::Cmp { a, b } => above_both(names, a, b),
        Command::Len { a } => above_one(names, a),
        Command::Show { a } => above_one(names, a),
        Command::Shape { a } => above_one(names, a),
        Command::Put { a, enc: _ } => above_one(names, a),
    }
}

/// Whether the command defines a name.
pub(crate) fn defines(command: Command) -> bool
    ensures { result ≡ is_definition command }
{
    match command {
        Command::Load { .. } => true,
        Command::Text { .. } => true,
        Command::Cat { .. } => true,
        Command::Sub { .. } => true,
        Command::Rep { .. } => true,
        _ => false,
    }
}

/// Adds the level of the name that the command defines, where it defines one.
fn add_name(names: &mut LevelList, command: Command, level: u32) -> Result<(), AllocError>
    ensures { OnOk result (names.new ≡ names_with names.old command level) }
{
    if defines(command) {
        return names.append(&[level]);
    }
    Ok(())
}

/// The level of each command, in order: 0 for a load and a text, and for any other command 1 more than the
/// greatest level of the commands that define its names. A command needs only commands of lower levels.
#[tactic(auto, unfolding(crate::specs::Levels::levels))]
pub fn levels(alloc: Global, script: &Script) -> Result<LevelList, AllocError>
    ensures { IfOk result (λ list. list ≡ levels_of script.now) }
{
    let mut list = LevelList::new(alloc);
    let mut names = LevelList::new(alloc);
    'leveling: for k in 0..script.len() {
        let command = script.command(k);
        let level = command_level(names.as_slice(), command)?;
        list.append(&[level])?;
        add_name(&mut names, command, level)?;
    }
    Ok(list)
}
