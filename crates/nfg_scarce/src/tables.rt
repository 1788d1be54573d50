//! Tables of synthetics and their passes.
ghost use Rattle.std.specs.Prelude.{◌≡◌, true};

use crate::outcome::{Outcome, print, refused};
use nfg_cells::CellTable;
use nfg_syn::{InternError, OwnTable, Shared, Synthetics};
use nfg_text::is_text;
use nfg_words::WordTable;
use std::alloc::{AllocError, Global};
use std::io;

/// A text that each pass knows first.
const FIRST: [u32; 2] = [0x71, 0x323];

/// The number of a text.
fn number<T: Synthetics>(
    alloc: Global,
    table: &T,
    pass: &mut T::Pass,
    codes: &[u32],
) -> Result<i32, InternError>
    requires { T.is_of table.now pass.old }
    ensures table { T.is_of table.now pass.new }
    ensures root { (T.seen pass.new).root ≡ (T.seen pass.old).root }
{
    if codes.len() < 2 || codes.len() > 1024 || !is_text(codes) {
        return Err(InternError::RowFull);
    }
    table.intern(alloc, pass, codes)
}

/// The number of the first text, which the pass knows then.
fn first<T: Synthetics>(alloc: Global, table: &T, pass: &mut T::Pass) -> Result<i32, AllocError>
    requires { T.is_of table.now pass.old }
    ensures table { T.is_of table.now pass.new }
    ensures root { (T.seen pass.new).root ≡ (T.seen pass.old).root }
{
    match number(alloc, table, pass, &FIRST) {
        Ok(n) => Ok(n),
        Err(_) => Err(AllocError),
    }
}

/// Where a text is refused, the pass knows the earlier one by its number, and the refused one gets a number then.
fn intern<T: Synthetics>(
    alloc: Global,
    table: &T,
    pass: &mut T::Pass,
) -> Result<Outcome, AllocError>
    requires { T.is_of table.now pass.old }
{
    let known = first(alloc, table, pass)?;
    // as long a text as wants room of its own
    let other = [0x304; 200];
    match number(alloc, table, pass, &other) {
        Ok(_) => Ok(Outcome::Done),
        Err(_) => {
            let same = number(alloc, table, pass, &FIRST) == Ok(known);
            let new = number(alloc, table, pass, &other).is_ok();
            Ok(refused(same && new))
        }
    }
}

/// Where a fork is refused, the pass knows what it knew, and the next fork is made.
fn fork<T: Shared>(alloc: Global, table: &T, pass: &mut T::Pass) -> Result<Outcome, AllocError>
    requires table { T.is_of table.now pass.old }
    requires root { (T.seen pass.old).root ≡ true }
{
    let known = first(alloc, table, pass)?;
    match table.fork(alloc, pass) {
        Ok(_) => Ok(Outcome::Done),
        Err(_) => {
            let same = number(alloc, table, pass, &FIRST) == Ok(known);
            Ok(refused(same && table.fork(alloc, pass).is_ok()))
        }
    }
}

/// Two forks number one text, and are met. Answers whether both gave it one number, by which the first pass knows it then.
fn number_by_forks<T: Shared>(
    alloc: Global,
    table: &T,
    pass: &mut T::Pass,
) -> Result<bool, AllocError>
    requires table { T.is_of table.now pass.old }
    requires root { (T.seen pass.old).root ≡ true }
    ensures table { T.is_of table.now pass.new }
    ensures root { (T.seen pass.new).root ≡ true }
{
    let mut one = table.fork(alloc, pass)?;
    let mut other = table.fork(alloc, pass)?;
    let number_of_one = first(alloc, table, &mut one)?;
    let number_of_other = first(alloc, table, &mut other)?;
    if table.meet(alloc, pass, one).is_err() || table.meet(alloc, pass, other).is_err() {
        return Err(AllocError);
    }
    let known = first(alloc, table, pass)?;
    Ok(known == number_of_one && known == number_of_other)
}

/// Where a call of two forks is refused, the next two number the text and are met.
fn two_forks<T: Shared>(alloc: Global, table: &T, pass: &mut T::Pass) -> Outcome
    requires table { T.is_of table.now pass.old }
    requires root { (T.seen pass.old).root ≡ true }
{
    match number_by_forks(alloc, table, pass) {
        Ok(true) => Outcome::Done,
        Ok(false) => Outcome::Changed,
        Err(_) => refused(number_by_forks(alloc, table, pass) == Ok(true)),
    }
}

fn forks_over_cells(alloc: Global) -> Result<Outcome, AllocError> {
    let (table, mut pass) = CellTable::new(alloc, 16)?;
    Ok(two_forks(alloc, &table, &mut pass))
}

fn forks_over_words(alloc: Global) -> Result<Outcome, AllocError> {
    let (table, mut pass) = WordTable::new(alloc, 16)?;
    Ok(two_forks(alloc, &table, &mut pass))
}

fn intern_alone(alloc: Global) -> Result<Outcome, AllocError> {
    let (table, mut pass) = OwnTable::new(alloc, 16)?;
    intern(alloc, &table, &mut pass)
}

fn intern_in_cells(alloc: Global) -> Result<Outcome, AllocError> {
    let (table, mut pass) = CellTable::new(alloc, 16)?;
    intern(alloc, &table, &mut pass)
}

fn fork_over_cells(alloc: Global) -> Result<Outcome, AllocError> {
    let (table, mut pass) = CellTable::new(alloc, 16)?;
    fork(alloc, &table, &mut pass)
}

pub(crate) fn report(rt: &impl Print, alloc: Global) -> io::Result<()> {
    print(rt, "intern of OwnTable", intern_alone(alloc))?;
    print(rt, "intern of CellTable", intern_in_cells(alloc))?;
    print(rt, "fork of CellTable", fork_over_cells(alloc))?;
    print(
        rt,
        "one text by two forks over CellTable",
        forks_over_cells(alloc),
    )?;
    print(
        rt,
        "one text by two forks over WordTable",
        forks_over_words(alloc),
    )
}
