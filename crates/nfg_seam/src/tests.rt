//! What no clause says: that strings are joined with ample memory, and rows from outside.
ghost use Rattle.std.specs.Prelude.{◌≡◌, IfOk};
ghost use Rattle.nfg_text.specs.Text.{IsText};
ghost use Rattle.nfg_syn.specs.OwnTexts.{IsOwnPass};
ghost use Rattle.nfg_syn.specs.Represents.{AreGraphemes};
ghost use Rattle.nfg_syn.specs.Seen.{Keeps};

use crate::repeated_text::number_repeated;
use crate::{SeamError, concat};
use nfg_strand::NString;
use nfg_syn::{OwnPass, OwnTable, Synthetics};
use nfg_text::is_text;
use std::alloc::Global;
use std::process::Abort;
use std::test::Fail;

// The string of a text.
fn string_of<T: Synthetics>(
    alloc: Global,
    table: &T,
    pass: &mut T::Pass,
    text: &[u32],
) -> Result<NString, SeamError>
    requires text { IsText text.now }
    requires table { T.is_of table.now pass.old }
    ensures table { T.is_of table.now pass.new }
    ensures keeps { Keeps (T.seen pass.old) (T.seen pass.new) }
    ensures graphemes { IfOk result (λ made. AreGraphemes (T.seen pass.new).known made.graphemes) }
{
    match number_repeated(alloc, table, pass, text, 1) {
        Ok(numbers) => flat(alloc, numbers),
        Err(error) => Err(error),
    }
}

fn flat(alloc: Global, numbers: Vec<i32>) -> Result<NString, SeamError>
    ensures { IfOk result (λ made. made.graphemes ≡ numbers.items) }
{
    if numbers.len() > 4096 {
        return Err(SeamError::TooLong);
    }
    match NString::from_vec(alloc, numbers) {
        Ok(made) => Ok(made),
        Err(_) => Err(SeamError::OutOfMemory),
    }
}

// The strings of two texts, joined.
fn joined<T: Synthetics>(
    alloc: Global,
    table: &T,
    pass: &mut T::Pass,
    a: &[u32],
    b: &[u32],
) -> Result<NString, SeamError>
    requires left { IsText a.now }
    requires right { IsText b.now }
    requires table { T.is_of table.now pass.old }
    ensures { T.is_of table.now pass.new }
{
    let first = string_of(alloc, table, pass, a)?;
    let second = string_of(alloc, table, pass, b)?;
    concat(alloc, table, pass, &first, &second)
}

// Joins two texts, and compares the length and the number of pieces.
fn check_row(
    rt: &impl Abort,
    alloc: Global,
    table: &OwnTable,
    pass: &mut OwnPass,
    row: &Row,
) -> Result<(), Fail>
    requires { IsOwnPass table.now pass.old }
    ensures { IsOwnPass table.now pass.new }
{
    let (a, b, count, strands) = *row;
    assert!(rt; is_text(a));
    assert!(rt; is_text(b));
    match joined(alloc, table, pass, a, b) {
        Ok(made) => {
            assert_eq!(rt; made.len(), count);
            assert_eq!(rt; made.strands(), strands);
            Ok(())
        }
        Err(_) => Err("not joined")?,
    }
}

#[test]
fn seams_are_repaired(rt: HostRuntime) -> Result<(), Fail> {
    let alloc = rt.alloc();
    let (table, mut pass) = OwnTable::new(alloc, 64)?;
    'rows: for row in ROWS {
        check_row(&rt, alloc, &table, &mut pass, &row)?;
    }
    Ok(())
}

fn is_send<T: Send>(_: &T) {}

fn is_sync<T: Sync>(_: &T) {}

#[test]
fn errors_go_between_threads(_rt: HostRuntime) {
    is_send(&SeamError::TooLong);
    is_sync(&SeamError::TooLong);
}

// Both texts, and how many graphemes and pieces there are of the joined one.
type Row = (&'static [u32], &'static [u32], u64, usize);

const ROWS: [Row; 14] = [
    (&[], &[], 0, 0),
    (&[0x61], &[], 1, 1),
    (&[0x61], &[0x62], 2, 2),
    (&[0x61, 0x71, 0x307], &[0x323, 0x62], 3, 3),
    (&[0x1F1E6, 0x1F1E7, 0x1F1E8], &[0x1F1E9, 0x1F1EA], 3, 2),
    (
        &[0x61, 0x1F1E6],
        &[0x1F1E7, 0x1F1E8, 0x1F1E9, 0x1F1EA, 0x62],
        5,
        3,
    ),
    (&[0x915, 0x94D], &[0x937], 1, 1),
    (&[0x1100], &[0x1161, 0x11A8], 1, 1),
    (&[0xD], &[0xA], 1, 1),
    (&[0x1F468, 0x200D], &[0x1F469], 1, 1),
    (&[0x2194], &[0x338], 1, 1),
    (&[0x1F600, 0x200D, 0x2194], &[0x338], 2, 1),
    (&[0x600], &[0x61], 1, 1),
    (&[0x61], &[0x301], 1, 1),
];
