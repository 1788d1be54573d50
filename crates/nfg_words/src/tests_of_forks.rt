//! What no clause says: that forks get numbers with ample memory, and which ones.
ghost use Rattle.std.specs.Prelude.{◌≡◌, ◌<◌, true, false};
ghost use Rattle.nfg_words.specs.Table.{IsWordPass, seen_of};

use crate::tests_of_tables::intern_pair;
use crate::{ProbeError, Steps, WordPass, WordTable};
use nfg_syn::{InternError, Shared};
use nfg_text::is_text;
use std::alloc::{AllocError, Global};
use std::marker::Brand;
use std::process::Abort;
use std::sync::ledger::{Blank, Ledger};
use std::test::Fail;

// Interns q with one mark, and then with the mark 323.
fn intern_behind(
    rt: &impl Abort,
    alloc: Global,
    table: &WordTable,
    pass: &mut WordPass,
    mark: u32,
) -> Result<i32, InternError>
    requires { IsWordPass table.now pass.old }
    ensures table { IsWordPass table.now pass.new }
    ensures root { (seen_of pass.new).root ≡ (seen_of pass.old).root }
{
    let first = intern_pair(rt, alloc, table, pass, [0x71, mark]);
    assert!(rt; first.is_ok());
    intern_pair(rt, alloc, table, pass, [0x71, 0x323])
}

// Two forks intern q with the mark 323, the first one behind another mark, and are met.
fn intern_by_two(rt: &impl Abort, alloc: Global, mark: u32, number: i32) -> Result<(), AllocError> {
    let (table, mut root) = WordTable::new(alloc, 16)?;
    let mut one = table.fork(alloc, &mut root)?;
    let mut other = table.fork(alloc, &mut root)?;
    let first = intern_behind(rt, alloc, &table, &mut one, mark);
    assert_eq!(rt; first, Ok(number), "{mark:x}");
    let second = intern_pair(rt, alloc, &table, &mut other, [0x71, 0x323]);
    assert_eq!(rt; second, Ok(number), "{mark:x}");
    assert!(rt; table.meet(alloc, &mut root, one).is_ok());
    assert!(rt; table.meet(alloc, &mut root, other).is_ok());
    let third = intern_pair(rt, alloc, &table, &mut root, [0x71, 0x323]);
    assert_eq!(rt; third, Ok(number), "{mark:x}");
    Ok(())
}

#[test]
fn two_forks_give_a_text_one_number(rt: HostRuntime) -> Result<(), Fail> {
    // The hash of q with the mark 323 is 4,306, which is 2 modulo 16. That with the mark 313 is 2 too, and takes the place.
    for (mark, number) in [(0x323, -4), (0x313, -5), (0x324, -4)] {
        intern_by_two(&rt, rt.alloc(), mark, number)?;
    }
    Ok(())
}

// Interns q with two marks in a new table, by counted steps.
fn probe_three<L: Ledger>(
    rt: &impl Abort,
    alloc: Global,
    blank: Blank,
) -> Result<Result<i32, ProbeError>, AllocError>
    requires name { blank.name ≡ L.name }
    requires parts { blank.parts ≡ L.parts }
    requires some { 0 < blank.parts }
{
    let codes = [0x71, 0x323, 0x307];
    assert!(rt; is_text(codes.as_slice()));
    let mut steps = Steps::<L>::new(blank);
    let (table, mut pass) = WordTable::new(alloc, 16)?;
    Ok(table.probe(&mut pass, codes.as_slice(), &mut steps))
}

#[test]
fn a_text_of_three_code_points_gets_its_place(rt: HostRuntime) -> Result<(), Fail> {
    // Its hash is 134,261, which is 5 modulo 16.
    let answer = probe_three::<Brand>(&rt, rt.alloc(), Blank::new(1))?;
    assert_eq!(rt; answer, Ok(-7));
    Ok(())
}

// A fork interns a text of two code points.
fn intern_by_fork(
    rt: &impl Abort,
    alloc: Global,
    table: &WordTable,
    root: &mut WordPass,
    codes: [u32; 2],
) -> Result<Result<i32, InternError>, AllocError>
    requires table { IsWordPass table.now root.old }
    requires root { (seen_of root.old).root ≡ true }
    ensures table { IsWordPass table.now root.new }
    ensures root { (seen_of root.new).root ≡ true }
{
    let mut fork = table.fork(alloc, root)?;
    let answer = intern_pair(rt, alloc, table, &mut fork, codes);
    assert!(rt; table.meet(alloc, root, fork).is_ok());
    Ok(answer)
}

// So many forks, one after the other, intern a text each.
fn intern_by_forks(
    rt: &impl Abort,
    alloc: Global,
    table: &WordTable,
    root: &mut WordPass,
    count: u32,
) -> Result<(), AllocError>
    requires table { IsWordPass table.now root.old }
    requires root { (seen_of root.old).root ≡ true }
    ensures table { IsWordPass table.now root.new }
    ensures root { (seen_of root.new).root ≡ true }
{
    for k in 0..count {
        let codes = [0x4E00u32.saturating_add(k), 0x300];
        let answer = intern_by_fork(rt, alloc, table, root, codes)?;
        assert!(rt; answer.is_ok(), "{k}");
    }
    Ok(())
}

#[test]
fn a_table_whose_chunks_are_spent_keeps_its_numbers(rt: HostRuntime) -> Result<(), Fail> {
    let alloc = rt.alloc();
    let (table, mut root) = WordTable::new(alloc, 128)?;
    let first = intern_by_fork(&rt, alloc, &table, &mut root, [0x71, 0x323])?;
    assert!(rt; first.is_ok());
    // The table has 66 chunks, and each fork takes one.
    intern_by_forks(&rt, alloc, &table, &mut root, 65)?;
    let refused = intern_by_fork(&rt, alloc, &table, &mut root, [0x71, 0x324])?;
    assert_eq!(rt; refused, Err(InternError::NoPortion));
    let refused = intern_pair(&rt, alloc, &table, &mut root, [0x71, 0x324]);
    assert_eq!(rt; refused, Err(InternError::NoPortion));
    let known = intern_pair(&rt, alloc, &table, &mut root, [0x71, 0x323]);
    assert_eq!(rt; known, first);
    let line_end = intern_pair(&rt, alloc, &table, &mut root, [0xD, 0xA]);
    assert_eq!(rt; line_end, Ok(-1));
    Ok(())
}
