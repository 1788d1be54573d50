//! What no clause says: that calls succeed with ample memory, and at which places texts stand.
ghost use Rattle.std.specs.Prelude.{◌≡◌, Some, false, IfOk};
ghost use Rattle.nfg_syn.specs.Known.{text_at};
ghost use Rattle.nfg_cells.specs.Cells.{IsCellPass, seen_of};

use crate::{CellPass, CellTable};
use nfg_syn::{InternError, Refused, Shared, Synthetics, append_cluster};
use nfg_text::{CodeList, is_text};
use std::alloc::Global;
use std::process::Abort;
use std::test::Fail;
use std::thread::{Threads, join_mut};

// Interns a text of two code points.
fn intern_pair(
    rt: &impl Abort,
    alloc: Global,
    table: &CellTable,
    pass: &mut CellPass,
    codes: [u32; 2],
) -> Result<i32, InternError>
    requires { IsCellPass table.now pass.old }
    ensures table { IsCellPass table.now pass.new }
    ensures root { pass.new.root ≡ pass.old.root }
    ensures known { IfOk result (λ n. text_at (seen_of pass.new).known n ≡ Some codes) }
{
    assert!(rt; is_text(codes.as_slice()));
    table.intern(alloc, pass, codes.as_slice())
}

// Interns q with each mark, and compares the numbers.
fn intern_marks(rt: &impl Abort, alloc: Global, table: &CellTable, pass: &mut CellPass)
    requires { IsCellPass table.now pass.old }
    ensures { IsCellPass table.now pass.new }
{
    for (mark, number) in MARKS {
        let answer = intern_pair(rt, alloc, table, pass, [0x71, mark]);
        assert_eq!(rt; answer, Ok(number), "{mark:x}");
    }
}

// The hash of q with the mark 300 is 4,271, which is 15 modulo 16, and each next one is one more.
const MARKS: [(u32, i32); 16] = [
    (0x300, -17),
    (0x301, -2),
    (0x302, -3),
    (0x303, -4),
    (0x304, -5),
    (0x305, -6),
    (0x306, -7),
    (0x307, -8),
    (0x308, -9),
    (0x309, -10),
    (0x30A, -11),
    (0x30B, -12),
    (0x30C, -13),
    (0x30D, -14),
    (0x30E, -15),
    (0x30F, -16),
];

#[test]
fn a_table_of_16_places_numbers_16_texts(rt: HostRuntime) -> Result<(), Fail> {
    let alloc = rt.alloc();
    let (table, mut pass) = CellTable::new(alloc, 16)?;
    assert_eq!(rt; table.capacity(), 16);
    intern_marks(&rt, alloc, &table, &mut pass);
    let refused = intern_pair(&rt, alloc, &table, &mut pass, [0x71, 0x310]);
    assert_eq!(rt; refused, Err(InternError::RowFull));
    let line_end = intern_pair(&rt, alloc, &table, &mut pass, [0xD, 0xA]);
    assert_eq!(rt; line_end, Ok(-1));
    intern_marks(&rt, alloc, &table, &mut pass);
    Ok(())
}

#[test]
fn a_text_goes_on_to_the_next_empty_place(rt: HostRuntime) -> Result<(), Fail> {
    let alloc = rt.alloc();
    let (table, mut pass) = CellTable::new(alloc, 16)?;
    let last = intern_pair(&rt, alloc, &table, &mut pass, [0x71, 0x300]);
    assert_eq!(rt; last, Ok(-17));
    let around = intern_pair(&rt, alloc, &table, &mut pass, [0x71, 0x310]);
    assert_eq!(rt; around, Ok(-2));
    let next = intern_pair(&rt, alloc, &table, &mut pass, [0x71, 0x301]);
    assert_eq!(rt; next, Ok(-3));
    let again = intern_pair(&rt, alloc, &table, &mut pass, [0x71, 0x310]);
    assert_eq!(rt; again, Ok(-2));
    Ok(())
}

// Reads back the text of a number.
fn read_back(
    rt: &impl Abort,
    alloc: Global,
    table: &CellTable,
    pass: &mut CellPass,
    n: i32,
    codes: [u32; 2],
)
    requires table { IsCellPass table.now pass.old }
    requires known { text_at (seen_of pass.old).known n ≡ Some codes }
    ensures { IsCellPass table.now pass.new }
{
    let mut read = CodeList::new(alloc);
    let added = append_cluster(table, pass, n, &mut read);
    assert_eq!(rt; added, Ok(()));
    assert_eq!(rt; read.as_slice(), codes.as_slice());
}

#[test]
fn the_code_points_of_a_number_are_read_back(rt: HostRuntime) -> Result<(), Fail> {
    let alloc = rt.alloc();
    let (table, mut pass) = CellTable::new(alloc, 16)?;
    for codes in [[0x71, 0x300], [0xD, 0xA]] {
        match intern_pair(&rt, alloc, &table, &mut pass, codes) {
            Ok(n) => read_back(&rt, alloc, &table, &mut pass, n, codes),
            Err(_) => panic!(rt; "no number"),
        }
    }
    Ok(())
}

// Meets a pass that knows the text of a number, and reads it back.
fn meet_and_read(
    rt: &impl Abort,
    alloc: Global,
    table: &CellTable,
    into: &mut CellPass,
    from: CellPass,
    n: i32,
    codes: [u32; 2],
)
    requires into_table { IsCellPass table.now into.old }
    requires from_table { IsCellPass table.now from }
    requires no_root { from.root ≡ false }
    requires known { text_at (seen_of from).known n ≡ Some codes }
    ensures { IsCellPass table.now into.new }
{
    match table.meet(alloc, into, from) {
        Ok(()) => read_back(rt, alloc, table, into, n, codes),
        Err(_) => panic!(rt; "a meet takes no memory"),
    }
}

#[test]
fn two_forks_give_a_text_one_number(rt: HostRuntime) -> Result<(), Fail> {
    let alloc = rt.alloc();
    let (table, mut root) = CellTable::new(alloc, 16)?;
    let mut one = table.fork(alloc, &mut root)?;
    let mut other = table.fork(alloc, &mut root)?;
    let codes = [0x71, 0x323];
    let Ok(first) = intern_pair(&rt, alloc, &table, &mut one, codes) else {
        panic!(rt; "no number");
    };
    let Ok(second) = intern_pair(&rt, alloc, &table, &mut other, codes) else {
        panic!(rt; "no number");
    };
    assert_eq!(rt; first, -4);
    assert_eq!(rt; second, -4);
    meet_and_read(&rt, alloc, &table, &mut root, one, first, codes);
    meet_and_read(&rt, alloc, &table, &mut root, other, second, codes);
    Ok(())
}

// Interns q with two marks, one after the other.
fn intern_two(
    rt: &impl Abort,
    alloc: Global,
    table: &CellTable,
    pass: &mut CellPass,
    marks: [u32; 2],
) -> [Result<i32, InternError>; 2]
    requires { IsCellPass table.now pass.old }
    ensures table { IsCellPass table.now pass.new }
    ensures root { pass.new.root ≡ pass.old.root }
{
    let first = intern_pair(rt, alloc, table, pass, [0x71, marks[0]]);
    let second = intern_pair(rt, alloc, table, pass, [0x71, marks[1]]);
    [first, second]
}

// Two threads intern two texts that have one hash, in either order.
fn intern_at_once<R: Threads + Abort + Sync>(
    rt: &R,
    alloc: Global,
    table: &CellTable,
    one: &mut CellPass,
    other: &mut CellPass,
)
    requires one { IsCellPass table.now one.old }
    requires other { IsCellPass table.now other.old }
    ensures one { IsCellPass table.now one.new }
    ensures other { IsCellPass table.now other.new }
    ensures one_root { one.new.root ≡ one.old.root }
    ensures other_root { other.new.root ≡ other.old.root }
{
    let (first, second) = join_mut(
        rt,
        &mut ||
            requires { IsCellPass table.now one.now }
            ensures table { IsCellPass table.entry.now one.exit.now }
            ensures root { one.exit.now.root ≡ one.entry.now.root }
        { intern_two(rt, alloc, table, one, [0x300, 0x310]) },
        &mut ||
            requires { IsCellPass table.now other.now }
            ensures table { IsCellPass table.entry.now other.exit.now }
            ensures root { other.exit.now.root ≡ other.entry.now.root }
        { intern_two(rt, alloc, table, other, [0x310, 0x300]) },
    );
    assert!(rt; first[0].is_ok());
    assert!(rt; first[1].is_ok());
    assert_eq!(rt; first[0], second[1]);
    assert_eq!(rt; first[1], second[0]);
}

#[test]
fn two_threads_give_a_text_one_number(rt: HostRuntime) -> Result<(), Fail> {
    let alloc = rt.alloc();
    let (table, mut root) = CellTable::new(alloc, 16)?;
    let mut one = table.fork(alloc, &mut root)?;
    let mut other = table.fork(alloc, &mut root)?;
    intern_at_once(&rt, alloc, &table, &mut one, &mut other);
    assert!(rt; table.meet(alloc, &mut root, one).is_ok());
    assert!(rt; table.meet(alloc, &mut root, other).is_ok());
    Ok(())
}

fn is_send<T: Send>(_: &T) {}

fn is_sync<T: Sync>(_: &T) {}

#[test]
fn tables_and_passes_go_between_threads(rt: HostRuntime) -> Result<(), Fail> {
    let (table, pass) = CellTable::new(rt.alloc(), 16)?;
    is_send(&table);
    is_sync(&table);
    is_send(&pass);
    let refused = Refused { from: pass };
    is_send(&refused);
    Ok(())
}
