//! What no clause says: that calls succeed with ample memory, and rows from outside.
ghost use Rattle.nfg_syn.specs.OwnTexts.{IsOwnPass};

use crate::{InternError, OwnPass, OwnTable, Refused, Synthetics, append_cluster};
use nfg_text::{CodeList, is_text};
use std::alloc::Global;
use std::process::Abort;
use std::test::Fail;

// Interns a text of two code points.
fn intern_pair(
    rt: &impl Abort,
    alloc: Global,
    table: &OwnTable,
    pass: &mut OwnPass,
    codes: [u32; 2],
) -> Result<i32, InternError>
    requires { IsOwnPass table.now pass.old }
    ensures { IsOwnPass table.now pass.new }
{
    assert!(rt; is_text(codes.as_slice()));
    table.intern(alloc, pass, codes.as_slice())
}

// Interns q with each mark, and compares the numbers.
fn intern_marks(rt: &impl Abort, alloc: Global, table: &OwnTable, pass: &mut OwnPass)
    requires { IsOwnPass table.now pass.old }
    ensures { IsOwnPass table.now pass.new }
{
    for (mark, number) in MARKS {
        let answer = intern_pair(rt, alloc, table, pass, [0x71, mark]);
        assert_eq!(rt; answer, Ok(number), "{mark:x}");
    }
}

// Interns CJK characters with a grave accent, as many as the first buckets and more.
fn intern_ideographs(rt: &impl Abort, alloc: Global, table: &OwnTable, pass: &mut OwnPass)
    requires { IsOwnPass table.now pass.old }
    ensures { IsOwnPass table.now pass.new }
{
    for k in 0..300u32 {
        let answer = intern_pair(rt, alloc, table, pass, [0x4E00 + k, 0x300]);
        assert_eq!(rt; answer, Ok(-2 - k as i32), "{k}");
    }
}

#[test]
fn a_table_of_16_places_numbers_16_texts(rt: HostRuntime) -> Result<(), Fail> {
    let alloc = rt.alloc();
    let (table, mut pass) = OwnTable::new(alloc, 16)?;
    assert_eq!(rt; table.capacity(), 16);
    intern_marks(&rt, alloc, &table, &mut pass);
    let refused = intern_pair(&rt, alloc, &table, &mut pass, [0x71, 0x310]);
    assert_eq!(rt; refused, Err(InternError::RowFull));
    let line_end = intern_pair(&rt, alloc, &table, &mut pass, [0xD, 0xA]);
    assert_eq!(rt; line_end, Ok(-1));
    intern_marks(&rt, alloc, &table, &mut pass);
    Ok(())
}

const MARKS: [(u32, i32); 16] = [
    (0x300, -2),
    (0x301, -3),
    (0x302, -4),
    (0x303, -5),
    (0x304, -6),
    (0x305, -7),
    (0x306, -8),
    (0x307, -9),
    (0x308, -10),
    (0x309, -11),
    (0x30A, -12),
    (0x30B, -13),
    (0x30C, -14),
    (0x30D, -15),
    (0x30E, -16),
    (0x30F, -17),
];

#[test]
fn a_table_grows_past_its_first_buckets(rt: HostRuntime) -> Result<(), Fail> {
    let alloc = rt.alloc();
    let (table, mut pass) = OwnTable::new(alloc, 1024)?;
    intern_ideographs(&rt, alloc, &table, &mut pass);
    intern_ideographs(&rt, alloc, &table, &mut pass);
    Ok(())
}

// Interns a text of two code points, and reads it back after a letter.
fn read_back(rt: &impl Abort, alloc: Global, table: &OwnTable, pass: &mut OwnPass, codes: [u32; 2])
    requires { IsOwnPass table.now pass.old }
    ensures { IsOwnPass table.now pass.new }
{
    assert!(rt; is_text(codes.as_slice()));
    let mut read = CodeList::new(alloc);
    let letter = append_cluster(table, pass, 0x71, &mut read);
    assert_eq!(rt; letter, Ok(()));
    match table.intern(alloc, pass, codes.as_slice()) {
        Ok(n) => {
            let cluster = append_cluster(table, pass, n, &mut read);
            assert_eq!(rt; cluster, Ok(()));
            assert_eq!(rt; read.as_slice(), [0x71, codes[0], codes[1]].as_slice());
        }
        Err(_) => panic!(rt; "no number"),
    }
}

#[test]
fn the_code_points_of_a_number_are_read_back(rt: HostRuntime) -> Result<(), Fail> {
    let alloc = rt.alloc();
    let (table, mut pass) = OwnTable::new(alloc, 16)?;
    read_back(&rt, alloc, &table, &mut pass, [0x71, 0x300]);
    read_back(&rt, alloc, &table, &mut pass, [0xD, 0xA]);
    Ok(())
}

fn is_send<T: Send>(_: &T) {}

fn is_sync<T: Sync>(_: &T) {}

#[test]
fn tables_passes_and_errors_go_between_threads(rt: HostRuntime) -> Result<(), Fail> {
    let (table, pass) = OwnTable::new(rt.alloc(), 16)?;
    is_send(&table);
    is_sync(&table);
    is_send(&pass);
    is_sync(&pass);
    is_send(&InternError::RowFull);
    is_sync(&InternError::RowFull);
    let refused = Refused { from: pass };
    is_send(&refused);
    is_sync(&refused);
    Ok(())
}
