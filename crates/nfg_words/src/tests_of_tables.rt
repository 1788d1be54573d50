//! What no clause says: that calls succeed with ample memory, and at which places texts stand.
ghost use Rattle.std.specs.Prelude.{◌≡◌};
ghost use Rattle.nfg_words.specs.Table.{IsWordPass, seen_of};

use crate::{WordPass, WordTable};
use nfg_syn::{InternError, Refused, Synthetics};
use nfg_text::is_text;
use std::alloc::Global;
use std::process::Abort;
use std::test::Fail;

/// Interns a text of two code points.
pub(crate) fn intern_pair(
    rt: &impl Abort,
    alloc: Global,
    table: &WordTable,
    pass: &mut WordPass,
    codes: [u32; 2],
) -> Result<i32, InternError>
    requires { IsWordPass table.now pass.old }
    ensures table { IsWordPass table.now pass.new }
    ensures root { (seen_of pass.new).root ≡ (seen_of pass.old).root }
{
    assert!(rt; is_text(codes.as_slice()));
    table.intern(alloc, pass, codes.as_slice())
}

// Interns q with each mark, and compares the numbers.
fn intern_marks(rt: &impl Abort, alloc: Global, table: &WordTable, pass: &mut WordPass)
    requires { IsWordPass table.now pass.old }
    ensures { IsWordPass table.now pass.new }
{
    for (mark, number) in MARKS {
        let answer = intern_pair(rt, alloc, table, pass, [0x71, mark]);
        assert_eq!(rt; answer, Ok(number), "{mark:x}");
    }
}

// The hash of q with the mark 300 is 4,271, which is 15 modulo 16, and each next one is one more.
const MARKS: [(u32, i32); 16] = [
    (0x300, -17),
    (0x301, -2),
    (0x302, -3),
    (0x303, -4),
    (0x304, -5),
    (0x305, -6),
    (0x306, -7),
    (0x307, -8),
    (0x308, -9),
    (0x309, -10),
    (0x30A, -11),
    (0x30B, -12),
    (0x30C, -13),
    (0x30D, -14),
    (0x30E, -15),
    (0x30F, -16),
];

#[test]
fn a_table_of_16_places_numbers_16_texts(rt: HostRuntime) -> Result<(), Fail> {
    let alloc = rt.alloc();
    let (table, mut pass) = WordTable::new(alloc, 16)?;
    assert_eq!(rt; table.capacity(), 16);
    intern_marks(&rt, alloc, &table, &mut pass);
    let refused = intern_pair(&rt, alloc, &table, &mut pass, [0x71, 0x310]);
    assert_eq!(rt; refused, Err(InternError::RowFull));
    let line_end = intern_pair(&rt, alloc, &table, &mut pass, [0xD, 0xA]);
    assert_eq!(rt; line_end, Ok(-1));
    intern_marks(&rt, alloc, &table, &mut pass);
    Ok(())
}

fn is_send<T: Send>(_: &T) {}

fn is_sync<T: Sync>(_: &T) {}

#[test]
fn tables_and_passes_go_between_threads(rt: HostRuntime) -> Result<(), Fail> {
    let (table, pass) = WordTable::new(rt.alloc(), 16)?;
    is_send(&table);
    is_sync(&table);
    is_send(&pass);
    let refused = Refused { from: pass };
    is_send(&refused);
    Ok(())
}
