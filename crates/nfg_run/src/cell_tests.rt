//! Scripts that several workers evaluate over a table of cells, which is shared like the one of words.
ghost use Rattle.std.specs.Prelude.{◌≤◌};

use crate::{Cause, OpenGate, Output, RefusedLine};
use nfg_cells::CellTable;
use nfg_script::{Script, parse};
use nfg_work::{SharedError, run_alone, run_shared};
use std::alloc::Global;
use std::marker::Sync;
use std::process::Abort;
use std::test::Fail;
use std::thread::Threads;

/// What a script without loads gives by so many workers over a new table of 16 cells.
pub(crate) fn over_cells<R: Threads + Sync>(
    rt: &R,
    alloc: Global,
    script: &Script,
    workers: u32,
) -> Result<Output, SharedError>
    requires at_least { 1 ≤ workers }
    requires at_most { workers ≤ 64 }
{
    match CellTable::new(alloc, 16) {
        Ok((table, mut pass)) => run_shared(
            rt,
            alloc,
            &table,
            &mut pass,
            script,
            &[],
            workers,
            &OpenGate,
        ),
        Err(_) => Err(SharedError::OutOfMemory),
    }
}

/// Several workers give what one alone does. Where that one finds the table full, they name a text of the script.
fn check_cells<R: Threads + Sync + Abort>(rt: &R, alloc: Global, text: &str) -> Result<(), Fail> {
    let Ok(script) = parse(alloc, text.as_bytes()) else {
        assert!(rt; false, "no script: {text}");
        return Ok(());
    };
    let alone = run_alone(alloc, &script, &[], 16)?;
    for workers in [1, 2, 3, 8, 64] {
        match over_cells(rt, alloc, &script, workers) {
            Ok(output) => {
                assert!(rt; output.bytes.as_slice() == alone.bytes.as_slice());
                assert!(rt; output.refused == alone.refused);
            }
            Err(SharedError::RowFull { codes }) => {
                let full = RefusedLine {
                    line: 17,
                    cause: Cause::TableFull,
                };
                assert!(rt; alone.refused == Some(full));
                assert!(rt; codes.as_slice().first() == Some(&0x71));
            }
            Err(_) => assert!(rt; false, "no memory or no room: {text}"),
        }
    }
    Ok(())
}

#[test]
fn cells_change_nothing(rt: HostRuntime) -> Result<(), Fail> {
    for text in [
        "",
        "text a 65 301\ntext b 71 307 323\nshow a\nshow b\nlen b\ncmp a b\neq a b\n",
        "text a 1F1E6 1F1E7 1F1E8\nrep b a 2\nshow b\nshape b\ncat c a a\neq b c\nput c utf16\n",
        "text a 1100\ntext b 1161\ntext c 11A8\ncat d a b\ncat e d c\nshow e\n",
        "text a 61 62 63\nrep b a 4\nsub c b 1 10\nshape c\nfind b c 0\nrfind b a 9\n",
        "text a 61\nsub b a 2 1\nlen b\n",
        "text a 100\nput a latin1\n",
        "text m 301\nrep n m 1025\nlen n\n",
        "text a 71 300\ntext b 71 301\ntext c 71 302\ntext d 71 303\ntext e 71 304\ntext f 71 305\ntext g 71 306\ntext h 71 307\ntext i 71 308\ntext j 71 309\ntext k 71 30A\ntext l 71 30B\ntext m 71 30C\ntext n 71 30D\ntext o 71 30E\ntext p 71 30F\nlen p\n",
        "text a 71 300\ntext b 71 301\ntext c 71 302\ntext d 71 303\ntext e 71 304\ntext f 71 305\ntext g 71 306\ntext h 71 307\ntext i 71 308\ntext j 71 309\ntext k 71 30A\ntext l 71 30B\ntext m 71 30C\ntext n 71 30D\ntext o 71 30E\ntext p 71 30F\ntext q 71 310\n",
    ] {
        check_cells(&rt, rt.alloc(), text)?;
    }
    Ok(())
}
