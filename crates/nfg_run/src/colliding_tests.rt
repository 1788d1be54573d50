//! Clusters of one hash, tables that are full, and what is too long.
ghost use Rattle.std.specs.Prelude.{◌≤◌};

use crate::Status;
use crate::cell_tests::over_cells;
use crate::table_texts::{intern, joined, load};
use crate::tests::{Found, SOUND, outcome, over};
use nfg_cells::CellTable;
use nfg_script::parse;
use nfg_seam::SeamError;
use nfg_stream::LoadError;
use nfg_syn::{InternError, OwnTable, Synthetics};
use nfg_text::{ByteList, CodeList};
use nfg_words::WordTable;
use nfg_work::SharedError;
use std::alloc::{AllocError, Global};
use std::marker::Sync;
use std::process::Abort;
use std::test::Fail;
use std::thread::Threads;

/// The hash of q with each of these marks is 15 modulo 16, so the first text stands at the last place of 16 and the
/// others at the next ones that are free.
const COLLIDING: [(u32, i32); 4] = [(0x300, -17), (0x310, -2), (0x320, -3), (0x310, -2)];

/// Interns q with each mark.
fn check_colliding<T: Synthetics>(rt: &impl Abort, alloc: Global, table: &T, pass: &mut T::Pass)
    requires { T.is_of table.now pass.old }
{
    'marks: for (mark, number) in COLLIDING {
        let answer = intern(rt, alloc, table, pass, &[0x71, mark]);
        assert_eq!(rt; answer, Ok(number), "{mark:x}");
    }
}

#[test]
fn a_text_goes_on_past_places_that_others_have(rt: HostRuntime) -> Result<(), Fail> {
    let (table, mut pass) = WordTable::new(rt.alloc(), 16)?;
    check_colliding(&rt, rt.alloc(), &table, &mut pass);
    let (table, mut pass) = CellTable::new(rt.alloc(), 16)?;
    check_colliding(&rt, rt.alloc(), &table, &mut pass);
    Ok(())
}

/// q with so many of the marks from U+0300 on, one each, in UTF-8.
fn marked(alloc: Global, count: u8) -> Result<ByteList, AllocError>
    requires { count ≤ 64 }
{
    let mut bytes = ByteList::new(alloc);
    for k in 0..count {
        bytes.append(&[0x71, 0xCC, 0x80 + k])?;
    }
    Ok(bytes)
}

/// A file of 17 clusters finds 16 places full at the last of them, and the first 16 are known then.
fn check_full_load<T: Synthetics>(
    rt: &impl Abort,
    alloc: Global,
    table: &T,
    pass: &mut T::Pass,
) -> Result<(), Fail>
    requires { T.is_of table.now pass.old }
{
    let all = marked(alloc, 17)?;
    let refused = load(rt, alloc, table, pass, all.as_slice());
    assert_eq!(rt; refused.err(), Some(LoadError::RowFull));
    let front = marked(alloc, 16)?;
    assert_eq!(rt; load(rt, alloc, table, pass, front.as_slice())?.len(), 16);
    let last = intern(rt, alloc, table, pass, &[0x71, 0x310]);
    assert_eq!(rt; last, Err(InternError::RowFull));
    Ok(())
}

/// Where two strings are joined, the seventeenth cluster finds 16 places full, and the first 16 don't.
fn check_full_seam<T: Synthetics>(
    rt: &impl Abort,
    alloc: Global,
    table: &T,
    pass: &mut T::Pass,
) -> Result<(), Fail>
    requires { T.is_of table.now pass.old }
{
    let most = marked(alloc, 15)?;
    assert_eq!(rt; load(rt, alloc, table, pass, most.as_slice())?.len(), 15);
    'seams: for (mark, refused) in [
        (0x30F, None),
        (0x310, Some(SeamError::RowFull)),
        (0x300, None),
    ] {
        let made = joined(rt, alloc, table, pass, &[0x71], &[mark]);
        assert_eq!(rt; made.err(), refused, "{mark:x}");
    }
    Ok(())
}

#[test]
fn a_file_is_refused_at_the_cluster_for_which_no_place_is_left(
    rt: HostRuntime,
) -> Result<(), Fail> {
    let (table, mut pass) = OwnTable::new(rt.alloc(), 16)?;
    check_full_load(&rt, rt.alloc(), &table, &mut pass)?;
    let (table, mut pass) = CellTable::new(rt.alloc(), 16)?;
    check_full_load(&rt, rt.alloc(), &table, &mut pass)?;
    let (table, mut pass) = WordTable::new(rt.alloc(), 16)?;
    check_full_load(&rt, rt.alloc(), &table, &mut pass)
}

#[test]
fn a_seam_is_refused_at_the_cluster_for_which_no_place_is_left(
    rt: HostRuntime,
) -> Result<(), Fail> {
    let (table, mut pass) = OwnTable::new(rt.alloc(), 16)?;
    check_full_seam(&rt, rt.alloc(), &table, &mut pass)?;
    let (table, mut pass) = CellTable::new(rt.alloc(), 16)?;
    check_full_seam(&rt, rt.alloc(), &table, &mut pass)?;
    let (table, mut pass) = WordTable::new(rt.alloc(), 16)?;
    check_full_seam(&rt, rt.alloc(), &table, &mut pass)
}

/// A script of so many clusters, and then a seam that makes one more.
fn seam_script(alloc: Global, count: u32) -> Result<String, AllocError>
    requires { count ≤ 100 }
{
    let mut script = String::new(alloc);
    script.push_str("text q 71\ntext m 310\n")?;
    for k in 0..count {
        let line = format!(in alloc; "text t{k} 71 {:X}\n", 0x300 + k)?;
        script.push_str(line.as_str())?;
    }
    script.push_str("len q\ncat x q m\nshow x\n")?;
    Ok(script)
}

#[test]
fn a_script_is_refused_at_the_seam_for_which_no_place_is_left(rt: HostRuntime) -> Result<(), Fail> {
    for (count, status, wanted) in [
        (15, Status::Done, "1\n71+310\n"),
        (16, Status::Refused, "1\nline 20: table full\n"),
    ] {
        let script = seam_script(rt.alloc(), count)?;
        for line in ["run --workers 1 --table 16 s", "run --table 16 s"] {
            let found = Found {
                line,
                ..over(script.as_bytes(), b"")
            };
            let (given, taken) = outcome(&rt, rt.alloc(), found, SOUND)?;
            assert!(rt; given == status);
            assert!(rt; taken.as_slice() == wanted.as_bytes());
        }
        check_cells(&rt, rt.alloc(), script.as_str(), status, wanted)?;
    }
    Ok(())
}

/// The same over a table of cells, which names the cluster that has no place.
fn check_cells<R: Threads + Sync + Abort>(
    rt: &R,
    alloc: Global,
    text: &str,
    status: Status,
    wanted: &str,
) -> Result<(), Fail> {
    let Ok(script) = parse(alloc, text.as_bytes()) else {
        return Err("no script")?;
    };
    match over_cells(rt, alloc, &script, 1) {
        Ok(output) => {
            assert!(rt; status == Status::Done);
            assert!(rt; output.bytes.as_slice() == wanted.as_bytes());
        }
        Err(SharedError::RowFull { codes }) => {
            assert!(rt; status == Status::Refused);
            assert!(rt; codes.as_slice() == [0x71, 0x310].as_slice());
        }
        Err(_) => Err("no memory or no room")?,
    }
    Ok(())
}

/// The letter q and so many acute accents.
fn accented(alloc: Global, count: u32) -> Result<CodeList, AllocError> {
    let mut codes = CodeList::from_slice(alloc, &[0x71])?;
    for _ in 0..count {
        codes.push(0x301)?;
    }
    Ok(codes)
}

#[test]
fn a_seam_that_makes_a_cluster_too_long_numbers_nothing(rt: HostRuntime) -> Result<(), Fail> {
    let alloc = rt.alloc();
    let (table, mut pass) = OwnTable::new(alloc, 16)?;
    let longest = accented(alloc, 1023)?;
    let made = joined(&rt, alloc, &table, &mut pass, longest.as_slice(), &[0x301]);
    assert_eq!(rt; made.err(), Some(SeamError::ClusterLong { at: 0 }));
    // the left string alone had a number, and the next cluster gets the next one
    'clusters: for (cluster, number) in [
        (longest.as_slice(), -2),
        ([0x71, 0x300].as_slice(), -3),
        (longest.as_slice(), -2),
    ] {
        let answer = intern(&rt, alloc, &table, &mut pass, cluster);
        assert_eq!(rt; answer, Ok(number));
    }
    Ok(())
}

#[test]
fn a_malformed_byte_behind_a_cluster_too_long_is_told_first(rt: HostRuntime) -> Result<(), Fail> {
    let alloc = rt.alloc();
    let (table, mut pass) = OwnTable::new(alloc, 16)?;
    let mut bytes = ByteList::from_slice(alloc, b"q")?;
    for _ in 0..1024 {
        bytes.append(b"\xCC\x81")?;
    }
    let long = load(&rt, alloc, &table, &mut pass, bytes.as_slice());
    assert_eq!(rt; long.err(), Some(LoadError::ClusterLong { at: 0 }));
    bytes.append(b"\xFF")?;
    let malformed = load(&rt, alloc, &table, &mut pass, bytes.as_slice());
    assert_eq!(rt; malformed.err(), Some(LoadError::Malformed { at: 2049 }));
    Ok(())
}

#[test]
fn a_script_of_spaces_is_too_long_at_one_byte_over_2_to_the_20(
    rt: HostRuntime,
) -> Result<(), Fail> {
    let mut spaces = Vec::new(rt.alloc());
    for (len, status, wanted) in [
        (1 << 20, Status::Done, ""),
        ((1 << 20) + 1, Status::Bad, "script: too long\n"),
    ] {
        spaces.resize(len, b' ')?;
        let found = over(spaces.as_slice(), b"");
        let (given, taken) = outcome(&rt, rt.alloc(), found, SOUND)?;
        assert!(rt; given == status);
        assert!(rt; taken.as_slice() == wanted.as_bytes());
    }
    Ok(())
}
