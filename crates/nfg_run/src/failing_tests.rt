//! Each call on files and each write fails in turn, and pieces of drawn lengths change nothing.
ghost use Rattle.std.specs.Prelude.{◌≤◌};

use crate::drawn_outside::{DrawnFiles, DrawnSink};
use crate::draws::Draws;
use crate::tests::{Found, Outside, SOUND, outcome, over, words_of};
use crate::worked_rows::{
    BAD, CLUSTERS, ENCODED, FIRST, Load, NONE, PUT, REFUSED, SILENT, WorkedRow,
};
use crate::worked_strings::{LONG, STRINGS, WORDS};
use crate::{OpenGate, Status, run};
use nfg_io::{MemoryFiles, MemorySink};
use std::alloc::{AllocError, Global};
use std::marker::Sync;
use std::process::Abort;
use std::test::Fail;
use std::thread::Threads;

/// A run of a worked row.
fn found<'a>(row: &WorkedRow<'a>) -> Found<'a> {
    Found {
        line: row.line,
        script: row.script,
        f: row.f,
        g: row.g,
    }
}

/// The run says this.
fn check_outcome<R: Threads + Sync + Abort>(
    rt: &R,
    alloc: Global,
    row: &WorkedRow<'_>,
    outside: Outside,
    wanted_status: Status,
    wanted: &[u8],
) -> Result<(), Fail>
    requires { 1 ≤ outside.step }
{
    let (status, taken) = outcome(rt, alloc, found(row), outside)?;
    assert_eq!(rt; status, wanted_status);
    assert_eq!(rt; taken.as_slice(), wanted);
    Ok(())
}

#[test]
fn each_failed_call_of_a_run_is_told(rt: HostRuntime) -> Result<(), Fail> {
    // the script is opened, read and read to its end, and so is the file; no other call is made
    for (failing_call, status, wanted) in [
        (0, Status::ReadFault, b"script: cannot read\n".as_slice()),
        (1, Status::ReadFault, b"script: cannot read\n"),
        (2, Status::ReadFault, b"script: cannot read\n"),
        (3, Status::ReadFault, b"line 1: cannot read\n"),
        (4, Status::ReadFault, b"line 1: cannot read\n"),
        (5, Status::ReadFault, b"line 1: cannot read\n"),
        (6, Status::Done, FIRST.wanted),
    ] {
        let outside = Outside {
            step: 1 << 16,
            failing_call,
            ..SOUND
        };
        check_outcome(&rt, rt.alloc(), &FIRST, outside, status, wanted)?;
    }
    Ok(())
}

#[test]
fn each_failed_write_of_a_byte_leaves_those_before_it(rt: HostRuntime) -> Result<(), Fail> {
    for (failing_write, status, wanted) in [
        (0, Status::WriteFault, b"".as_slice()),
        (1, Status::WriteFault, b"3"),
        (2, Status::WriteFault, b"3\n"),
        (3, Status::WriteFault, b"3\nE"),
        (4, Status::WriteFault, b"3\nE9"),
        (5, Status::WriteFault, b"3\nE9 "),
        (6, Status::WriteFault, b"3\nE9 D"),
        (7, Status::WriteFault, b"3\nE9 D+"),
        (8, Status::WriteFault, b"3\nE9 D+A"),
        (9, Status::WriteFault, b"3\nE9 D+A "),
        (10, Status::WriteFault, b"3\nE9 D+A 7"),
        (11, Status::WriteFault, b"3\nE9 D+A 71"),
        (12, Status::Done, b"3\nE9 D+A 71\n"),
    ] {
        let outside = Outside {
            step: 1,
            failing_write,
            ..SOUND
        };
        check_outcome(&rt, rt.alloc(), &FIRST, outside, status, wanted)?;
    }
    Ok(())
}

/// Files in memory, with the script and the files of a row.
fn files_of(alloc: Global, row: &WorkedRow<'_>, step: usize) -> Result<MemoryFiles, AllocError>
    requires { 1 ≤ step }
{
    let mut files = MemoryFiles::new(alloc, step);
    files.add("s", row.script)?;
    files.add("f", row.f)?;
    files.add("g", row.g)?;
    Ok(files)
}

#[test]
fn output_past_the_room_is_not_taken(rt: HostRuntime) -> Result<(), Fail> {
    let alloc = rt.alloc();
    for (room, status, wanted) in [
        (0, Status::WriteFault, b"".as_slice()),
        (5, Status::WriteFault, b"3\nE9 "),
        (11, Status::WriteFault, b"3\nE9 D+A 71"),
        (12, Status::Done, FIRST.wanted),
    ] {
        let words = words_of(alloc, "run s")?;
        let mut files = files_of(alloc, &FIRST, 1 << 16)?;
        let mut sink = MemorySink::new(alloc, 1 << 16, room)?;
        let given = run(&rt, alloc, &words, &mut files, &mut sink, &OpenGate);
        assert_eq!(rt; given, status, "room {room}");
        assert_eq!(rt; sink.taken(), wanted, "room {room}");
    }
    Ok(())
}

#[test]
fn a_second_file_that_is_not_there_is_told_at_its_line(rt: HostRuntime) -> Result<(), Fail> {
    let script = b"text p 61\nlen p\nload a utf8 f\nload b utf8 none\n";
    let (status, taken) = outcome(&rt, rt.alloc(), over(script, b"x"), SOUND)?;
    assert!(rt; status == Status::ReadFault);
    assert!(rt; taken.as_slice() == b"1\nline 4: cannot read\n".as_slice());
    Ok(())
}

/// How many calls read a file: one opens it, and the last one is told its end.
fn calls_of(len: usize, step: usize) -> u64
    requires { 1 ≤ step }
{
    (len.div_ceil(step) as u64).saturating_add(2)
}

/// Each call that reads a file of so many bytes fails, from this call on. The answer is the first call behind them.
fn check_failed_calls<R: Threads + Sync + Abort>(
    rt: &R,
    alloc: Global,
    row: &WorkedRow<'_>,
    step: usize,
    first: u64,
    len: usize,
    wanted: &[u8],
) -> Result<u64, Fail>
    requires { 1 ≤ step }
{
    let end = first.saturating_add(calls_of(len, step));
    for failing_call in first..end {
        let outside = Outside {
            step,
            failing_call,
            ..SOUND
        };
        check_outcome(rt, alloc, row, outside, Status::ReadFault, wanted)?;
    }
    Ok(end)
}

/// Each call on files fails, and so does the one behind the last, which is not made.
fn check_files<R: Threads + Sync + Abort>(
    rt: &R,
    alloc: Global,
    row: &WorkedRow<'_>,
    step: usize,
) -> Result<(), Fail>
    requires { 1 ≤ step }
{
    let unread = b"script: cannot read\n";
    let mut next = check_failed_calls(rt, alloc, row, step, 0, row.script.len(), unread)?;
    for Load {
        line,
        is_of_g,
        before,
    } in row.loads {
        let file = if *is_of_g { row.g } else { row.f };
        let wanted = format!(in alloc; "{before}line {line}: cannot read\n")?;
        next = check_failed_calls(rt, alloc, row, step, next, file.len(), wanted.as_bytes())?;
    }
    let outside = Outside {
        step,
        failing_call: next,
        ..SOUND
    };
    check_outcome(rt, alloc, row, outside, row.status, row.wanted)
}

/// Each write fails, and so does the one behind the last, which is not made.
fn check_writes<R: Threads + Sync + Abort>(
    rt: &R,
    alloc: Global,
    row: &WorkedRow<'_>,
    step: usize,
) -> Result<(), Fail>
    requires { 1 ≤ step }
{
    let writes = row.wanted.len().div_ceil(step);
    for write in 0..=writes {
        let outside = Outside {
            step,
            failing_write: write as u64,
            ..SOUND
        };
        let taken = write.saturating_mul(step).min(row.wanted.len());
        let status = if write < writes {
            Status::WriteFault
        } else {
            row.status
        };
        check_outcome(rt, alloc, row, outside, status, &row.wanted[..taken])?;
    }
    Ok(())
}

#[test]
fn each_failed_call_on_a_file_too_long_is_told(rt: HostRuntime) -> Result<(), Fail> {
    let mut file = Vec::new(rt.alloc());
    file.resize((1 << 26) + 1, b'a')?;
    let found = over(b"load a utf8 f\n", file.as_slice());
    // 1,024 reads give all but the last byte, which call 1,028 reads; behind it none is made
    for (failing_call, status, wanted) in [
        (0, Status::ReadFault, b"script: cannot read\n".as_slice()),
        (1, Status::ReadFault, b"script: cannot read\n"),
        (2, Status::ReadFault, b"script: cannot read\n"),
        (3, Status::ReadFault, b"line 1: cannot read\n"),
        (4, Status::ReadFault, b"line 1: cannot read\n"),
        (5, Status::ReadFault, b"line 1: cannot read\n"),
        (6, Status::ReadFault, b"line 1: cannot read\n"),
        (7, Status::ReadFault, b"line 1: cannot read\n"),
        (1028, Status::ReadFault, b"line 1: cannot read\n"),
        (1029, Status::Refused, b"line 1: file too long\n"),
    ] {
        let outside = Outside {
            step: 1 << 16,
            failing_call,
            ..SOUND
        };
        let (given, taken) = outcome(&rt, rt.alloc(), found, outside)?;
        assert_eq!(rt; given, status, "call {failing_call}");
        assert_eq!(rt; taken.as_slice(), wanted, "call {failing_call}");
    }
    Ok(())
}

/// Each call of each row fails, where calls hand on at most one byte, three, or all.
fn check_rows<R: Threads + Sync + Abort>(
    rt: &R,
    alloc: Global,
    rows: &[WorkedRow<'_>],
) -> Result<(), Fail> {
    for row in rows {
        for step in [1, 3, 1 << 16] {
            check_files(rt, alloc, row, step)?;
            check_writes(rt, alloc, row, step)?;
        }
    }
    Ok(())
}

#[test]
fn each_failed_call_of_each_row_is_told(rt: HostRuntime) -> Result<(), Fail> {
    for rows in [
        CLUSTERS.as_slice(),
        ENCODED.as_slice(),
        REFUSED.as_slice(),
        PUT.as_slice(),
        SILENT.as_slice(),
        BAD.as_slice(),
        STRINGS.as_slice(),
    ] {
        check_rows(&rt, rt.alloc(), rows)?;
    }
    Ok(())
}

#[test]
fn each_failed_write_without_a_script_is_told(rt: HostRuntime) -> Result<(), Fail> {
    for row in WORDS.as_slice() {
        for step in [1, 3, 1 << 16] {
            check_writes(&rt, rt.alloc(), row, step)?;
        }
    }
    for step in [1, 3, 1 << 16] {
        check_writes(&rt, rt.alloc(), &LONG, step)?;
    }
    Ok(())
}

/// Each call on files and each write fails in a run of this script, which reads no file.
fn check_script<'a, R: Threads + Sync + Abort>(
    rt: &R,
    alloc: Global,
    script: &'a [u8],
    status: Status,
    wanted: &'a [u8],
) -> Result<(), Fail> {
    let row = WorkedRow {
        script,
        status,
        wanted,
        ..NONE
    };
    check_rows(rt, alloc, &[row])
}

/// A line of q and so many acute accents, as a text of this name.
fn add_long_text(script: &mut Vec<u8>, name: &str, accents: usize) -> Result<(), AllocError> {
    script.extend_from_slice(b"text ")?;
    script.extend_from_slice(name.as_bytes())?;
    script.extend_from_slice(b" 71")?;
    for _k in 0..accents {
        script.extend_from_slice(b" 301")?;
    }
    script.extend_from_slice(b"\n")
}

#[test]
fn each_failed_call_about_a_long_cluster_is_told(rt: HostRuntime) -> Result<(), Fail> {
    let mut script = Vec::new(rt.alloc());
    add_long_text(&mut script, "a", 1_023)?;
    script.extend_from_slice(b"len a\n")?;
    add_long_text(&mut script, "b", 1_024)?;
    let wanted = b"1\nline 3: cluster too long at grapheme 0\n";
    check_script(&rt, rt.alloc(), script.as_slice(), Status::Refused, wanted)
}

#[test]
fn each_failed_call_about_a_full_table_is_told(rt: HostRuntime) -> Result<(), Fail> {
    let mut script = Vec::new(rt.alloc());
    for k in 0..17 {
        let line = format!(in rt.alloc(); "text t{k} 71 {:X}\n", 0x300 + k)?;
        script.extend_from_slice(line.as_bytes())?;
    }
    let wanted = b"line 17: table full\n";
    check_script(&rt, rt.alloc(), script.as_slice(), Status::Refused, wanted)
}

#[test]
fn each_failed_call_about_many_strands_is_told(rt: HostRuntime) -> Result<(), Fail> {
    let mut script = Vec::new(rt.alloc());
    script.extend_from_slice(b"text s0 61\ntext b 62\n")?;
    for k in 0..64 {
        let line = format!(in rt.alloc(); "cat s{} s{k} b\n", k + 1)?;
        script.extend_from_slice(line.as_bytes())?;
    }
    script.extend_from_slice(b"shape s63\nshape s64\n")?;
    let mut wanted = Vec::new(rt.alloc());
    wanted.extend_from_slice(b"strands 64")?;
    for _k in 0..64 {
        wanted.extend_from_slice(b" 1x1/8")?;
    }
    wanted.extend_from_slice(b"\nstrands 1 65x1/8\n")?;
    check_script(
        &rt,
        rt.alloc(),
        script.as_slice(),
        Status::Done,
        wanted.as_slice(),
    )
}

#[test]
fn each_failed_call_about_a_long_script_is_told(rt: HostRuntime) -> Result<(), Fail> {
    let mut script = Vec::new(rt.alloc());
    script.resize(10_001, b'\n')?;
    let wanted = b"script: too long\n";
    check_script(&rt, rt.alloc(), script.as_slice(), Status::Bad, wanted)
}

#[test]
fn each_failed_call_about_long_output_is_told(rt: HostRuntime) -> Result<(), Fail> {
    let row = WorkedRow {
        script: b"text a 1F600\nrep b a 67108864\nlen b\nshow b\n",
        status: Status::Refused,
        wanted: b"67108864\nline 4: output too long\n",
        ..NONE
    };
    check_files(&rt, rt.alloc(), &row, 1 << 16)?;
    check_writes(&rt, rt.alloc(), &row, 1 << 16)
}

/// A run of the row whose calls hand on drawn numbers of bytes says what the row does.
fn check_drawn<R: Threads + Sync + Abort>(
    rt: &R,
    alloc: Global,
    row: &WorkedRow<'_>,
    seed: u32,
) -> Result<(), Fail> {
    let words = words_of(alloc, row.line)?;
    let mut files = DrawnFiles {
        files: files_of(alloc, row, 1 << 16)?,
        draws: Draws::new(seed),
    };
    let mut out = DrawnSink {
        sink: MemorySink::new(alloc, 1 << 16, 1 << 16)?,
        draws: Draws::new(seed),
    };
    let status = run(rt, alloc, &words, &mut files, &mut out, &OpenGate);
    assert_eq!(rt; status, row.status, "seed {seed}");
    assert_eq!(rt; out.sink.taken(), row.wanted, "seed {seed}");
    Ok(())
}

#[test]
fn short_reads_and_writes_change_nothing(rt: HostRuntime) -> Result<(), Fail> {
    for rows in [
        CLUSTERS.as_slice(),
        ENCODED.as_slice(),
        REFUSED.as_slice(),
        PUT.as_slice(),
        SILENT.as_slice(),
        BAD.as_slice(),
        STRINGS.as_slice(),
    ] {
        for row in rows {
            for seed in 0..20 {
                check_drawn(&rt, rt.alloc(), row, seed)?;
            }
        }
    }
    Ok(())
}
