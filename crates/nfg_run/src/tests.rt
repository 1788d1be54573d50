//! Rows over files in memory, and that a run succeeds where there is memory and nothing fails.
ghost use Rattle.std.specs.Prelude.{◌≤◌};

use crate::worked_rows::{BAD, CLUSTERS, ENCODED, FIRST, PUT, REFUSED, SILENT, WorkedRow};
use crate::{Gate, OpenGate, Status, Words, run};
use nfg_io::{MemoryFiles, MemorySink};
use std::alloc::{AllocError, Global};
use std::marker::{Send, Sync};
use std::process::Abort;
use std::test::Fail;
use std::thread::Threads;

pub(crate) const SCRIPT: &[u8] = b"load a utf8 f\nlen a\nshow a\n";

/// What a run finds: the words of its command line, the script `s`, and the files `f` and `g`.
#[derive(Clone, Copy)]
pub(crate) struct Found<'a> {
    pub line: &'a str,
    pub script: &'a [u8],
    pub f: &'a [u8],
    pub g: &'a [u8],
}

/// How the files and the sink behave: the most bytes that a call takes or gives, and the calls that fail.
#[derive(Clone, Copy)]
pub(crate) struct Outside {
    pub step: usize,
    pub failing_call: u64,
    pub failing_write: u64,
}

pub(crate) const SOUND: Outside = Outside {
    step: 1000,
    failing_call: u64::MAX,
    failing_write: u64::MAX,
};

const ONE_BYTE: Outside = Outside { step: 1, ..SOUND };

/// The script over one file.
pub(crate) fn over<'a>(script: &'a [u8], f: &'a [u8]) -> Found<'a> {
    Found {
        line: "run s",
        script,
        f,
        g: b"",
    }
}

/// The words of a command line, one space between two.
pub(crate) fn words_of(alloc: Global, line: &str) -> Result<Words, AllocError> {
    let mut words = Words::new(alloc);
    for word in line.split(' ') {
        words.push(word)?;
    }
    Ok(words)
}

/// What the run gives: the status and the bytes taken.
pub(crate) fn outcome<R: Threads + Sync>(
    rt: &R,
    alloc: Global,
    found: Found,
    outside: Outside,
) -> Result<(Status, Vec<u8>), AllocError>
    requires { 1 ≤ outside.step }
{
    outcome_at(rt, alloc, found, outside, &OpenGate)
}

/// What the run gives at a gate.
pub(crate) fn outcome_at<R: Threads + Sync, G: Gate>(
    rt: &R,
    alloc: Global,
    found: Found,
    outside: Outside,
    gate: &G,
) -> Result<(Status, Vec<u8>), AllocError>
    requires { 1 ≤ outside.step }
{
    let words = words_of(alloc, found.line)?;
    let mut files = MemoryFiles::new(alloc, outside.step);
    files.add("s", found.script)?;
    files.add("f", found.f)?;
    files.add("g", found.g)?;
    files.fail_at(outside.failing_call)?;
    let mut out = MemorySink::new(alloc, outside.step, 1 << 18)?;
    out.fail_at(outside.failing_write)?;
    let status = run(rt, alloc, &words, &mut files, &mut out, gate);
    Ok((status, Vec::from_slice(alloc, out.taken())?))
}

/// The run gives this, whether a call takes or gives many bytes or one.
fn check_run<R: Threads + Sync + Abort>(
    rt: &R,
    alloc: Global,
    found: Found,
    wanted_status: Status,
    wanted: &[u8],
) -> Result<(), Fail> {
    for outside in [SOUND, ONE_BYTE] {
        let (status, taken) = outcome(rt, alloc, found, outside)?;
        assert!(rt; status == wanted_status);
        assert!(rt; taken.as_slice() == wanted);
    }
    Ok(())
}

/// What a run of a worked row finds.
fn found_of<'a>(row: &WorkedRow<'a>) -> Found<'a> {
    Found {
        line: "run s",
        script: row.script,
        f: row.f,
        g: row.g,
    }
}

/// The runs give what their rows say.
fn check_rows<R: Threads + Sync + Abort>(
    rt: &R,
    alloc: Global,
    rows: &[WorkedRow<'_>],
) -> Result<(), Fail> {
    for row in rows {
        check_run(rt, alloc, found_of(row), row.status, row.wanted)?;
    }
    Ok(())
}

#[test]
fn succeeds_with_memory(rt: HostRuntime) -> Result<(), Fail> {
    let (status, taken) = outcome(&rt, rt.alloc(), found_of(&FIRST), SOUND)?;
    assert!(rt; status == Status::Done);
    assert!(rt; taken.as_slice() == FIRST.wanted);
    Ok(())
}

#[test]
fn a_file_has_the_clusters_that_a_reader_sees(rt: HostRuntime) -> Result<(), Fail> {
    check_rows(&rt, rt.alloc(), &CLUSTERS)
}

#[test]
fn files_are_read_by_their_encodings(rt: HostRuntime) -> Result<(), Fail> {
    check_rows(&rt, rt.alloc(), &ENCODED)
}

#[test]
fn the_refused_line_is_told(rt: HostRuntime) -> Result<(), Fail> {
    check_rows(&rt, rt.alloc(), &REFUSED)
}

#[test]
fn put_writes_the_bytes_and_nothing_else(rt: HostRuntime) -> Result<(), Fail> {
    check_rows(&rt, rt.alloc(), &PUT)
}

#[test]
fn an_empty_script_prints_nothing(rt: HostRuntime) -> Result<(), Fail> {
    check_rows(&rt, rt.alloc(), &SILENT)
}

/// So many of the byte.
fn repeated(alloc: Global, byte: u8, count: usize) -> Result<Vec<u8>, AllocError> {
    let mut bytes = Vec::new(alloc);
    bytes.resize(count, byte)?;
    Ok(bytes)
}

#[test]
fn a_refused_script_tells_why(rt: HostRuntime) -> Result<(), Fail> {
    check_rows(&rt, rt.alloc(), &BAD)
}

#[test]
fn the_limits_of_a_script_are_exact(rt: HostRuntime) -> Result<(), Fail> {
    let lines = repeated(rt.alloc(), b'\n', 10_000)?;
    let mut bytes = repeated(rt.alloc(), b'#', 1 << 20)?;
    for script in [lines.as_slice(), bytes.as_slice()] {
        let (status, taken) = outcome(&rt, rt.alloc(), over(script, b""), SOUND)?;
        assert!(rt; status == Status::Done);
        assert!(rt; taken.is_empty());
    }
    bytes.push(b'\n')?;
    let more_lines = repeated(rt.alloc(), b'\n', 10_001)?;
    for script in [more_lines.as_slice(), bytes.as_slice()] {
        let (status, taken) = outcome(&rt, rt.alloc(), over(script, b""), SOUND)?;
        assert!(rt; status == Status::Bad);
        assert!(rt; taken.as_slice() == b"script: too long\n".as_slice());
    }
    Ok(())
}

/// Adds a line `text NAME` with `q` and so many acute accents, which is one cluster.
fn add_accents(script: &mut Vec<u8>, name: u8, count: u32) -> Result<(), AllocError> {
    script.extend_from_slice(&[b't', b'e', b'x', b't', b' ', name, b' ', b'7', b'1'])?;
    for _ in 0..count {
        script.extend_from_slice(b" 301")?;
    }
    script.push(b'\n')?;
    Ok(())
}

#[test]
fn a_cluster_has_at_most_1024_code_points(rt: HostRuntime) -> Result<(), Fail> {
    let mut script = Vec::new(rt.alloc());
    add_accents(&mut script, b'a', 1_023)?;
    script.extend_from_slice(b"len a\n")?;
    add_accents(&mut script, b'b', 1_024)?;
    let found = over(script.as_slice(), b"");
    let (status, taken) = outcome(&rt, rt.alloc(), found, SOUND)?;
    assert!(rt; status == Status::Refused);
    assert!(rt; taken.as_slice() == b"1\nline 3: cluster too long at grapheme 0\n".as_slice());
    Ok(())
}

#[test]
fn a_file_of_67108865_bytes_is_too_long(rt: HostRuntime) -> Result<(), Fail> {
    let file = repeated(rt.alloc(), b'a', (1 << 26) + 1)?;
    let outside = Outside {
        step: 1 << 16,
        ..SOUND
    };
    let found = over(b"load a utf8 f\n", file.as_slice());
    let (status, taken) = outcome(&rt, rt.alloc(), found, outside)?;
    assert!(rt; status == Status::Refused);
    assert!(rt; taken.as_slice() == b"line 1: file too long\n".as_slice());
    Ok(())
}

#[test]
fn each_failed_call_on_files_is_told(rt: HostRuntime) -> Result<(), Fail> {
    // the script is opened, read and read to its end, and so are both files
    for (failing_call, wanted) in [
        (0, "script: cannot read\n"),
        (1, "script: cannot read\n"),
        (2, "script: cannot read\n"),
        (3, "line 1: cannot read\n"),
        (4, "line 1: cannot read\n"),
        (5, "line 1: cannot read\n"),
        (6, "1\nline 3: cannot read\n"),
        (7, "1\nline 3: cannot read\n"),
        (8, "1\nline 3: cannot read\n"),
    ] {
        let outside = Outside {
            failing_call,
            ..SOUND
        };
        let found = Found {
            g: b"y",
            ..over(b"load a utf8 f\nlen a\nload b utf8 g\nlen b\n", b"x")
        };
        let (status, taken) = outcome(&rt, rt.alloc(), found, outside)?;
        assert!(rt; status == Status::ReadFault);
        assert!(rt; taken.as_slice() == wanted.as_bytes());
    }
    Ok(())
}

#[test]
fn a_path_that_is_not_there_is_told(rt: HostRuntime) -> Result<(), Fail> {
    for (line, wanted) in [
        ("run none", "script: cannot read\n"),
        ("run s", "1\nline 3: cannot read\n"),
    ] {
        let found = Found {
            line,
            ..over(b"text a 61\nlen a\nload b utf8 none\n", b"x")
        };
        let (status, taken) = outcome(&rt, rt.alloc(), found, SOUND)?;
        assert!(rt; status == Status::ReadFault);
        assert!(rt; taken.as_slice() == wanted.as_bytes());
    }
    Ok(())
}

#[test]
fn each_failed_write_leaves_a_front(rt: HostRuntime) -> Result<(), Fail> {
    for (failing_write, wanted) in [(0, ""), (1, "61 6"), (2, "61 62 63")] {
        let outside = Outside {
            step: 4,
            failing_write,
            ..SOUND
        };
        let found = over(b"text a 61 62 63\nshow a\n", b"");
        let (status, taken) = outcome(&rt, rt.alloc(), found, outside)?;
        assert!(rt; status == Status::WriteFault);
        assert!(rt; taken.as_slice() == wanted.as_bytes());
    }
    Ok(())
}

#[test]
fn a_status_has_its_code(rt: HostRuntime) {
    assert!(rt; Status::Done.code() == 0);
    assert!(rt; Status::Refused.code() == 1);
    assert!(rt; Status::Bad.code() == 2);
    assert!(rt; Status::ReadFault.code() == 3);
    assert!(rt; Status::OutOfMemory.code() == 4);
    assert!(rt; Status::WriteFault.code() == 5);
}

fn is_shared<T: Send + Sync>(_: &T) {}

#[test]
fn words_can_be_shared(rt: HostRuntime) -> Result<(), Fail> {
    is_shared(&words_of(rt.alloc(), "run")?);
    Ok(())
}
