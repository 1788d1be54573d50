//! Scripts that load large files, which several workers load in parts.

use crate::Status;
use crate::tests::{Found, SOUND, outcome};
use nfg_text::ByteList;
use std::alloc::Global;
use std::marker::Sync;
use std::process::Abort;
use std::test::Fail;
use std::thread::Threads;

/// E9 in two code points, CR LF, a flag and a letter: 14 bytes of four graphemes.
const PIECE: &[u8] = b"e\xcc\x81\r\n\xf0\x9f\x87\xa9\xf0\x9f\x87\xb0q";

/// What a run finds for this command line.
fn found<'a>(line: &'a str, script: &'a str, file: &'a [u8]) -> Found<'a> {
    Found {
        line,
        script: script.as_bytes(),
        f: file,
        g: b"e\xcc\x81\r\n\xf0\x9f\x87\xa9\xf0\x9f\x87\xb0q",
    }
}

/// The run says this of the file, with 1, 2, 3, 8 and 64 workers.
fn check_file<'a, R: Threads + Sync + Abort>(
    rt: &R,
    alloc: Global,
    script: &'a str,
    file: &'a [u8],
    status: Status,
    wanted: &str,
) -> Result<(), Fail> {
    for line in [
        "run --workers 1 --table 16 s",
        "run --workers 2 --table 16 s",
        "run --workers 3 --table 16 s",
        "run --workers 8 --table 16 s",
        "run --workers 64 --table 16 s",
    ] {
        let (given, taken) = outcome(rt, alloc, found(line, script, file), SOUND)?;
        assert!(rt; given == status);
        assert!(rt; taken.as_slice() == wanted.as_bytes());
    }
    Ok(())
}

#[test]
fn large_files_are_loaded_alike_by_all_workers(rt: HostRuntime) -> Result<(), Fail> {
    let mut file = ByteList::new(rt.alloc());
    for _piece in 0..80_000 {
        file.append(PIECE)?;
    }
    let script =
        "load a utf8 f\nload b utf8 g\nlen a\nshape a\nsub c a 159998 5\nshow c\nrfind a b 9999999\n";
    let wanted = "320000\nstrands 1 320000x1/32\n1F1E9+1F1F0 71 E9 D+A 1F1E9+1F1F0\n319996\n";
    check_file(
        &rt,
        rt.alloc(),
        script,
        file.as_slice(),
        Status::Done,
        wanted,
    )?;
    // A lone last byte, which is malformed: its place counts from the front of the file.
    file.append(b"\xe2")?;
    check_file(
        &rt,
        rt.alloc(),
        script,
        file.as_slice(),
        Status::Refused,
        "line 1: malformed at byte 1120000\n",
    )
}
