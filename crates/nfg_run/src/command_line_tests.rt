//! Rows of the words of the command line.
ghost use Rattle.std.specs.Prelude.{◌≤◌};

use crate::Status;
use crate::tests::{Found, Outside, SCRIPT, SOUND, outcome, over};
use std::alloc::{AllocError, Global};
use std::marker::Sync;
use std::process::Abort;
use std::test::Fail;
use std::thread::Threads;

/// A script of 16 graphemes of two code points each, and then one more.
const SIXTEEN_AND_ONE: &[u8] =
    b"text a 71 300 20 71 301 20 71 302 20 71 303 20 71 304 20 71 306 20 71 307 20 71 308 20 \
71 309 20 71 30A 20 71 30B 20 71 30C 20 71 30D 20 71 30E 20 71 30F 20 71 310\nlen a\ntext b 71 311\n";

/// The status of a run of these words over a script that prints `1`.
fn status_of<R: Threads + Sync>(rt: &R, alloc: Global, line: &str) -> Result<Status, AllocError> {
    let found = Found {
        line,
        ..over(b"text a 61\nlen a\n", b"")
    };
    let (status, _) = outcome(rt, alloc, found, SOUND)?;
    Ok(status)
}

#[test]
fn lawful_words_are_done(rt: HostRuntime) -> Result<(), Fail> {
    for line in [
        "run s",
        "run -- s",
        "run s --",
        "run --workers 1 s",
        "run s --workers 64",
        "run --workers=0000000000000000000000000001 s",
        "run --table 16 s",
        "run --table=1048576 --workers=2 s",
        "run --table 262144 -- s",
        "gen 0 1",
        "gen 2147483647 1",
        "gen --table 32 -- 1 2",
        "gen 00 --workers 3 01",
    ] {
        assert!(rt; status_of(&rt, rt.alloc(), line)? == Status::Done);
    }
    Ok(())
}

#[test]
fn other_words_give_the_usage(rt: HostRuntime) -> Result<(), Fail> {
    for line in [
        "",
        "s",
        "Run s",
        // the count of plain words
        "run",
        "run s s",
        "run --",
        "run -- s --",
        "gen 1",
        "gen 1 2 3",
        // other words that begin with `-`
        "run -h",
        "run --help s",
        "run --=x s",
        "run --worker 1 s",
        "run --Workers 1 s",
        "run --work=1 s",
        "run -w s",
        "run -é s",
        "gen -1 1",
        // a value is missing, or an option stands twice
        "run s --workers",
        "run --workers -- s",
        "run --workers - s",
        "run --workers -5 s",
        "run --workers --table 16 s",
        "run --table= s",
        "run --table==16 s",
        "run --workers 1 --workers 1 s",
        "run --table=16 s --table 16",
        // numbers
        "run --workers 0 s",
        "run --workers 65 s",
        "run --workers +1 s",
        "run --workers 18446744073709551617 s",
        "run --table 8 s",
        "run --table 24 s",
        "run --table 2097152 s",
        "gen 2147483648 1",
        "gen 1 0",
        "gen 1 1048577",
        "gen 0x1 1",
        "gen -- -1 1",
    ] {
        let found = Found {
            line,
            ..over(SCRIPT, b"x")
        };
        let (status, taken) = outcome(&rt, rt.alloc(), found, SOUND)?;
        assert!(rt; status == Status::Bad);
        assert!(rt;
            taken.as_slice()
                == b"usage: nfg run [--workers W] [--table N] SCRIPT
       nfg gen [--workers W] [--table N] SEED COUNT
"
                    .as_slice()
        );
    }
    Ok(())
}

#[test]
fn a_word_behind_the_mark_is_a_path(rt: HostRuntime) -> Result<(), Fail> {
    for line in ["run -", "run -- --workers", "run -- --", "run -- -h"] {
        assert!(rt; status_of(&rt, rt.alloc(), line)? == Status::ReadFault);
    }
    Ok(())
}

#[test]
fn the_table_has_just_so_many_places(rt: HostRuntime) -> Result<(), Fail> {
    for (line, wanted_status, wanted) in [
        (
            "run --table 16 s",
            Status::Refused,
            "31\nline 3: table full\n",
        ),
        ("run --table=32 s", Status::Done, "31\n"),
    ] {
        let found = Found {
            line,
            ..over(SIXTEEN_AND_ONE, b"")
        };
        let (status, taken) = outcome(&rt, rt.alloc(), found, SOUND)?;
        assert!(rt; status == wanted_status);
        assert!(rt; taken.as_slice() == wanted.as_bytes());
    }
    Ok(())
}

/// What 300,000 spellings of seed 1 give.
const LONG: &str =
    "true\n351077\n702154\nstrands 2 351077x1/32 351077x1/32\ntrue\n25\n702148\nless\n";

#[test]
fn what_is_generated_is_evaluated(rt: HostRuntime) -> Result<(), Fail> {
    for (line, wanted) in [
        (
            "gen 1 3",
            "true\n3\n6\nstrands 2 3x1/32 3x1/32\ntrue\nnone\nnone\nless\n",
        ),
        ("gen 1 300000", LONG),
        ("gen 1 300000 --workers 1", LONG),
        ("gen 1 300000 --workers 8", LONG),
        ("gen 1 300000 --workers 64", LONG),
    ] {
        let found = Found {
            line,
            ..over(SCRIPT, b"x")
        };
        let outside = Outside {
            failing_call: 0,
            ..SOUND
        };
        let (status, taken) = outcome(&rt, rt.alloc(), found, outside)?;
        assert!(rt; status == Status::Done);
        assert!(rt; taken.as_slice() == wanted.as_bytes());
    }
    Ok(())
}
