//! Worked rows, and that the calls succeed where there is memory.

use crate::{Command, Reason, Script, ScriptError, parse};
use nfg_decode::Encoding;
use std::alloc::Global;
use std::marker::{Send, Sync};
use std::process::Abort;
use std::test::Fail;

fn line(line: u32, reason: Reason) -> ScriptError {
    ScriptError::Line { line, reason }
}

/// The refusal of a script.
fn refusal(alloc: Global, bytes: &[u8]) -> Result<Option<ScriptError>, Fail> {
    match parse(alloc, bytes) {
        Ok(_) => Ok(None),
        Err(ScriptError::OutOfMemory) => Err("out of memory")?,
        Err(error) => Ok(Some(error)),
    }
}

#[test]
fn the_first_refused_line_is_told(rt: HostRuntime) -> Result<(), Fail> {
    let alloc = rt.alloc();
    let rows: [(&[u8], ScriptError); 14] = [
        (b"len x", line(1, Reason::UnknownName)),
        (b"text a D800", line(1, Reason::BadCodePoint)),
        (b"frob", line(1, Reason::BadCommand)),
        (b"text a 61\nsub b a -1 0", line(2, Reason::BadNumber)),
        (b"text a 61\ntext a 62\n", line(2, Reason::NameTaken)),
        (b"# one\r\n\r\n\tlen\r\n", line(3, Reason::WordCount)),
        (b"load a-b utf8 f", line(1, Reason::BadName)),
        (b"load a utf9 f", line(1, Reason::BadEncoding)),
        (b"text a\nsub b a +1 0", line(2, Reason::BadNumber)),
        (
            b"text a\nsub b a 0 18446744073709551616",
            line(2, Reason::BadNumber),
        ),
        (b"text a 110000", line(1, Reason::BadCodePoint)),
        (b"text a 0000061", line(1, Reason::BadCodePoint)),
        (b"put a utf9", line(1, Reason::UnknownName)),
        (b"a\xFF", ScriptError::Malformed { at: 1 }),
    ];
    for (bytes, error) in rows {
        assert_eq!(rt; refusal(alloc, bytes)?, Some(error));
    }
    Ok(())
}

#[test]
fn each_reason_has_its_least_script(rt: HostRuntime) -> Result<(), Fail> {
    let alloc = rt.alloc();
    let rows: [(&[u8], ScriptError); 10] = [
        (b"x", line(1, Reason::BadCommand)),
        (b"eq", line(1, Reason::WordCount)),
        (b"len -", line(1, Reason::BadName)),
        (b"text a\ntext a", line(2, Reason::NameTaken)),
        (b"len a", line(1, Reason::UnknownName)),
        (b"text a\nrep b a x", line(2, Reason::BadNumber)),
        (b"text a\nfind a a x", line(2, Reason::BadNumber)),
        (b"load a x f", line(1, Reason::BadEncoding)),
        (b"text a x", line(1, Reason::BadCodePoint)),
        (b"\xFF", ScriptError::Malformed { at: 0 }),
    ];
    for (bytes, error) in rows {
        assert_eq!(rt; refusal(alloc, bytes)?, Some(error));
    }
    Ok(())
}

/// Lines with two faults, of which the first name that is defined is `a`.
#[test]
fn the_first_reason_of_a_line_is_told(rt: HostRuntime) -> Result<(), Fail> {
    let alloc = rt.alloc();
    let rows: [(&[u8], Reason); 20] = [
        (b"frob", Reason::BadCommand),
        (b"Cat - x +", Reason::BadCommand),
        (b"cat -", Reason::WordCount),
        (b"rep a a", Reason::WordCount),
        (b"eq x", Reason::WordCount),
        (b"rfind a a + +", Reason::WordCount),
        (b"load b x f f", Reason::WordCount),
        (b"cat a - a", Reason::NameTaken),
        (b"cat - x x", Reason::BadName),
        (b"cat b x -", Reason::UnknownName),
        (b"rep - a x", Reason::BadName),
        (b"load - x f", Reason::BadName),
        (b"text - x", Reason::BadName),
        (b"cat a x x", Reason::NameTaken),
        (b"rep a a x", Reason::NameTaken),
        (b"load a x f", Reason::NameTaken),
        (b"text a x", Reason::NameTaken),
        (b"find a x +", Reason::UnknownName),
        (b"find a a +", Reason::BadNumber),
        (b"put x y", Reason::UnknownName),
    ];
    for (text, reason) in rows {
        let mut bytes = Vec::new(alloc);
        bytes.extend_from_slice(b"text a\n")?;
        bytes.extend_from_slice(text)?;
        assert_eq!(rt; refusal(alloc, bytes.as_slice())?, Some(line(2, reason)));
    }
    Ok(())
}

/// A line for each reason, after one that defines `a`.
static FAULTS: [(&[u8], Reason); 8] = [
    (b"x", Reason::BadCommand),
    (b"len", Reason::WordCount),
    (b"len -", Reason::BadName),
    (b"text a", Reason::NameTaken),
    (b"len b", Reason::UnknownName),
    (b"rep b a x", Reason::BadNumber),
    (b"put a x", Reason::BadEncoding),
    (b"text b x", Reason::BadCodePoint),
];

#[test]
fn of_two_refused_lines_the_first_is_told(rt: HostRuntime) -> Result<(), Fail> {
    let alloc = rt.alloc();
    for (first, reason) in FAULTS {
        for (second, _) in FAULTS {
            let mut bytes = Vec::new(alloc);
            bytes.extend_from_slice(b"text a\n")?;
            bytes.extend_from_slice(first)?;
            bytes.push(b'\n')?;
            bytes.extend_from_slice(second)?;
            assert_eq!(rt; refusal(alloc, bytes.as_slice())?, Some(line(2, reason)));
        }
    }
    Ok(())
}

/// The path of a load.
fn path_of(script: &Script, k: usize) -> Option<&str> {
    if k >= script.len() {
        return None;
    }
    match script.command(k) {
        Command::Load { .. } => Some(script.path(k)),
        _ => None,
    }
}

/// The code points of a text.
fn codes_of(script: &Script, k: usize) -> Option<&[u32]> {
    if k >= script.len() {
        return None;
    }
    match script.command(k) {
        Command::Text { .. } => Some(script.codes(k)),
        _ => None,
    }
}

static EVERY_COMMAND: &[u8] = b"# a comment\r\nload a utf16 ../f.txt\n\ttext b 71 1f468  \n\n\
sub c b 0 18446744073709551615\nlen c\nshow a\nshape b\nput c latin1\nload d utf16be g";

#[test]
fn every_command_is_read(rt: HostRuntime) -> Result<(), Fail> {
    let script = parse(rt.alloc(), EVERY_COMMAND)?;
    let rows = [
        (
            2,
            Command::Load {
                name: 0,
                enc: Encoding::Utf16,
            },
        ),
        (3, Command::Text { name: 1 }),
        (
            5,
            Command::Sub {
                name: 2,
                a: 1,
                start: 0,
                count: u64::MAX,
            },
        ),
        (6, Command::Len { a: 2 }),
        (7, Command::Show { a: 0 }),
        (8, Command::Shape { a: 1 }),
        (
            9,
            Command::Put {
                a: 2,
                enc: Encoding::Latin1,
            },
        ),
        (
            10,
            Command::Load {
                name: 3,
                enc: Encoding::Utf16Be,
            },
        ),
    ];
    assert!(rt; script.len() == 8);
    for k in 0..8 {
        let (number, command) = rows[k];
        assert_eq!(rt; script.line(k), number);
        assert_eq!(rt; script.command(k), command);
    }
    assert_eq!(rt; script.loads(), 2);
    assert_eq!(rt; path_of(&script, 0), Some("../f.txt"));
    assert_eq!(rt; path_of(&script, 7), Some("g"));
    assert_eq!(rt; codes_of(&script, 1), Some([0x71, 0x1F468].as_slice()));
    Ok(())
}

#[test]
fn limits_are_reached(rt: HostRuntime) -> Result<(), Fail> {
    let alloc = rt.alloc();
    assert_eq!(rt; refusal(alloc, b"")?, None);
    let mut bytes = Vec::new(alloc);
    bytes.resize(10_000, b'\n')?;
    assert_eq!(rt; refusal(alloc, bytes.as_slice())?, None);
    bytes.push(b'#')?;
    assert_eq!(rt;
        refusal(alloc, bytes.as_slice())?,
        Some(ScriptError::TooLong)
    );
    bytes.clear();
    bytes.resize(1 << 20, b'#')?;
    assert_eq!(rt; refusal(alloc, bytes.as_slice())?, None);
    bytes.push(b'#')?;
    assert_eq!(rt;
        refusal(alloc, bytes.as_slice())?,
        Some(ScriptError::TooLong)
    );
    Ok(())
}

fn is_send<T: Send>(_: &T) {}

fn is_sync<T: Sync>(_: &T) {}

#[test]
fn the_commands_of_two_strings_are_read(rt: HostRuntime) -> Result<(), Fail> {
    let bytes = b"text a\ncat b a a\nrep c b 3\nfind c a 1\nrfind a c 2\neq b c\ncmp c b";
    let script = parse(rt.alloc(), bytes)?;
    let rows = [
        Command::Text { name: 0 },
        Command::Cat {
            name: 1,
            a: 0,
            b: 0,
        },
        Command::Rep {
            name: 2,
            a: 1,
            count: 3,
        },
        Command::Find { a: 2, b: 0, at: 1 },
        Command::Rfind { a: 0, b: 2, at: 2 },
        Command::Eq { a: 1, b: 2 },
        Command::Cmp { a: 2, b: 1 },
    ];
    assert!(rt; script.len() == 7);
    for k in 0..7 {
        assert_eq!(rt; script.command(k), rows[k]);
    }
    Ok(())
}

#[test]
fn scripts_and_errors_go_between_threads(rt: HostRuntime) -> Result<(), Fail> {
    let script = parse(rt.alloc(), b"text a")?;
    is_send(&script);
    is_sync(&script);
    is_send(&ScriptError::TooLong);
    is_sync(&ScriptError::TooLong);
    Ok(())
}
