ghost use Rattle.std.specs.Prelude.{◌≡◌, ◌+◌, ◌^◌, ◌≤◌, length};
ghost use Rattle.nfg_decode.specs.Stream.{fed_count};

use super::*;
use nfg_text::CodeList;
use std::alloc::{AllocError, Global};
use std::process::Abort;
use std::test::Fail;

/// Feeds one piece: the place at which it was refused, if it was.
fn place(
    stream: &mut ByteStream,
    alloc: Global,
    piece: &[u8],
    into: &mut CodeList,
) -> Result<Option<u64>, Fail>
    requires { fed_count stream.old + length piece.now ≤ 2 ^ 32 }
    ensures { fed_count stream.new ≤ fed_count stream.old + length piece.now }
{
    match stream.feed(alloc, piece, into) {
        Ok(()) => Ok(None),
        Err(DecodeError::Malformed { at }) => Ok(Some(at)),
        Err(DecodeError::OutOfMemory) => Err("out of memory")?,
    }
}

/// The same of the end of the bytes.
fn end(stream: &mut ByteStream) -> Result<Option<u64>, Fail>
    ensures { fed_count stream.new ≡ fed_count stream.old }
{
    match stream.finish() {
        Ok(()) => Ok(None),
        Err(DecodeError::Malformed { at }) => Ok(Some(at)),
        Err(DecodeError::OutOfMemory) => Err("out of memory")?,
    }
}

/// An encoding, bytes, the codes that come of them, and the refusals: of the last piece, and of the
/// end.
type Row = (
    Encoding,
    &'static [u8],
    &'static [u32],
    Option<u64>,
    Option<u64>,
);

static UTF8: [Row; 9] = [
    (Encoding::Utf8, &[], &[], None, None),
    (Encoding::Utf8, &[0x61, 0xE2, 0x82], &[0x61], None, Some(1)),
    (Encoding::Utf8, &[0xED, 0xA0, 0x80], &[], Some(0), Some(0)),
    (Encoding::Utf8, &[0xE2, 0x82, 0xAC], &[0x20AC], None, None),
    (
        Encoding::Utf8,
        &[0x41, 0xF0, 0x9F, 0x98, 0x80, 0x42],
        &[0x41, 0x1F600, 0x42],
        None,
        None,
    ),
    (
        Encoding::Utf8,
        &[0x41, 0xC3, 0xA9, 0xC3],
        &[0x41, 0xE9],
        None,
        Some(3),
    ),
    (
        Encoding::Utf8,
        &[0xEF, 0xBB, 0xBF, 0x41],
        &[0xFEFF, 0x41],
        None,
        None,
    ),
    (
        Encoding::Utf8,
        &[0xC3, 0xA9, 0xF4, 0x90, 0x41],
        &[0xE9],
        Some(2),
        Some(2),
    ),
    (
        Encoding::Utf8,
        &[0x41, 0x80, 0x41],
        &[0x41],
        Some(1),
        Some(1),
    ),
];

static UTF16: [Row; 8] = [
    (
        Encoding::Utf16Le,
        &[0x3D, 0xD8, 0x00, 0xDE],
        &[0x1F600],
        None,
        None,
    ),
    (Encoding::Utf16Le, &[0x3D, 0xD8, 0x00], &[], None, Some(0)),
    (
        Encoding::Utf16Le,
        &[0x41, 0x00, 0x00, 0xDC, 0x41],
        &[0x41],
        Some(2),
        Some(2),
    ),
    (
        Encoding::Utf16Le,
        &[0x3D, 0xD8, 0x41, 0x00, 0x41],
        &[],
        Some(0),
        Some(0),
    ),
    (
        Encoding::Utf16Be,
        &[0xD8, 0x3D, 0xDE, 0x00, 0x00, 0x41],
        &[0x1F600, 0x41],
        None,
        None,
    ),
    (
        Encoding::Utf16Be,
        &[0x00, 0x41, 0xDC],
        &[0x41],
        Some(2),
        Some(2),
    ),
    (
        Encoding::Utf16Be,
        &[0x00, 0x41, 0xD8, 0x3D, 0x00],
        &[0x41],
        Some(2),
        Some(2),
    ),
    (
        Encoding::Utf16Be,
        &[0xFE, 0xFF, 0x00, 0x41, 0x00],
        &[0xFEFF, 0x41],
        None,
        Some(4),
    ),
];

static MARKS: [Row; 10] = [
    (Encoding::Utf16, &[], &[], None, None),
    (
        Encoding::Utf16,
        &[0xFF, 0xFE, 0x41, 0x00],
        &[0x41],
        None,
        None,
    ),
    (
        Encoding::Utf16,
        &[0xFE, 0xFF, 0x00, 0x41],
        &[0x41],
        None,
        None,
    ),
    (Encoding::Utf16, &[0x00, 0x41], &[0x41], None, None),
    (Encoding::Utf16, &[0x41], &[], None, Some(0)),
    (Encoding::Utf16, &[0xFE], &[], None, Some(0)),
    (Encoding::Utf16, &[0xDC], &[], Some(0), Some(0)),
    (
        Encoding::Utf16,
        &[0xFE, 0xFE, 0x00],
        &[0xFEFE],
        None,
        Some(2),
    ),
    (
        Encoding::Utf16,
        &[0xFF, 0xFE, 0x00, 0xDC, 0x41],
        &[],
        Some(2),
        Some(2),
    ),
    (
        Encoding::Utf16,
        &[0xFF, 0xFE, 0xFF, 0xFE],
        &[0xFEFF],
        None,
        None,
    ),
];

static LATIN1: [Row; 2] = [
    (
        Encoding::Latin1,
        &[0x0D, 0x0A, 0xE9],
        &[0x0D, 0x0A, 0xE9],
        None,
        None,
    ),
    (
        Encoding::Latin1,
        &[0x00, 0x80, 0xFF],
        &[0x00, 0x80, 0xFF],
        None,
        None,
    ),
];

/// One way to cut the bytes of a row in two.
fn reads_cut(rt: &impl Abort, alloc: Global, row: &Row, cut: usize) -> Result<(), Fail> {
    let bytes = row.1;
    assert!(rt; cut <= bytes.len());
    assert!(rt; bytes.len() <= 64);
    let mut into = CodeList::new(alloc);
    let mut stream = ByteStream::new(row.0);
    place(&mut stream, alloc, &bytes[..cut], &mut into)?;
    assert_eq!(rt; place(&mut stream, alloc, &bytes[cut..], &mut into)?, row.3);
    assert_eq!(rt; end(&mut stream)?, row.4);
    assert_eq!(rt; into.as_slice(), row.2);
    Ok(())
}

/// However the bytes of each row are cut in two, the same comes of them.
fn reads_rows(rt: &impl Abort, alloc: Global, rows: &[Row]) -> Result<(), Fail> {
    for row in rows {
        for cut in 0..=row.1.len() {
            reads_cut(rt, alloc, row, cut)?;
        }
    }
    Ok(())
}

#[test]
fn utf8_is_read_up_to_the_fault(rt: HostRuntime) -> Result<(), Fail> {
    reads_rows(&rt, rt.alloc(), &UTF8)
}

#[test]
fn utf16_is_read_in_both_orders(rt: HostRuntime) -> Result<(), Fail> {
    reads_rows(&rt, rt.alloc(), &UTF16)
}

#[test]
fn a_mark_gives_the_order(rt: HostRuntime) -> Result<(), Fail> {
    reads_rows(&rt, rt.alloc(), &MARKS)
}

#[test]
fn latin1_refuses_nothing(rt: HostRuntime) -> Result<(), Fail> {
    reads_rows(&rt, rt.alloc(), &LATIN1)
}

#[test]
fn a_sequence_is_read_byte_by_byte(rt: HostRuntime) -> Result<(), Fail> {
    let alloc = rt.alloc();
    let mut into = CodeList::new(alloc);
    let mut stream = ByteStream::new(Encoding::Utf8);
    assert_eq!(rt; place(&mut stream, alloc, &[0xE2], &mut into)?, None);
    assert_eq!(rt; end(&mut stream)?, Some(0));
    assert_eq!(rt; place(&mut stream, alloc, &[0x82], &mut into)?, None);
    assert_eq!(rt; place(&mut stream, alloc, &[0xAC], &mut into)?, None);
    assert_eq!(rt; end(&mut stream)?, None);
    assert_eq!(rt; into.as_slice(), [0x20AC].as_slice());
    Ok(())
}

/// Forty characters of three bytes each.
static RUN: &str = "渡船每天早上七点离开码头。没有人看见灯塔的灯是什么时候熄灭的，大家都说：“是风吹";

/// So many more that what stands behind them is read by fours.
static FRONT: &str = "渡船每天早上七点离开码头。没有人看见灯塔的灯是什么时候熄灭的，大家都说：“是风吹的。”然后";

/// So many characters of the run, behind a front, with another one before one of them.
fn broken_run(
    alloc: Global,
    front: &str,
    len: usize,
    at: usize,
    other: char,
) -> Result<String, AllocError> {
    let mut text = String::new(alloc);
    text.push_str(front)?;
    for (k, c) in RUN.chars().take(len).enumerate() {
        if k == at {
            text.push(other)?;
        }
        text.push(c)?;
    }
    Ok(text)
}

/// The stream gives the characters of a text.
fn reads_text(rt: &impl Abort, alloc: Global, text: &str) -> Result<(), Fail> {
    let bytes = text.as_bytes();
    assert!(rt; bytes.len() <= 1024);
    let mut into = CodeList::new(alloc);
    let mut stream = ByteStream::new(Encoding::Utf8);
    assert_eq!(rt; place(&mut stream, alloc, bytes, &mut into)?, None);
    assert_eq!(rt; end(&mut stream)?, None);
    let codes = into.as_slice();
    assert_eq!(rt; codes.len(), text.chars().count());
    for (code, c) in codes.iter().zip(text.chars()) {
        assert_eq!(rt; *code, u32::from(c));
    }
    Ok(())
}

/// Runs of each length up to forty, whole and broken at each place, behind a front.
fn reads_runs(rt: &impl Abort, alloc: Global, front: &str) -> Result<(), Fail> {
    for len in 1..=40 {
        for at in 0..=len {
            for other in ['\n', 'é', '😀'] {
                let text = broken_run(alloc, front, len, at, other)?;
                reads_text(rt, alloc, text.as_str())?;
            }
        }
    }
    Ok(())
}

#[test]
fn runs_of_three_bytes_are_read_however_they_are_broken(rt: HostRuntime) -> Result<(), Fail> {
    let alloc = rt.alloc();
    reads_runs(&rt, alloc, "")?;
    reads_runs(&rt, alloc, FRONT)
}
