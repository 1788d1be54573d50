//! Files that end inside a sequence, and the first byte with which a file is refused.
ghost use Rattle.std.specs.Prelude.{◌≡◌, ◌+◌, ◌^◌, ◌≤◌, length};
ghost use Rattle.nfg_decode.specs.Stream.{fed_count};

use crate::pieces_fed::{feed_piece, finish_pieces};
use nfg_decode::{ByteStream, Encoding};
use nfg_text::CodeList;
use std::alloc::Global;
use std::process::Abort;
use std::test::Fail;

/// A text, and for each number of its first bytes the place at which they are refused, if they are.
#[derive(Clone, Copy)]
struct Prefixes {
    encoding: Encoding,
    bytes: &'static [u8],
    ends: &'static [Option<u64>],
}

static PREFIXES: [Prefixes; 4] = [
    Prefixes {
        encoding: Encoding::Utf8,
        bytes: b"\x61\xF0\x9F\x98\x80",
        ends: &[None, None, Some(1), Some(1), Some(1), None],
    },
    Prefixes {
        encoding: Encoding::Utf16Be,
        bytes: b"\xD8\x00\xDC\x00",
        ends: &[None, Some(0), Some(0), Some(0), None],
    },
    Prefixes {
        encoding: Encoding::Utf16,
        bytes: b"\xFF\xFE\x00\xD8\x00\xDC",
        ends: &[None, Some(0), None, Some(2), Some(2), Some(2), None],
    },
    Prefixes {
        encoding: Encoding::Latin1,
        bytes: b"\x80\xFF",
        ends: &[None, None, None],
    },
];

/// Feeds the bytes one by one, of which none is refused.
fn feed_each(
    rt: &impl Abort,
    alloc: Global,
    stream: &mut ByteStream,
    bytes: &[u8],
    into: &mut CodeList,
) -> Result<(), Fail>
    requires { fed_count stream.old + length bytes.now ≤ 2 ^ 32 }
    ensures { fed_count stream.new ≤ fed_count stream.old + length bytes.now }
{
    'bytes: for k in 0..bytes.len() {
        let refused = feed_piece(stream, alloc, &bytes[k..k + 1], into)?;
        assert_eq!(rt; refused, None, "byte {k}");
    }
    Ok(())
}

/// The bytes are refused at their end alone, at this place, whether they come whole or one by one.
fn check_end(
    rt: &impl Abort,
    alloc: Global,
    encoding: Encoding,
    bytes: &[u8],
    end: Option<u64>,
) -> Result<(), Fail> {
    assert!(rt; bytes.len() <= 64);
    let mut codes = CodeList::new(alloc);
    let mut whole = ByteStream::new(encoding);
    let refused = feed_piece(&mut whole, alloc, bytes, &mut codes)?;
    assert_eq!(rt; refused, None, "{bytes:?}");
    assert_eq!(rt; finish_pieces(&mut whole)?, end, "{bytes:?}");
    let mut stream = ByteStream::new(encoding);
    feed_each(rt, alloc, &mut stream, bytes, &mut codes)?;
    assert_eq!(rt; finish_pieces(&mut stream)?, end, "{bytes:?}");
    Ok(())
}

/// The same of the first bytes of a text, whatever their number.
fn check_prefixes(rt: &impl Abort, alloc: Global, text: Prefixes) -> Result<(), Fail> {
    assert_eq!(rt; text.ends.len(), text.bytes.len() + 1);
    'lengths: for (len, end) in text.ends.iter().enumerate() {
        assert!(rt; len <= text.bytes.len());
        check_end(rt, alloc, text.encoding, &text.bytes[..len], *end)?;
    }
    Ok(())
}

#[test]
fn a_file_that_ends_inside_a_sequence_is_refused_at_its_end(rt: HostRuntime) -> Result<(), Fail> {
    for text in PREFIXES {
        check_prefixes(&rt, rt.alloc(), text)?;
    }
    Ok(())
}

/// Bytes of which the last is the first that is refused, the place that is told, and the code points before it.
#[derive(Clone, Copy)]
struct Refused {
    encoding: Encoding,
    before: &'static [u8],
    byte: u8,
    at: u64,
    codes: &'static [u32],
}

static REFUSED: [Refused; 8] = [
    Refused {
        encoding: Encoding::Utf8,
        before: b"",
        byte: 0xC0,
        at: 0,
        codes: &[],
    },
    Refused {
        encoding: Encoding::Utf8,
        before: b"\xE0",
        byte: 0x9F,
        at: 0,
        codes: &[],
    },
    Refused {
        encoding: Encoding::Utf8,
        before: b"\xF4",
        byte: 0x90,
        at: 0,
        codes: &[],
    },
    Refused {
        encoding: Encoding::Utf8,
        before: b"\x61",
        byte: 0x80,
        at: 1,
        codes: &[0x61],
    },
    Refused {
        encoding: Encoding::Utf16Be,
        before: b"",
        byte: 0xDC,
        at: 0,
        codes: &[],
    },
    Refused {
        encoding: Encoding::Utf16,
        before: b"",
        byte: 0xDC,
        at: 0,
        codes: &[],
    },
    Refused {
        encoding: Encoding::Utf16Be,
        before: b"\x00\x41\xD8\x3D",
        byte: 0x00,
        at: 2,
        codes: &[0x41],
    },
    Refused {
        encoding: Encoding::Utf16Le,
        before: b"\x41\x00\x3D\xD8\x41",
        byte: 0x00,
        at: 2,
        codes: &[0x41],
    },
];

/// A byte is refused where the row says, and so is the end behind it.
fn check_byte(
    rt: &impl Abort,
    alloc: Global,
    stream: &mut ByteStream,
    byte: u8,
    codes: &mut CodeList,
    row: Refused,
) -> Result<(), Fail>
    requires { fed_count stream.old ≤ 100 }
    ensures { fed_count stream.new ≤ fed_count stream.old + 1 }
{
    let refused = feed_piece(stream, alloc, &[byte], codes)?;
    assert_eq!(rt; refused, Some(row.at), "{:?}", row.before);
    assert_eq!(rt; finish_pieces(stream)?, Some(row.at), "{:?}", row.before);
    assert_eq!(rt; codes.as_slice(), row.codes, "{:?}", row.before);
    Ok(())
}

/// The row's last byte is the first that is refused, and what comes behind it is refused alike.
fn check_refused(rt: &impl Abort, alloc: Global, row: Refused) -> Result<(), Fail> {
    assert!(rt; row.before.len() <= 64);
    let mut codes = CodeList::new(alloc);
    let mut stream = ByteStream::new(row.encoding);
    feed_each(rt, alloc, &mut stream, row.before, &mut codes)?;
    check_byte(rt, alloc, &mut stream, row.byte, &mut codes, row)?;
    check_byte(rt, alloc, &mut stream, 0x61, &mut codes, row)
}

#[test]
fn a_file_is_refused_with_its_first_malformed_byte(rt: HostRuntime) -> Result<(), Fail> {
    for row in REFUSED {
        check_refused(&rt, rt.alloc(), row)?;
    }
    Ok(())
}
