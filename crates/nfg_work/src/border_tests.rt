//! Worked rows of where a file's text begins and where it is cut.
use crate::body::body_of;
use crate::bounds::bounds_of;
use nfg_decode::Encoding;
use std::test::Fail;

/// Bytes that begin behind `2` bytes of a file or at its front, cuts of the file, and the bounds.
type Row = (
    Encoding,
    &'static [u8],
    usize,
    &'static [usize],
    &'static [usize],
);

static ROWS: [Row; 8] = [
    // U+0061, U+00E9, U+20AC, U+1F600, U+0062
    (
        Encoding::Utf8,
        b"a\xC3\xA9\xE2\x82\xAC\xF0\x9F\x98\x80b",
        0,
        &[0, 1, 2, 3, 4, 5, 6, 7, 8, 9, 10, 11],
        &[0, 0, 1, 3, 3, 6, 6, 6, 10, 10, 10, 10, 11, 11],
    ),
    // no sequence has so many bytes
    (
        Encoding::Utf8,
        b"\x80\x80\x80\x80a",
        0,
        &[0, 2],
        &[0, 3, 4, 5],
    ),
    // U+0061, U+1F600, U+0062, behind a mark
    (
        Encoding::Utf16Le,
        b"a\x00\x3D\xD8\x00\xDEb\x00",
        2,
        &[0, 1, 2, 3, 4, 5, 6, 7, 8, 9, 10],
        &[0, 0, 0, 0, 2, 2, 6, 6, 6, 6, 8, 8, 8],
    ),
    (
        Encoding::Utf16Be,
        b"\x00a\xD8\x3D\xDE\x00\x00b",
        0,
        &[0, 1, 2, 3, 4, 5, 6, 7, 8],
        &[0, 0, 2, 2, 6, 6, 6, 6, 8, 8, 8],
    ),
    // half a unit stands at the end
    (Encoding::Utf16Le, b"a\x00b", 0, &[2, 3], &[0, 2, 3, 3]),
    (Encoding::Latin1, b"\xA9\x80\xBF", 0, &[1, 2], &[0, 1, 2, 3]),
    // cuts that go back, or past the end
    (Encoding::Utf8, b"abc", 0, &[2, 1, 9], &[0, 2, 2, 3, 3]),
    (Encoding::Utf8, b"", 0, &[], &[0, 0]),
];

#[test]
fn no_sequence_is_cut(rt: HostRuntime) -> Result<(), Fail> {
    let alloc = rt.alloc();
    for (encoding, bytes, start, cuts, wanted) in ROWS {
        let bounds = bounds_of(alloc, encoding, bytes, start, cuts)?;
        assert!(rt; bounds.as_slice() == wanted);
    }
    Ok(())
}

/// Bytes of a file, the encoding behind their mark, and where that begins.
type MarkedRow = (Encoding, &'static [u8], Encoding, usize);

static MARKED_ROWS: [MarkedRow; 7] = [
    (Encoding::Utf16, b"\xFE\xFF\x00a", Encoding::Utf16Be, 2),
    (Encoding::Utf16, b"\xFF\xFEa\x00", Encoding::Utf16Le, 2),
    (Encoding::Utf16, b"\x00a", Encoding::Utf16Be, 0),
    (Encoding::Utf16, b"\xFE", Encoding::Utf16Be, 0),
    (Encoding::Utf16Le, b"\xFF\xFEa\x00", Encoding::Utf16Le, 0),
    (Encoding::Utf8, b"\xEF\xBB\xBFa", Encoding::Utf8, 0),
    (Encoding::Latin1, b"\xFE\xFF", Encoding::Latin1, 0),
];

#[test]
fn a_mark_is_no_part_of_the_body(rt: HostRuntime) -> Result<(), Fail> {
    for (encoding, bytes, behind, start) in MARKED_ROWS {
        let body = body_of(encoding, bytes);
        assert!(rt; body.encoding == behind);
        assert!(rt; body.start == start);
    }
    Ok(())
}
