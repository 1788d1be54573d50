//! All short byte strings over the bytes that matter, decoded as a plain decoder of whole lists does.
ghost use Rattle.std.specs.Prelude.{◌<◌, length};

use crate::pieces_fed::{feed_piece, finish_pieces};
use crate::plain_decoding::decoding_of;
use nfg_decode::{ByteStream, Encoding};
use nfg_text::{ByteList, CodeList};
use std::alloc::{AllocError, Global};
use std::process::Abort;
use std::test::Fail;

/// The first and the last byte of each class of UTF-8's table of well-formed sequences, and a line feed, a letter and FE.
static OCTETS: [u8; 27] = [
    0x00, 0x0A, 0x61, 0x7F, 0x80, 0x8F, 0x90, 0x9F, 0xA0, 0xBF, 0xC0, 0xC1, 0xC2, 0xDF, 0xE0, 0xE1,
    0xEC, 0xED, 0xEE, 0xEF, 0xF0, 0xF1, 0xF3, 0xF4, 0xF5, 0xFE, 0xFF,
];

/// The bytes at the ends of what is a surrogate's high byte, those of the marks, and a letter.
static UNIT_OCTETS: [u8; 11] = [
    0x00, 0x0A, 0x61, 0xD7, 0xD8, 0xDB, 0xDC, 0xDF, 0xE0, 0xFE, 0xFF,
];

/// Puts octets behind the mark: the digits of the number, as many as this.
fn push_octets(
    bytes: &mut ByteList,
    octets: &[u8],
    number: usize,
    len: usize,
) -> Result<(), AllocError>
    requires { 0 < length octets.now }
{
    let mut rest = number;
    for _octet in 0..len {
        bytes.append(&[octets[rest % octets.len()]])?;
        rest /= octets.len();
    }
    Ok(())
}

/// The bytes, whole and cut in two at each place, are decoded as the plain decoder does.
fn check_bytes(
    rt: &impl Abort,
    alloc: Global,
    encoding: Encoding,
    bytes: &[u8],
) -> Result<(), Fail> {
    assert!(rt; bytes.len() <= 64);
    let wanted = decoding_of(alloc, encoding, bytes)?;
    let mut codes = CodeList::new(alloc);
    for cut in 0..=bytes.len() {
        let (front, back) = bytes.split_at(cut);
        let mut stream = ByteStream::new(encoding);
        codes.truncate(0);
        feed_piece(&mut stream, alloc, front, &mut codes)?;
        let refused = feed_piece(&mut stream, alloc, back, &mut codes)?;
        assert_eq!(rt; refused, wanted.hopeless, "{bytes:?} cut at {cut}");
        let ended = finish_pieces(&mut stream)?;
        assert_eq!(rt; ended, wanted.malformed, "{bytes:?} cut at {cut}");
        assert_eq!(rt;
            codes.as_slice(),
            wanted.codes.as_slice(),
            "{bytes:?} cut at {cut}"
        );
    }
    Ok(())
}

/// All strings of so many octets behind a mark, of which there are so many.
fn check_strings(
    rt: &impl Abort,
    alloc: Global,
    encoding: Encoding,
    mark: &[u8],
    octets: &[u8],
    len: usize,
    count: usize,
) -> Result<(), Fail>
    requires { 0 < length octets.now }
{
    for number in 0..count {
        let mut bytes = ByteList::from_slice(alloc, mark)?;
        push_octets(&mut bytes, octets, number, len)?;
        check_bytes(rt, alloc, encoding, bytes.as_slice())?;
    }
    Ok(())
}

/// All strings of up to four octets behind a mark.
fn check_all(
    rt: &impl Abort,
    alloc: Global,
    encoding: Encoding,
    mark: &[u8],
    octets: &[u8],
) -> Result<(), Fail>
    requires { 0 < length octets.now }
{
    let mut count = 1usize;
    for len in 0..=4 {
        check_strings(rt, alloc, encoding, mark, octets, len, count)?;
        count = count.saturating_mul(octets.len());
    }
    Ok(())
}

#[test]
fn short_byte_strings_are_decoded_as_utf8_says(rt: HostRuntime) -> Result<(), Fail> {
    check_all(&rt, rt.alloc(), Encoding::Utf8, b"", &OCTETS)
}

#[test]
fn short_byte_strings_are_decoded_as_latin1_says(rt: HostRuntime) -> Result<(), Fail> {
    check_all(&rt, rt.alloc(), Encoding::Latin1, b"", &UNIT_OCTETS)
}

#[test]
fn short_byte_strings_are_decoded_as_utf16_says(rt: HostRuntime) -> Result<(), Fail> {
    for (encoding, mark) in [
        (Encoding::Utf16Be, b"".as_slice()),
        (Encoding::Utf16Le, b""),
        (Encoding::Utf16, b""),
        (Encoding::Utf16, b"\xFE\xFF"),
        (Encoding::Utf16, b"\xFF\xFE"),
    ] {
        check_all(&rt, rt.alloc(), encoding, mark, &UNIT_OCTETS)?;
    }
    Ok(())
}
