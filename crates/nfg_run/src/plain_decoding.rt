//! Whole lists of bytes, decoded as the standard's tables say, for the tests.

use nfg_decode::Encoding;
use std::alloc::{AllocError, Global};

/// What stands at the front of bytes that are not empty.
#[derive(Clone, Copy)]
enum Sequence {
    /// A code point, and how many bytes spell it.
    Whole(u32, usize),
    /// The bytes end inside a sequence that others could make whole.
    CutShort,
    /// No bytes behind these make them well-formed.
    IllFormed,
}

/// A row of the table of well-formed byte sequences in UTF-8 (The Unicode Standard, Table 3-7): their number of
/// bytes, which bits of the first byte are the code point's, and the least and the greatest second byte.
#[derive(Clone, Copy)]
struct FirstByte {
    len: usize,
    bits: u8,
    least: u8,
    greatest: u8,
}

/// The row of a first byte. Where the table has none, its number of bytes is 0.
fn row_of(first: u8) -> FirstByte {
    let (len, bits, least, greatest) = match first {
        0x00..=0x7F => (1, 0x7F, 0x80, 0xBF),
        0xC2..=0xDF => (2, 0x1F, 0x80, 0xBF),
        0xE0 => (3, 0x0F, 0xA0, 0xBF),
        0xE1..=0xEC => (3, 0x0F, 0x80, 0xBF),
        0xED => (3, 0x0F, 0x80, 0x9F),
        0xEE..=0xEF => (3, 0x0F, 0x80, 0xBF),
        0xF0 => (4, 0x07, 0x90, 0xBF),
        0xF1..=0xF3 => (4, 0x07, 0x80, 0xBF),
        0xF4 => (4, 0x07, 0x80, 0x8F),
        _ => (0, 0, 0, 0),
    };
    FirstByte {
        len,
        bits,
        least,
        greatest,
    }
}

/// The front of bytes in UTF-8 (Table 3-7).
fn utf8_front(bytes: &[u8]) -> Sequence {
    let Some(first) = bytes.first() else {
        return Sequence::CutShort;
    };
    let row = row_of(*first);
    if row.len == 0 {
        return Sequence::IllFormed;
    }
    let mut code = u32::from(*first & row.bits);
    let (mut least, mut greatest) = (row.least, row.greatest);
    for k in 1..row.len {
        let Some(byte) = bytes.get(k) else {
            return Sequence::CutShort;
        };
        if (*byte < least) | (*byte > greatest) {
            return Sequence::IllFormed;
        }
        code = (code << 6) | u32::from(*byte & 0x3F);
        (least, greatest) = (0x80, 0xBF);
    }
    Sequence::Whole(code, row.len)
}

/// A high surrogate is a unit of D800 to DBFF (The Unicode Standard, section 3.8).
fn is_high(unit: u32) -> bool {
    (unit >= 0xD800) & (unit <= 0xDBFF)
}

/// A low surrogate is a unit of DC00 to DFFF (section 3.8).
fn is_low(unit: u32) -> bool {
    (unit >= 0xDC00) & (unit <= 0xDFFF)
}

/// The code point of a high and a low surrogate (Table 3-5).
fn pair_code(high: u32, low: u32) -> u32 {
    0x10000 + (((high & 0x3FF) << 10) | (low & 0x3FF))
}

/// The unit of two bytes.
fn unit(first: u8, second: u8, is_little: bool) -> u32 {
    let (high, low) = if is_little {
        (second, first)
    } else {
        (first, second)
    };
    (u32::from(high) << 8) | u32::from(low)
}

/// The front of bytes in UTF-16 (section 3.9). The first byte of a low surrogate may be any where the low byte comes first.
fn utf16_front(bytes: &[u8], is_little: bool) -> Sequence {
    match *bytes {
        [a] if !is_little & is_low(unit(a, 0, false)) => Sequence::IllFormed,
        [a, b, ..] if is_low(unit(a, b, is_little)) => Sequence::IllFormed,
        [a, b, ..] if !is_high(unit(a, b, is_little)) => {
            Sequence::Whole(unit(a, b, is_little), 2)
        }
        [_, _, c] if !is_little & !is_low(unit(c, 0, false)) => Sequence::IllFormed,
        [_, _, c, d, ..] if !is_low(unit(c, d, is_little)) => Sequence::IllFormed,
        [a, b, c, d, ..] => {
            let code = pair_code(unit(a, b, is_little), unit(c, d, is_little));
            Sequence::Whole(code, 4)
        }
        _ => Sequence::CutShort,
    }
}

/// How bytes are read behind a mark, if they have one (section 3.10).
#[derive(Clone, Copy)]
enum Form {
    Utf8,
    Utf16 { is_little: bool },
    Latin1,
}

/// The form of the bytes, and how many of them are the mark.
fn form_of(encoding: Encoding, bytes: &[u8]) -> (Form, usize) {
    match encoding {
        Encoding::Utf8 => (Form::Utf8, 0),
        Encoding::Latin1 => (Form::Latin1, 0),
        Encoding::Utf16Be => (Form::Utf16 { is_little: false }, 0),
        Encoding::Utf16Le => (Form::Utf16 { is_little: true }, 0),
        Encoding::Utf16 => match *bytes {
            [0xFE, 0xFF, ..] => (Form::Utf16 { is_little: false }, 2),
            [0xFF, 0xFE, ..] => (Form::Utf16 { is_little: true }, 2),
            _ => (Form::Utf16 { is_little: false }, 0),
        },
    }
}

fn front(form: Form, bytes: &[u8]) -> Sequence {
    match form {
        Form::Utf8 => utf8_front(bytes),
        Form::Utf16 { is_little } => utf16_front(bytes, is_little),
        Form::Latin1 => match bytes.first() {
            Some(byte) => Sequence::Whole(u32::from(*byte), 1),
            None => Sequence::CutShort,
        },
    }
}

/// What comes of a whole list of bytes.
#[derive(Drop)]
pub(crate) struct Decoding {
    /// The code points up to the first ill-formed sequence.
    pub codes: Vec<u32>,
    /// Where that sequence begins, if there is one.
    pub malformed: Option<u64>,
    /// The same, unless other bytes behind these could make it well-formed.
    pub hopeless: Option<u64>,
}

/// The decoding of the bytes.
pub(crate) fn decoding_of(
    alloc: Global,
    encoding: Encoding,
    bytes: &[u8],
) -> Result<Decoding, AllocError> {
    let mut codes = Vec::new(alloc);
    let (form, mut at) = form_of(encoding, bytes);
    for _sequence in 0..bytes.len() {
        let Some(rest) = bytes.get(at..) else {
            break;
        };
        if rest.is_empty() {
            break;
        }
        let place = Some(at as u64);
        let (malformed, hopeless) = match front(form, rest) {
            Sequence::Whole(code, len) => {
                codes.push(code)?;
                at = at.saturating_add(len);
                continue;
            }
            Sequence::CutShort => (place, None),
            Sequence::IllFormed => (place, place),
        };
        return Ok(Decoding {
            codes,
            malformed,
            hopeless,
        });
    }
    Ok(Decoding {
        codes,
        malformed: None,
        hopeless: None,
    })
}
