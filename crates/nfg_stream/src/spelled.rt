//! Texts as bytes, for the tests.
use nfg_decode::Encoding;
use nfg_text::ByteList;
use std::alloc::{AllocError, Global};

/// The text in this encoding, unless it lacks one of its code points.
pub(crate) fn encoded(
    alloc: Global,
    encoding: Encoding,
    text: &[u32],
) -> Result<Option<ByteList>, AllocError> {
    let mut bytes = ByteList::new(alloc);
    for code in text {
        match encoding {
            Encoding::Utf8 => push_utf8(&mut bytes, *code)?,
            Encoding::Utf16Le => push_utf16(&mut bytes, *code, false)?,
            Encoding::Utf16 | Encoding::Utf16Be => push_utf16(&mut bytes, *code, true)?,
            Encoding::Latin1 => {
                if *code >= 0x100 {
                    return Ok(None);
                }
                bytes.append(&[*code as u8])?;
            }
        }
    }
    Ok(Some(bytes))
}

fn push_utf8(bytes: &mut ByteList, code: u32) -> Result<(), AllocError> {
    if code < 0x80 {
        bytes.append(&[code as u8])
    } else if code < 0x800 {
        bytes.append(&[0xC0 | ((code >> 6) & 31) as u8, trailing(code)])
    } else if code < 0x1_0000 {
        bytes.append(&[
            0xE0 | ((code >> 12) & 15) as u8,
            trailing(code >> 6),
            trailing(code),
        ])
    } else {
        let high = [0xF0 | ((code >> 18) & 7) as u8, trailing(code >> 12)];
        bytes.append(&high)?;
        bytes.append(&[trailing(code >> 6), trailing(code)])
    }
}

fn trailing(code: u32) -> u8 {
    0x80 | (code & 0x3F) as u8
}

fn push_utf16(bytes: &mut ByteList, code: u32, is_big: bool) -> Result<(), AllocError> {
    if code < 0x1_0000 {
        push_unit(bytes, code, is_big)
    } else {
        let high = (code - 0x1_0000) >> 10;
        push_unit(bytes, 0xD800 | high, is_big)?;
        push_unit(bytes, 0xDC00 | (code & 0x3FF), is_big)
    }
}

fn push_unit(bytes: &mut ByteList, unit: u32, is_big: bool) -> Result<(), AllocError> {
    let low = (unit & 0xFF) as u8;
    let high = ((unit >> 8) & 0xFF) as u8;
    if is_big {
        bytes.append(&[high, low])
    } else {
        bytes.append(&[low, high])
    }
}
