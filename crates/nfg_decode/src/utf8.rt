//! UTF-8, checked by `simdutf8`.

ghost use Rattle.std.specs.Prelude.{◌≡◌, ◌+◌, ◌-◌, ◌<◌, ◌≤◌, ◌++◌, length, Ok, IfOk, OnOk, OnErr, chars};
ghost use Rattle.std.specs.Str.{IsCharBoundary};
ghost use Rattle.nfg_decode.specs.Reads.{Grew, Reads};
ghost use Rattle.nfg_decode.specs.declared.encoding.Encoding.TheVariants.{Utf8};

use crate::reach::Reach;
use crate::utf8_codes::fill;
use nfg_text::CodeList;
use simdutf8::compat::from_utf8;
use std::alloc::AllocError;

/// How many bytes at the front of a text are whole characters and fit the room.
fn part_len(text: &str, room: usize) -> usize
    requires room { 4 ≤ room }
    requires text { 0 < length text.now }
    ensures boundary { IsCharBoundary text.now result }
    ensures some { 0 < result }
    ensures within { result ≤ room }
{
    text.floor_char_boundary(room)
}

/// Adds the code points of a text, by way of the buffer.
fn append_text(text: &str, codes: &mut [u32], into: &mut CodeList) -> Result<(), AllocError>
    requires { 4 ≤ length codes.old }
    ensures ok { OnOk result (into.new ≡ into.old ++ chars text.now) }
    ensures err { OnErr result (Grew into.old into.new) }
{
    let mut rest = text;
    while !rest.is_empty() {
        let (part, after) = rest.split_at(part_len(rest, codes.len()));
        let n = fill(part, codes);
        into.append(&codes[..n])?;
        rest = after;
    }
    Ok(())
}

/// Reads the longest front that is well-formed, and looks at what is left.
#[inline(never)]
fn read_checked(bytes: &[u8], codes: &mut [u32], into: &mut CodeList) -> Result<Reach, AllocError>
    requires { 4 ≤ length codes.old }
    ensures ok { IfOk result
        (λ reach. Reads Utf8 bytes.now into.old into.new reach.at reach.is_malformed) }
    ensures err { OnErr result (Grew into.old into.new) }
{
    match from_utf8(bytes) {
        Ok(text) => {
            append_text(text, codes, into)?;
            Ok(Reach {
                at: bytes.len(),
                is_malformed: false,
            })
        }
        Err(error) => {
            let at = error.valid_up_to();
            let text = unsafe { std::str::from_utf8_unchecked(&bytes[..at]) };
            append_text(text, codes, into)?;
            Ok(Reach {
                at,
                is_malformed: error.error_len().is_some(),
            })
        }
    }
}

/// How many bytes stand before a sequence that is cut off at the end, if one is.
fn whole_len(bytes: &[u8]) -> usize
    ensures { result ≤ length bytes.now }
{
    let len = bytes.len();
    if len < 3 {
        return len;
    }
    if bytes[len - 1] >= 0xC0 {
        return len - 1;
    }
    if bytes[len - 2] >= 0xE0 {
        return len - 2;
    }
    if bytes[len - 3] >= 0xF0 {
        return len - 3;
    }
    len
}

/// The same. A sequence that is cut off at the end is kept out of the first check, which would refuse
/// all of the bytes for it, and go over them once more for the place.
pub(crate) fn read_utf8(
    bytes: &[u8],
    codes: &mut [u32],
    into: &mut CodeList,
) -> Result<Reach, AllocError>
    requires { 4 ≤ length codes.old }
    ensures ok { IfOk result
        (λ reach. Reads Utf8 bytes.now into.old into.new reach.at reach.is_malformed) }
    ensures err { OnErr result (Grew into.old into.new) }
{
    let whole = whole_len(bytes);
    let Ok(text) = from_utf8(&bytes[..whole]) else {
        return read_checked(bytes, codes, into);
    };
    append_text(text, codes, into)?;
    let behind = read_checked(&bytes[whole..], codes, into)?;
    Ok(Reach {
        at: whole + behind.at,
        is_malformed: behind.is_malformed,
    })
}
