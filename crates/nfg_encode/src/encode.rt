//! The bytes of a text in an encoding.

ghost use Rattle.std.specs.Prelude.{◌≡◌, ℕ, ◌↔◌, ◌++◌, Some, None, OnOk, OnErr, IsErrOf, flat_map};
ghost use Rattle.nfg_text.specs.Text.{IsText};
ghost use Rattle.nfg_decode.specs.Encoding.{encode, encode_code, text_start};
ghost use Rattle.nfg_encode.specs.Refusal.{AreEncodable, Grew, first_lacked};

use crate::error::EncodeError;
use crate::part::fill;
use nfg_decode::Encoding;
use nfg_text::ByteList;
use std::alloc::{AllocError, Global};

/// So many code points are encoded at a time, in a buffer on the stack.
const PART: usize = 256;

/// Four bytes for each of them.
const ROOM: usize = 1024;

/// Where the first code point stands that the encoding lacks.
fn lacked(e: Encoding, codes: &[u32]) -> Option<usize>
    ensures { result ≡ first_lacked e codes.now }
{
    match e {
        Encoding::Latin1 => codes.iter().position(|code| !(*code < 256)),
        _ => None,
    }
}

/// Adds the bytes of the code points, without the mark.
fn append_codes(e: Encoding, codes: &[u32], into: &mut ByteList) -> Result<(), AllocError>
    requires { AreEncodable e codes.now }
    ensures ok { OnOk result (into.new ≡ into.old ++ flat_map (encode_code e) codes.now) }
    ensures err { OnErr result (Grew into.old into.new) }
{
    let mut out = [0u8; ROOM];
    let mut rest = codes;
    while !rest.is_empty() {
        let (part, after) = rest.split_at(rest.len().min(PART));
        let len = fill(e, part, &mut out);
        into.append(&out[..len])?;
        rest = after;
    }
    Ok(())
}

/// Adds the mark, where the encoding begins with one.
fn append_start(e: Encoding, into: &mut ByteList) -> Result<(), AllocError>
    ensures ok { OnOk result (into.new ≡ into.old ++ text_start e) }
    ensures err { OnErr result (into.new ≡ into.old) }
{
    match e {
        Encoding::Utf16 => into.append(&[0xFE, 0xFF]),
        _ => Ok(()),
    }
}

/// Adds the mark and the bytes of the code points.
fn append_text(e: Encoding, codes: &[u32], into: &mut ByteList) -> Result<(), AllocError>
    requires { AreEncodable e codes.now }
    ensures ok { OnOk result (into.new ≡ into.old ++ encode e codes.now) }
    ensures err { OnErr result (Grew into.old into.new) }
{
    append_start(e, into)?;
    append_codes(e, codes, into)
}

/// Adds the bytes of a text to a list. `Encoding::Utf16` writes the mark FE FF and then the high byte
/// of each unit first, also for the empty text; the others write no mark.
///
/// Refuses with `Unencodable` exactly where the encoding lacks a code point of the text. Where there
/// is no memory for the bytes it answers `OutOfMemory`.
pub fn encode_into(
    _alloc: Global,
    e: Encoding,
    codes: &[u32],
    into: &mut ByteList,
) -> Result<(), EncodeError>
    requires { IsText codes.now }
    ensures ok { OnOk result (into.new ≡ into.old ++ encode e codes.now) }
    ensures unencodable { (at : ℕ) →
        (IsErrOf result (EncodeError.Unencodable at) ↔ (first_lacked e codes.now ≡ Some at)) }
    ensures unchanged { OnErr result (into.new ≡ into.old) }
{
    if let Some(at) = lacked(e, codes) {
        return Err(EncodeError::Unencodable { at });
    }
    let had = into.len();
    match append_text(e, codes, into) {
        Ok(()) => Ok(()),
        Err(AllocError) => {
            into.truncate(had);
            Err(EncodeError::OutOfMemory)
        }
    }
}
