//! Bytes that are code points, as code points.

ghost use Rattle.std.specs.Prelude.{◌≡◌, ◌<◌, ◌≤◌, ◌++◌, length, OnOk, OnErr};
ghost use Rattle.nfg_decode.specs.Reads.{Grew};

use nfg_text::CodeList;
use std::alloc::AllocError;

/// Copies each byte.
pub(crate) fn widen(bytes: &[u8], codes: &mut [u32])
    requires { length bytes.now ≡ length codes.old }
    ensures { codes.new ≡ bytes.now }
{
    for k in 0..bytes.len() {
        codes[k] = u32::from(bytes[k]);
    }
}

/// Adds each byte as a code point, by way of the buffer.
pub(crate) fn append_bytes(
    bytes: &[u8],
    codes: &mut [u32],
    into: &mut CodeList,
) -> Result<(), AllocError>
    requires { 0 < length codes.old }
    ensures ok { OnOk result (into.new ≡ into.old ++ bytes.now) }
    ensures err { OnErr result (Grew into.old into.new) }
{
    let mut rest = bytes;
    while !rest.is_empty() {
        let len = rest.len().min(codes.len());
        let (part, after) = rest.split_at(len);
        widen(part, &mut codes[..len]);
        into.append(&codes[..len])?;
        rest = after;
    }
    Ok(())
}
