//! ISO/IEC 8859-1.

ghost use Rattle.std.specs.Prelude.{◌<◌, length, IfOk, OnErr};
ghost use Rattle.nfg_decode.specs.Reads.{Grew, Reads};
ghost use Rattle.nfg_decode.specs.declared.encoding.Encoding.TheVariants.{Latin1};

use crate::part::append_bytes;
use crate::reach::Reach;
use nfg_text::CodeList;
use std::alloc::AllocError;

/// Reads all of the bytes.
pub(crate) fn read_latin1(
    bytes: &[u8],
    codes: &mut [u32],
    into: &mut CodeList,
) -> Result<Reach, AllocError>
    requires { 0 < length codes.old }
    ensures ok { IfOk result
        (λ reach. Reads Latin1 bytes.now into.old into.new reach.at reach.is_malformed) }
    ensures err { OnErr result (Grew into.old into.new) }
{
    append_bytes(bytes, codes, into)?;
    Ok(Reach {
        at: bytes.len(),
        is_malformed: false,
    })
}
