//! What a decoder says of the pieces that it is fed, for the tests.
ghost use Rattle.std.specs.Prelude.{◌≡◌, ◌+◌, ◌^◌, ◌≤◌, length};
ghost use Rattle.nfg_decode.specs.Stream.{fed_count};

use nfg_decode::{ByteStream, DecodeError};
use nfg_text::CodeList;
use std::alloc::Global;
use std::test::Fail;

/// Feeds one piece: the place at which the decoder refuses, if it does.
pub(crate) fn feed_piece(
    stream: &mut ByteStream,
    alloc: Global,
    piece: &[u8],
    into: &mut CodeList,
) -> Result<Option<u64>, Fail>
    requires { fed_count stream.old + length piece.now ≤ 2 ^ 32 }
    ensures { fed_count stream.new ≤ fed_count stream.old + length piece.now }
{
    match stream.feed(alloc, piece, into) {
        Ok(()) => Ok(None),
        Err(DecodeError::Malformed { at }) => Ok(Some(at)),
        Err(DecodeError::OutOfMemory) => Err("out of memory")?,
    }
}

/// The place at which the decoder refuses the end of the bytes, if it does.
pub(crate) fn finish_pieces(stream: &mut ByteStream) -> Result<Option<u64>, Fail>
    ensures { fed_count stream.new ≡ fed_count stream.old }
{
    match stream.finish() {
        Ok(()) => Ok(None),
        Err(DecodeError::Malformed { at }) => Ok(Some(at)),
        Err(DecodeError::OutOfMemory) => Err("out of memory")?,
    }
}
