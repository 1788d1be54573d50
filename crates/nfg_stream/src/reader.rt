//! Bytes become clusters, piece by piece.
ghost use Rattle.std.specs.Prelude.{◌≤◌, ◌+◌, ◌^◌, ◌++◌, ℕ, List, [], length};
ghost use Rattle.nfg_decode.specs.declared.encoding.Encoding.{Encoding};
ghost use Rattle.nfg_decode.specs.Encoding.{decode};
ghost use Rattle.nfg_decode.specs.Stream.{fed_count};
ghost use Rattle.nfg_stream.specs.Reading.{IsReading, HasReadSome, HasTaken, HasEnded};

use crate::LoadError;
use crate::collected::Collected;
use nfg_decode::{ByteStream, DecodeError, Encoding};
use nfg_segment::Segmenter;
use nfg_text::CodeList;
use std::alloc::Global;

/// How many bytes are decoded before they are segmented, at most.
const PART_LIMIT: usize = 65_536;

/// A decoder and behind it a segmenter.
#[derive(Drop)]
pub(crate) struct Reader {
    pub(crate) bytes: ByteStream,
    // those of one part; kept for their room alone
    codes: CodeList,
    segmenter: Segmenter,
    pub(crate) clusters: Collected,
}

impl Reader {
    /// A reader of no bytes.
    pub(crate) fn new(alloc: Global, encoding: Encoding) -> Reader
        ensures reading { IsReading result encoding [] }
        ensures count { fed_count result.bytes ≤ 0 }
    {
        Reader {
            bytes: ByteStream::new(encoding),
            codes: CodeList::new(alloc),
            segmenter: Segmenter::new(alloc),
            clusters: Collected::new(alloc),
        }
    }

    /// Reads a piece of any length.
    pub(crate) fn take(&mut self, alloc: Global, piece: &[u8]) -> Result<(), LoadError>
        requires reading { HasReadSome self.old }
        requires count { fed_count self.old.bytes + length piece.now ≤ 2 ^ 32 }
        ensures taken { (e : Encoding) (bytes : List ℕ) → IsReading self.old e bytes
            → HasTaken self.new e (bytes ++ piece.now) result }
        ensures count { fed_count self.new.bytes ≤ fed_count self.old.bytes + length piece.now }
    {
        let mut rest = piece;
        'parts: while rest.len() > PART_LIMIT {
            match self.take_part(alloc, &rest[..PART_LIMIT]) {
                Ok(()) => {}
                Err(error) => return Err(error),
            }
            rest = &rest[PART_LIMIT..];
        }
        self.take_part(alloc, rest)
    }

    /// Reads a piece that is decoded at once.
    fn take_part(&mut self, alloc: Global, piece: &[u8]) -> Result<(), LoadError>
        requires reading { HasReadSome self.old }
        requires count { fed_count self.old.bytes + length piece.now ≤ 2 ^ 32 }
        ensures taken { (e : Encoding) (bytes : List ℕ) → IsReading self.old e bytes
            → HasTaken self.new e (bytes ++ piece.now) result }
        ensures count { fed_count self.new.bytes ≤ fed_count self.old.bytes + length piece.now }
    {
        self.codes.truncate(0);
        match self.bytes.feed(alloc, piece, &mut self.codes) {
            Ok(()) => {}
            Err(DecodeError::Malformed { at }) => return Err(LoadError::Malformed { at }),
            Err(DecodeError::OutOfMemory) => return Err(LoadError::OutOfMemory),
        }
        match self
            .segmenter
            .feed(alloc, self.codes.as_slice(), &mut self.clusters)
        {
            Ok(()) => Ok(()),
            Err(_) => Err(LoadError::OutOfMemory),
        }
    }

    /// Takes the end of the bytes.
    pub(crate) fn end(&mut self, alloc: Global) -> Result<(), LoadError>
        requires reading { HasReadSome self.old }
        ensures ended { (e : Encoding) (bytes : List ℕ) → IsReading self.old e bytes
            → HasEnded self.new.clusters (decode e bytes) result }
    {
        match self.bytes.finish() {
            Ok(()) => {}
            Err(DecodeError::Malformed { at }) => return Err(LoadError::Malformed { at }),
            Err(DecodeError::OutOfMemory) => return Err(LoadError::OutOfMemory),
        }
        match self.segmenter.finish(alloc, &mut self.clusters) {
            Ok(()) => Ok(()),
            Err(_) => Err(LoadError::OutOfMemory),
        }
    }
}
