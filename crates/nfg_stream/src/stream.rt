//! A stream of bytes that becomes a string.
ghost use Rattle.std.specs.Prelude.{◌≡◌, ◌≢◌, ◌≤◌, ◌+◌, ◌^◌, ◌++◌, ℕ, List, [], length, Some, None, Err, IfErr, IsErrOf};
ghost use Rattle.nfg_decode.specs.declared.encoding.Encoding.{Encoding};
ghost use Rattle.nfg_decode.specs.Encoding.{decode, IsAlreadyMalformed};
ghost use Rattle.nfg_decode.specs.Stream.{fed_count as decoded_count};
ghost use Rattle.nfg_syn.specs.Seen.{Keeps, SameCounts};
ghost use Rattle.nfg_stream.specs.Load.{HasLoaded};
ghost use Rattle.nfg_stream.specs.Reading.{IsOpenFor};
ghost use Rattle.nfg_stream.specs.declared.error.LoadError.{LoadError};

use crate::LoadError;
use crate::numbering::string_from;
use crate::reader::Reader;
use nfg_decode::Encoding;
use nfg_strand::NString;
use nfg_syn::Synthetics;
use std::alloc::Global;

/// A file that becomes a string of graphemes, in pieces of any lengths. It holds the clusters, at most three
/// bytes, and what the segmenter holds of the text. That is bounded but for a run of code points that do not
/// start safely (marks, trailing jamo), which is held whole until one comes that does.
#[derive(Drop)]
pub struct DecodeStream {
    reader: Reader,
    refused: Option<LoadError>,
    fed: u64,
    ghost counted: { decoded_count reader.bytes ≤ fed },
    ghost read: { IsOpenFor reader refused },
}

impl DecodeStream {
    ghost use Rattle.nfg_stream.specs.Stream.{HasRead, IsEarly, fed_count, refusal_of, error_of};

    /// A stream in this encoding, to which nothing was fed yet. It takes no memory.
    #[tactic(auto, unfolding(crate::specs::Stream::HasRead, crate::specs::Stream::fed_count, crate::specs::Stream::refusal_of))]
    pub fn new(alloc: Global, encoding: Encoding) -> DecodeStream
        ensures read { HasRead result encoding [] }
        ensures count { fed_count result ≡ 0 }
        ensures not_refused { refusal_of result ≡ None }
    {
        DecodeStream {
            reader: Reader::new(alloc, encoding),
            refused: None,
            fed: 0,
        }
    }

    /// Takes the next piece of the bytes.
    ///
    /// Refuses with `Malformed` as soon as the bytes fed so far are malformed whatever follows, and with
    /// `OutOfMemory`. A refusal stays: every later call answers it again. At most 2^32 bytes are fed in all.
    #[tactic(auto, unfolding(crate::specs::Stream::HasRead, crate::specs::Stream::fed_count, crate::specs::Stream::refusal_of))]
    pub fn feed(&mut self, alloc: Global, piece: &[u8]) -> Result<(), LoadError>
        requires { fed_count self.old + length piece.now ≤ 2 ^ 32 }

        // In what follows, the stream has read `bytes`.
        ensures read { (e : Encoding) (bytes : List ℕ) → HasRead self.old e bytes
            → HasRead self.new e (bytes ++ piece.now) }
        ensures malformed { (e : Encoding) (bytes : List ℕ) (at : ℕ) → HasRead self.old e bytes
            → IsErrOf result (LoadError.Malformed at) → IsAlreadyMalformed e (bytes ++ piece.now) at }
        ensures found { (e : Encoding) (bytes : List ℕ) (at : ℕ) → HasRead self.old e bytes
            → IsAlreadyMalformed e (bytes ++ piece.now) at → result ≢ Err LoadError.OutOfMemory
            → result ≡ Err (LoadError.Malformed at) }

        ensures only { IfErr result IsEarly }
        ensures stays { (error : LoadError) → refusal_of self.old ≡ Some error → result ≡ Err error }
        ensures kept { refusal_of self.new ≡ error_of result }
        ensures count { fed_count self.new ≡ fed_count self.old + length piece.now }
    {
        let earlier = self.refused;
        self.fed += piece.len() as u64;
        if let Some(error) = earlier {
            return Err(error);
        }
        match self.reader.take(alloc, piece) {
            Ok(()) => Ok(()),
            Err(error) => {
                self.refused = Some(error);
                Err(error)
            }
        }
    }

    /// The graphemes of all bytes as a string, over numbers of the table.
    ///
    /// Answers an earlier refusal again. Else it refuses with `Malformed` where the bytes end inside a
    /// sequence, then with `ClusterLong` at the first cluster of more than 1,024 code points, and then
    /// with `RowFull` and `NoPortion` where the table does.
    #[tactic(auto, unfolding(crate::specs::Stream::HasRead, crate::specs::Stream::refusal_of))]
    pub fn finish<T: Synthetics>(
        self,
        alloc: Global,
        table: &T,
        pass: &mut T::Pass,
    ) -> Result<NString, LoadError>
        requires table { T.is_of table.now pass.old }
        ensures table { T.is_of table.now pass.new }
        ensures keeps { Keeps (T.seen pass.old) (T.seen pass.new) }
        ensures counts { SameCounts (T.seen pass.old) (T.seen pass.new) }
        ensures loaded { (e : Encoding) (bytes : List ℕ) → HasRead self e bytes
            → HasLoaded (decode e bytes) (T.seen pass.old) (T.seen pass.new) result }
        ensures stays { (error : LoadError) → refusal_of self ≡ Some error → result ≡ Err error }
    {
        if let Some(error) = self.refused {
            return Err(error);
        }
        let mut reader = self.reader;
        match reader.end(alloc) {
            Ok(()) => string_from(alloc, table, pass, reader.clusters),
            Err(error) => Err(error),
        }
    }
}
