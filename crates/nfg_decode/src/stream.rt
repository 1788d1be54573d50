//! A stream of bytes that comes in pieces.

ghost use Rattle.std.specs.Prelude.{◌≡◌, ⊤, ℕ, ◌+◌, ◌^◌, ◌≤◌, List, [], ◌++◌, length, Ok, Err, OnOk, IfSome, IsErrOf};
ghost use Rattle.nfg_decode.specs.declared.encoding.Encoding.{Encoding};
ghost use Rattle.nfg_decode.specs.Encoding.{decode, decoded_prefix, IsAlreadyMalformed};
ghost use Rattle.nfg_decode.specs.State.{GivesNext, limit_of};
ghost use Rattle.nfg_decode.specs.Step.{MatchTaken};
ghost use Rattle.nfg_decode.specs.Tail.{bytes_of};
ghost use Rattle.nfg_decode.specs.Answer.{UnlessOutOfMemory, answer_of};

use crate::encoding::{DecodeError, Encoding};
use crate::state::{State, advance, first_state, lone_limit, step_of};
use crate::step::{Step, Taken};
use crate::tail::{Tail, tail_len};
use nfg_text::CodeList;
use std::alloc::Global;

/// A decoder that is fed bytes in pieces, of any lengths. It holds at most three bytes, those of a
/// sequence that is not whole yet, and no memory.
#[derive(Debug, Drop)]
pub struct ByteStream {
    state: State,
    malformed: Option<u64>,
    fed: u64,
    // below this number a next byte is a whole sequence alone; 0 where that isn't known
    lone_limit: u32,
    ghost lone: { lone_limit ≤ limit_of malformed state.form state.tail },
    ghost in_order: { state.settled + length (bytes_of state.tail) ≤ fed },
}

impl ByteStream {
    ghost use Rattle.nfg_decode.specs.Stream.{HasRead, Feeds, StepsFrom, IsLone, fed_count};

    /// A stream in this encoding, to which nothing was fed yet. It takes no memory.
    #[tactic(auto, unfolding(crate::specs::Stream::fed_count))]
    pub fn new(encoding: Encoding) -> ByteStream
        ensures read { HasRead result encoding [] }
        ensures count { fed_count result ≡ 0 }
    {
        let state = first_state(encoding);
        ByteStream {
            state,
            malformed: None,
            fed: 0,
            lone_limit: lone_limit(state.form, state.tail),
        }
    }

    /// Takes the next piece of the bytes, and adds the code points of all sequences that are whole now.
    ///
    /// Refuses with `Malformed` as soon as the bytes fed so far are malformed whatever follows, and not
    /// before: then, and at every later call. `into` has the codes of all bytes before that place. Where
    /// there is no memory for the codes it answers `OutOfMemory`, and the piece may be fed again. At most
    /// 2^32 bytes are fed in all.
    #[inline(always)]
    pub fn feed(
        &mut self,
        _alloc: Global,
        piece: &[u8],
        into: &mut CodeList,
    ) -> Result<(), DecodeError>
        requires { fed_count self.old + length piece.now ≤ 2 ^ 32 }

        // In what follows, the stream has read `bytes`.
        ensures read { (e : Encoding) (bytes : List ℕ) → HasRead self.old e bytes
            → UnlessOutOfMemory result (HasRead self.new e (bytes ++ piece.now)) }
        // The codes given so far are the decoded prefix of all bytes fed.
        ensures decoded { (e : Encoding) (bytes : List ℕ) → HasRead self.old e bytes
            → UnlessOutOfMemory result (GivesNext e bytes piece.now into.old into.new) }

        ensures malformed { (e : Encoding) (bytes : List ℕ) (at : ℕ) → HasRead self.old e bytes
            → IsErrOf result (DecodeError.Malformed at) → IsAlreadyMalformed e (bytes ++ piece.now) at }
        ensures found { (e : Encoding) (bytes : List ℕ) (at : ℕ) → HasRead self.old e bytes
            → IsAlreadyMalformed e (bytes ++ piece.now) at
            → UnlessOutOfMemory result (result ≡ Err (DecodeError.Malformed at)) }
        // What was malformed before this piece gets that answer again.
        ensures stays { (e : Encoding) (bytes : List ℕ) (at : ℕ) → HasRead self.old e bytes
            → IsAlreadyMalformed e bytes at
            → (result ≡ Err (DecodeError.Malformed at)) × (into.new ≡ into.old) }

        ensures out_of_memory { IsErrOf result DecodeError.OutOfMemory
            → (self.new ≡ self.old) × (into.new ≡ into.old) }
        ensures count { UnlessOutOfMemory result
            (fed_count self.new ≡ fed_count self.old + length piece.now) }
    {
        self.take_piece(piece, into)
    }

    /// The code point of a piece that is one byte and a whole sequence, where no bytes are held and
    /// nothing was malformed before.
    #[inline(always)]
    fn lone(&self, piece: &[u8]) -> Option<u32>
        ensures { IfSome result (IsLone self.now piece.now) }
    {
        let [byte] = piece else {
            return None;
        };
        let code = u32::from(*byte);
        if code < self.lone_limit {
            Some(code)
        } else {
            None
        }
    }

    /// Takes a piece. A single byte that is a whole sequence takes the shortest way, which the caller
    /// has in place.
    #[inline(always)]
    #[tactic(auto, unfolding(crate::specs::Stream::fed_count))]
    fn take_piece(&mut self, piece: &[u8], into: &mut CodeList) -> Result<(), DecodeError>
        requires { fed_count self.old + length piece.now ≤ 2 ^ 32 }
        ensures feeds { (e : Encoding) (bytes : List ℕ) → HasRead self.old e bytes
            → Feeds e bytes piece.now into.old into.new self.new result }
        ensures out_of_memory { IsErrOf result DecodeError.OutOfMemory
            → (self.new ≡ self.old) × (into.new ≡ into.old) }
        ensures count { UnlessOutOfMemory result
            (fed_count self.new ≡ fed_count self.old + length piece.now) }
    {
        let Some(code) = self.lone(piece) else {
            return match self.take_step(piece, into) {
                Taken::All => Ok(()),
                Taken::OutOfMemory => Err(DecodeError::OutOfMemory),
                Taken::Nothing => self.take_any(piece, into),
            };
        };
        let Ok(()) = into.push(code) else {
            return Err(DecodeError::OutOfMemory);
        };
        self.fed += 1;
        self.state.settled += 1;
        Ok(())
    }

    /// What a piece of one byte makes of the held bytes, where nothing was malformed before.
    #[inline(always)]
    fn step(&self, piece: &[u8]) -> Step
        ensures { StepsFrom self.now piece.now result }
    {
        match self.malformed {
            Some(_) => Step::Other,
            None => step_of(&self.state, piece),
        }
    }

    /// Takes a single byte that ends a sequence or is held. Any other piece it leaves as it is.
    #[inline(never)]
    #[tactic(auto, unfolding(crate::specs::Stream::fed_count))]
    fn take_step(&mut self, piece: &[u8], into: &mut CodeList) -> Taken
        requires { fed_count self.old + length piece.now ≤ 2 ^ 32 }
        ensures feeds { (e : Encoding) (bytes : List ℕ) → HasRead self.old e bytes → MatchTaken result
            (Feeds e bytes piece.now into.old into.new self.new (Ok tt))
            (Feeds e bytes piece.now into.old into.new self.new (Err DecodeError.OutOfMemory)) ⊤ }
        ensures unchanged { MatchTaken result ⊤
            ((self.new ≡ self.old) × (into.new ≡ into.old))
            ((self.new ≡ self.old) × (into.new ≡ into.old)) }
        ensures count { MatchTaken result
            (fed_count self.new ≡ fed_count self.old + length piece.now) ⊤ ⊤ }
    {
        match self.step(piece) {
            Step::Whole(code) => {
                let Ok(()) = into.push(code) else {
                    return Taken::OutOfMemory;
                };
                let settled = self.state.settled + tail_len(self.state.tail) as u64 + 1;
                self.fed += 1;
                self.state.tail = Tail::Empty;
                self.state.settled = settled;
                self.lone_limit = lone_limit(self.state.form, self.state.tail);
                Taken::All
            }
            Step::Held(tail) => {
                self.fed += 1;
                self.state.tail = tail;
                self.lone_limit = 0;
                Taken::All
            }
            Step::Other => Taken::Nothing,
        }
    }

    #[inline(never)]
    #[tactic(auto, unfolding(crate::specs::Stream::fed_count))]
    fn take_any(&mut self, piece: &[u8], into: &mut CodeList) -> Result<(), DecodeError>
        requires { fed_count self.old + length piece.now ≤ 2 ^ 32 }
        ensures feeds { (e : Encoding) (bytes : List ℕ) → HasRead self.old e bytes
            → Feeds e bytes piece.now into.old into.new self.new result }
        ensures out_of_memory { IsErrOf result DecodeError.OutOfMemory
            → (self.new ≡ self.old) × (into.new ≡ into.old) }
        ensures count { UnlessOutOfMemory result
            (fed_count self.new ≡ fed_count self.old + length piece.now) }
    {
        let fed = self.fed + piece.len() as u64;
        if let Some(at) = self.malformed {
            self.fed = fed;
            return Err(DecodeError::Malformed { at });
        }
        let had = into.len();
        let Ok(next) = advance(self.state, piece, into) else {
            into.truncate(had);
            return Err(DecodeError::OutOfMemory);
        };
        self.fed = fed;
        self.state = next.state;
        self.malformed = next.malformed;
        match next.malformed {
            Some(at) => {
                self.lone_limit = 0;
                Err(DecodeError::Malformed { at })
            }
            None => {
                self.lone_limit = lone_limit(next.state.form, next.state.tail);
                Ok(())
            }
        }
    }

    /// Whether the bytes fed are a text in all. If they are not, because they were refused before or
    /// because they end inside a sequence, it refuses with the first malformed place. It takes no
    /// memory, and leaves the stream as it is, so that a later piece goes on from there.
    pub fn finish(&mut self) -> Result<(), DecodeError>
        ensures answer { (e : Encoding) (bytes : List ℕ) → HasRead self.old e bytes
            → result ≡ answer_of (decode e bytes) }
        // A text is the codes given.
        ensures whole { (e : Encoding) (bytes : List ℕ) → HasRead self.old e bytes
            → OnOk result (decode e bytes ≡ Ok (decoded_prefix e bytes)) }
        ensures unchanged { self.new ≡ self.old }
    {
        if let Some(at) = self.malformed {
            return Err(DecodeError::Malformed { at });
        }
        if tail_len(self.state.tail) != 0 {
            return Err(DecodeError::Malformed {
                at: self.state.settled,
            });
        }
        Ok(())
    }
}
