//! Reading on from an unfinished sequence.

ghost use Rattle.std.specs.Prelude.{◌≡◌, ◌+◌, ◌≤◌, ◌++◌, length, IfOk, OnErr};
ghost use Rattle.nfg_decode.specs.Reads.{Grew, Reads, IsUnfinished};
ghost use Rattle.nfg_decode.specs.Reading.{as_encoding, ReadsOn};
ghost use Rattle.nfg_decode.specs.Tail.{bytes_of};

use crate::latin1::read_latin1;
use crate::reach::Reach;
use crate::tail::{Tail, fill_seam, tail_len, tail_of};
use crate::utf8::read_utf8;
use crate::utf16::{ByteOrder, read_utf16};
use nfg_text::CodeList;
use std::alloc::AllocError;

/// So many code points are made at a time, in a buffer on the stack.
const PART: usize = 1024;

/// A buffer for pieces of at most so many bytes, which costs less to clear.
const SHORT: usize = 16;

/// How bytes are read, once the order of the bytes is known.
#[derive(Clone, Copy, Debug)]
pub(crate) enum Form {
    Utf8,
    Utf16(ByteOrder),
    Latin1,
}

/// What a reading leaves: how many bytes were decoded, the unfinished bytes behind them, and whether
/// no sequence can begin there, whatever bytes follow.
#[derive(Clone, Copy, Debug)]
pub(crate) struct Reading {
    pub(crate) settled: usize,
    pub(crate) tail: Tail,
    pub(crate) is_malformed: bool,
}

/// Reads bytes from the start of a sequence.
fn read(
    form: Form,
    bytes: &[u8],
    codes: &mut [u32],
    into: &mut CodeList,
) -> Result<Reach, AllocError>
    requires { 4 ≤ length codes.old }
    ensures ok { IfOk result (λ reach.
        Reads (as_encoding form) bytes.now into.old into.new reach.at reach.is_malformed) }
    ensures err { OnErr result (Grew into.old into.new) }
{
    match form {
        Form::Utf8 => read_utf8(bytes, codes, into),
        Form::Utf16(order) => read_utf16(order, bytes, codes, into),
        Form::Latin1 => read_latin1(bytes, codes, into),
    }
}

/// The same, by a short buffer of its own.
fn read_short(form: Form, bytes: &[u8], into: &mut CodeList) -> Result<Reach, AllocError>
    ensures ok { IfOk result (λ reach.
        Reads (as_encoding form) bytes.now into.old into.new reach.at reach.is_malformed) }
    ensures err { OnErr result (Grew into.old into.new) }
{
    read(form, bytes, &mut [0; SHORT], into)
}

/// The same, by a long buffer: a function of its own, since it pays for the buffer when it begins.
#[inline(never)]
fn read_long(form: Form, bytes: &[u8], into: &mut CodeList) -> Result<Reach, AllocError>
    ensures ok { IfOk result (λ reach.
        Reads (as_encoding form) bytes.now into.old into.new reach.at reach.is_malformed) }
    ensures err { OnErr result (Grew into.old into.new) }
{
    read(form, bytes, &mut [0; PART], into)
}

/// The same, by the buffer that serves.
fn read_whole(form: Form, bytes: &[u8], into: &mut CodeList) -> Result<Reach, AllocError>
    ensures ok { IfOk result (λ reach.
        Reads (as_encoding form) bytes.now into.old into.new reach.at reach.is_malformed) }
    ensures err { OnErr result (Grew into.old into.new) }
{
    if bytes.len() <= SHORT {
        read_short(form, bytes, into)
    } else {
        read_long(form, bytes, into)
    }
}

/// Reads a piece from the start of a sequence, and holds back an unfinished one.
#[inline(never)]
fn read_piece(form: Form, piece: &[u8], into: &mut CodeList) -> Result<Reading, AllocError>
    ensures ok { IfOk result (ReadsOn (as_encoding form) piece.now into.old into.new) }
    ensures bound { IfOk result (λ reading.
        reading.settled + length (bytes_of reading.tail) ≤ length piece.now) }
    ensures err { OnErr result (Grew into.old into.new) }
{
    let reach = read_whole(form, piece, into)?;
    if reach.is_malformed {
        return Ok(Reading {
            settled: reach.at,
            tail: Tail::Empty,
            is_malformed: true,
        });
    }
    Ok(Reading {
        settled: reach.at,
        tail: tail_of(&piece[reach.at..]),
        is_malformed: false,
    })
}

/// Reads a piece behind an unfinished sequence. At most four bytes are copied: those held and the
/// first of the piece, until one sequence is whole.
pub(crate) fn read_on(
    form: Form,
    tail: Tail,
    piece: &[u8],
    into: &mut CodeList,
) -> Result<Reading, AllocError>
    ensures ok { IfOk result (λ reading. IsUnfinished (as_encoding form) (bytes_of tail)
        → ReadsOn (as_encoding form) (bytes_of tail ++ piece.now) into.old into.new reading) }
    ensures bound { IfOk result (λ reading. reading.settled + length (bytes_of reading.tail)
        ≤ length (bytes_of tail) + length piece.now) }
    ensures err { OnErr result (Grew into.old into.new) }
{
    let held = tail_len(tail);
    if held == 0 {
        return read_piece(form, piece, into);
    }
    let mut seam = [0; 4];
    let len = fill_seam(tail, piece, &mut seam);
    let over = read_piece(form, &seam[..len], into)?;
    if held + piece.len() == len {
        return Ok(over);
    }
    if over.settled == 0 {
        return Ok(over);
    }
    let used = over.settled.saturating_sub(held);
    let rest = read_piece(form, &piece[used..], into)?;
    Ok(Reading {
        settled: over.settled + rest.settled,
        tail: rest.tail,
        is_malformed: rest.is_malformed,
    })
}
