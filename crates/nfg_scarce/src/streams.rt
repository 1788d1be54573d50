//! Streams of bytes.
use crate::outcome::{Outcome, print, refused};
use nfg_decode::{ByteStream, Encoding};
use nfg_stream::{DecodeStream, LoadError};
use nfg_syn::OwnTable;
use nfg_text::CodeList;
use std::alloc::{AllocError, Global};
use std::io;

/// A text of clusters of several code points, and of one.
const TEXT: &str = "e\u{301}q\u{323}\r\n\u{1F1E9}\u{1F1F0} plain";

/// Where a piece is refused, no code point of it was given, and it may be fed again.
fn decode(alloc: Global) -> Result<Outcome, AllocError> {
    let mut stream = ByteStream::new(Encoding::Utf8);
    let mut codes = CodeList::new(alloc);
    match stream.feed(alloc, TEXT.as_bytes(), &mut codes) {
        Ok(()) => Ok(Outcome::Done),
        Err(_) => {
            let is_empty = codes.is_empty();
            let fed = stream.feed(alloc, TEXT.as_bytes(), &mut codes).is_ok();
            Ok(refused(is_empty && fed && codes.len() == 14))
        }
    }
}

/// Where a stream is refused, it answers that again.
fn load(alloc: Global) -> Result<Outcome, AllocError> {
    let (table, mut pass) = OwnTable::new(alloc, 16)?;
    let mut stream = DecodeStream::new(alloc, Encoding::Utf8);
    match stream.feed(alloc, TEXT.as_bytes()) {
        Ok(()) => match stream.finish(alloc, &table, &mut pass) {
            Ok(_) => Ok(Outcome::Done),
            Err(error) => Ok(refused(error == LoadError::OutOfMemory)),
        },
        Err(error) => {
            let again = stream.feed(alloc, b"x");
            Ok(refused(error == LoadError::OutOfMemory && again == Err(error)))
        }
    }
}

pub(crate) fn report(rt: &impl Print, alloc: Global) -> io::Result<()> {
    print(rt, "ByteStream::feed", decode(alloc))?;
    print(rt, "DecodeStream::feed, finish", load(alloc))
}
