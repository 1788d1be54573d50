//! What comes of bytes in three pieces, for the tests.
ghost use Rattle.std.specs.Prelude.{◌≤◌, ◌+◌, ◌^◌, length};
ghost use Rattle.nfg_syn.specs.OwnTexts.{IsOwnPass};
ghost use Rattle.nfg_stream.specs.Stream.{fed_count};

use crate::{DecodeStream, LoadError};
use nfg_decode::Encoding;
use nfg_strand::NString;
use nfg_syn::{OwnPass, OwnTable};
use std::alloc::Global;
use std::process::Abort;
use std::test::Fail;

/// The graphemes are these, in one piece.
pub(crate) fn check_string(
    rt: &impl Abort,
    string: &NString,
    graphemes: &[i32],
) -> Result<(), Fail> {
    assert_eq!(rt; string.len(), graphemes.len() as u64);
    assert_eq!(rt; string.strands() > 0, string.len() > 0);
    assert!(rt; string.strands() <= 1);
    let mut k = 0;
    for grapheme in string.iter() {
        assert!(rt; k < graphemes.len());
        assert_eq!(rt; grapheme, graphemes[k]);
        k += 1;
    }
    assert_eq!(rt; k, graphemes.len());
    Ok(())
}

/// The bytes, cut at these two places, have these graphemes, or are refused so.
pub(crate) fn check_load(
    rt: &impl Abort,
    alloc: Global,
    table: &OwnTable,
    pass: &mut OwnPass,
    encoding: Encoding,
    bytes: &[u8],
    cuts: [usize; 2],
    graphemes: &[i32],
    refused: Option<LoadError>,
) -> Result<(), Fail>
    requires { IsOwnPass table.now pass.old }
    ensures { IsOwnPass table.now pass.new }
{
    match load(rt, alloc, table, pass, encoding, bytes, cuts)? {
        Ok(string) => {
            assert!(rt; refused.is_none());
            check_string(rt, &string, graphemes)
        }
        Err(error) => {
            assert_eq!(rt; refused, Some(error));
            Ok(())
        }
    }
}

/// What comes of the bytes, cut at these two places.
fn load(
    rt: &impl Abort,
    alloc: Global,
    table: &OwnTable,
    pass: &mut OwnPass,
    encoding: Encoding,
    bytes: &[u8],
    cuts: [usize; 2],
) -> Result<Result<NString, LoadError>, Fail>
    requires { IsOwnPass table.now pass.old }
    ensures { IsOwnPass table.now pass.new }
{
    let [first, second] = cuts;
    assert!(rt; first <= second);
    assert!(rt; second <= bytes.len());
    assert!(rt; bytes.len() < 1 << 20);
    let mut stream = DecodeStream::new(alloc, encoding);
    let _ = stream.feed(alloc, &bytes[..first]);
    let _ = stream.feed(alloc, &bytes[first..second]);
    let _ = stream.feed(alloc, &bytes[second..]);
    Ok(stream.finish(alloc, table, pass))
}

/// The bytes, each fed alone, have these graphemes.
pub(crate) fn check_each_byte(
    rt: &impl Abort,
    alloc: Global,
    table: &OwnTable,
    pass: &mut OwnPass,
    encoding: Encoding,
    bytes: &[u8],
    graphemes: &[i32],
) -> Result<(), Fail>
    requires { IsOwnPass table.now pass.old }
    ensures { IsOwnPass table.now pass.new }
{
    assert!(rt; bytes.len() < 1 << 20);
    let mut stream = DecodeStream::new(alloc, encoding);
    feed_all(alloc, &mut stream, bytes, 1)?;
    let string = stream.finish(alloc, table, pass)?;
    check_string(rt, &string, graphemes)
}

/// Feeds the bytes in pieces of `len`.
pub(crate) fn feed_all(
    alloc: Global,
    stream: &mut DecodeStream,
    bytes: &[u8],
    len: usize,
) -> Result<(), LoadError>
    requires { fed_count stream.old + length bytes.now ≤ 2 ^ 32 }
{
    let mut rest = bytes;
    while !rest.is_empty() {
        let (piece, after) = rest.split_at(rest.len().min(len.max(1)));
        stream.feed(alloc, piece)?;
        rest = after;
    }
    Ok(())
}
