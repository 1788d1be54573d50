//! What no clause says: malformed tails and long clusters, and that each call succeeds with ample memory.
ghost use Rattle.nfg_syn.specs.OwnTexts.{IsOwnPass};

use crate::loads::{check_each_byte, check_load};
use crate::{DecodeStream, LoadError};
use nfg_decode::Encoding;
use nfg_syn::{OwnPass, OwnTable};
use nfg_text::ByteList;
use std::alloc::{AllocError, Global};
use std::process::Abort;
use std::test::Fail;

/// Bytes that are no text, and where the first malformed sequence begins.
static MALFORMED: [(Encoding, &[u8], u64); 8] = [
    (Encoding::Utf8, &[0x61, 0xCC], 1),
    (Encoding::Utf8, &[0x61, 0x80, 0x61], 1),
    (Encoding::Utf8, &[0xED, 0xA0, 0x80], 0),
    (Encoding::Utf8, &[0xC3, 0xA9, 0xF4, 0x90, 0x41], 2),
    (Encoding::Utf16Le, &[0x3D, 0xD8, 0x00], 0),
    (Encoding::Utf16Be, &[0x00, 0x41, 0xDC, 0x00, 0x00], 2),
    (Encoding::Utf16, &[0xFF, 0xFE, 0x3D, 0xD8, 0x41, 0x00], 2),
    (Encoding::Utf16Le, &[0x41, 0x00, 0x42], 2),
];

#[test]
fn malformed_bytes_are_refused_at_every_cut(rt: HostRuntime) -> Result<(), Fail> {
    let alloc = rt.alloc();
    let (table, mut pass) = OwnTable::new(alloc, 16)?;
    'rows: for (encoding, bytes, at) in MALFORMED {
        let refused = Some(LoadError::Malformed { at });
        check_refusals(&rt, alloc, &table, &mut pass, encoding, bytes, refused)?;
    }
    Ok(())
}

/// Two pieces, cut anywhere, are refused so.
fn check_refusals(
    rt: &impl Abort,
    alloc: Global,
    table: &OwnTable,
    pass: &mut OwnPass,
    encoding: Encoding,
    bytes: &[u8],
    refused: Option<LoadError>,
) -> Result<(), Fail>
    requires { IsOwnPass table.now pass.old }
    ensures { IsOwnPass table.now pass.new }
{
    'cuts: for first in 0..bytes.len() {
        check_load(
            rt,
            alloc,
            table,
            pass,
            encoding,
            bytes,
            [first, first],
            &[],
            refused,
        )?;
    }
    Ok(())
}

/// e, an acute accent and q in UTF-16: with the mark in either order, and with none, which is the high byte first.
static MARKED: [&[u8]; 3] = [
    &[0xFF, 0xFE, 0x65, 0x00, 0x01, 0x03, 0x71, 0x00],
    &[0xFE, 0xFF, 0x00, 0x65, 0x03, 0x01, 0x00, 0x71],
    &[0x00, 0x65, 0x03, 0x01, 0x00, 0x71],
];

#[test]
fn a_mark_tells_the_order_at_every_cut(rt: HostRuntime) -> Result<(), Fail> {
    let alloc = rt.alloc();
    let (table, mut pass) = OwnTable::new(alloc, 16)?;
    'rows: for bytes in MARKED {
        check_marked(&rt, alloc, &table, &mut pass, bytes)?;
    }
    Ok(())
}

/// The bytes in UTF-16 are two graphemes, byte by byte and at each cut into two pieces.
fn check_marked(
    rt: &impl Abort,
    alloc: Global,
    table: &OwnTable,
    pass: &mut OwnPass,
    bytes: &[u8],
) -> Result<(), Fail>
    requires { IsOwnPass table.now pass.old }
    ensures { IsOwnPass table.now pass.new }
{
    let graphemes = [0xE9, 0x71];
    let utf16 = Encoding::Utf16;
    check_each_byte(rt, alloc, table, pass, utf16, bytes, &graphemes)?;
    'cuts: for first in 0..bytes.len() {
        let cuts = [first, first];
        check_load(rt, alloc, table, pass, utf16, bytes, cuts, &graphemes, None)?;
    }
    Ok(())
}

/// The letter q and so many acute accents, and then the letter r, in UTF-8.
fn accented(alloc: Global, count: usize) -> Result<ByteList, AllocError> {
    let mut bytes = ByteList::from_slice(alloc, &[0x71])?;
    for _ in 0..count {
        bytes.append(&[0xCC, 0x81])?;
    }
    bytes.append(&[0x72])?;
    Ok(bytes)
}

/// The letter and so many accents, cut at each of these places.
fn check_accented(
    rt: &impl Abort,
    alloc: Global,
    count: usize,
    graphemes: &[i32],
    refused: Option<LoadError>,
) -> Result<(), Fail> {
    let (table, mut pass) = OwnTable::new(alloc, 16)?;
    let bytes = accented(alloc, count)?;
    'cuts: for first in CUTS {
        let cuts = [first, first];
        let utf8 = Encoding::Utf8;
        check_load(
            rt,
            alloc,
            &table,
            &mut pass,
            utf8,
            bytes.as_slice(),
            cuts,
            graphemes,
            refused,
        )?;
    }
    Ok(())
}

/// Where a text of 2,048 bytes or two more is cut: at its ends, and inside accents and between them.
static CUTS: [usize; 14] = [
    0, 1, 2, 3, 256, 511, 768, 1023, 1024, 1535, 2045, 2046, 2047, 2048,
];

#[test]
fn a_cluster_of_1024_code_points_is_not_too_long(rt: HostRuntime) -> Result<(), Fail> {
    check_accented(&rt, rt.alloc(), 1023, &[-2, 0x72], None)
}

#[test]
fn a_cluster_of_1025_code_points_is_too_long(rt: HostRuntime) -> Result<(), Fail> {
    let refused = Some(LoadError::ClusterLong { at: 0 });
    check_accented(&rt, rt.alloc(), 1024, &[], refused)
}

#[test]
fn what_is_malformed_behind_a_long_cluster_is_malformed(rt: HostRuntime) -> Result<(), Fail> {
    let alloc = rt.alloc();
    let (table, mut pass) = OwnTable::new(alloc, 16)?;
    let mut bytes = accented(alloc, 1100)?;
    bytes.append(&[0xCC])?;
    let refused = Some(LoadError::Malformed { at: 2202 });
    check_refusals(
        &rt,
        alloc,
        &table,
        &mut pass,
        Encoding::Utf8,
        bytes.as_slice(),
        refused,
    )
}

#[test]
fn a_piece_over_64_kib_is_read_in_parts(rt: HostRuntime) -> Result<(), Fail> {
    let alloc = rt.alloc();
    let (table, mut pass) = OwnTable::new(alloc, 16)?;
    let mut bytes = ByteList::new(alloc);
    for _ in 0..70_000 {
        bytes.append(&[0x65, 0xCC, 0x81])?;
    }
    let mut stream = DecodeStream::new(alloc, Encoding::Utf8);
    assert!(rt; bytes.len() == 210_000);
    stream.feed(alloc, bytes.as_slice())?;
    let string = stream.finish(alloc, &table, &mut pass)?;
    assert_eq!(rt; string.len(), 70_000);
    for grapheme in string.iter() {
        assert_eq!(rt; grapheme, 0xE9);
    }
    Ok(())
}

#[test]
fn a_refusal_stays(rt: HostRuntime) -> Result<(), Fail> {
    let alloc = rt.alloc();
    let mut stream = DecodeStream::new(alloc, Encoding::Utf8);
    assert!(rt; stream.feed(alloc, &[0x61, 0xE2, 0x82]).is_ok());
    assert_eq!(rt;
        stream.feed(alloc, &[0x61]).err(),
        Some(LoadError::Malformed { at: 1 })
    );
    assert_eq!(rt;
        stream.feed(alloc, &[0xAC]).err(),
        Some(LoadError::Malformed { at: 1 })
    );
    let (table, mut pass) = OwnTable::new(alloc, 16)?;
    let answer = stream.finish(alloc, &table, &mut pass);
    assert_eq!(rt; answer.err(), Some(LoadError::Malformed { at: 1 }));
    Ok(())
}

fn is_send<T: Send>(_: &T) {}

fn is_sync<T: Sync>(_: &T) {}

#[test]
fn streams_and_errors_go_between_threads(rt: HostRuntime) -> Result<(), Fail> {
    is_send(&DecodeStream::new(rt.alloc(), Encoding::Utf8));
    is_send(&LoadError::RowFull);
    is_sync(&LoadError::RowFull);
    Ok(())
}
