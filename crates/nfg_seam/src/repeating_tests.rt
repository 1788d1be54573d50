//! What no clause says: that calls succeed with ample memory, and rows from outside.
ghost use Rattle.std.specs.Prelude.{◌≡◌, List, ℕ, IfOk};
ghost use Rattle.nfg_syn.specs.OwnTexts.{IsOwnPass, known_of, seen_of};
ghost use Rattle.nfg_syn.specs.Seen.{Keeps};
ghost use Rattle.nfg_syn.specs.Represents.{AreGraphemes};
ghost use Rattle.nfg_text.specs.Text.{IsText};

use crate::repeated_text::number_repeated;
use crate::spelled_text::{graphemes_of, spelled};
use crate::{SeamError, repeat};
use nfg_strand::{NString, Piece};
use nfg_syn::{OwnPass, OwnTable};
use nfg_text::{CodeList, cluster_ends, is_text, nfc_of};
use std::alloc::Global;
use std::process::Abort;
use std::test::Fail;

// The graphemes of a text in one piece.
pub(crate) fn string_of(
    rt: &impl Abort,
    alloc: Global,
    table: &OwnTable,
    pass: &mut OwnPass,
    text: &[u32],
) -> Result<NString, SeamError>
    requires { IsOwnPass table.now pass.old }
    ensures table { IsOwnPass table.now pass.new }
    ensures keeps { Keeps (seen_of pass.old) (seen_of pass.new) }
    ensures graphemes { IfOk result (λ made. AreGraphemes (known_of pass.new.texts) made.graphemes) }
{
    assert!(rt; is_text(text));
    let numbers = number_repeated(alloc, table, pass, text, 1)?;
    assert!(rt; numbers.len() < 1_000_000);
    Ok(NString::from_vec(alloc, numbers)?)
}

// The string, so many times over.
fn repeated(
    rt: &impl Abort,
    alloc: Global,
    table: &OwnTable,
    pass: &mut OwnPass,
    text: &[u32],
    n: u64,
) -> Result<NString, SeamError>
    requires { IsOwnPass table.now pass.old }
    ensures table { IsOwnPass table.now pass.new }
    ensures graphemes { IfOk result (λ made. AreGraphemes (known_of pass.new.texts) made.graphemes) }
{
    let string = string_of(rt, alloc, table, pass, text)?;
    repeat(alloc, table, pass, &string, n)
}

// Compares a repetition with the clusters of the text's NFC.
fn check_repeated(
    rt: &impl Abort,
    alloc: Global,
    table: &OwnTable,
    pass: &mut OwnPass,
    text: &[u32],
    n: u64,
) -> Result<(), SeamError>
    requires { IsOwnPass table.now pass.old }
    ensures { IsOwnPass table.now pass.new }
{
    let made = repeated(rt, alloc, table, pass, text, n)?;
    let mut joined = CodeList::new(alloc);
    for _copy in 0..n {
        joined.append(text)?;
    }
    check_graphemes(rt, alloc, table, pass, &made, joined.as_slice())
}

// Compares a string with the clusters of the text's NFC: their number, and each one's end and code points.
pub(crate) fn check_graphemes(
    rt: &impl Abort,
    alloc: Global,
    table: &OwnTable,
    pass: &mut OwnPass,
    made: &NString,
    text: &[u32],
) -> Result<(), SeamError>
    requires table { IsOwnPass table.now pass.old }
    requires graphemes { AreGraphemes (known_of pass.old.texts) made.now.graphemes }
    ensures { IsOwnPass table.now pass.new }
{
    let numbers = graphemes_of(alloc, made)?;
    assert!(rt; is_text(text));
    let composed = nfc_of(alloc, text)?;
    let ends = cluster_ends(alloc, composed.as_slice())?;
    assert_eq!(rt; numbers.len(), ends.len());
    for k in 0..numbers.len() {
        let codes = spelled(alloc, table, pass, &numbers[..k + 1])?;
        assert!(rt; k < ends.len());
        let end = ends.as_slice()[k];
        assert!(rt; end <= composed.len());
        assert_eq!(rt; codes.as_slice(), &composed.as_slice()[..end]);
    }
    Ok(())
}

#[test]
fn repetitions_are_cut_as_their_texts_are(rt: HostRuntime) -> Result<(), Fail> {
    let alloc = rt.alloc();
    let (table, mut pass) = OwnTable::new(alloc, 1024)?;
    for text in TEXTS {
        for n in 0..6u64 {
            let answer = check_repeated(&rt, alloc, &table, &mut pass, text, n);
            assert!(rt; answer.is_ok(), "{n}");
        }
    }
    Ok(())
}

const TEXTS: [&[u32]; 28] = [
    &[],
    &[0x61],
    &[0x61, 0x62, 0x63],
    &[0x301],
    &[0x65, 0x301],
    &[0x301, 0x61],
    &[0x61, 0x323, 0x301],
    &[0x1100],
    &[0x1161],
    &[0x11A8],
    &[0x1100, 0x1161],
    &[0x1161, 0x1100],
    &[0xAC00, 0x11A8],
    &[0x11A8, 0xAC00],
    &[0x1F1E6],
    &[0x1F1E6, 0x1F1E7],
    &[0x1F1E6, 0x1F1E7, 0x1F1E8],
    &[0x61, 0x1F1E6],
    &[0x1F1E6, 0x61],
    &[0x915, 0x94D],
    &[0x94D, 0x915],
    &[0x1F600, 0x200D],
    &[0x61, 0x1F600, 0x200D],
    &[0x600, 0x61],
    &[0x61, 0x600],
    &[0xD],
    &[0xA, 0xD],
    &[0x338, 0x2194],
];

// Compares the pieces of a repetition.
fn check_piece(
    rt: &impl Abort,
    alloc: Global,
    table: &OwnTable,
    pass: &mut OwnPass,
    text: &[u32],
    n: u64,
    piece: Piece,
) -> Result<(), SeamError>
    requires { IsOwnPass table.now pass.old }
    ensures { IsOwnPass table.now pass.new }
{
    let made = repeated(rt, alloc, table, pass, text, n)?;
    assert_eq!(rt; made.strands(), 1);
    assert_eq!(rt; made.piece(0), piece);
    Ok(())
}

#[test]
fn what_comes_again_is_one_piece(rt: HostRuntime) -> Result<(), Fail> {
    let alloc = rt.alloc();
    let (table, mut pass) = OwnTable::new(alloc, 16)?;
    for (text, n, length, times, narrow) in PIECES {
        let piece = Piece {
            length,
            times,
            narrow,
        };
        let answer = check_piece(&rt, alloc, &table, &mut pass, text, n, piece);
        assert!(rt; answer.is_ok(), "{n}");
    }
    Ok(())
}

const PIECES: [(&[u32], u64, u64, u64, bool); 7] = [
    (&[0x61, 0x62, 0x63], 4, 3, 4, true),
    (&[0x61, 0x62, 0x63], 1, 3, 1, true),
    (&[0x1F1E6, 0x1F1E7, 0x1F1E8], 2, 3, 1, false),
    (&[0x1F1E6], 3, 2, 1, false),
    (&[0x1F1E6, 0x1F1E7], 5, 1, 5, false),
    (&[0x65, 0x301], 3, 1, 3, false),
    (&[0x61, 0x1100, 0x1161, 0x301], 3, 2, 3, false),
];

#[test]
fn a_mark_that_grows_too_long_is_refused(rt: HostRuntime) -> Result<(), Fail> {
    let alloc = rt.alloc();
    let (table, mut pass) = OwnTable::new(alloc, 16)?;
    let grown = repeated(&rt, alloc, &table, &mut pass, &[0x301], 1025);
    assert_eq!(rt; grown.err(), Some(SeamError::ClusterLong { at: 0 }));
    let fits = repeated(&rt, alloc, &table, &mut pass, &[0x301], 1024);
    assert!(rt; fits.is_ok());
    let many = repeated(&rt, alloc, &table, &mut pass, &[0x61], 67_108_865);
    assert_eq!(rt; many.err(), Some(SeamError::TooLong));
    let most = repeated(&rt, alloc, &table, &mut pass, &[0x61], 67_108_864);
    assert!(rt; most.is_ok());
    Ok(())
}

#[test]
fn half_flags_pair_up(rt: HostRuntime) -> Result<(), Fail> {
    let alloc = rt.alloc();
    let (table, mut pass) = OwnTable::new(alloc, 16)?;
    match repeated(&rt, alloc, &table, &mut pass, &[0x1F1E6], 4_194_305) {
        Ok(made) => {
            assert_eq!(rt; made.len(), 2_097_153);
            assert_eq!(rt; made.get(0), made.get(2_097_151));
            assert_eq!(rt; made.get(2_097_152), 0x1F1E6);
            Ok(())
        }
        Err(_) => Err("not repeated")?,
    }
}
