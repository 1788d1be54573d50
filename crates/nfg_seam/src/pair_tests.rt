//! Hard texts, joined in pairs and in threes, and the clusters of what is joined.
ghost use Rattle.std.specs.Prelude.{IfOk};
ghost use Rattle.nfg_syn.specs.OwnTexts.{IsOwnPass, known_of, seen_of};
ghost use Rattle.nfg_syn.specs.Seen.{Keeps};
ghost use Rattle.nfg_syn.specs.Represents.{AreGraphemes};

use crate::repeating_tests::{check_graphemes, string_of};
use crate::{SeamError, concat};
use nfg_strand::NString;
use nfg_syn::{OwnPass, OwnTable};
use nfg_text::{CodeList, cluster_ends, is_text, nfc_of};
use std::alloc::Global;
use std::process::Abort;
use std::test::Fail;

// The most code points of a cluster.
const CLUSTER_LIMIT: usize = 1024;

// A row's code points, the last one as often as the row says.
fn text_of(alloc: Global, row: &Row) -> Result<CodeList, SeamError> {
    let (codes, count) = *row;
    let mut text = CodeList::from_slice(alloc, codes)?;
    if codes.len() > 0 {
        let last = codes[codes.len() - 1];
        'copies: for _copy in 1..count {
            text.push(last)?;
        }
    }
    Ok(text)
}

// The strings of two texts, joined.
fn joined(
    rt: &impl Abort,
    alloc: Global,
    table: &OwnTable,
    pass: &mut OwnPass,
    first: &[u32],
    second: &[u32],
) -> Result<NString, SeamError>
    requires { IsOwnPass table.now pass.old }
    ensures table { IsOwnPass table.now pass.new }
    ensures keeps { Keeps (seen_of pass.old) (seen_of pass.new) }
    ensures graphemes { IfOk result (λ made. AreGraphemes (known_of pass.new.texts) made.graphemes) }
{
    let left = string_of(rt, alloc, table, pass, first)?;
    let right = string_of(rt, alloc, table, pass, second)?;
    concat(alloc, table, pass, &left, &right)
}

// The strings of three texts, the first two joined first.
fn joined_three(
    rt: &impl Abort,
    alloc: Global,
    table: &OwnTable,
    pass: &mut OwnPass,
    first: &[u32],
    second: &[u32],
    third: &[u32],
) -> Result<NString, SeamError>
    requires { IsOwnPass table.now pass.old }
    ensures table { IsOwnPass table.now pass.new }
    ensures graphemes { IfOk result (λ made. AreGraphemes (known_of pass.new.texts) made.graphemes) }
{
    let left = joined(rt, alloc, table, pass, first, second)?;
    let right = string_of(rt, alloc, table, pass, third)?;
    concat(alloc, table, pass, &left, &right)
}

// The number of the first cluster of the text's NFC of over 1,024 code points.
fn first_long(rt: &impl Abort, alloc: Global, text: &[u32]) -> Result<Option<u64>, SeamError> {
    assert!(rt; is_text(text));
    let composed = nfc_of(alloc, text)?;
    let ends = cluster_ends(alloc, composed.as_slice())?;
    let mut start = 0;
    'clusters: for k in 0..ends.len() {
        let end = ends.as_slice()[k];
        if end.saturating_sub(start) > CLUSTER_LIMIT {
            return Ok(Some(k as u64));
        }
        start = end;
    }
    Ok(None)
}

// Compares two joined texts with the clusters of the NFC of both in a row, or the refusal with the first
// one that is too long.
fn check_pair(
    rt: &impl Abort,
    alloc: Global,
    table: &OwnTable,
    pass: &mut OwnPass,
    first: &[u32],
    second: &[u32],
) -> Result<(), SeamError>
    requires { IsOwnPass table.now pass.old }
    ensures { IsOwnPass table.now pass.new }
{
    let mut whole = CodeList::from_slice(alloc, first)?;
    whole.append(second)?;
    match joined(rt, alloc, table, pass, first, second) {
        Ok(made) => check_graphemes(rt, alloc, table, pass, &made, whole.as_slice()),
        Err(SeamError::ClusterLong { at }) => {
            assert_eq!(rt; first_long(rt, alloc, whole.as_slice())?, Some(at));
            Ok(())
        }
        Err(error) => Err(error),
    }
}

// Joins the text of a row with that of each row.
fn check_row(
    rt: &impl Abort,
    alloc: Global,
    table: &OwnTable,
    pass: &mut OwnPass,
    row: &Row,
) -> Result<(), SeamError>
    requires { IsOwnPass table.now pass.old }
    ensures { IsOwnPass table.now pass.new }
{
    let first = text_of(alloc, row)?;
    'rows: for other in TEXTS {
        let second = text_of(alloc, &other)?;
        check_pair(rt, alloc, table, pass, first.as_slice(), second.as_slice())?;
    }
    Ok(())
}

#[test]
fn pairs_are_cut_as_their_texts_are(rt: HostRuntime) -> Result<(), Fail> {
    let alloc = rt.alloc();
    let (table, mut pass) = OwnTable::new(alloc, 4096)?;
    'rows: for row in TEXTS {
        let answer = check_row(&rt, alloc, &table, &mut pass, &row);
        assert_eq!(rt; answer, Ok(()));
    }
    Ok(())
}

// Compares three joined texts with the clusters of the NFC of all in a row.
fn check_three(
    rt: &impl Abort,
    alloc: Global,
    table: &OwnTable,
    pass: &mut OwnPass,
    first: &[u32],
    second: &[u32],
    third: &[u32],
) -> Result<(), SeamError>
    requires { IsOwnPass table.now pass.old }
    ensures { IsOwnPass table.now pass.new }
{
    let made = joined_three(rt, alloc, table, pass, first, second, third)?;
    let mut whole = CodeList::from_slice(alloc, first)?;
    whole.append(second)?;
    whole.append(third)?;
    check_graphemes(rt, alloc, table, pass, &made, whole.as_slice())
}

// Joins two texts with each of the short ones.
fn check_more(
    rt: &impl Abort,
    alloc: Global,
    table: &OwnTable,
    pass: &mut OwnPass,
    first: &[u32],
    second: &[u32],
) -> Result<(), SeamError>
    requires { IsOwnPass table.now pass.old }
    ensures { IsOwnPass table.now pass.new }
{
    'rows: for third in SHORT {
        check_three(rt, alloc, table, pass, first, second, third)?;
    }
    Ok(())
}

#[test]
fn threes_are_cut_as_their_texts_are(rt: HostRuntime) -> Result<(), Fail> {
    let alloc = rt.alloc();
    let (table, mut pass) = OwnTable::new(alloc, 4096)?;
    'firsts: for first in SHORT {
        'seconds: for second in SHORT {
            let answer = check_more(&rt, alloc, &table, &mut pass, first, second);
            assert_eq!(rt; answer, Ok(()));
        }
    }
    Ok(())
}

const SHORT: [&[u32]; 14] = [
    &[],
    &[0x61],
    &[0x301],
    &[0x323],
    &[0xD],
    &[0xA],
    &[0x1F1E6],
    &[0x1100],
    &[0x1161],
    &[0x11A8],
    &[0x200D],
    &[0x1F600],
    &[0x2194],
    &[0x338],
];

// Code points, and how often the last of them stands.
type Row = (&'static [u32], usize);

const TEXTS: [Row; 89] = [
    (&[], 1),
    (&[0x61], 1),
    (&[0x61, 0x62], 1),
    (&[0xA], 1),
    (&[0xD], 1),
    (&[0xD, 0xA], 1),
    (&[0xA, 0xD], 1),
    (&[0x61, 0xD], 1),
    (&[0xA, 0x61], 1),
    (&[0x0], 1),
    (&[0x200B], 1),
    (&[0xAD, 0x61], 1),
    (&[0x7F, 0x301], 1),
    (&[0x301], 1),
    (&[0x323], 1),
    (&[0x323, 0x301], 1),
    (&[0x301, 0x323], 1),
    (&[0x61, 0x301], 1),
    (&[0x65, 0x301], 1),
    (&[0x61, 0x323, 0x301], 1),
    (&[0x61, 0x71, 0x307], 1),
    (&[0x307, 0x323], 1),
    (&[0x323, 0x62], 1),
    (&[0x345], 1),
    (&[0x3B1, 0x345], 1),
    (&[0x334], 1),
    (&[0x338], 1),
    (&[0x2194], 1),
    (&[0x2194, 0x338], 1),
    (&[0x338, 0x2194], 1),
    (&[0x1F600, 0x200D, 0x2194], 1),
    (&[0x1F600, 0x200D], 1),
    (&[0x1F600], 1),
    (&[0x200D], 1),
    (&[0x200D, 0x1F600], 1),
    (&[0x1F3FB], 1),
    (&[0x1F44B, 0x1F3FB], 1),
    (&[0x1F44B], 1),
    (&[0x1F468, 0x200D, 0x1F469], 1),
    (&[0x61, 0x1F600, 0x200D], 1),
    (&[0xFE0F], 1),
    (&[0x2764, 0xFE0F, 0x200D], 1),
    (&[0x200C, 0x61], 1),
    (&[0x1100], 1),
    (&[0x1161], 1),
    (&[0x11A8], 1),
    (&[0x1100, 0x1161], 1),
    (&[0xAC00], 1),
    (&[0xAC01], 1),
    (&[0x11A8, 0xAC00], 1),
    (&[0x1161, 0x11A8], 1),
    (&[0xA960], 1),
    (&[0xD7B0], 1),
    (&[0xD7CB], 1),
    (&[0x1100, 0x301], 1),
    (&[0x1F1E6], 1),
    (&[0x1F1E6, 0x1F1E7], 1),
    (&[0x1F1E6, 0x1F1E7, 0x1F1E8], 1),
    (&[0x61, 0x1F1E6], 1),
    (&[0x1F1E6, 0x61], 1),
    (&[0x1F1E6, 0x301], 1),
    (&[0x200D, 0x1F1E6], 1),
    (&[0x1F1E6], 40),
    (&[0x1F1E6], 41),
    (&[0x915], 1),
    (&[0x915, 0x94D], 1),
    (&[0x94D, 0x937], 1),
    (&[0x937], 1),
    (&[0x915, 0x93C], 1),
    (&[0x915, 0x94D, 0x200D], 1),
    (&[0x94D], 1),
    (&[0x93C, 0x94D], 1),
    (&[0x9C7], 1),
    (&[0x9BE], 1),
    (&[0x600], 1),
    (&[0x600, 0x61], 1),
    (&[0x61, 0x600], 1),
    (&[0x110BD], 1),
    (&[0xE33], 1),
    (&[0xF73], 1),
    (&[0x212B], 1),
    (&[0x41, 0x30A], 1),
    (&[0x61, 0x338], 1022),
    (&[0x61, 0x338], 1023),
    (&[0x301], 1023),
    (&[0x301], 1024),
    (&[0x1100], 1023),
    (&[0x1100], 1024),
    (&[0x61, 0x62, 0x327], 1023),
];
