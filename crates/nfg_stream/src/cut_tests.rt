//! Rows from outside, in each encoding and at every cut.
ghost use Rattle.std.specs.Prelude.{◌<◌, length};
ghost use Rattle.nfg_syn.specs.OwnTexts.{IsOwnPass};

use crate::loads::{check_each_byte, check_load, check_string};
use crate::rows::ROWS;
use crate::spelled::encoded;
use crate::string_of;
use nfg_decode::Encoding;
use nfg_syn::{OwnPass, OwnTable, Synthetics};
use nfg_text::is_text;
use std::alloc::Global;
use std::process::Abort;
use std::test::Fail;

static ENCODINGS: [Encoding; 5] = [
    Encoding::Utf8,
    Encoding::Utf16,
    Encoding::Utf16Le,
    Encoding::Utf16Be,
    Encoding::Latin1,
];

#[test]
fn hard_texts_have_their_graphemes_at_every_cut(rt: HostRuntime) -> Result<(), Fail> {
    let alloc = rt.alloc();
    let (table, mut pass) = OwnTable::new(alloc, 16)?;
    'rows: for (text, clusters) in ROWS {
        let graphemes = numbers_of(&rt, alloc, &table, &mut pass, clusters)?;
        check_text(&rt, alloc, &table, &mut pass, text, &graphemes)?;
        'encodings: for encoding in ENCODINGS {
            check_encoding(&rt, alloc, &table, &mut pass, encoding, text, &graphemes)?;
        }
    }
    Ok(())
}

/// The numbers of the clusters.
fn numbers_of(
    rt: &impl Abort,
    alloc: Global,
    table: &OwnTable,
    pass: &mut OwnPass,
    clusters: &[&[u32]],
) -> Result<Vec<i32>, Fail>
    requires { IsOwnPass table.now pass.old }
    ensures { IsOwnPass table.now pass.new }
{
    let mut numbers = Vec::new(alloc);
    'clusters: for cluster in clusters {
        numbers.push(number_of(rt, alloc, table, pass, cluster)?)?;
    }
    Ok(numbers)
}

fn number_of(
    rt: &impl Abort,
    alloc: Global,
    table: &OwnTable,
    pass: &mut OwnPass,
    cluster: &[u32],
) -> Result<i32, Fail>
    requires { IsOwnPass table.now pass.old }
    ensures { IsOwnPass table.now pass.new }
{
    assert!(rt; is_text(cluster));
    assert!(rt; cluster.len() > 0);
    assert!(rt; cluster.len() <= 1024);
    if cluster.len() == 1 {
        return Ok(cluster[0] as i32);
    }
    match table.intern(alloc, pass, cluster) {
        Ok(number) => Ok(number),
        Err(_) => Err("not interned")?,
    }
}

/// The text as a whole.
fn check_text(
    rt: &impl Abort,
    alloc: Global,
    table: &OwnTable,
    pass: &mut OwnPass,
    text: &[u32],
    graphemes: &[i32],
) -> Result<(), Fail>
    requires { IsOwnPass table.now pass.old }
    ensures { IsOwnPass table.now pass.new }
{
    assert!(rt; is_text(text));
    match string_of(alloc, table, pass, text) {
        Ok(string) => check_string(rt, &string, graphemes),
        Err(_) => Err("refused")?,
    }
}

/// The text in this encoding, unless it lacks a code point, byte by byte, and at each cut into two and three pieces.
fn check_encoding(
    rt: &impl Abort,
    alloc: Global,
    table: &OwnTable,
    pass: &mut OwnPass,
    encoding: Encoding,
    text: &[u32],
    graphemes: &[i32],
) -> Result<(), Fail>
    requires { IsOwnPass table.now pass.old }
    ensures { IsOwnPass table.now pass.new }
{
    if let Some(list) = encoded(alloc, encoding, text)? {
        let bytes = list.as_slice();
        check_each_byte(rt, alloc, table, pass, encoding, bytes, graphemes)?;
        'cuts: for first in 0..bytes.len() + 1 {
            check_cuts(rt, alloc, table, pass, encoding, bytes, first, graphemes)?;
        }
    }
    Ok(())
}

/// Three pieces, of which the first ends at `first`; short texts have the second end anywhere.
fn check_cuts(
    rt: &impl Abort,
    alloc: Global,
    table: &OwnTable,
    pass: &mut OwnPass,
    encoding: Encoding,
    bytes: &[u8],
    first: usize,
    graphemes: &[i32],
) -> Result<(), Fail>
    requires { IsOwnPass table.now pass.old }
    ensures { IsOwnPass table.now pass.new }
{
    let last = if bytes.len() <= 12 {
        bytes.len()
    } else {
        first
    };
    'cuts: for second in first..last {
        check_load(
            rt,
            alloc,
            table,
            pass,
            encoding,
            bytes,
            [first, second],
            graphemes,
            None,
        )?;
    }
    check_load(
        rt,
        alloc,
        table,
        pass,
        encoding,
        bytes,
        [first, last],
        graphemes,
        None,
    )
}
