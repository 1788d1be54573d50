//! The plain way to load a text: decoded whole, composed whole, cut whole, and each cluster numbered.
ghost use Rattle.std.specs.Prelude.{◌≡◌, ◌^◌, ◌≤◌, length, Ok, IfOk, IfSome, IsOkAnd};
ghost use Rattle.nfg_text.specs.Text.{IsText};
ghost use Rattle.nfg_text.specs.Graphemes.{graphemes_of};
ghost use Rattle.nfg_decode.specs.declared.encoding.Encoding.TheVariants.{Utf8};
ghost use Rattle.nfg_decode.specs.Encoding.{decode};
ghost use Rattle.nfg_syn.specs.OwnTexts.{IsOwnPass};

use nfg_decode::{ByteStream, Encoding, laws};
use nfg_syn::{OwnPass, OwnTable, Synthetics};
use nfg_text::{CodeList, cluster_ends, nfc_of};
use std::alloc::{AllocError, Global};

/// The places of a table.
const PLACES: u32 = 1 << 16;

/// A new table and its pass.
pub fn new_table(alloc: Global) -> Result<(OwnTable, OwnPass), AllocError>
    ensures { IfOk result (λ made. IsOwnPass made.0 made.1) }
{
    OwnTable::new(alloc, PLACES)
}

/// The code points of bytes in UTF-8, if they are a text and there is memory for it.
fn decoded(alloc: Global, bytes: &[u8]) -> Option<CodeList>
    requires { length bytes.now ≤ 2 ^ 32 }
    ensures codes { IfSome result (λ codes. decode Utf8 bytes.now ≡ Ok codes) }
    ensures text { IfSome result (λ codes. IsText codes) }
{
    laws::decoded_codes_are_a_text();
    let mut into = CodeList::new(alloc);
    let mut stream = ByteStream::new(Encoding::Utf8);
    let Ok(()) = stream.feed(alloc, bytes, &mut into) else {
        return None;
    };
    match stream.finish() {
        Ok(()) => Some(into),
        Err(_) => None,
    }
}

/// The number of a cluster: its code point where it has one alone, else the table's number. It is 0
/// where there is none.
fn number_of(alloc: Global, table: &OwnTable, pass: &mut OwnPass, cluster: &[u32]) -> i32
    requires text { IsText cluster.now }
    requires table { IsOwnPass table.now pass.old }
    ensures table { IsOwnPass table.now pass.new }
{
    if cluster.len() == 1 {
        return cluster[0] as i32;
    }
    if cluster.len() < 2 {
        return 0;
    }
    if cluster.len() > 1024 {
        return 0;
    }
    table.intern(alloc, pass, cluster).unwrap_or(0)
}

/// The numbers of the clusters that end so, one for each end. It is 0 where an end is none of the
/// text.
fn numbers_of(
    alloc: Global,
    table: &OwnTable,
    pass: &mut OwnPass,
    codes: &[u32],
    ends: &[usize],
) -> Result<Vec<i32>, AllocError>
    requires text { IsText codes.now }
    requires table { IsOwnPass table.now pass.old }
    ensures { IfOk result (λ numbers. length numbers.items ≡ length ends.now) }
{
    let mut numbers = Vec::with_capacity(alloc, ends.len())?;
    let mut start = 0;
    'numbering: for k in 0..ends.len() {
        let end = ends[k];
        numbers.push(number_between(alloc, table, pass, codes, start, end))?;
        start = end;
    }
    Ok(numbers)
}

/// The number of the cluster from one place to another. It is 0 where these are no places of the
/// text.
fn number_between(
    alloc: Global,
    table: &OwnTable,
    pass: &mut OwnPass,
    codes: &[u32],
    start: usize,
    end: usize,
) -> i32
    requires text { IsText codes.now }
    requires table { IsOwnPass table.now pass.old }
    ensures table { IsOwnPass table.now pass.new }
{
    if end < start {
        return 0;
    }
    if end > codes.len() {
        return 0;
    }
    number_of(alloc, table, pass, &codes[start..end])
}

/// The numbers of the graphemes of a text, over a table.
fn numbered(
    alloc: Global,
    table: &OwnTable,
    pass: &mut OwnPass,
    text: &[u32],
) -> Result<Vec<i32>, AllocError>
    requires text { IsText text.now }
    requires table { IsOwnPass table.now pass.old }
    ensures { IfOk result (λ numbers. length numbers.items ≡ length (graphemes_of text.now)) }
{
    let composed = nfc_of(alloc, text)?;
    let ends = cluster_ends(alloc, composed.as_slice())?;
    numbers_of(alloc, table, pass, composed.as_slice(), ends.as_slice())
}

/// The numbers of the graphemes of bytes in UTF-8, over a table, if the bytes are a text and there is
/// memory for it.
pub fn load(alloc: Global, table: &OwnTable, pass: &mut OwnPass, bytes: &[u8]) -> Option<Vec<i32>>
    requires bytes { length bytes.now ≤ 2 ^ 32 }
    requires table { IsOwnPass table.now pass.old }
    ensures { IfSome result (λ numbers. IsOkAnd (decode Utf8 bytes.now)
        (λ text. length numbers.items ≡ length (graphemes_of text))) }
{
    let codes = decoded(alloc, bytes)?;
    numbered(alloc, table, pass, codes.as_slice()).ok()
}
