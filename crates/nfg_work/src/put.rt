//! The command `put`.
ghost use Rattle.std.specs.Prelude.{◌≡◌, ◌<◌, ◌≤◌, ◌++◌, ℕ, List, None, IfSome, OnOk, false, length, slice_range, take};
ghost use Rattle.nfg_text.specs.Text.{IsText, text_of};
ghost use Rattle.nfg_decode.specs.Encoding.{encode, has_code, text_start};
ghost use Rattle.nfg_syn.specs.Represents.{Represents};
ghost use Rattle.nfg_ops.specs.Reads.{HasAsked};
ghost use Rattle.nfg_work.specs.Evaluation.{first_lacking, is_lacking};
ghost use Rattle.nfg_work.specs.Holding.{Puts, Writes, IsRefusalOf, AreSpelled, without_mark as unmarked};

use crate::Cause;
use crate::printing::{OUTPUT_LIMIT, within_limit};
use crate::spelling::{CLUSTER_LIMIT, spell};
use crate::stop::Stop;
use nfg_decode::Encoding;
use nfg_encode::{EncodeError, encode_into};
use nfg_ops::append_codes;
use nfg_strand::NString;
use nfg_syn::Synthetics;
use nfg_text::{ByteList, CodeList};
use std::alloc::{AllocError, Global};

/// So many graphemes are written at a time.
const PART: u64 = 65_536;

/// So many graphemes are looked at at a time, in a buffer on the stack.
const LOOKED_AT: usize = 256;

/// Whether the encoding has the code point.
fn has(e: Encoding, code: u32) -> bool
    ensures { result ≡ has_code e code }
{
    match e {
        Encoding::Latin1 => code < 256,
        _ => true,
    }
}

/// Whether the encoding may lack a code point.
fn may_lack(e: Encoding) -> bool
    ensures { (clusters : List (List ℕ)) → result ≡ false → first_lacking e clusters ≡ None }
{
    match e {
        Encoding::Latin1 => true,
        _ => false,
    }
}

/// Whether the encoding lacks a code point of the cluster.
fn lacks(e: Encoding, cluster: &[u32]) -> bool
    ensures { result ≡ is_lacking e cluster.now }
{
    for code in cluster {
        if !has(e, *code) {
            return true;
        }
    }
    false
}

/// The first of the clusters that the numbers stand for of which the encoding lacks a code point.
fn lacking<T: Synthetics>(
    table: &T,
    pass: &mut T::Pass,
    numbers: &[i32],
    e: Encoding,
    buffer: &mut [u32],
) -> Option<usize>
    requires table { T.is_of table.now pass.old }
    requires known { (clusters : List (List ℕ))
        × Represents (T.seen pass.old).known numbers.now clusters }
    requires room { length buffer.old ≡ 1024 }
    ensures table { T.is_of table.now pass.new }
    ensures asked { HasAsked (T.seen pass.old) (T.seen pass.new) }
    ensures room { length buffer.new ≡ 1024 }
    ensures inside { IfSome result (λ k. k < length numbers.now) }
    ensures lacking { (clusters : List (List ℕ))
        → Represents (T.seen pass.old).known numbers.now clusters
        → result ≡ first_lacking e clusters }
{
    'looking: for i in 0..numbers.len() {
        let len = spell(table, pass, numbers[i], buffer);
        if lacks(e, &buffer[..len]) {
            return Some(i);
        }
    }
    None
}

/// Why the string is not put, where the encoding lacks no code point of the graphemes before `start`.
fn refusal<T: Synthetics>(
    table: &T,
    pass: &mut T::Pass,
    string: &NString,
    e: Encoding,
    start: u64,
) -> Stop
    requires table { T.is_of table.now pass.old }
    requires known { AreSpelled (T.seen pass.old).known string.now }
    requires inside { start ≤ length string.now.graphemes }
    ensures table { T.is_of table.now pass.new }
    ensures asked { HasAsked (T.seen pass.old) (T.seen pass.new) }
    ensures refusal { (clusters : List (List ℕ))
        → Represents (T.seen pass.old).known string.now.graphemes clusters
        → first_lacking e (take start clusters) ≡ None
        → IsRefusalOf (first_lacking e clusters) result }
{
    if !may_lack(e) {
        return Stop::Refused(Cause::OutputTooLong);
    }
    let len = string.len();
    let mut numbers = [0i32; LOOKED_AT];
    let mut buffer = [0u32; CLUSTER_LIMIT];
    let mut at = start;
    'looking: while at < len {
        let count = (len - at).min(LOOKED_AT as u64) as usize;
        string.copy_into(at, &mut numbers[..count]);
        match lacking(table, pass, &numbers[..count], e, &mut buffer) {
            Some(k) => return Stop::Refused(Cause::NotEncodable { at: at + k as u64 }),
            None => at += count as u64,
        }
    }
    Stop::Refused(Cause::OutputTooLong)
}

/// The encoding of a part, before which the mark stands already.
fn without_mark(e: Encoding) -> Encoding
    ensures { result ≡ unmarked e }
{
    match e {
        Encoding::Utf16 => Encoding::Utf16Be,
        _ => e,
    }
}

/// Writes the mark, where the encoding begins with one.
fn write_start(alloc: Global, e: Encoding, output: &mut ByteList) -> Result<(), AllocError>
    ensures { OnOk result (output.new ≡ output.old ++ text_start e) }
{
    match encode_into(alloc, e, &[], output) {
        Ok(()) => Ok(()),
        Err(_) => Err(AllocError),
    }
}

/// Writes the bytes of a text: whether the encoding has its code points and the output is not too long.
fn write(
    alloc: Global,
    e: Encoding,
    codes: &[u32],
    output: &mut ByteList,
) -> Result<bool, AllocError>
    requires text { IsText codes.now }
    ensures { Writes e codes.now output.old output.new result }
{
    match encode_into(alloc, e, codes, output) {
        Ok(()) => Ok(output.len() <= OUTPUT_LIMIT),
        Err(EncodeError::Unencodable { .. }) => Ok(false),
        Err(EncodeError::OutOfMemory) => Err(AllocError),
    }
}

/// Writes the bytes of the graphemes `start..end`, by way of a list of their code points.
fn write_part<T: Synthetics>(
    alloc: Global,
    table: &T,
    pass: &mut T::Pass,
    string: &NString,
    start: u64,
    end: u64,
    e: Encoding,
    codes: &mut CodeList,
    output: &mut ByteList,
) -> Result<bool, AllocError>
    requires table { T.is_of table.now pass.old }
    requires known { AreSpelled (T.seen pass.old).known string.now }
    requires ordered { start ≤ end }
    requires inside { end ≤ length string.now.graphemes }
    ensures table { T.is_of table.now pass.new }
    ensures asked { HasAsked (T.seen pass.old) (T.seen pass.new) }
    ensures written { (clusters : List (List ℕ))
        → Represents (T.seen pass.old).known string.now.graphemes clusters
        → Writes e (text_of (slice_range clusters start end)) output.old output.new result }
{
    codes.truncate(0);
    append_codes(table, pass, string, start, end, codes)?;
    write(alloc, e, codes.as_slice(), output)
}

/// Writes the bytes of the string in the encoding. It holds the code points of one part at a time, and
/// stops with the part that is refused.
pub(crate) fn put<T: Synthetics>(
    alloc: Global,
    table: &T,
    pass: &mut T::Pass,
    string: &NString,
    e: Encoding,
    output: &mut ByteList,
) -> Result<(), Stop>
    requires table { T.is_of table.now pass.old }
    requires known { AreSpelled (T.seen pass.old).known string.now }
    ensures table { T.is_of table.now pass.new }
    ensures asked { HasAsked (T.seen pass.old) (T.seen pass.new) }
    ensures put { (clusters : List (List ℕ))
        → Represents (T.seen pass.old).known string.now.graphemes clusters
        → Puts (first_lacking e clusters) output.old output.new
        result (encode e (text_of clusters)) }
{
    let had = output.len();
    write_start(alloc, e, output)?;
    let len = string.len();
    let part = without_mark(e);
    let mut codes = CodeList::new(alloc);
    let mut at = 0u64;
    'putting: while at < len {
        let end = at + (len - at).min(PART);
        match write_part(
            alloc, table, pass, string, at, end, part, &mut codes, output,
        ) {
            Ok(true) => at = end,
            Ok(false) => {
                output.truncate(had);
                return Err(refusal(table, pass, string, e, at));
            }
            Err(error) => return Err(Stop::from(error)),
        }
    }
    within_limit(output, had)
}
