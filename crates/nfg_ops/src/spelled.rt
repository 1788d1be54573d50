//! The code points that graphemes stand for.

ghost use Rattle.std.specs.Prelude.{◌≡◌, ◌≤◌, ◌<◌, ◌+◌, ◌++◌, ℕ, List, true, length, map, nat_abs, slice_range, take, IfOk, OnOk};
ghost use Rattle.std.specs.List.{list_all};
ghost use Rattle.nfg_text.specs.Text.{text_of};
ghost use Rattle.nfg_syn.specs.Known.{IsSame, text_at};
ghost use Rattle.nfg_syn.specs.Represents.{Represents, AreKnown, spelling};
ghost use Rattle.nfg_syn.specs.Seen.{Keeps, SameCounts};
ghost use Rattle.nfg_ops.specs.Reads.{HasAsked, is_code};

use nfg_strand::NString;
use nfg_syn::Synthetics;
use nfg_text::CodeList;
use std::alloc::{AllocError, Global};

/// So many graphemes are read at once.
const PART: usize = 1024;

/// The most code points of a cluster.
const CLUSTER: usize = 1024;

/// How many numbers were read, and how many code points were written for them.
#[derive(Clone, Copy)]
struct Spelled {
    numbers: usize,
    codes: usize,
}

/// The text that the graphemes stand for. Want of memory is the only refusal.
pub fn codes<T: Synthetics>(
    alloc: Global,
    table: &T,
    pass: &mut T::Pass,
    a: &NString,
) -> Result<CodeList, AllocError>
    requires table { T.is_of table.now pass.old }
    requires known { AreKnown (T.seen pass.old).known a.now.graphemes }
    ensures table { T.is_of table.now pass.new }
    ensures keeps { Keeps (T.seen pass.old) (T.seen pass.new) }
    ensures counts { SameCounts (T.seen pass.old) (T.seen pass.new) }
    ensures known { IsSame (T.seen pass.old).known (T.seen pass.new).known }
    ensures text { (clusters : List (List ℕ))
        → Represents (T.seen pass.old).known a.now.graphemes clusters
        → IfOk result (λ codes. codes ≡ text_of clusters) }
{
    let mut text = CodeList::new(alloc);
    // each grapheme stands for one code point or more
    text.reserve(a.len() as usize)?;
    match append_codes(table, pass, a, 0, a.len(), &mut text) {
        Ok(()) => Ok(text),
        Err(error) => Err(error),
    }
}

/// Adds the text of the graphemes `start..end` at the end of a list. Want of memory is the only refusal, and
/// some of the text may then have been added.
pub fn append_codes<T: Synthetics>(
    table: &T,
    pass: &mut T::Pass,
    a: &NString,
    start: u64,
    end: u64,
    into: &mut CodeList,
) -> Result<(), AllocError>
    requires table { T.is_of table.now pass.old }
    requires known { AreKnown (T.seen pass.old).known a.now.graphemes }
    requires ordered { start ≤ end }
    requires inside { end ≤ length a.now.graphemes }
    ensures table { T.is_of table.now pass.new }
    ensures keeps { Keeps (T.seen pass.old) (T.seen pass.new) }
    ensures counts { SameCounts (T.seen pass.old) (T.seen pass.new) }
    ensures known { IsSame (T.seen pass.old).known (T.seen pass.new).known }
    ensures added { (list : List (List ℕ))
        → Represents (T.seen pass.old).known a.now.graphemes list
        → OnOk result (into.new ≡ into.old ++ text_of (slice_range list start end)) }
{
    let mut numbers = [0; PART];
    let mut scratch = [0; 2 * PART];
    let mut place = start;
    while place < end {
        let count = (end - place).min(PART as u64) as usize;
        a.copy_into(place, &mut numbers[..count]);
        append_numbers(table, pass, &numbers[..count], &mut scratch, into)?;
        place += count as u64;
    }
    Ok(())
}

/// Adds the text that numbers stand for, by way of a scratch. Code points are copied, and the table is asked
/// for the others alone.
fn append_numbers<T: Synthetics>(
    table: &T,
    pass: &mut T::Pass,
    numbers: &[i32],
    scratch: &mut [u32],
    into: &mut CodeList,
) -> Result<(), AllocError>
    requires table { T.is_of table.now pass.old }
    requires known { AreKnown (T.seen pass.old).known numbers.now }
    requires room { length numbers.now ≤ length scratch.old }
    requires cluster_room { 1024 ≤ length scratch.old }
    ensures table { T.is_of table.now pass.new }
    ensures asked { HasAsked (T.seen pass.old) (T.seen pass.new) }
    ensures added { (clusters : List (List ℕ))
        → Represents (T.seen pass.old).known numbers.now clusters
        → OnOk result (into.new ≡ into.old ++ text_of clusters) }
    ensures room { length scratch.new ≡ length scratch.old }
{
    if are_codes(numbers) {
        return append_plain(numbers, scratch, into);
    }
    let mut at = 0;
    while at < numbers.len() {
        let spelled = spell(table, pass, &numbers[at..], scratch);
        into.append(&scratch[..spelled.codes])?;
        at += spelled.numbers;
    }
    Ok(())
}

/// Writes the text of the numbers at the front into a scratch: of so many that it may have no room for one more.
fn spell<T: Synthetics>(table: &T, pass: &mut T::Pass, numbers: &[i32], into: &mut [u32]) -> Spelled
    requires table { T.is_of table.now pass.old }
    requires known { AreKnown (T.seen pass.old).known numbers.now }
    requires room { 1024 ≤ length into.old }
    ensures table { T.is_of table.now pass.new }
    ensures asked { HasAsked (T.seen pass.old) (T.seen pass.new) }
    ensures some { 0 < length numbers.now → 0 < result.numbers }
    ensures numbers { result.numbers ≤ length numbers.now }
    ensures codes { result.codes ≤ length into.new }
    ensures room { length into.new ≡ length into.old }
    ensures written { (clusters : List (List ℕ))
        → Represents (T.seen pass.old).known numbers.now clusters
        → take result.codes into.new ≡ text_of (take result.numbers clusters) }
{
    let mut read = 0;
    let mut filled = 0;
    while read < numbers.len() && into.len() - filled >= CLUSTER {
        filled += write_cluster(table, pass, numbers[read], &mut into[filled..]);
        read += 1;
    }
    Spelled {
        numbers: read,
        codes: filled,
    }
}

/// Writes the code points of the cluster that a number stands for at the front of a slice: how many these are.
fn write_cluster<T: Synthetics>(table: &T, pass: &mut T::Pass, n: i32, into: &mut [u32]) -> usize
    requires table { T.is_of table.now pass.old }
    requires known { (cluster : List ℕ) × (spelling (T.seen pass.old).known n ≡ Some cluster) }
    requires room { 1024 ≤ length into.old }
    ensures table { T.is_of table.now pass.new }
    ensures asked { HasAsked (T.seen pass.old) (T.seen pass.new) }
    ensures within { result ≤ length into.new }
    ensures room { length into.new ≡ length into.old }
    ensures written { (cluster : List ℕ) → spelling (T.seen pass.old).known n ≡ Some cluster
        → take result into.new ≡ cluster }
{
    if n >= 0 {
        into[0] = n as u32;
        return 1;
    }
    write_synthetic(table, pass, n, into)
}

/// The same of a negative number.
fn write_synthetic<T: Synthetics>(table: &T, pass: &mut T::Pass, n: i32, into: &mut [u32]) -> usize
    requires table { T.is_of table.now pass.old }
    requires known { (cluster : List ℕ) × (text_at (T.seen pass.old).known n ≡ Some cluster) }
    requires room { 1024 ≤ length into.old }
    ensures table { T.is_of table.now pass.new }
    ensures asked { HasAsked (T.seen pass.old) (T.seen pass.new) }
    ensures within { result ≤ length into.new }
    ensures room { length into.new ≡ length into.old }
    ensures written { (cluster : List ℕ) → text_at (T.seen pass.old).known n ≡ Some cluster
        → take result into.new ≡ cluster }
{
    let count = table.count(pass, n);
    for k in 0..count {
        into[k] = table.code(pass, n, k);
    }
    count
}

/// Whether each number is a code point. It looks at all of them, so that no branch stands in the loop.
fn are_codes(numbers: &[i32]) -> bool
    ensures { result ≡ list_all is_code numbers.now }
{
    let mut least = 0;
    for number in numbers {
        least = least.min(*number);
    }
    least >= 0
}

/// Adds numbers that are code points, by way of a scratch.
fn append_plain(numbers: &[i32], scratch: &mut [u32], into: &mut CodeList) -> Result<(), AllocError>
    requires codes { list_all is_code numbers.now ≡ true }
    requires room { length numbers.now ≤ length scratch.old }
    ensures added { OnOk result (into.new ≡ into.old ++ map nat_abs numbers.now) }
    ensures room { length scratch.new ≡ length scratch.old }
{
    let codes = &mut scratch[..numbers.len()];
    copy_codes(numbers, codes);
    into.append(codes)
}

/// Copies each code point.
fn copy_codes(numbers: &[i32], into: &mut [u32])
    requires codes { list_all is_code numbers.now ≡ true }
    requires room { length numbers.now ≡ length into.old }
    ensures { into.new ≡ map nat_abs numbers.now }
{
    for k in 0..numbers.len() {
        into[k] = numbers[k] as u32;
    }
}
