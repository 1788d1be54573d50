//! The commands that print a line: `len`, `show` and `shape`.
ghost use Rattle.std.specs.Prelude.{◌≡◌, ◌≤◌, ◌<◌, ◌*◌, ◌++◌, ℕ, List, OnOk, IfOk, IfErr, length, take};
ghost use Rattle.std.specs.List.{flat_map};
ghost use Rattle.std.specs.Fmt.{decimal};
ghost use Rattle.nfg_syn.specs.Known.{Texts};
ghost use Rattle.nfg_syn.specs.Represents.{Represents};
ghost use Rattle.nfg_ops.specs.Reads.{HasAsked};
ghost use Rattle.nfg_work.specs.Printing.{shown, shape as shape_of, piece_text, place_text, truth_text, order_text, line_of};
ghost use Rattle.nfg_work.specs.Evaluation.{output_limit};
ghost use Rattle.nfg_work.specs.Holding.{Prints, AreSpelled, IsRefusedAt};
ghost use Rattle.nfg_work.specs.Separated.{shown_with_space};

use crate::Cause;
use crate::hexadecimal::{MOST_BYTES, append_number, put_number};
use crate::spelling::{CLUSTER_LIMIT, spell};
use crate::stop::Stop;
use nfg_strand::{NString, Piece};
use nfg_syn::Synthetics;
use nfg_text::ByteList;
use std::alloc::{AllocError, Global};
use std::cmp::Ordering;

/// The most bytes of output.
pub(crate) const OUTPUT_LIMIT: usize = 1 << 28;

/// So many graphemes are shown at a time, from a buffer on the stack.
const PART: usize = 256;

/// A scratch for the bytes of a part in which each number is a code point.
const SCRATCH: usize = PART * MOST_BYTES;

/// Refuses where the output is too long, and then leaves it with its first `had` bytes.
pub(crate) fn within_limit(output: &mut ByteList, had: usize) -> Result<(), Stop>
    ensures ok { OnOk result ((length output.old ≤ output_limit) × (output.new ≡ output.old)) }
    ensures refused { IfErr result (λ stop. IsRefusedAt had output.old output.new stop) }
{
    if output.len() > OUTPUT_LIMIT {
        output.truncate(had);
        return Err(Stop::Refused(Cause::OutputTooLong));
    }
    Ok(())
}

/// Prints a line that is given with its end.
fn line(text: &[u8], output: &mut ByteList) -> Result<(), Stop>
    ensures { Prints output.old output.new result text.now }
{
    let had = output.len();
    output.append(text)?;
    within_limit(output, had)
}

/// Prints how many graphemes the string has.
pub(crate) fn len(alloc: Global, string: &NString, output: &mut ByteList) -> Result<(), Stop>
    ensures { Prints output.old output.new result (line_of (decimal (length string.now.graphemes))) }
{
    let text = format!(in alloc; "{}\n", string.len())?;
    line(text.as_bytes(), output)
}

/// Prints a place, or `none`.
pub(crate) fn place(alloc: Global, found: Option<u64>, output: &mut ByteList) -> Result<(), Stop>
    ensures { Prints output.old output.new result (line_of (place_text found)) }
{
    match found {
        Some(place) => {
            let text = format!(in alloc; "{place}\n")?;
            line(text.as_bytes(), output)
        }
        None => line(b"none\n", output),
    }
}

/// Prints `true` or `false`.
pub(crate) fn truth(holds: bool, output: &mut ByteList) -> Result<(), Stop>
    ensures { Prints output.old output.new result (line_of (truth_text holds)) }
{
    if holds {
        line(b"true\n", output)
    } else {
        line(b"false\n", output)
    }
}

/// Prints `less`, `equal` or `greater`.
pub(crate) fn order(ordering: Ordering, output: &mut ByteList) -> Result<(), Stop>
    ensures { Prints output.old output.new result (line_of (order_text ordering)) }
{
    match ordering {
        Ordering::Less => line(b"less\n", output),
        Ordering::Equal => line(b"equal\n", output),
        Ordering::Greater => line(b"greater\n", output),
    }
}

/// Adds the text of a piece.
fn append_piece(alloc: Global, piece: Piece, output: &mut ByteList) -> Result<(), AllocError>
    ensures { OnOk result (output.new ≡ output.old ++ piece_text piece) }
{
    let counts = format!(in alloc; " {}x{}", piece.length, piece.times)?;
    output.append(counts.as_bytes())?;
    if piece.narrow {
        return output.append(b"/8");
    }
    output.append(b"/32")
}

/// Prints the pieces of the string.
pub(crate) fn shape(alloc: Global, string: &NString, output: &mut ByteList) -> Result<(), Stop>
    ensures { Prints output.old output.new result (line_of (shape_of string.now.pieces)) }
{
    let had = output.len();
    let count = string.strands();
    let start = format!(in alloc; "strands {count}")?;
    output.append(start.as_bytes())?;
    'printing: for k in 0..count {
        append_piece(alloc, string.piece(k), output)?;
    }
    output.append(b"\n")?;
    within_limit(output, had)
}

/// Adds the code points, `+` between two, and then a space.
fn append_cluster(cluster: &[u32], output: &mut ByteList) -> Result<(), AllocError>
    requires { 0 < length cluster.now }
    ensures { OnOk result (output.new ≡ output.old ++ shown_with_space cluster.now) }
{
    let last = cluster.len() - 1;
    'showing: for k in 0..last {
        append_number(cluster[k], b'+', output)?;
    }
    append_number(cluster[last], b' ', output)
}

/// Puts the clusters of the code points that stand at the front of the numbers into the scratch, a
/// space after each: how many numbers these are, and how many bytes.
fn fill_run(numbers: &[i32], scratch: &mut [u8]) -> (usize, usize)
    requires room { 9 * length numbers.now ≤ length scratch.old }
    ensures count { result.0 ≤ length numbers.now }
    ensures len { result.1 ≤ length scratch.new }
    ensures shown { (known : Texts) (clusters : List (List ℕ))
        → Represents known numbers.now clusters
        → take result.1 scratch.new ≡ flat_map shown_with_space (take result.0 clusters) }
{
    let mut count = 0;
    let mut len = 0;
    'filling: while count < numbers.len() && numbers[count] >= 0 {
        len += put_number(numbers[count] as u32, b' ', &mut scratch[len..]);
        count += 1;
    }
    (count, len)
}

/// Adds the clusters of the code points that stand at the front of the numbers, or that of the first
/// number where it is none: how many numbers these are.
fn show_run<T: Synthetics>(
    table: &T,
    pass: &mut T::Pass,
    numbers: &[i32],
    buffer: &mut [u32],
    scratch: &mut [u8],
    output: &mut ByteList,
) -> Result<usize, AllocError>
    requires table { T.is_of table.now pass.old }
    requires known { (clusters : List (List ℕ))
        × Represents (T.seen pass.old).known numbers.now clusters }
    requires some { 0 < length numbers.now }
    requires room { length buffer.old ≡ 1024 }
    requires scratch { 9 * length numbers.now ≤ length scratch.old }
    ensures table { T.is_of table.now pass.new }
    ensures asked { HasAsked (T.seen pass.old) (T.seen pass.new) }
    ensures room { length buffer.new ≡ 1024 }
    ensures some { IfOk result (λ count. 0 < count) }
    ensures within { IfOk result (λ count. count ≤ length numbers.now) }
    ensures shown { (clusters : List (List ℕ))
        → Represents (T.seen pass.old).known numbers.now clusters
        → IfOk result (λ count. output.new
        ≡ output.old ++ flat_map shown_with_space (take count clusters)) }
{
    let (count, filled) = fill_run(numbers, scratch);
    if count > 0 {
        output.append(&scratch[..filled])?;
        return Ok(count);
    }
    let len = spell(table, pass, numbers[0], buffer);
    append_cluster(&buffer[..len], output)?;
    Ok(1)
}

/// Adds the clusters that the numbers stand for, a space after each, by way of a scratch of bytes.
fn show_part<T: Synthetics>(
    table: &T,
    pass: &mut T::Pass,
    numbers: &[i32],
    buffer: &mut [u32],
    scratch: &mut [u8],
    output: &mut ByteList,
) -> Result<(), AllocError>
    requires table { T.is_of table.now pass.old }
    requires known { (clusters : List (List ℕ))
        × Represents (T.seen pass.old).known numbers.now clusters }
    requires room { length buffer.old ≡ 1024 }
    requires scratch { 9 * length numbers.now ≤ length scratch.old }
    ensures table { T.is_of table.now pass.new }
    ensures asked { HasAsked (T.seen pass.old) (T.seen pass.new) }
    ensures room { length buffer.new ≡ 1024 }
    ensures shown { (clusters : List (List ℕ))
        → Represents (T.seen pass.old).known numbers.now clusters
        → OnOk result (output.new ≡ output.old ++ flat_map shown_with_space clusters) }
{
    let mut at = 0;
    'showing: while at < numbers.len() {
        let count = show_run(table, pass, &numbers[at..], buffer, scratch, output)?;
        at += count;
    }
    Ok(())
}

/// Takes the last space off, where clusters were added after the first `had` bytes.
fn drop_last_space(output: &mut ByteList, had: usize)
    ensures { (start : List ℕ) (clusters : List (List ℕ)) → length start ≡ had
        → output.old ≡ start ++ flat_map shown_with_space clusters
        → output.new ≡ start ++ shown clusters }
{
    if output.len() <= had {
        return;
    }
    output.truncate(output.len() - 1);
}

/// Ends the line of the clusters that were added after the first `had` bytes.
fn end_line(output: &mut ByteList, had: usize) -> Result<(), Stop>
    ensures { (start : List ℕ) (clusters : List (List ℕ)) → length start ≡ had
        → output.old ≡ start ++ flat_map shown_with_space clusters
        → Prints start output.new result (line_of (shown clusters)) }
{
    drop_last_space(output, had);
    output.append(b"\n")?;
    within_limit(output, had)
}

/// Prints the clusters of the string.
pub(crate) fn show<T: Synthetics>(
    table: &T,
    pass: &mut T::Pass,
    string: &NString,
    output: &mut ByteList,
) -> Result<(), Stop>
    requires table { T.is_of table.now pass.old }
    requires known { AreSpelled (T.seen pass.old).known string.now }
    ensures table { T.is_of table.now pass.new }
    ensures asked { HasAsked (T.seen pass.old) (T.seen pass.new) }
    ensures shown { (clusters : List (List ℕ))
        → Represents (T.seen pass.old).known string.now.graphemes clusters
        → Prints output.old output.new result (line_of (shown clusters)) }
{
    let had = output.len();
    let len = string.len();
    let mut left = string.iter();
    let mut numbers = [0i32; PART];
    let mut buffer = [0u32; CLUSTER_LIMIT];
    let mut scratch = [0u8; SCRATCH];
    let mut at = 0u64;
    'showing: while at < len {
        let count = left.read(&mut numbers);
        show_part(
            table,
            pass,
            &numbers[..count],
            &mut buffer,
            &mut scratch,
            output,
        )?;
        match within_limit(output, had) {
            Ok(()) => at += count as u64,
            Err(stop) => return Err(stop),
        }
    }
    end_line(output, had)
}
