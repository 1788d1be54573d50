//! Clusters become numbers, and these a string.
ghost use Rattle.std.specs.Prelude.{◌≡◌, ◌<◌, ◌≤◌, ◌<ℤ◌, List, ℕ, pos, negsuc, true, None, Err, OnOk, IfOk, IfErr, length, map, set, slice_index_or};
ghost use Rattle.std.specs.List.{list_all, slice_range};
ghost use Rattle.std.specs.Ordering.{int_eq};
ghost use Rattle.nfg_lanes.specs.Lanes.{is_narrow_grapheme};
ghost use Rattle.nfg_strand.specs.Pieces.{flat_piece};
ghost use Rattle.nfg_syn.specs.Seen.{Keeps, SameCounts};
ghost use Rattle.nfg_stream.specs.Collected.{kept_as, IsCounted, AreCounted};
ghost use Rattle.nfg_syn.specs.Learned.{first_long};
ghost use Rattle.nfg_stream.specs.Load.{HasMade};
ghost use Rattle.nfg_stream.specs.Numbering.{IsCluster, AreClusters, AreInterned, Holds, HoldsSome};
ghost use Rattle.nfg_stream.specs.Numbering.{AreNumbered, HasNumber};
ghost use Rattle.nfg_stream.specs.Numbers.{AreKept, ArePlain, with_number};

use crate::LoadError;
use crate::collected::Collected;
use crate::longer::Longer;
use nfg_lanes::first_equal8;
use nfg_strand::NString;
use nfg_syn::{InternError, Synthetics};
use std::alloc::{AllocError, Global};

/// The longest string.
const LENGTH_LIMIT: usize = 1 << 40;

/// The clusters as a string over numbers of the table.
pub(crate) fn string_from<T: Synthetics>(
    alloc: Global,
    table: &T,
    pass: &mut T::Pass,
    clusters: Collected,
) -> Result<NString, LoadError>
    requires clusters { HoldsSome clusters }
    requires table { T.is_of table.now pass.old }
    ensures table { T.is_of table.now pass.new }
    ensures keeps { Keeps (T.seen pass.old) (T.seen pass.new) }
    ensures counts { SameCounts (T.seen pass.old) (T.seen pass.new) }
    ensures made { (all : List (List ℕ)) → Holds clusters all
        → HasMade all (T.seen pass.old) (T.seen pass.new) result }
{
    let first_long = clusters.first_long();
    if let Some(at) = first_long {
        return Err(LoadError::ClusterLong { at: at as u64 });
    }
    let (numbers, longer) = clusters.into_parts();
    let (narrow, wide) = numbers.into_parts();
    if wide.is_empty() {
        return string_of_narrow(alloc, table, pass, &longer, narrow);
    }
    string_of_wide(alloc, table, pass, &longer, wide)
}

/// The clusters of numbers in 8 bits as a string. The longer one of them is the first that was kept.
fn string_of_narrow<T: Synthetics>(
    alloc: Global,
    table: &T,
    pass: &mut T::Pass,
    longer: &Longer,
    numbers: Vec<i8>,
) -> Result<NString, LoadError>
    requires narrow { list_all is_narrow_grapheme numbers.items ≡ true }
    requires counted { AreCounted (length longer.now) numbers.items }
    requires clusters { AreClusters (map (kept_as longer.now) numbers.items) }
    requires short { first_long (map (kept_as longer.now) numbers.items) ≡ None }
    requires table { T.is_of table.now pass.old }
    ensures table { T.is_of table.now pass.new }
    ensures keeps { Keeps (T.seen pass.old) (T.seen pass.new) }
    ensures counts { SameCounts (T.seen pass.old) (T.seen pass.new) }
    ensures made { HasMade (map (kept_as longer.now) numbers.items)
        (T.seen pass.old) (T.seen pass.new) result }
{
    let first = first_equal8(numbers.as_slice(), -1);
    if first == numbers.len() {
        return narrow_string(alloc, numbers);
    }
    match number_of(alloc, table, pass, longer.get(0)) {
        Ok(number) => string_with(alloc, numbers, number),
        Err(error) => Err(error),
    }
}

/// The numbers with this one for each -1 as a string. Where it is -1 itself, nothing is to be done.
fn string_with(alloc: Global, numbers: Vec<i8>, number: i32) -> Result<NString, LoadError>
    requires { list_all is_narrow_grapheme numbers.items ≡ true }
    ensures graphemes { IfOk result (λ made.
        made.graphemes ≡ map (with_number number) numbers.items) }
    ensures pieces { IfOk result (λ made.
        made.pieces ≡ flat_piece (map (with_number number) numbers.items)) }
    ensures refused { IfErr result (λ error. error ≡ LoadError.OutOfMemory) }
{
    if is_line_end(number) {
        return narrow_string(alloc, numbers);
    }
    match with_each(alloc, &numbers, number) {
        Ok(wide) => wide_string(alloc, wide),
        Err(_) => Err(LoadError::OutOfMemory),
    }
}

/// Whether this is the number of CR LF.
fn is_line_end(number: i32) -> bool
    ensures { result ≡ int_eq number (negsuc 0) }
{
    number == -1
}

/// The numbers with this one for each negative one.
fn with_each(alloc: Global, numbers: &[i8], number: i32) -> Result<Vec<i32>, AllocError>
    ensures { IfOk result (λ all. all.items ≡ map (with_number number) numbers.now) }
{
    let mut all = vec![in alloc; 0; numbers.len()]?;
    copy_with(numbers, number, all.as_mut_slice());
    Ok(all)
}

/// Copies the numbers with this one for each negative one.
fn copy_with(numbers: &[i8], number: i32, into: &mut [i32])
    requires { length numbers.now ≡ length into.old }
    ensures { into.new ≡ map (with_number number) numbers.now }
{
    'numbers: for k in 0..numbers.len() {
        into[k] = with_number(number, numbers[k]);
    }
}

fn with_number(number: i32, kept: i8) -> i32
    ensures { result ≡ with_number number kept }
{
    if kept < 0 { number } else { kept as i32 }
}

/// Numbers in 8 bits as a string in one piece.
fn narrow_string(alloc: Global, numbers: Vec<i8>) -> Result<NString, LoadError>
    requires { list_all is_narrow_grapheme numbers.items ≡ true }
    ensures graphemes { IfOk result (λ made. made.graphemes ≡ numbers.items) }
    ensures pieces { IfOk result (λ made. made.pieces ≡ flat_piece numbers.items) }
    ensures refused { IfErr result (λ error. error ≡ LoadError.OutOfMemory) }
{
    if numbers.len() > LENGTH_LIMIT {
        return Err(LoadError::OutOfMemory);
    }
    match NString::from_narrow(alloc, numbers) {
        Ok(made) => Ok(made),
        Err(_) => Err(LoadError::OutOfMemory),
    }
}

/// The clusters of numbers as a string.
fn string_of_wide<T: Synthetics>(
    alloc: Global,
    table: &T,
    pass: &mut T::Pass,
    longer: &Longer,
    mut numbers: Vec<i32>,
) -> Result<NString, LoadError>
    requires counted { AreCounted (length longer.now) numbers.items }
    requires clusters { AreClusters (map (kept_as longer.now) numbers.items) }
    requires short { first_long (map (kept_as longer.now) numbers.items) ≡ None }
    requires table { T.is_of table.now pass.old }
    ensures table { T.is_of table.now pass.new }
    ensures keeps { Keeps (T.seen pass.old) (T.seen pass.new) }
    ensures counts { SameCounts (T.seen pass.old) (T.seen pass.new) }
    ensures made { HasMade (map (kept_as longer.now) numbers.items)
        (T.seen pass.old) (T.seen pass.new) result }
{
    match number_all(alloc, table, pass, longer, &mut numbers) {
        Ok(()) => wide_string(alloc, numbers),
        Err(error) => Err(error),
    }
}

/// Numbers as a string in one piece.
fn wide_string(alloc: Global, numbers: Vec<i32>) -> Result<NString, LoadError>
    ensures graphemes { IfOk result (λ made. made.graphemes ≡ numbers.items) }
    ensures pieces { IfOk result (λ made. made.pieces ≡ flat_piece numbers.items) }
    ensures refused { IfErr result (λ error. error ≡ LoadError.OutOfMemory) }
{
    if numbers.len() > LENGTH_LIMIT {
        return Err(LoadError::OutOfMemory);
    }
    match NString::from_vec(alloc, numbers) {
        Ok(made) => Ok(made),
        Err(_) => Err(LoadError::OutOfMemory),
    }
}

/// Puts the table's numbers for the longer clusters.
fn number_all<T: Synthetics>(
    alloc: Global,
    table: &T,
    pass: &mut T::Pass,
    longer: &Longer,
    numbers: &mut [i32],
) -> Result<(), LoadError>
    requires counted { AreCounted (length longer.now) numbers.old }
    requires clusters { AreClusters (map (kept_as longer.now) numbers.old) }
    requires short { first_long (map (kept_as longer.now) numbers.old) ≡ None }
    requires table { T.is_of table.now pass.old }
    ensures table { T.is_of table.now pass.new }
    ensures keeps { Keeps (T.seen pass.old) (T.seen pass.new) }
    ensures counts { SameCounts (T.seen pass.old) (T.seen pass.new) }
    ensures numbers { OnOk result (AreNumbered (map (kept_as longer.now) numbers.old)
        (T.seen pass.old).known (T.seen pass.new).known numbers.new) }
    ensures refused { IfErr result (λ error.
        HasMade (map (kept_as longer.now) numbers.old)
        (T.seen pass.old) (T.seen pass.new) (Err error)) }
{
    if longer.len() == 0 {
        return Ok(());
    }
    match vec![in alloc; 0i32; longer.len()] {
        Ok(mut interned) => number_each(alloc, table, pass, longer, &mut interned, numbers),
        Err(_) => Err(LoadError::OutOfMemory),
    }
}

/// Puts the table's numbers for the longer clusters, none of which has its number yet.
fn number_each<T: Synthetics>(
    alloc: Global,
    table: &T,
    pass: &mut T::Pass,
    longer: &Longer,
    interned: &mut [i32],
    numbers: &mut [i32],
) -> Result<(), LoadError>
    requires room { length interned.old ≡ length longer.now }
    requires interned { AreInterned longer.now (T.seen pass.old).known interned.old }
    requires counted { AreCounted (length longer.now) numbers.old }
    requires clusters { AreClusters (map (kept_as longer.now) numbers.old) }
    requires short { first_long (map (kept_as longer.now) numbers.old) ≡ None }
    requires table { T.is_of table.now pass.old }
    ensures table { T.is_of table.now pass.new }
    ensures keeps { Keeps (T.seen pass.old) (T.seen pass.new) }
    ensures counts { SameCounts (T.seen pass.old) (T.seen pass.new) }
    ensures numbers { OnOk result (AreNumbered (map (kept_as longer.now) numbers.old)
        (T.seen pass.old).known (T.seen pass.new).known numbers.new) }
    ensures refused { IfErr result (λ error.
        HasMade (map (kept_as longer.now) numbers.old)
        (T.seen pass.old) (T.seen pass.new) (Err error)) }
{
    let mut k = next_longer(numbers, 0);
    'numbering: while k < numbers.len() {
        let kept = at(numbers, k);
        match final_number(alloc, table, pass, longer, interned, kept) {
            Ok(n) => put(numbers, k, n),
            Err(error) => return Err(error),
        }
        k = next_longer(numbers, k + 1);
    }
    Ok(())
}

/// The first place from `start` on that holds a longer cluster, or the length.
fn next_longer(numbers: &[i32], start: usize) -> usize
    requires { start ≤ length numbers.now }
    ensures later { start ≤ result }
    ensures within { result ≤ length numbers.now }
    ensures plain { ArePlain (slice_range numbers.now start result) }
{
    let mut place = start;
    'places: while place < numbers.len() && at(numbers, place) >= 0 {
        place += 1;
    }
    place
}

fn at(numbers: &[i32], k: usize) -> i32
    requires { k < length numbers.now }
    ensures { result ≡ slice_index_or numbers.now k (pos 0) }
{
    numbers[k]
}

fn put(numbers: &mut [i32], k: usize, n: i32)
    requires { k < length numbers.old }
    ensures { numbers.new ≡ set numbers.old k n }
{
    numbers[k] = n;
}

/// The number of the cluster that is kept as this one, which the table is asked for once.
fn final_number<T: Synthetics>(
    alloc: Global,
    table: &T,
    pass: &mut T::Pass,
    longer: &Longer,
    interned: &mut [i32],
    kept: i32,
) -> Result<i32, LoadError>
    requires room { length interned.old ≡ length longer.now }
    requires interned { AreInterned longer.now (T.seen pass.old).known interned.old }
    requires counted { IsCounted (length longer.now) kept }
    requires cluster { IsCluster (kept_as longer.now kept) }
    requires short { length (kept_as longer.now kept) ≤ 1024 }
    requires table { T.is_of table.now pass.old }
    ensures table { T.is_of table.now pass.new }
    ensures keeps { Keeps (T.seen pass.old) (T.seen pass.new) }
    ensures counts { SameCounts (T.seen pass.old) (T.seen pass.new) }
    ensures room { length interned.new ≡ length longer.now }
    ensures interned { AreInterned longer.now (T.seen pass.new).known interned.new }
    ensures number { HasNumber (kept_as longer.now kept) (T.seen pass.old) (T.seen pass.new) result }
{
    if kept >= 0 {
        return Ok(kept);
    }
    let place = place_of(kept);
    let earlier = at(interned, place);
    if earlier != 0 {
        return Ok(earlier);
    }
    match number_of(alloc, table, pass, longer.get(place)) {
        Ok(n) => {
            put(interned, place, n);
            Ok(n)
        }
        Err(error) => Err(error),
    }
}

fn place_of(kept: i32) -> usize
    requires { kept <ℤ pos 0 }
    ensures { kept ≡ negsuc result }
{
    (-1 - kept) as usize
}

/// The number of a cluster: its code point where it has one alone, else the table's number.
fn number_of<T: Synthetics>(
    alloc: Global,
    table: &T,
    pass: &mut T::Pass,
    cluster: &[u32],
) -> Result<i32, LoadError>
    requires cluster { IsCluster cluster.now }
    requires short { length cluster.now ≤ 1024 }
    requires table { T.is_of table.now pass.old }
    ensures table { T.is_of table.now pass.new }
    ensures keeps { Keeps (T.seen pass.old) (T.seen pass.new) }
    ensures counts { SameCounts (T.seen pass.old) (T.seen pass.new) }
    ensures number { HasNumber cluster.now (T.seen pass.old) (T.seen pass.new) result }
{
    if cluster.len() == 1 {
        return Ok(cluster[0] as i32);
    }
    match table.intern(alloc, pass, cluster) {
        Ok(n) => Ok(n),
        Err(InternError::RowFull) => Err(LoadError::RowFull),
        Err(InternError::NoPortion) => Err(LoadError::NoPortion),
        Err(InternError::OutOfMemory) => Err(LoadError::OutOfMemory),
    }
}
