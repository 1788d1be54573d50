//! Many clusters of one hash over each table: each gets a number of its own, and keeps it.

use crate::table_texts::intern;
use nfg_cells::CellTable;
use nfg_syn::{OwnTable, Synthetics};
use nfg_text::CodeList;
use nfg_words::WordTable;
use std::alloc::{AllocError, Global};
use std::process::Abort;
use std::test::Fail;

/// How many clusters there are, and into how many places they go.
const COUNT: u32 = 20_000;

const PLACES: u32 = 1 << 15;

/// The number of the last place.
const LAST: i32 = -32_769;

/// The hash of each cluster is B8693345, which is 13,125 modulo the places.
const OF_ONE_HASH: i32 = -13_127;

/// A cluster is q and ten pairs of marks that do not compose, one pair for each digit to the base three.
/// 31 times the first mark and the second are as much in each pair, so all clusters have one hash.
fn cluster_of(alloc: Global, number: u32) -> Result<CodeList, AllocError> {
    let mut codes = CodeList::from_slice(alloc, &[0x71])?;
    let mut left = number;
    for _digit in 0..10 {
        match left % 3 {
            0 => codes.append(&[0x363, 0x365])?,
            1 => codes.append(&[0x364, 0x346])?,
            _ => codes.append(&[0x366, 0x308])?,
        }
        left /= 3;
    }
    Ok(codes)
}

/// The number of the place behind that of this number.
fn next(number: i32) -> i32 {
    if number == LAST {
        -2
    } else {
        number.wrapping_sub(1)
    }
}

/// Each of so many clusters, one in `every`, has its place behind that of the cluster before it.
fn check_numbers<T: Synthetics>(
    rt: &impl Abort,
    alloc: Global,
    table: &T,
    pass: &mut T::Pass,
    first: i32,
    every: u32,
) -> Result<(), Fail>
    requires { T.is_of table.now pass.old }
    ensures { T.is_of table.now pass.new }
{
    let mut number = first;
    'clusters: for k in 0..COUNT {
        if k.checked_rem(every) == Some(0) {
            let cluster = cluster_of(alloc, k)?;
            let answer = intern(rt, alloc, table, pass, cluster.as_slice());
            assert_eq!(rt; answer, Ok(number), "{k}");
        }
        number = next(number);
    }
    Ok(())
}

/// The clusters stand at the places from the first on, and some of them are found there again.
fn check_one_hash<T: Synthetics>(
    rt: &impl Abort,
    alloc: Global,
    table: &T,
    pass: &mut T::Pass,
    first: i32,
) -> Result<(), Fail>
    requires { T.is_of table.now pass.old }
{
    check_numbers(rt, alloc, table, pass, first, 1)?;
    check_numbers(rt, alloc, table, pass, first, 1_999)
}

#[test]
fn clusters_of_one_hash_get_numbers_of_their_own_in_words(rt: HostRuntime) -> Result<(), Fail> {
    let (table, mut pass) = WordTable::new(rt.alloc(), 32_768)?;
    check_one_hash(&rt, rt.alloc(), &table, &mut pass, OF_ONE_HASH)
}

#[test]
fn clusters_of_one_hash_get_numbers_of_their_own_in_cells(rt: HostRuntime) -> Result<(), Fail> {
    let (table, mut pass) = CellTable::new(rt.alloc(), 32_768)?;
    check_one_hash(&rt, rt.alloc(), &table, &mut pass, OF_ONE_HASH)
}

#[test]
fn clusters_of_one_hash_elsewhere_are_numbered_in_order(rt: HostRuntime) -> Result<(), Fail> {
    let (table, mut pass) = OwnTable::new(rt.alloc(), 32_768)?;
    check_one_hash(&rt, rt.alloc(), &table, &mut pass, -2)
}
