//! Each call once, over a table.

use crate::order::compare_from;
use crate::{SubError, codes, compare, equal, index, rindex, substring};
use nfg_strand::NString;
use nfg_syn::OwnTable;
use std::cmp::Ordering;
use std::test::Fail;

#[test]
fn a_part_ends_with_the_string(rt: HostRuntime) -> Result<(), Fail> {
    let alloc = rt.alloc();
    let s = NString::from_graphemes(alloc, &[97, 98])?;
    let cases = [
        (2, 5, 0),
        (1, 9223372036854775808, 1),
        (0, 1, 1),
        (0, 2, 2),
        (1, 0, 0),
    ];
    for (start, count, len) in cases {
        match substring(alloc, &s, start, count) {
            Ok(part) => assert_eq!(rt; part.len(), len),
            Err(e) => panic!(rt; "{e:?} at {start}"),
        }
    }
    match substring(alloc, &s, 3, 0) {
        Ok(_) => panic!(rt; "a part from past the end"),
        Err(e) => assert_eq!(rt; e, SubError::OutOfRange),
    }
    Ok(())
}

#[test]
fn a_string_is_spelled(rt: HostRuntime) -> Result<(), Fail> {
    let alloc = rt.alloc();
    let (table, mut pass) = OwnTable::new(alloc, 16)?;
    let line = NString::from_graphemes(alloc, &[0xE9, 0x62])?;
    let text = codes(alloc, &table, &mut pass, &line)?;
    assert_eq!(rt; text.as_slice(), [0xE9, 0x62].as_slice());
    Ok(())
}

// CR LF is one grapheme, whose text begins with that of CR.
#[test]
fn a_cluster_that_begins_another_is_no_part_of_it(rt: HostRuntime) -> Result<(), Fail> {
    let alloc = rt.alloc();
    let (table, mut pass) = OwnTable::new(alloc, 16)?;
    let line = NString::from_graphemes(alloc, &[-1])?;
    let start = NString::from_graphemes(alloc, &[0xD])?;
    let first = index(&table, &pass, &line, &start, 0);
    assert_eq!(rt; first, None);
    let last = rindex(&table, &pass, &line, &start, 9);
    assert_eq!(rt; last, None);
    let order = compare_from(&table, &mut pass, &line, &start, 0);
    assert_eq!(rt; order, Ordering::Greater);
    Ok(())
}

#[test]
fn a_string_without_graphemes_is_itself(rt: HostRuntime) -> Result<(), Fail> {
    let alloc = rt.alloc();
    let (table, mut pass) = OwnTable::new(alloc, 16)?;
    let none = NString::empty(alloc);
    let same = equal(&table, &pass, &none, &none);
    assert!(rt; same);
    let order = compare(&table, &mut pass, &none, &none);
    assert_eq!(rt; order, Ordering::Equal);
    Ok(())
}

fn is_send<T: Send>(_: &T) {}

fn is_sync<T: Sync>(_: &T) {}

#[test]
fn a_refusal_goes_between_threads(_rt: HostRuntime) -> Result<(), Fail> {
    is_send(&SubError::OutOfRange);
    is_sync(&SubError::OutOfRange);
    Ok(())
}
