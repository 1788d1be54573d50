//! Searches and comparisons beside plain loops over plain lists.

use crate::occurrence::{first_occurrence, last_occurrence};
use crate::order::are_same;
use nfg_strand::NString;
use std::alloc::Global;
use std::process::Abort;
use std::test::Fail;

// Whether the needle stands at the place, element by element.
fn stands_at(list: &[i32], needle: &[i32], place: usize) -> bool {
    if place > list.len() || needle.len() > list.len() - place {
        return false;
    }
    for k in 0..needle.len() {
        if list[place + k] != needle[k] {
            return false;
        }
    }
    true
}

// The least place from `from` on, place by place.
fn plain_first(list: &[i32], needle: &[i32], from: u64) -> Option<u64> {
    for place in 0..list.len() + 1 {
        if place as u64 >= from && stands_at(list, needle, place) {
            return Some(place as u64);
        }
    }
    None
}

// The greatest place up to `from`, place by place.
fn plain_last(list: &[i32], needle: &[i32], from: u64) -> Option<u64> {
    let mut found = None;
    for place in 0..list.len() + 1 {
        if place as u64 <= from && stands_at(list, needle, place) {
            found = Some(place as u64);
        }
    }
    found
}

// The list as a string of many strands: its first five graphemes, each in a strand of its own, and the rest in one.
fn in_strands(rt: &impl Abort, alloc: Global, list: &[i32]) -> Result<NString, Fail> {
    let mut string = NString::empty(alloc);
    let first = list.len().min(5);
    for k in 0..first {
        append(rt, alloc, &mut string, &[list[k]])?;
    }
    append(rt, alloc, &mut string, &list[first..])?;
    Ok(string)
}

fn append(rt: &impl Abort, alloc: Global, string: &mut NString, list: &[i32]) -> Result<(), Fail> {
    assert!(rt; list.len() <= 1000);
    let part = NString::from_graphemes(alloc, list)?;
    assert!(rt; string.len() + part.len() <= 10000);
    Ok(string.append(alloc, &part)?)
}

fn agree(rt: &impl Abort, string: &NString, list: &[i32], needle: &NString, plain: &[i32]) {
    let len = list.len() as u64;
    for from in 0..len.min(1000) + 2 {
        let first = first_occurrence(string, needle, from);
        assert_eq!(rt; first, plain_first(list, plain, from), "first from {from}");
        let last = last_occurrence(string, needle, from);
        assert_eq!(rt; last, plain_last(list, plain, from), "last from {from}");
    }
    let past = last_occurrence(string, needle, u64::MAX);
    assert_eq!(rt;
        past,
        plain_last(list, plain, len),
        "last from the greatest place"
    );
    let none = first_occurrence(string, needle, u64::MAX);
    assert_eq!(rt; none, None);
}

const LISTS: [&[i32]; 6] = [
    &[],
    &[97, 233, 98],
    &[97, 97, 97, 97, 97, 97, 97, 97],
    &[97, 98, 97, 97, 98, 97, 98, 97, 97, 98, 97, 97, 98],
    &[97, -1, 97, -2, 97, -1, 97, -2, 97, -1, 97],
    &[1, 2, 1, 2, 1, 3, 1, 2, 1, 2, 1, 2, 1, 3, 2, 1, 2, 1, 3],
];

const NEEDLES: [&[i32]; 12] = [
    &[],
    &[97],
    &[233, 98],
    &[97, 97, 97],
    &[97, 98, 97],
    &[97, 98, 97, 97, 98],
    &[98, 97, 97, 98, 97, 97],
    &[97, -1, 97],
    &[-2, 97, -1, 97],
    &[1, 2, 1, 2, 1, 3],
    &[2, 1, 3, 2],
    &[97, 97, 97, 97, 97, 97, 97, 97, 98],
];

#[test]
fn searches_answer_as_plain_loops(rt: HostRuntime) -> Result<(), Fail> {
    let alloc = rt.alloc();
    for list in LISTS {
        let string = in_strands(&rt, alloc, list)?;
        for plain in NEEDLES {
            let needle = in_strands(&rt, alloc, plain)?;
            agree(&rt, &string, list, &needle, plain);
        }
    }
    Ok(())
}

#[test]
fn a_needle_spans_repetitions(rt: HostRuntime) -> Result<(), Fail> {
    let alloc = rt.alloc();
    let unit = NString::from_graphemes(alloc, &[97, 98, 99])?;
    assert!(rt; unit.len() == 3);
    let string = unit.repeated(alloc, 4)?;
    let list = [97, 98, 99, 97, 98, 99, 97, 98, 99, 97, 98, 99];
    let needles: [&[i32]; 4] = [
        &[99, 97],
        &[98, 99, 97, 98, 99, 97],
        &[97, 98, 99, 97, 98, 99, 98],
        &list,
    ];
    for plain in needles {
        let needle = in_strands(&rt, alloc, plain)?;
        agree(&rt, &string, &list, &needle, plain);
    }
    Ok(())
}

#[test]
fn a_needle_of_one_grapheme_repeated_ends_otherwise(rt: HostRuntime) -> Result<(), Fail> {
    let alloc = rt.alloc();
    let one = NString::from_graphemes(alloc, &[97])?;
    assert!(rt; one.len() == 1);
    let string = one.repeated(alloc, 1 << 16)?;
    let mut needle = one.repeated(alloc, 1 << 10)?;
    append(&rt, alloc, &mut needle, &[98])?;
    assert_eq!(rt; first_occurrence(&string, &needle, 0), None);
    assert_eq!(rt; last_occurrence(&string, &needle, u64::MAX), None);
    let flat = string.flatten(alloc)?;
    assert_eq!(rt; first_occurrence(&flat, &needle, 0), None);
    Ok(())
}

#[test]
fn strings_are_the_same_by_all_their_numbers(rt: HostRuntime) -> Result<(), Fail> {
    let alloc = rt.alloc();
    for (left, right, same) in PAIRS {
        let first = in_strands(&rt, alloc, left)?;
        let second = NString::from_graphemes(alloc, right)?;
        assert_eq!(rt; are_same(&first, &second), same);
    }
    Ok(())
}

const PAIRS: [(&[i32], &[i32], bool); 5] = [
    (&[], &[], true),
    (
        &[97, 98, 99, 100, 101, 102, 103],
        &[97, 98, 99, 100, 101, 102, 103],
        true,
    ),
    (&[97, 98], &[97, 98, 99], false),
    (&[97, 98], &[97, 353], false),
    (&[97], &[-159], false),
];
