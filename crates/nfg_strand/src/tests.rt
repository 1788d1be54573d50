//! Strings beside plain lists.

use crate::NString;
use std::alloc::Global;
use std::process::Abort;
use std::test::Fail;

const LIMIT: u64 = 1 << 40;

// a, b and c
const LETTERS: [i32; 3] = [97, 98, 99];

fn clip(
    rt: &impl Abort,
    alloc: Global,
    s: &NString,
    start: u64,
    end: u64,
) -> Result<NString, Fail> {
    assert!(rt; start <= end);
    assert!(rt; end <= s.len());
    Ok(s.clip(alloc, start, end)?)
}

fn append(rt: &impl Abort, alloc: Global, s: &mut NString, other: &NString) -> Result<(), Fail> {
    assert!(rt; s.len() + other.len() <= LIMIT);
    Ok(s.append(alloc, other)?)
}

fn letters(rt: &impl Abort, alloc: Global, times: u64) -> Result<NString, Fail> {
    let s = NString::from_graphemes(alloc, &LETTERS)?;
    assert!(rt; s.len() == 3);
    assert!(rt; times <= 20);
    Ok(s.repeated(alloc, times)?)
}

fn has(
    rt: &impl Abort,
    alloc: Global,
    s: &NString,
    graphemes: &[i32],
    pieces: &[(u64, u64, bool)],
) -> Result<(), Fail> {
    let mut listed = Vec::new(alloc);
    for grapheme in s.iter() {
        listed.push(grapheme)?;
    }
    assert_eq!(rt; listed.as_slice(), graphemes);
    let mut got = Vec::new(alloc);
    for k in 0..s.len() {
        got.push(s.get(k))?;
    }
    assert_eq!(rt; got.as_slice(), graphemes);
    let mut copied = vec![in alloc; 0; graphemes.len()]?;
    assert!(rt; copied.len() as u64 <= s.len());
    s.copy_into(0, copied.as_mut_slice());
    assert_eq!(rt; copied.as_slice(), graphemes);
    let mut shape = Vec::new(alloc);
    for k in 0..s.strands() {
        let piece = s.piece(k);
        shape.push((piece.length, piece.times, piece.narrow))?;
    }
    assert_eq!(rt; shape.as_slice(), pieces);
    Ok(())
}

#[test]
fn a_clip_cuts_repetitions(rt: HostRuntime) -> Result<(), Fail> {
    let alloc = rt.alloc();
    let s = letters(&rt, alloc, 4)?;
    has(
        &rt,
        alloc,
        &s,
        &[97, 98, 99, 97, 98, 99, 97, 98, 99, 97, 98, 99],
        &[(3, 4, true)],
    )?;
    let inner = clip(&rt, alloc, &s, 1, 11)?;
    let middle = [98, 99, 97, 98, 99, 97, 98, 99, 97, 98];
    has(
        &rt,
        alloc,
        &inner,
        &middle,
        &[(2, 1, true), (3, 2, true), (2, 1, true)],
    )?;
    has(
        &rt,
        alloc,
        &inner.flatten(alloc)?,
        &middle,
        &[(10, 1, true)],
    )?;
    has(
        &rt,
        alloc,
        &clip(&rt, alloc, &s, 1, 2)?,
        &[98],
        &[(1, 1, true)],
    )?;
    has(
        &rt,
        alloc,
        &clip(&rt, alloc, &s, 2, 4)?,
        &[99, 97],
        &[(1, 1, true), (1, 1, true)],
    )?;
    has(&rt, alloc, &clip(&rt, alloc, &s, 5, 5)?, &[], &[])
}

#[test]
fn a_string_takes_a_vector_over(rt: HostRuntime) -> Result<(), Fail> {
    let alloc = rt.alloc();
    let none = NString::from_vec(alloc, Vec::new(alloc))?;
    has(&rt, alloc, &none, &[], &[])?;
    for (graphemes, narrow) in [([97, -1, 127], true), ([97, -2, 0], false)] {
        let mut list = Vec::with_capacity(alloc, 64)?;
        list.extend_from_slice(&graphemes)?;
        assert!(rt; list.len() == 3);
        let s = NString::from_vec(alloc, list)?;
        has(&rt, alloc, &s, &graphemes, &[(3, 1, narrow)])?;
    }
    Ok(())
}

#[test]
fn a_string_takes_a_narrow_vector_over(rt: HostRuntime) -> Result<(), Fail> {
    let alloc = rt.alloc();
    let mut list: Vec<i8> = Vec::with_capacity(alloc, 64)?;
    list.extend_from_slice(&[97, -1, 127])?;
    assert!(rt; list.as_slice() == [97, -1, 127].as_slice());
    let s = NString::from_narrow(alloc, list)?;
    has(&rt, alloc, &s, &[97, -1, 127], &[(3, 1, true)])
}

#[test]
fn sixty_five_strands_become_one(rt: HostRuntime) -> Result<(), Fail> {
    let alloc = rt.alloc();
    let mut s = NString::empty(alloc);
    let b = NString::from_graphemes(alloc, &[98])?;
    for _ in 0..64 {
        append(&rt, alloc, &mut s, &b)?;
    }
    assert_eq!(rt; s.strands(), 64);
    append(&rt, alloc, &mut s, &b)?;
    assert_eq!(rt; s.strands(), 1);
    assert_eq!(rt; s.len(), 65);
    let piece = s.piece(0);
    assert_eq!(rt; (piece.length, piece.times, piece.narrow), (65, 1, true));
    Ok(())
}

#[test]
fn several_pieces_are_repeated_as_one(rt: HostRuntime) -> Result<(), Fail> {
    let alloc = rt.alloc();
    has(&rt, alloc, &letters(&rt, alloc, 0)?, &[], &[])?;
    has(
        &rt,
        alloc,
        &letters(&rt, alloc, 1)?,
        &LETTERS,
        &[(3, 1, true)],
    )?;
    let mut s = NString::from_graphemes(alloc, &[233])?;
    append(&rt, alloc, &mut s, &letters(&rt, alloc, 1)?)?;
    has(
        &rt,
        alloc,
        &s,
        &[233, 97, 98, 99],
        &[(1, 1, false), (3, 1, true)],
    )?;
    assert!(rt; s.len() == 4);
    let twice = [233, 97, 98, 99, 233, 97, 98, 99];
    has(&rt, alloc, &s.repeated(alloc, 2)?, &twice, &[(4, 2, false)])?;
    has(
        &rt,
        alloc,
        &s.repeated(alloc, 1)?,
        &[233, 97, 98, 99],
        &[(1, 1, false), (3, 1, true)],
    )
}

#[test]
fn a_search_goes_over_the_borders_of_strands(rt: HostRuntime) -> Result<(), Fail> {
    let alloc = rt.alloc();
    let mut s = letters(&rt, alloc, 4)?;
    append(
        &rt,
        alloc,
        &mut s,
        &NString::from_graphemes(alloc, &[-1, 233])?,
    )?;
    assert!(rt; s.len() == 14);
    assert_eq!(rt; s.find(1, 14, 97), Some(3));
    assert_eq!(rt; s.find(10, 14, 97), None);
    assert_eq!(rt; s.find(1, 14, 233), Some(13));
    assert_eq!(rt; s.find(1, 13, 233), None);
    assert_eq!(rt; s.find(2, 12, 98), Some(4));
    assert_eq!(rt; s.find(14, 14, 97), None);
    Ok(())
}

#[test]
fn strings_that_are_cut_otherwise_compare_alike(rt: HostRuntime) -> Result<(), Fail> {
    let alloc = rt.alloc();
    let s = letters(&rt, alloc, 4)?;
    let mut cut = clip(&rt, alloc, &s, 0, 5)?;
    append(&rt, alloc, &mut cut, &clip(&rt, alloc, &s, 5, 11)?)?;
    append(
        &rt,
        alloc,
        &mut cut,
        &NString::from_graphemes(alloc, &[100])?,
    )?;
    assert!(rt; s.len() == 12);
    assert!(rt; cut.len() == 12);
    assert_eq!(rt; s.common_front(0, &cut, 0, 12), 11);
    assert_eq!(rt; s.common_front(0, &cut, 3, 9), 8);
    assert_eq!(rt; s.common_front(0, &cut, 1, 9), 0);
    assert_eq!(rt; s.common_front(4, &cut, 1, 6), 6);
    Ok(())
}

// Takes `skip` graphemes one by one, and reads the others by slices of `room`.
fn read_by_parts(
    rt: &impl Abort,
    alloc: Global,
    s: &NString,
    skip: u64,
    room: usize,
) -> Result<(), Fail> {
    let mut listed = Vec::new(alloc);
    let mut left = s.iter();
    for _ in 0..skip {
        if let Some(grapheme) = left.next() {
            listed.push(grapheme)?;
        }
    }
    let mut part = vec![in alloc; 0; room]?;
    for _ in 0..s.len() {
        let count = left.read(part.as_mut_slice());
        listed.extend_from_slice(&part.as_slice()[..count])?;
    }
    assert_eq!(rt; left.next(), None);
    let mut got = Vec::new(alloc);
    for k in 0..s.len() {
        got.push(s.get(k))?;
    }
    assert_eq!(rt; listed.as_slice(), got.as_slice());
    Ok(())
}

#[test]
fn a_walk_goes_on_by_slices(rt: HostRuntime) -> Result<(), Fail> {
    let alloc = rt.alloc();
    let mut s = letters(&rt, alloc, 20)?;
    let wide = NString::from_graphemes(alloc, &[-1, 233])?;
    assert!(rt; wide.len() == 2);
    append(&rt, alloc, &mut s, &wide.repeated(alloc, 40)?)?;
    append(&rt, alloc, &mut s, &letters(&rt, alloc, 1)?)?;
    assert_eq!(rt; s.len(), 143);
    assert_eq!(rt; s.strands(), 3);
    for room in [1, 3, 7, 100] {
        for skip in [0, 1, 4, 62] {
            read_by_parts(&rt, alloc, &s, skip, room)?;
        }
    }
    Ok(())
}

fn is_shared<T: Send + Sync>(_: &T) {}

#[test]
fn strings_are_shared_between_threads(rt: HostRuntime) {
    is_shared(&NString::empty(rt.alloc()));
}
