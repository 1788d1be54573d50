//! What no clause says: rows from outside, and that each call succeeds with ample memory.
use crate::{
    ByteList, CodeList, EndList, append_nfc, cluster_ends, compose_pair, is_plain, is_text, nfc_of,
    starts_safely,
};
use std::alloc::Global;
use std::process::Abort;
use std::test::Fail;

/// A text, its NFC, and the ends of the clusters of its NFC.
type Row = (&'static [u32], &'static [u32], &'static [usize]);

const ROWS: [Row; 14] = [
    (&[0x65, 0x301], &[0xE9], &[1]),
    (&[0x1100, 0x1161, 0x11A8], &[0xAC01], &[1]),
    (&[0x958], &[0x915, 0x93C], &[2]),
    (&[0x71, 0x307, 0x323], &[0x71, 0x323, 0x307], &[3]),
    (
        &[0x1F468, 0x200D, 0x1F469, 0x200D, 0x1F467],
        &[0x1F468, 0x200D, 0x1F469, 0x200D, 0x1F467],
        &[5],
    ),
    (
        &[0x915, 0x94D, 0x937, 0x93F],
        &[0x915, 0x94D, 0x937, 0x93F],
        &[4],
    ),
    (&[0xA, 0x301], &[0xA, 0x301], &[1, 2]),
    (&[0x1F600, 0x200D, 0x2194], &[0x1F600, 0x200D, 0x2194], &[3]),
    (
        &[0x1F600, 0x200D, 0x2194, 0x338],
        &[0x1F600, 0x200D, 0x21AE],
        &[2, 3],
    ),
    (&[0xD, 0xA, 0x71], &[0xD, 0xA, 0x71], &[2, 3]),
    (
        &[0x1F1E6, 0x1F1E7, 0x1F1E8, 0x1F1E6, 0x1F1E7],
        &[0x1F1E6, 0x1F1E7, 0x1F1E8, 0x1F1E6, 0x1F1E7],
        &[2, 4, 5],
    ),
    (&[0x94D, 0x924], &[0x94D, 0x924], &[2]),
    (
        &[
            0x5A, 0x65, 0x301, 0x20, 0x928, 0x92E, 0x938, 0x94D, 0x924, 0x947, 0xD, 0xA,
        ],
        &[
            0x5A, 0xE9, 0x20, 0x928, 0x92E, 0x938, 0x94D, 0x924, 0x947, 0xD, 0xA,
        ],
        &[1, 2, 3, 4, 5, 9, 11],
    ),
    (&[], &[], &[]),
];

#[test]
fn texts_are_composed_and_cut(rt: HostRuntime) -> Result<(), Fail> {
    for (text, form, ends) in ROWS {
        check_row(&rt, rt.alloc(), text, form, ends)?;
    }
    Ok(())
}

#[test]
fn texts_are_composed_in_pieces(rt: HostRuntime) -> Result<(), Fail> {
    let mut composed = Vec::new(rt.alloc());
    append_nfc(&mut composed, &['q', '\u{307}', '\u{323}'])?;
    append_nfc(&mut composed, &['e', '\u{301}'])?;
    assert_eq!(rt;
        composed.as_slice(),
        ['q', '\u{323}', '\u{307}', '\u{E9}'].as_slice()
    );
    assert_eq!(rt; compose_pair('\u{1100}', '\u{1161}'), Some('\u{AC00}'));
    assert_eq!(rt; compose_pair('q', '\u{301}'), None);
    Ok(())
}

/// French, Chinese and Japanese punctuation, and code points of other scripts.
const PLAIN: [u32; 10] = [
    0x20, 0xA0, 0xAB, 0x2014, 0x2019, 0x3001, 0x30AB, 0xFF0C, 0x5D0, 0xAC01,
];

#[test]
fn punctuation_is_plain(rt: HostRuntime) -> Result<(), Fail> {
    for c in PLAIN {
        assert!(rt; is_plain(c));
    }
    for c in [0xA, 0xA9, 0x301, 0x915, 0x1100, 0x2194, 0x1F600, 0x110000] {
        assert!(rt; !is_plain(c));
    }
    Ok(())
}

fn check_row(
    rt: &impl Abort,
    alloc: Global,
    text: &[u32],
    form: &[u32],
    ends: &[usize],
) -> Result<(), Fail> {
    assert!(rt; is_text(text));
    let composed = nfc_of(alloc, text)?;
    assert_eq!(rt; composed.as_slice(), form);
    assert!(rt; is_text(composed.as_slice()));
    let found = cluster_ends(alloc, composed.as_slice())?;
    assert_eq!(rt; found.as_slice(), ends);
    Ok(())
}

#[test]
fn a_surrogate_is_no_text(rt: HostRuntime) -> Result<(), Fail> {
    assert!(rt; !is_text(&[0x61, 0xD800]));
    assert!(rt; !is_text(&[0x110000]));
    assert!(rt; is_text(&[0x61, 0x10FFFF]));
    Ok(())
}

#[test]
fn marks_vowels_and_exclusions_start_unsafely(rt: HostRuntime) -> Result<(), Fail> {
    assert!(rt; starts_safely(0x61));
    assert!(rt; starts_safely(0xAC00));
    assert!(rt; !starts_safely(0x301));
    assert!(rt; !starts_safely(0x1161));
    assert!(rt; !starts_safely(0x958));
    assert!(rt; !starts_safely(0x16D68));
    Ok(())
}

#[test]
fn code_lists_hold_what_they_are_given(rt: HostRuntime) -> Result<(), Fail> {
    let mut list = CodeList::new(rt.alloc());
    list.reserve(3)?;
    list.append(&[0x61, 0x62, 0x63])?;
    list.truncate(2);
    let copy = CodeList::from_slice(rt.alloc(), list.as_slice())?;
    assert_eq!(rt; copy.as_slice(), [0x61, 0x62].as_slice());
    assert_eq!(rt; CodeList::from_vec(copy.into_vec()).len(), 2);
    assert!(rt; crosses_threads(&list));
    Ok(())
}

#[test]
fn end_lists_hold_what_they_are_given(rt: HostRuntime) -> Result<(), Fail> {
    let mut list = EndList::new(rt.alloc());
    list.reserve(3)?;
    list.append(&[1, 2, 3])?;
    list.truncate(2);
    let copy = EndList::from_slice(rt.alloc(), list.as_slice())?;
    assert_eq!(rt; copy.as_slice(), [1, 2].as_slice());
    assert_eq!(rt; EndList::from_vec(copy.into_vec()).len(), 2);
    assert!(rt; crosses_threads(&list));
    Ok(())
}

#[test]
fn byte_lists_hold_what_they_are_given(rt: HostRuntime) -> Result<(), Fail> {
    let mut list = ByteList::new(rt.alloc());
    list.reserve(3)?;
    list.append(b"abc")?;
    list.truncate(2);
    let copy = ByteList::from_slice(rt.alloc(), list.as_slice())?;
    assert_eq!(rt; copy.as_slice(), b"ab".as_slice());
    assert_eq!(rt; ByteList::from_vec(copy.into_vec()).len(), 2);
    assert!(rt; crosses_threads(&list));
    Ok(())
}

/// A call of it is proved only where the type may be moved to other threads and shared by them.
fn crosses_threads<T: Send + Sync>(_value: &T) -> bool {
    true
}
