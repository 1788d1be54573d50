//! What no clause says: rows from outside, and each pass at every length around its blocks.
use crate::{
    START, ends_of, first_unsettled, id_of, ids_of, mark_breaks, mark_settled, settled_ends,
};
use std::process::Abort;
use std::test::Fail;

/// A text, the first of its unsettled places or its length, and where the clusters of it end as it stands.
type Row = (&'static [u32], usize, &'static [usize]);

const ROWS: [Row; 17] = [
    (&[], 0, &[]),
    (&[0x61, 0x62], 2, &[1, 2]),
    (&[0x65, 0x301], 1, &[2]),
    (&[0xE9, 0xD, 0xA, 0x71], 4, &[1, 3, 4]),
    // Arabic: a letter, shadda, fatha, which are out of order, and in order
    (&[0x628, 0x651, 0x64E], 2, &[3]),
    (&[0x628, 0x64E, 0x651], 3, &[3]),
    // Devanagari: a conjunct with a vowel sign, and a nukta
    (&[0x915, 0x94D, 0x937, 0x93F], 4, &[4]),
    (&[0x928, 0x93C, 0x924], 1, &[2, 3]),
    (&[0x94D, 0x924], 2, &[2]),
    // a letter whose decomposition is never composed
    (&[0x61, 0x958], 1, &[1, 2]),
    // Thai: a consonant, a vowel, a tone
    (&[0xE01, 0xE33, 0xE48], 3, &[3]),
    (&[0x1100, 0x1161, 0x11A8], 1, &[3]),
    (&[0xAC00, 0xAC01], 2, &[1, 2]),
    (&[0x1F468, 0x200D, 0x1F469, 0x200D, 0x1F467], 5, &[5]),
    (
        &[0x1F1E6, 0x1F1E7, 0x1F1E8, 0x1F1E6, 0x1F1E7],
        5,
        &[2, 4, 5],
    ),
    // a virama behind a pictograph, and a joiner behind that
    (&[0x1F600, 0x94D, 0x200D, 0x1F600, 0x915], 5, &[4, 5]),
    // keycaps, and a flag of tags
    (
        &[0x31, 0xFE0F, 0x20E3, 0x1F3F4, 0xE0067, 0xE007F, 0x600, 0x32],
        8,
        &[3, 6, 8],
    ),
];

#[test]
fn rows_are_checked_and_marked(rt: HostRuntime) -> Result<(), Fail> {
    for (text, settled, ends) in ROWS {
        check_row(&rt, text, settled, ends)?;
    }
    Ok(())
}

fn check_row(rt: &impl Abort, text: &[u32], settled: usize, ends: &[usize]) -> Result<(), Fail> {
    let mut ids = [0; 8];
    let mut marks = [0; 8];
    let mut found = [0; 8];
    let len = text.len();
    assert!(rt; len <= 8);
    ids_of(text, &mut ids[..len]);
    assert_eq!(rt; first_unsettled(&ids[..len]), settled);
    mark_breaks(START, &ids[..len], &mut marks[..len]);
    let count = ends_of(&marks[..len], &mut found[..len]);
    assert_eq!(rt; &found[..count], ends);
    let answer = settled_ends(text, &mut ids[..len], &mut marks[..len], &mut found[..len]);
    assert_eq!(rt;
        answer,
        if settled == len {
            Some(ends.len())
        } else {
            None
        }
    );
    Ok(())
}

/// Code points, and their ids.
const IDS: [(u32, u8); 14] = [
    (0x61, 0),
    (0xD, 2),
    (0xA, 6),
    (0x915, 14),
    (0x200D, 17),
    (0x94D, 22),
    (0x651, 46),
    (0x301, 82),
    (0x93C, 75),
    (0x16D68, 73),
    (0x958, 85),
    (0x2FA1D, 86),
    (0xE0100, 3),
    (0x11_0000, 0),
];

#[test]
fn code_points_have_their_ids(rt: HostRuntime) -> Result<(), Fail> {
    for (c, id) in IDS {
        assert_eq!(rt; id_of(c), id);
    }
    Ok(())
}

#[test]
fn the_first_place_is_found_at_every_length(rt: HostRuntime) -> Result<(), Fail> {
    let mut ids = [21; 100];
    for place in 0..100 {
        ids[place] = 71;
        for len in 0..101 {
            assert_eq!(rt; first_unsettled(&ids[..len]), place.min(len));
        }
        ids[place] = 20;
        for len in 0..101 {
            let first = if place == 0 { 100 } else { place };
            assert_eq!(rt; first_unsettled(&ids[..len]), first.min(len));
        }
        ids[place] = 21;
    }
    Ok(())
}

#[test]
fn a_flag_is_not_parted_between_two_parts(rt: HostRuntime) -> Result<(), Fail> {
    let mut ids = [0; 5];
    ids_of(&[0x1F1E6, 0x1F1E7, 0x1F1E8, 0x1F1E6, 0x1F1E7], &mut ids);
    let mut marks = [0; 5];
    let (front, back) = marks.split_at_mut(3);
    let state = mark_breaks(START, &ids[..3], front);
    mark_breaks(state, &ids[3..], back);
    assert_eq!(rt; marks, [1, 0, 1, 0, 1]);
    Ok(())
}

#[test]
fn nothing_is_marked_where_a_mark_is_out_of_order(rt: HostRuntime) -> Result<(), Fail> {
    let mut ids = [0; 3];
    let mut marks = [7; 3];
    assert!(rt; !mark_settled(&[0x71, 0x307, 0x323], &mut ids, &mut marks));
    assert!(rt; mark_settled(&[0x71, 0x2D, 0xE48], &mut ids, &mut marks));
    assert_eq!(rt; marks, [1, 1, 0]);
    Ok(())
}
