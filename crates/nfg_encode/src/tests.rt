use super::*;
use nfg_decode::Encoding;
use nfg_text::ByteList;
use std::alloc::Global;
use std::process::Abort;
use std::test::Fail;

/// An encoding and the bytes of U+E9, U+D, U+A in it.
type Row = (Encoding, &'static [u8]);

static ROWS: [Row; 5] = [
    (Encoding::Utf8, &[0xC3, 0xA9, 0x0D, 0x0A]),
    (
        Encoding::Utf16,
        &[0xFE, 0xFF, 0x00, 0xE9, 0x00, 0x0D, 0x00, 0x0A],
    ),
    (Encoding::Utf16Le, &[0xE9, 0x00, 0x0D, 0x00, 0x0A, 0x00]),
    (Encoding::Utf16Be, &[0x00, 0xE9, 0x00, 0x0D, 0x00, 0x0A]),
    (Encoding::Latin1, &[0xE9, 0x0D, 0x0A]),
];

fn writes(rt: &impl Abort, alloc: Global, row: &Row) -> Result<(), Fail> {
    let mut into = ByteList::new(alloc);
    match encode_into(alloc, row.0, &[0xE9, 0xD, 0xA], &mut into) {
        Ok(()) => {}
        Err(_) => Err("refused")?,
    }
    assert_eq!(rt; into.as_slice(), row.1);
    Ok(())
}

#[test]
fn each_encoding_has_its_bytes(rt: HostRuntime) -> Result<(), Fail> {
    for row in &ROWS {
        writes(&rt, rt.alloc(), row)?;
    }
    Ok(())
}

#[test]
fn the_first_code_that_latin1_lacks_is_named(rt: HostRuntime) -> Result<(), Fail> {
    let alloc = rt.alloc();
    let mut into = ByteList::from_slice(alloc, &[7])?;
    match encode_into(alloc, Encoding::Latin1, &[0x61, 0x100], &mut into) {
        Err(EncodeError::Unencodable { at }) => assert_eq!(rt; at, 1),
        _ => Err("not refused")?,
    }
    assert_eq!(rt; into.as_slice(), [7].as_slice());
    Ok(())
}

#[test]
fn code_points_of_one_to_four_bytes_stand_side_by_side(rt: HostRuntime) -> Result<(), Fail> {
    let alloc = rt.alloc();
    let mut into = ByteList::new(alloc);
    match encode_into(alloc, Encoding::Utf8, &[0x61, 0x62], &mut into) {
        Ok(()) => {}
        Err(_) => Err("refused")?,
    }
    match encode_into(
        alloc,
        Encoding::Utf8,
        &[0x61, 0xE9, 0x20AC, 0x1_F600],
        &mut into,
    ) {
        Ok(()) => {}
        Err(_) => Err("refused")?,
    }
    assert_eq!(rt;
        into.as_slice(),
        [
            0x61, 0x62, 0x61, 0xC3, 0xA9, 0xE2, 0x82, 0xAC, 0xF0, 0x9F, 0x98, 0x80
        ]
        .as_slice()
    );
    Ok(())
}
