//! How many bits a grapheme of what was loaded has.
ghost use Rattle.std.specs.Prelude.{◌<◌};

use crate::DecodeStream;
use crate::loads::{check_string, feed_all};
use crate::spelled::encoded;
use nfg_decode::Encoding;
use nfg_syn::OwnTable;
use std::alloc::Global;
use std::process::Abort;
use std::test::Fail;

/// A text, its graphemes, and whether they have 8 bits each.
type Row = (&'static [u32], &'static [i32], bool);

static ROWS: [Row; 12] = [
    (&[0x61, 0x62], &[0x61, 0x62], true),
    (&[0x61, 0xD, 0xA, 0x62], &[0x61, -1, 0x62], true),
    (&[0xD, 0xA], &[-1], true),
    (&[0xD, 0xA, 0xA, 0xD, 0xD, 0xA], &[-1, 0xA, 0xD, -1], true),
    // a longer cluster, which is the first that is kept
    (&[0x71, 0x301, 0xD, 0xA], &[-2, -1], false),
    (&[0xD, 0xA, 0x71, 0x301], &[-1, -2], false),
    (
        &[0x61, 0x71, 0x301, 0x62, 0x71, 0x301],
        &[0x61, -2, 0x62, -2],
        false,
    ),
    (
        &[0xD, 0xA, 0x71, 0x301, 0x78, 0x301, 0xD, 0xA],
        &[-1, -2, -3, -1],
        false,
    ),
    // what needs 32 bits, behind and before what does not
    (&[0x61, 0x62, 0x4E00], &[0x61, 0x62, 0x4E00], false),
    (&[0x4E00, 0x61, 0x62], &[0x4E00, 0x61, 0x62], false),
    (
        &[0x61, 0xD, 0xA, 0xE9, 0xD, 0xA],
        &[0x61, -1, 0xE9, -1],
        false,
    ),
    (&[0x61, 0x65, 0x301], &[0x61, 0xE9], false),
];

#[test]
fn graphemes_have_8_bits_where_each_fits(rt: HostRuntime) -> Result<(), Fail> {
    let alloc = rt.alloc();
    'rows: for (text, graphemes, is_narrow) in ROWS {
        for len in [1, 2, 64] {
            check_width(&rt, alloc, text, len, graphemes, is_narrow)?;
        }
    }
    Ok(())
}

/// The text in UTF-8, in pieces of `len` bytes, has these graphemes of this width.
fn check_width(
    rt: &impl Abort,
    alloc: Global,
    text: &[u32],
    len: usize,
    graphemes: &[i32],
    is_narrow: bool,
) -> Result<(), Fail> {
    let (table, mut pass) = OwnTable::new(alloc, 16)?;
    let mut stream = DecodeStream::new(alloc, Encoding::Utf8);
    if let Some(bytes) = encoded(alloc, Encoding::Utf8, text)? {
        assert!(rt; bytes.len() < 1 << 20);
        feed_all(alloc, &mut stream, bytes.as_slice(), len)?;
    }
    let string = stream.finish(alloc, &table, &mut pass)?;
    check_string(rt, &string, graphemes)?;
    assert!(rt; string.strands() == 1);
    assert_eq!(rt; string.piece(0).narrow, is_narrow);
    Ok(())
}
