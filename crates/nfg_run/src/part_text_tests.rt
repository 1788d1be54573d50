//! Hard texts in five encodings, and with malformed bytes in them: where a file is cut into parts changes nothing.
ghost use Rattle.std.specs.Prelude.{◌≡◌, true};
ghost use Rattle.nfg_words.specs.Table.{IsWordPass, seen_of};

use crate::draws::Draws;
use crate::part_loads::{CutFile, check_parted};
use nfg_decode::Encoding;
use nfg_text::ByteList;
use nfg_words::{WordPass, WordTable};
use std::alloc::{AllocError, Global};
use std::marker::Sync;
use std::process::Abort;
use std::test::Fail;
use std::thread::Threads;

static ENCODINGS: [Encoding; 5] = [
    Encoding::Utf8,
    Encoding::Utf16,
    Encoding::Utf16Le,
    Encoding::Utf16Be,
    Encoding::Latin1,
];

/// Flags, conjuncts, jamo, joined emoji and keycaps, Hebrew, Arabic, line ends, Thai, Tibetan, French, and code points
/// that compose with what stands before them.
static TEXTS: [&str; 11] = [
    "\u{1F1E6}\u{1F1E7}\u{1F1E8}\u{1F1E9}\u{1F1EA}a\u{1F1E6}\u{1F1E7}\u{1F1E8}\u{200D}\u{1F1E9}\u{1F1EA}\u{301}\u{1F1EB}\u{1F1EC}\u{1F1ED}\u{1F1EE}\u{1F1EF}\u{1F1F0} \u{1F1F1}\u{1F1F2}\u{1F1F3}",
    "\u{915}\u{94D}\u{937}\u{924}\u{94D}\u{930}\u{93F}\u{92F} \u{915}\u{93C}\u{94D}\u{937}\u{958}\u{94D}\u{200D}\u{937}\u{938}\u{94D}\u{924}\u{947} \u{928}\u{93C}\u{94D}\u{200C}\u{930}\u{929}\u{94D}\u{930}\u{995}\u{9CD}\u{9B7}\u{9C7}\u{9BE}",
    "\u{1100}\u{1161}\u{11A8}\u{1112}\u{1161}\u{11AB}\u{1100}\u{1173}\u{11AF}\u{AC00}\u{11A8}\u{11A8}\u{AC01}\u{11A8}\u{1161}\u{1100}\u{1100}\u{1161}\u{A960}\u{D7B0}\u{D7CB}\u{1100}\u{301}\u{1161}\u{AC00}",
    "\u{1F468}\u{200D}\u{1F469}\u{200D}\u{1F467}\u{200D}\u{1F466}\u{1F44D}\u{1F3FD}1\u{FE0F}\u{20E3}#\u{FE0F}\u{20E3}\u{2764}\u{FE0F}\u{200D}\u{1F525}\u{1F3F4}\u{E0067}\u{E0062}\u{E007F}\u{1F600}\u{200D}\u{2194}\u{338}\u{200D}\u{1F600}\u{200D}",
    "\u{5D1}\u{5BC}\u{5B0}\u{5E8}\u{5B5}\u{5D0}\u{5E9}\u{5C1}\u{5B4}\u{5D9}\u{5EA} \u{5D1}\u{5B8}\u{5BC}\u{5E8}\u{5B8}\u{5D0} \u{5D0}\u{5B1}\u{5DC}\u{5B9}\u{5D4}\u{5B4}\u{5D9}\u{5DD}\u{FB2A}\u{5BC}\u{FB1D}",
    "\u{628}\u{650}\u{633}\u{652}\u{645}\u{650} \u{627}\u{644}\u{644}\u{651}\u{64E}\u{647}\u{650} \u{627}\u{653}\u{648}\u{654}\u{64A}\u{654}\u{65F} \u{600}\u{661}\u{662}\u{6DD}\u{663}\u{644}\u{627}\u{655}",
    "a\r\nb\r\r\n\n\r\n\n\rc\u{301}\r\n\u{301}\r\u{85}\u{2028}\r\nq\u{323}\u{307}\n\u{200D}\r\u{200B}\u{AD}\r\n\r\n",
    "\u{E01}\u{E33}\u{E44}\u{E1B}\u{E43}\u{E19}\u{E19}\u{E49}\u{E33}\u{E17}\u{E35}\u{E48} \u{E01}\u{E34}\u{E48}\u{E07}\u{E1B}\u{E39}\u{E48}\u{E49}\u{E40}\u{E01}\u{E48}\u{E32}\u{E33}",
    "\u{F40}\u{F72}\u{F71}\u{F73}\u{F42}\u{FB7}\u{F69}\u{F0B}\u{F68}\u{F7C}\u{F7E}\u{F0B}\u{F58}\u{F0B}\u{F4E}\u{F72}\u{F0B}\u{F54}\u{F51}\u{FA8}\u{F7A}\u{F0B}\u{F67}\u{F71}\u{F74}\u{F75}\u{F43}\u{F81}",
    "De\u{301}ja\u{300} vu: c\u{327}a et la\u{300}, noe\u{308}l, fore\u{302}t, q\u{307}\u{323}, d\u{307}\u{323}, \u{212B}, a\u{323}\u{302}\u{301}, \u{1E0B}\u{323}",
    "\u{301}\u{323}\u{2194}\u{338}\u{338}\u{3B1}\u{345}\u{313}\u{301}\u{304B}\u{3099}\u{110BD}\u{11099}\u{110BA}\u{600}\u{904}\u{9C7}\u{9D7}\u{1D157}\u{1D165}\u{344}\u{958}\u{FB4E}\u{338}",
];

/// Bytes that are malformed in UTF-8, or in UTF-16 at an even place, or move all behind them to odd places.
static MALFORMED: [&[u8]; 5] = [b"\xFF", b"\xC0", b"\xED\xA0\x80", b"\xD8\x00", b"\x00\xDC"];

/// Adds the units of a text in UTF-16.
fn push_units(bytes: &mut ByteList, text: &str, is_big: bool) -> Result<(), AllocError> {
    for unit in text.encode_utf16() {
        let high = (unit >> 8) as u8;
        let low = (unit & 0xFF) as u8;
        bytes.append(&if is_big { [high, low] } else { [low, high] })?;
    }
    Ok(())
}

/// The bytes of a text, in UTF-16 behind a mark. Latin-1 reads the bytes of UTF-8.
fn spelled(alloc: Global, encoding: Encoding, text: &str) -> Result<ByteList, AllocError> {
    let mut bytes = ByteList::new(alloc);
    match encoding {
        Encoding::Utf8 | Encoding::Latin1 => bytes.append(text.as_bytes())?,
        Encoding::Utf16 => {
            bytes.append(b"\xFF\xFE")?;
            push_units(&mut bytes, text, false)?;
        }
        Encoding::Utf16Le => push_units(&mut bytes, text, false)?,
        Encoding::Utf16Be => push_units(&mut bytes, text, true)?,
    }
    Ok(bytes)
}

/// The bytes with others in them, at this place or at their end.
fn planted(alloc: Global, bytes: &[u8], at: usize, other: &[u8]) -> Result<ByteList, AllocError> {
    let (front, back) = bytes.split_at(at.min(bytes.len()));
    let mut list = ByteList::from_slice(alloc, front)?;
    list.append(other)?;
    list.append(back)?;
    Ok(list)
}

/// A file that is not cut.
fn whole<'a>(encoding: Encoding, bytes: &'a [u8]) -> CutFile<'a> {
    CutFile {
        encoding,
        bytes,
        cuts: &[],
    }
}

/// The file cut at one place, and the same with malformed bytes at, before and behind it.
fn check_place<R: Threads + Sync + Abort>(
    rt: &R,
    alloc: Global,
    table: &WordTable,
    pass: &mut WordPass,
    file: CutFile<'_>,
    place: usize,
) -> Result<(), Fail>
    requires root { (seen_of pass.old).root ≡ true }
    requires table { IsWordPass table.now pass.old }
    ensures root { (seen_of pass.new).root ≡ true }
    ensures table { IsWordPass table.now pass.new }
{
    let cuts = [place];
    let cut = CutFile {
        cuts: &cuts,
        ..file
    };
    check_parted(rt, alloc, table, pass, cut)?;
    'places: for at in place.saturating_sub(1)..place.saturating_add(2) {
        let other = MALFORMED[at % MALFORMED.len()];
        let list = planted(alloc, file.bytes, at, other)?;
        let bytes = list.as_slice();
        check_parted(rt, alloc, table, pass, CutFile { bytes, ..cut })?;
    }
    Ok(())
}

/// The file cut at each place in two.
fn check_places<R: Threads + Sync + Abort>(
    rt: &R,
    alloc: Global,
    file: CutFile<'_>,
) -> Result<(), Fail> {
    let (table, mut pass) = WordTable::new(alloc, 4096)?;
    'places: for place in 0..file.bytes.len() + 1 {
        check_place(rt, alloc, &table, &mut pass, file, place)?;
    }
    Ok(())
}

/// Up to 63 places among so many bytes, in order, of which some may be the same.
fn drawn_cuts(alloc: Global, draws: &mut Draws, len: usize) -> Result<Vec<usize>, AllocError> {
    let most = [4, 8, 16, 64][draws.next(4)];
    let mut cuts = Vec::new(alloc);
    for _cut in 0..draws.next(most) {
        cuts.push(draws.next(len.saturating_add(1)))?;
    }
    cuts.sort_unstable();
    Ok(cuts)
}

/// The file cut at drawn places, and the same with malformed bytes at, before or behind one of them.
fn check_drawn<R: Threads + Sync + Abort>(
    rt: &R,
    alloc: Global,
    file: CutFile<'_>,
    draws: &mut Draws,
) -> Result<(), Fail> {
    let (table, mut pass) = WordTable::new(alloc, 1024)?;
    let drawn = drawn_cuts(alloc, draws, file.bytes.len())?;
    let cuts = drawn.as_slice();
    check_parted(rt, alloc, &table, &mut pass, CutFile { cuts, ..file })?;
    if let Some(place) = cuts.get(draws.next(cuts.len().max(1))) {
        let at = place.saturating_add(draws.next(3)).saturating_sub(1);
        let list = planted(alloc, file.bytes, at, MALFORMED[draws.next(5)])?;
        let bytes = list.as_slice();
        let encoding = file.encoding;
        let planted = CutFile {
            encoding,
            bytes,
            cuts,
        };
        check_parted(rt, alloc, &table, &mut pass, planted)?;
    }
    Ok(())
}

#[test]
fn where_a_text_is_cut_in_two_changes_nothing(rt: HostRuntime) -> Result<(), Fail> {
    for text in TEXTS {
        for encoding in ENCODINGS {
            let list = spelled(rt.alloc(), encoding, text)?;
            check_places(&rt, rt.alloc(), whole(encoding, list.as_slice()))?;
        }
    }
    Ok(())
}

#[test]
fn where_a_text_is_cut_in_many_changes_nothing(rt: HostRuntime) -> Result<(), Fail> {
    let mut draws = Draws::new(1);
    for text in TEXTS {
        for encoding in ENCODINGS {
            let list = spelled(rt.alloc(), encoding, text)?;
            for _set in 0..8 {
                check_drawn(
                    &rt,
                    rt.alloc(),
                    whole(encoding, list.as_slice()),
                    &mut draws,
                )?;
            }
        }
    }
    Ok(())
}
