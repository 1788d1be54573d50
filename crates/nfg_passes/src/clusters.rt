//! Where the clusters of a text end that is its own NFC.
ghost use Rattle.std.specs.Prelude.{◌≡◌, ◌↔◌, ◌≤◌, true, length, map, take, IsTrue, IsSome, IfSome};
ghost use Rattle.unicode_normalization.specs.Forms.{nfc};
ghost use Rattle.nfg_text.specs.Graphemes.{cluster_ends};
ghost use Rattle.nfg_passes.specs.Ids.{id_number};
ghost use Rattle.nfg_passes.specs.Marks.{marks_of, ends_of_marks};
ghost use Rattle.nfg_passes.specs.Unsettled.{IsSettledText};

use crate::automaton::{START, mark_breaks};
use crate::ids::ids_of;
use crate::unsettled::first_unsettled;

/// Writes the id of each code point and, where no place of the text is unsettled, a mark for each of them: 1 where a
/// cluster ends before it, and 0 elsewhere. Such a text is its own NFC.
pub fn mark_settled(text: &[u32], ids: &mut [u8], marks: &mut [u8]) -> bool
    requires ids { length text.now ≡ length ids.old }
    requires marks { length text.now ≡ length marks.old }
    ensures ids { ids.new ≡ map id_number text.now }
    ensures settled { IsTrue result ↔ IsSettledText text.now }
    ensures stays { result ≡ true → nfc text.now ≡ text.now }
    ensures marks { result ≡ true → marks.new ≡ marks_of text.now }
{
    ids_of(text, ids);
    if first_unsettled(ids) < ids.len() {
        return false;
    }
    mark_breaks(START, ids, marks);
    true
}

/// Writes where clusters end, in code points, by the marks of a text, and answers how many there are.
#[inline(never)]
pub fn ends_of(marks: &[u8], ends: &mut [usize]) -> usize
    requires { length marks.now ≤ length ends.old }
    ensures bound { result ≤ length ends.new }
    ensures ends { take result ends.new ≡ ends_of_marks marks.now }
{
    if marks.is_empty() {
        return 0;
    }
    let mut count = 0;
    for at in 1..marks.len() {
        ends[count] = at;
        count += (marks[at] == 1) as usize;
    }
    ends[count] = marks.len();
    count + 1
}

/// Writes where the grapheme clusters of a text end, and answers how many there are, where no place of the text is
/// unsettled; `None` says that one is, and that the text might not be its own NFC.
pub fn settled_ends(
    text: &[u32],
    ids: &mut [u8],
    marks: &mut [u8],
    ends: &mut [usize],
) -> Option<usize>
    requires ids { length text.now ≡ length ids.old }
    requires marks { length text.now ≡ length marks.old }
    requires ends { length text.now ≡ length ends.old }
    ensures ends { IfSome result (λ count. take count ends.new ≡ cluster_ends (nfc text.now)) }
    ensures settled { IfSome result (λ count. nfc text.now ≡ text.now) }
    ensures answers { IsSettledText text.now → IsSome result }
{
    if !mark_settled(text, ids, marks) {
        return None;
    }
    Some(ends_of(marks, ends))
}
