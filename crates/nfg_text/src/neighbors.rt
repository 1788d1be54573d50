//! The rules on the two neighbors of a place alone (UAX #29, GB3 to GB9b), by one look-up.
ghost use Rattle.std.specs.Prelude.{◌≡◌, true};
ghost use Rattle.ucd_breaks.specs.GraphemeClusterBreak.{grapheme_cluster_break_number};
ghost use Rattle.ucd_breaks.specs.declared.GraphemeClusterBreak.{GraphemeClusterBreak};
ghost use Rattle.unicode_segmentation.specs.Grapheme.{break_by_pair};
ghost use Rattle.nfg_text.specs.Breaks.{rule_number};

/// The rules part the two.
pub(crate) const PARTS: u8 = 1;

/// The rules on neighbors say nothing of the two, and those that look back decide.
pub(crate) const SILENT: u8 = 2;

/// What the rules say of two break classes, a row for each class to the left: 0 where they hold the two
/// together. There are 14 classes.
#[rattlefmt::skip]
static NEIGHBORS: [u8; 256] = [
    1, 1, 1, 1, 1, 1, 1, 1, 1, 1, 1, 1, 1, 1, 2, 2,
    1, 1, 1, 1, 0, 1, 1, 1, 1, 1, 1, 1, 1, 1, 2, 2,
    1, 1, 0, 2, 1, 2, 2, 2, 2, 0, 2, 2, 2, 0, 2, 2,
    1, 1, 0, 0, 1, 0, 0, 2, 2, 0, 2, 0, 2, 0, 2, 2,
    1, 1, 1, 1, 1, 1, 1, 1, 1, 1, 1, 1, 1, 1, 2, 2,
    1, 1, 0, 2, 1, 2, 2, 2, 2, 0, 0, 0, 2, 0, 2, 2,
    1, 1, 0, 2, 1, 2, 2, 2, 2, 0, 0, 2, 2, 0, 2, 2,
    1, 1, 0, 0, 1, 0, 0, 0, 0, 0, 0, 0, 0, 0, 2, 2,
    1, 1, 0, 2, 1, 2, 2, 2, 2, 0, 2, 2, 2, 0, 2, 2,
    1, 1, 0, 2, 1, 2, 2, 2, 2, 0, 2, 2, 2, 0, 2, 2,
    1, 1, 0, 2, 1, 2, 2, 2, 2, 0, 0, 2, 2, 0, 2, 2,
    1, 1, 0, 2, 1, 2, 2, 2, 2, 0, 0, 0, 2, 0, 2, 2,
    1, 1, 0, 2, 1, 2, 2, 2, 2, 0, 2, 2, 2, 0, 2, 2,
    1, 1, 0, 2, 1, 2, 2, 2, 2, 0, 2, 2, 2, 0, 2, 2,
    2, 2, 2, 2, 2, 2, 2, 2, 2, 2, 2, 2, 2, 2, 2, 2,
    2, 2, 2, 2, 2, 2, 2, 2, 2, 2, 2, 2, 2, 2, 2, 2,
];

/// What the rules say of two neighbors of these break classes.
#[inline(always)]
pub(crate) fn rule_between(left: u8, right: u8) -> u8
    ensures { (a b : GraphemeClusterBreak) → left ≡ grapheme_cluster_break_number a
        → right ≡ grapheme_cluster_break_number b → result ≡ rule_number (break_by_pair true a b) }
{
    NEIGHBORS[left as usize % 16 * 16 + right as usize % 16]
}
