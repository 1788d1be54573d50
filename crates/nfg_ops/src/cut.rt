//! Where a search cuts its needle.

ghost use Rattle.std.specs.Prelude.{◌<◌, length};
ghost use Rattle.nfg_ops.specs.Cuts.{number_at, IsCut, IsCutPlace};

use crate::suffix::{Suffix, greatest_suffix};
use nfg_strand::NString;

/// A needle's critical place, and how far a search goes on where the graphemes from there on stand in the string.
#[derive(Clone, Copy)]
pub(crate) struct Cut {
    pub(crate) critical: u64,
    pub(crate) shift: u64,
    // The shift is the needle's period: the rest of what stood there is known to stand after it.
    pub(crate) is_period: bool,
}

/// The cut of a needle: at the later of its greatest suffixes by the two orders. It takes time by the length.
pub(crate) fn cut_of(needle: &NString) -> Cut
    requires { 0 < length needle.now.graphemes }
    ensures { IsCut (number_at needle.now.graphemes) (length needle.now.graphemes) result }
{
    let greatest = greatest_suffix(needle, false);
    let least = greatest_suffix(needle, true);
    if least.place < greatest.place {
        cut_at(needle, greatest)
    } else {
        cut_at(needle, least)
    }
}

/// The cut at a place. Where the period of what follows is none of the whole needle, each period of the needle is long.
fn cut_at(needle: &NString, suffix: Suffix) -> Cut
    requires { IsCutPlace (number_at needle.now.graphemes) (length needle.now.graphemes) suffix }
    ensures { IsCut (number_at needle.now.graphemes) (length needle.now.graphemes) result }
{
    let critical = suffix.place;
    let same = needle.common_front(0, needle, suffix.period, critical);
    if same == critical {
        return Cut {
            critical,
            shift: suffix.period,
            is_period: true,
        };
    }
    let half = (needle.len() - critical) / 2;
    Cut {
        critical,
        shift: (critical + 1).max(half),
        is_period: false,
    }
}
