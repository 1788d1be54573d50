//! The ids of `nfg_passes`: the place of what the passes read of a code point among all that code points have.
ghost use Rattle.std.specs.Prelude.{◌≡◌, length, IfOk};

use crate::properties::CODE_POINTS;
use std::alloc::{AllocError, Global};
use ucd_breaks::GraphemeClusterBreak;
use ucd_derived::IndicConjunctBreak;
use ucd_emoji::is_extended_pictographic;
use ucd_normal::{Form, QuickCheck, class_and_quick_check};

/// The groups in which ids stand, in order.
#[derive(Clone, Copy, PartialEq, Eq, PartialOrd, Ord)]
enum Group {
    /// What most code points have: each property has its default.
    Default,
    /// The combining class is 0, and the NFC quick check Yes.
    SafeStart,
    /// The combining class is another, and the NFC quick check Yes.
    Mark,
    Maybe,
    No,
}

/// What the passes read of a code point. Ids rise with it.
#[derive(Clone, Copy, PartialEq, Eq, PartialOrd, Ord)]
struct Attributes {
    group: Group,
    combining_class: u8,
    break_class: u32,
    conjunct: u32,
    is_pictograph: bool,
}

/// The attributes of a letter, and of a surrogate, which is no `char`.
const DEFAULT: Attributes = Attributes {
    group: Group::Default,
    combining_class: 0,
    break_class: 12,
    conjunct: 3,
    is_pictograph: false,
};

fn group_of(combining_class: u8, answer: QuickCheck) -> Group {
    match answer {
        QuickCheck::Yes if combining_class == 0 => Group::SafeStart,
        QuickCheck::Yes => Group::Mark,
        QuickCheck::Maybe => Group::Maybe,
        QuickCheck::No => Group::No,
    }
}

impl Attributes {
    fn of_char(c: char) -> Attributes {
        let (combining_class, answer) = class_and_quick_check(c, Form::Nfc);
        let found = Attributes {
            group: group_of(combining_class, answer),
            combining_class,
            break_class: GraphemeClusterBreak::for_char(c).number(),
            conjunct: IndicConjunctBreak::for_char(c).number(),
            is_pictograph: is_extended_pictographic(c),
        };
        let group = Group::SafeStart;
        if found == (Attributes { group, ..DEFAULT }) {
            DEFAULT
        } else {
            found
        }
    }

    fn of(c: u32) -> Attributes {
        match char::from_u32(c) {
            Some(c) => Attributes::of_char(c),
            None => DEFAULT,
        }
    }
}

/// The attributes that code points have, in order.
fn in_order(alloc: Global) -> Result<Vec<Attributes>, AllocError> {
    let mut kept = Vec::new(alloc);
    for c in 0..CODE_POINTS {
        let found = Attributes::of(c);
        if !kept.contains(&found) {
            kept.push(found)?;
        }
    }
    kept.sort_unstable();
    Ok(kept)
}

fn id_of(order: &[Attributes], c: u32) -> u8 {
    let found = Attributes::of(c);
    let place = order.iter().position(|kept| *kept == found).unwrap_or(0);
    (place % 256) as u8
}

/// The id of each code point.
pub fn ids(alloc: Global) -> Result<Vec<u8>, AllocError>
    ensures { IfOk result (λ ids. length ids.items ≡ 0x11_0000) }
{
    let order = in_order(alloc)?;
    let mut ids = Vec::new(alloc);
    for c in 0..CODE_POINTS {
        ids.push(id_of(order.as_slice(), c))?;
    }
    Ok(ids)
}
