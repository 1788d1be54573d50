//! The properties of a code point that this crate reads, by one look-up.
ghost use Rattle.std.specs.Prelude.{◌≡◌, ◌<◌};
ghost use Rattle.nfg_text.specs.Plain.{is_plain};
ghost use Rattle.nfg_text.specs.Properties.{properties_number, is_plain_number};

use crate::plain_table::PLAIN_WORDS;
use crate::property_table::{INDEX, TAIL, WORDS};

/// The number of a code point: its break class, 16 times its conjunct value, 64 for a pictograph,
/// and 128 where it does not start safely.
#[inline(always)]
pub(crate) fn properties_of(c: u32) -> u32
    requires { c < 0x11_0000 }
    ensures { result ≡ properties_number c }
{
    ucd_table::get::<8, 8>(&INDEX, &WORDS, &TAIL, c)
}

/// Whether a code point of the first plane is plain.
#[inline(always)]
pub(crate) fn is_plain_by_table(c: u32) -> bool
    requires { c < 0x1_0000 }
    ensures { result ≡ is_plain c }
{
    let word = PLAIN_WORDS[c as usize / 64];
    (word >> (c % 64)) % 2 == 1
}

/// Whether the number is that of a plain code point.
#[inline(always)]
pub(crate) fn is_plain_number(number: u32) -> bool
    ensures { result ≡ is_plain_number number }
{
    (number == 60) | (number == 53) | (number == 54)
}
