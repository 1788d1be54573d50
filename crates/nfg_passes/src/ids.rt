//! One byte for all that the passes read of a code point.
ghost use Rattle.std.specs.Prelude.{◌≡◌, length, map};
ghost use Rattle.nfg_passes.specs.Ids.{id_number};

use crate::id_blocks::WORDS;
use crate::id_table::{INDEX, TAIL};

/// The id of a code point, and 0, the id of a plain one, for a number that is none.
#[inline(always)]
pub fn id_of(c: u32) -> u8
    ensures { result ≡ id_number c }
{
    number_of(c) as u8
}

#[inline(always)]
fn number_of(c: u32) -> u32
    ensures { result ≡ id_number c }
{
    ucd_table::get::<8, 8>(&INDEX, &WORDS, &TAIL, c)
}

/// Writes the id of each code point.
#[inline(never)]
pub fn ids_of(text: &[u32], into: &mut [u8])
    requires { length text.now ≡ length into.old }
    ensures { into.new ≡ map id_number text.now }
{
    for i in 0..text.len() {
        into[i] = id_of(text[i]);
    }
}
