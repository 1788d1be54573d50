//! The byte order mark of UTF-16 (The Unicode Standard, section 3.10).

ghost use Rattle.std.specs.Prelude.{ℕ, ◌+◌, ◌≤◌, List, ◌∷◌, length};
ghost use Rattle.nfg_decode.specs.Mark.{TellsMark, Opens, MayBeMark};
ghost use Rattle.nfg_decode.specs.Tail.{bytes_of};

use crate::reading::Form;
use crate::tail::{Tail, fill_seam, tail_len, tail_of};
use crate::utf16::ByteOrder;

/// What the first bytes say of the mark.
#[derive(Clone, Copy, Debug)]
pub(crate) enum Mark {
    /// Not enough yet.
    Undecided,
    /// They are the mark in this order.
    Is(ByteOrder),
    /// There is none.
    Absent,
}

/// How the bytes go on behind the mark, if there is one: their form, where it is known, the bytes
/// held, how many bytes the mark has, and how many of the piece are used.
#[derive(Clone, Copy, Debug)]
pub(crate) struct Opening {
    pub(crate) form: Option<Form>,
    pub(crate) tail: Tail,
    pub(crate) mark: usize,
    pub(crate) used: usize,
}

/// The mark of two bytes.
fn mark_of_two(x: u8, y: u8) -> Mark
    ensures { (more : List ℕ) → TellsMark (x ∷ y ∷ more) result }
{
    let unit = u32::from(x) * 256 + u32::from(y);
    if unit == 0xFEFF {
        return Mark::Is(ByteOrder::Big);
    }
    if unit == 0xFFFE {
        return Mark::Is(ByteOrder::Little);
    }
    Mark::Absent
}

/// The mark of the first bytes.
fn mark_of(bytes: &[u8]) -> Mark
    ensures { TellsMark bytes.now result }
{
    match bytes {
        [] => Mark::Undecided,
        [x] => {
            if *x < 0xFE {
                Mark::Absent
            } else {
                Mark::Undecided
            }
        }
        [x, y, ..] => mark_of_two(*x, *y),
    }
}

/// Looks for the mark at the start of the bytes.
pub(crate) fn look_for_mark(tail: Tail, piece: &[u8]) -> Opening
    ensures opens { MayBeMark (bytes_of tail) → Opens (bytes_of tail) piece.now result }
    ensures used { result.used ≤ length piece.now }
    ensures len { result.mark + length (bytes_of result.tail) ≤ length (bytes_of tail) + result.used }
{
    let mut seam = [0; 4];
    let len = fill_seam(tail, piece, &mut seam);
    match mark_of(&seam[..len]) {
        Mark::Undecided => Opening {
            form: None,
            tail: tail_of(&seam[..len]),
            mark: 0,
            used: piece.len(),
        },
        Mark::Is(order) => Opening {
            form: Some(Form::Utf16(order)),
            tail: Tail::Empty,
            mark: 2,
            used: 2usize.saturating_sub(tail_len(tail)),
        },
        Mark::Absent => Opening {
            form: Some(Form::Utf16(ByteOrder::Big)),
            tail,
            mark: 0,
            used: 0,
        },
    }
}
