//! Numbers that may be those of a string, several times over.
ghost use Rattle.std.specs.Prelude.{◌≡◌, ◌↔◌, ◌≤◌, ◌<◌, ◌*◌, ◌^◌, IsTrue, IfOk, length};
ghost use Rattle.std.specs.List.{repeat};
ghost use Rattle.nfg_strand.specs.Pieces.{flat_piece};
ghost use Rattle.nfg_seam.specs.RepeatPieces.{again_pieces};

use nfg_strand::NString;
use std::alloc::{AllocError, Global};

/// The longest string.
const LENGTH_LIMIT: usize = 1 << 40;

/// The numbers as a string. Where they are those of another string `n` times in a row, it shares that one's
/// block, and else it is flat.
pub(crate) fn settled(
    alloc: Global,
    a: &NString,
    n: u64,
    numbers: Vec<i32>,
) -> Result<NString, AllocError>
    requires several { 1 < n }
    requires bounded { length a.now.graphemes * n ≤ 2 ^ 40 }
    ensures graphemes { IfOk result (λ made. made.graphemes ≡ numbers.items) }
    ensures again { numbers.items ≡ repeat n a.now.graphemes
        → IfOk result (λ made. made.pieces ≡ again_pieces a.now.graphemes a.now.pieces n) }
    ensures anew { (numbers.items ≡ repeat n a.now.graphemes → ⊥)
        → IfOk result (λ made. made.pieces ≡ flat_piece numbers.items) }
{
    if numbers.len() > LENGTH_LIMIT {
        return Err(AllocError);
    }
    let made = NString::from_vec(alloc, numbers)?;
    let again = again(alloc, a, n)?;
    if is_same(&made, &again) {
        return Ok(again);
    }
    Ok(made)
}

/// The string `n` times in a row, in one piece, or in none where it is empty.
pub(crate) fn again(alloc: Global, a: &NString, n: u64) -> Result<NString, AllocError>
    requires several { 1 < n }
    requires bounded { length a.now.graphemes * n ≤ 2 ^ 40 }
    ensures graphemes { IfOk result (λ made. made.graphemes ≡ repeat n a.now.graphemes) }
    ensures pieces { IfOk result (λ made.
        made.pieces ≡ again_pieces a.now.graphemes a.now.pieces n) }
{
    if a.strands() == 1 {
        return a.repeated(alloc, n);
    }
    let flat = a.flatten(alloc)?;
    flat.repeated(alloc, n)
}

/// Whether both strings have the same numbers.
fn is_same(a: &NString, b: &NString) -> bool
    ensures { IsTrue result ↔ (a.now.graphemes ≡ b.now.graphemes) }
{
    if a.len() != b.len() {
        return false;
    }
    a.common_front(0, b, 0, a.len()) == a.len()
}
