//! Strands in a row, strands repeated, and strands as one flat strand.

ghost use Rattle.std.specs.Prelude.{◌≡◌, ◌≤◌, ◌<◌, ◌+◌, ◌*◌, ◌^◌, ◌++◌, ◌∷◌, [], IfOk, length};
ghost use Rattle.std.specs.List.{repeat};
ghost use Rattle.nfg_strand.specs.Pieces.{piece_or_none, flat_piece, joined, repeat_pieces, at_most_64};
ghost use Rattle.nfg_strand.specs.Strand.{graphemes_of, piece_of, graphemes, pieces, flat_strand};

use crate::flat::flat_block;
use crate::strand::Strand;
use nfg_block::Block;
use std::alloc::{AllocError, Global};
use std::sync::Arc;

const MOST_STRANDS: usize = 64;

/// The whole block as one strand.
fn whole(alloc: Global, block: Block) -> Result<Strand, AllocError>
    requires some { 0 < length block.list }
    requires bounded { length block.list ≤ 2 ^ 40 }
    ensures unit { IfOk result (λ s. s.unit ≡ block.list) }
    ensures times { IfOk result (λ s. s.times ≡ 1) }
    ensures narrow { IfOk result (λ s. s.narrow ≡ block.is_narrow) }
{
    Ok(Strand::whole(Arc::new(alloc, block)?))
}

/// One strand over a new block of the graphemes of these strands, which are `len`.
fn flattened_one(alloc: Global, strands: &[Strand], len: u64) -> Result<Strand, AllocError>
    requires counted { len ≡ length (graphemes strands.now) }
    requires some { 0 < len }
    requires bounded { len ≤ 2 ^ 40 }
    ensures { IfOk result (λ s. s ≡ flat_strand (graphemes strands.now)) }
{
    whole(alloc, flat_block(alloc, strands, len)?)
}

/// The whole block as one strand, or none where it is empty.
pub(crate) fn over(alloc: Global, block: Block) -> Result<Vec<Strand>, AllocError>
    requires { length block.list ≤ 2 ^ 40 }
    ensures graphemes { IfOk result (λ strands. graphemes strands.items ≡ block.list) }
    ensures pieces { IfOk result (λ strands. pieces strands.items
        ≡ piece_or_none (length block.list) 1 block.is_narrow) }
    ensures one { IfOk result (λ strands. length strands.items ≤ 1) }
{
    let mut strands = Vec::new(alloc);
    if block.len() > 0 {
        strands.push(whole(alloc, block)?)?;
    }
    Ok(strands)
}

/// One strand with the graphemes of these strands, which are `len`, or none where there are none.
pub(crate) fn flattened(
    alloc: Global,
    strands: &[Strand],
    len: u64,
) -> Result<Vec<Strand>, AllocError>
    requires counted { len ≡ length (graphemes strands.now) }
    requires bounded { len ≤ 2 ^ 40 }
    ensures graphemes { IfOk result (λ flat. graphemes flat.items ≡ graphemes strands.now) }
    ensures pieces { IfOk result (λ flat. pieces flat.items ≡ flat_piece (graphemes strands.now)) }
    ensures one { IfOk result (λ flat. length flat.items ≤ 1) }
{
    let mut flat = Vec::new(alloc);
    if len > 0 {
        flat.push(flattened_one(alloc, strands, len)?)?;
    }
    Ok(flat)
}

/// The same strands over the same blocks.
fn shared(alloc: Global, strands: &[Strand]) -> Result<Vec<Strand>, AllocError>
    ensures { IfOk result (λ same. same.items ≡ strands.now) }
{
    let mut same = Vec::with_capacity(alloc, strands.len())?;
    for strand in strands {
        same.push(strand.share()?)?;
    }
    Ok(same)
}

/// The strands, or one flat strand of their `len` graphemes where they are more than 64.
pub(crate) fn within_limit(
    alloc: Global,
    strands: Vec<Strand>,
    len: u64,
) -> Result<Vec<Strand>, AllocError>
    requires counted { len ≡ length (graphemes strands.items) }
    requires bounded { len ≤ 2 ^ 40 }
    ensures graphemes { IfOk result (λ few. graphemes few.items ≡ graphemes strands.items) }
    ensures pieces { IfOk result (λ few. pieces few.items
        ≡ at_most_64 (graphemes strands.items) (pieces strands.items)) }
    ensures few { IfOk result (λ few. length few.items ≤ 64) }
{
    if strands.len() > MOST_STRANDS {
        flattened(alloc, strands.as_slice(), len)
    } else {
        Ok(strands)
    }
}

/// The strands of both in a row, or one flat strand of their `len` graphemes where they are more
/// than 64.
pub(crate) fn both(
    alloc: Global,
    first: &[Strand],
    second: &[Strand],
    len: u64,
) -> Result<Vec<Strand>, AllocError>
    requires counted { len ≡ length (graphemes first.now) + length (graphemes second.now) }
    requires bounded { len ≤ 2 ^ 40 }
    ensures graphemes { IfOk result (λ both. graphemes both.items
        ≡ graphemes first.now ++ graphemes second.now) }
    ensures pieces { IfOk result (λ both. pieces both.items
        ≡ at_most_64 (graphemes first.now ++ graphemes second.now)
        (joined (pieces first.now) (pieces second.now))) }
    ensures few { IfOk result (λ both. length both.items ≤ 64) }
{
    let mut strands = shared(alloc, first)?;
    let mut more = shared(alloc, second)?;
    strands.append(&mut more)?;
    within_limit(alloc, strands, len)
}

/// One strand with the graphemes of the strands, which are `len`, `n` times in a row.
fn repeated_one(alloc: Global, strands: &[Strand], len: u64, n: u64) -> Result<Strand, AllocError>
    requires some { 0 < length strands.now }
    requires counted { len ≡ length (graphemes strands.now) }
    requires again { 1 < n }
    requires bounded { len * n ≤ 2 ^ 40 }
    ensures graphemes { IfOk result (λ s. graphemes_of s ≡ repeat n (graphemes strands.now)) }
    ensures pieces { IfOk result (λ s. piece_of s ∷ []
        ≡ repeat_pieces (graphemes strands.now) (pieces strands.now) n) }
{
    let first = &strands[0];
    let _span = first.span();
    if strands.len() == 1 {
        first.repeated(n)
    } else {
        flattened_one(alloc, strands, len)?.repeated(n)
    }
}

/// The strands, of `len` graphemes, `n` times in a row: in one strand where that is more than once.
pub(crate) fn repeated(
    alloc: Global,
    strands: &[Strand],
    len: u64,
    n: u64,
) -> Result<Vec<Strand>, AllocError>
    requires few { length strands.now ≤ 64 }
    requires counted { len ≡ length (graphemes strands.now) }
    requires bounded { len * n ≤ 2 ^ 40 }
    ensures graphemes { IfOk result (λ many. graphemes many.items
        ≡ repeat n (graphemes strands.now)) }
    ensures pieces { IfOk result (λ many. pieces many.items
        ≡ repeat_pieces (graphemes strands.now) (pieces strands.now) n) }
    ensures few { IfOk result (λ many. length many.items ≤ 64) }
{
    if n == 1 {
        return shared(alloc, strands);
    }
    let mut many = Vec::new(alloc);
    if n == 0 {
        return Ok(many);
    }
    if strands.is_empty() {
        return Ok(many);
    }
    many.push(repeated_one(alloc, strands, len, n)?)?;
    Ok(many)
}
