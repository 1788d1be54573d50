//! The clip of strands to a range of their graphemes.

ghost use Rattle.std.specs.Prelude.{◌≡◌, ◌≤◌, ◌<◌, ◌+◌, ◌*◌, ◌++◌, OnOk, IfOk, length, take, drop, slice_range};
ghost use Rattle.std.specs.List.{repeat};
ghost use Rattle.nfg_strand.specs.Pieces.{piece_or_none, clipped_piece, clipped};
ghost use Rattle.nfg_strand.specs.Strand.{graphemes_of, piece_of, graphemes, pieces};

use crate::strand::Strand;
use std::alloc::{AllocError, Global};

/// Adds `count` graphemes of a strand's unit from place `at` on, `times` times, if that is any.
fn push_part(
    strand: &Strand,
    at: usize,
    count: usize,
    times: u64,
    into: &mut Vec<Strand>,
) -> Result<(), AllocError>
    requires inside { at + count ≤ length strand.now.unit }
    requires repeated { times ≤ strand.now.times }
    ensures graphemes { OnOk result (graphemes into.new.items
        ≡ graphemes into.old.items ++ repeat times (take count (drop at strand.now.unit))) }
    ensures pieces { OnOk result (pieces into.new.items
        ≡ pieces into.old.items ++ piece_or_none count times strand.now.narrow) }
{
    if count == 0 {
        return Ok(());
    }
    if times == 0 {
        return Ok(());
    }
    into.push(strand.part(at, count, times)?)?;
    Ok(())
}

/// Adds the part `from..until` of a strand: the end of a repetition, whole ones, and the start of
/// one.
fn push_clip(
    strand: &Strand,
    from: u64,
    until: u64,
    into: &mut Vec<Strand>,
) -> Result<(), AllocError>
    requires ordered { from ≤ until }
    requires inside { until ≤ length strand.now.unit * strand.now.times }
    ensures graphemes { OnOk result (graphemes into.new.items
        ≡ graphemes into.old.items ++ slice_range (graphemes_of strand.now) from until) }
    ensures pieces { OnOk result (pieces into.new.items
        ≡ pieces into.old.items ++ clipped_piece (piece_of strand.now) from until) }
{
    let _span = strand.span();
    let unit = strand.unit_len() as u64;
    let first = (from + (unit - 1)) / unit;
    let last = until / unit;
    if last < first {
        return push_part(
            strand,
            (from % unit) as usize,
            (until - from) as usize,
            1,
            into,
        );
    }
    let before = first * unit - from;
    push_part(strand, (unit - before) as usize, before as usize, 1, into)?;
    push_part(strand, 0, unit as usize, last - first, into)?;
    push_part(strand, 0, (until - last * unit) as usize, 1, into)
}

/// The strands of the part `start..end`.
pub(crate) fn clip(
    alloc: Global,
    strands: &[Strand],
    start: u64,
    end: u64,
) -> Result<Vec<Strand>, AllocError>
    requires ordered { start ≤ end }
    requires inside { end ≤ length (graphemes strands.now) }
    ensures graphemes { IfOk result (λ parts. graphemes parts.items
        ≡ slice_range (graphemes strands.now) start end) }
    ensures pieces { IfOk result (λ parts. pieces parts.items
        ≡ clipped (pieces strands.now) start end) }
{
    let mut parts = Vec::new(alloc);
    let mut from = start;
    let mut until = end;
    for strand in strands {
        let span = strand.span();
        push_clip(strand, from.min(span), until.min(span), &mut parts)?;
        from = from.saturating_sub(span);
        until = until.saturating_sub(span);
    }
    Ok(parts)
}
