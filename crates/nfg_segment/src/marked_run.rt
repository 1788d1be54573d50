//! Clusters of a settled text, by the marks of its code points.
ghost use Rattle.std.specs.Prelude.{◌≡◌, ◌<◌, ◌≤◌, ℕ, false, List, [], map, drop, length, reverse, IsTrue, IfOk, OnOk};
ghost use Rattle.std.specs.List.{slice_range};
ghost use Rattle.nfg_text.specs.Breaks.{Remembers};
ghost use Rattle.nfg_text.specs.Plain.{singles};
ghost use Rattle.nfg_text.specs.Text.{IsText};
ghost use Rattle.nfg_passes.specs.Ids.{id_number};
ghost use Rattle.nfg_passes.specs.Marks.{marks_of};
ghost use Rattle.nfg_segment.specs.Given.{Grew, with_cluster, with_clusters};
ghost use Rattle.nfg_segment.specs.Held.{Keeps, next_all, closed_all};

use crate::ClusterSink;
use crate::open_cluster::{OpenCluster, give_cluster};
use crate::open_reach::{kind_of, pass_open};
use crate::settled_run::WINDOW;
use nfg_passes::{START, mark_breaks};
use nfg_text::Memory;
use std::alloc::AllocError;

/// Where the last cluster of a part of a text begins, and before it a row of clusters of one code point that are not
/// given out yet.
#[derive(Clone, Copy)]
struct Begun {
    row: usize,
    start: usize,
}

/// Goes on with a text that is its own NFC, by the ids of its code points.
pub(crate) fn push_settled<S: ClusterSink>(
    open_cluster: &mut OpenCluster,
    text: &[u32],
    ids: &[u8],
    out: &mut S,
) -> Result<(), AllocError>
    requires text { IsText text.now }
    requires ids { ids.now ≡ map id_number text.now }
    requires few { length text.now ≤ 256 }
    ensures given { (cluster : List ℕ) → Keeps open_cluster.old.now cluster
        → OnOk result ((Keeps open_cluster.new.now (next_all cluster text.now))
        × (S.given out.new ≡ with_clusters (S.given out.old) (closed_all cluster text.now))) }
    ensures marked { open_cluster.new.marked ≡ open_cluster.old.marked }
    ensures grew { Grew (S.given out.old) (S.given out.new) }
{
    if text.is_empty() {
        return Ok(());
    }
    let passed = pass_open(open_cluster, text, out)?;
    if passed == text.len() {
        return Ok(());
    }
    push_marked(open_cluster, &text[passed..], &ids[passed..], out)?;
    Ok(())
}

/// The same where no cluster is open: where clusters begin is marked for all code points at once.
fn push_marked<S: ClusterSink>(
    open_cluster: &mut OpenCluster,
    text: &[u32],
    ids: &[u8],
    out: &mut S,
) -> Result<(), AllocError>
    requires text { IsText text.now }
    requires some { 0 < length text.now }
    requires ids { ids.now ≡ map id_number text.now }
    requires few { length text.now ≤ 256 }
    ensures given { Keeps open_cluster.old.now [] → OnOk result ((Keeps open_cluster.new.now (next_all [] text.now))
        × (S.given out.new ≡ with_clusters (S.given out.old) (closed_all [] text.now))) }
    ensures marked { open_cluster.new.marked ≡ open_cluster.old.marked }
    ensures grew { Grew (S.given out.old) (S.given out.new) }
{
    let mut room = [0; WINDOW];
    let marks = &mut room[..text.len()];
    mark_breaks(START, ids, marks);
    let start = give_marked(text, marks, out)?;
    let last = &text[start..];
    open_cluster.join_all(last, memory_of(last))?;
    Ok(())
}

/// Gives out the clusters of a text but the last, by its marks, and says where the last one begins.
fn give_marked<S: ClusterSink>(text: &[u32], marks: &[u8], out: &mut S) -> Result<usize, AllocError>
    requires text { IsText text.now }
    requires some { 0 < length text.now }
    requires size { length marks.now ≡ length text.now }
    requires marks { marks.now ≡ marks_of text.now }
    ensures given { OnOk result (S.given out.new ≡ with_clusters (S.given out.old) (closed_all [] text.now)) }
    ensures within { IfOk result (λ start. start ≤ length text.now) }
    ensures last { IfOk result (λ start. next_all [] text.now ≡ drop start text.now) }
    ensures grew { Grew (S.given out.old) (S.given out.new) }
{
    let mut begun = Begun { row: 0, start: 0 };
    for at in 1..text.len() {
        begun = go_past(text, begun, at, marks[at] == 1, out)?;
    }
    out.push_run(&text[begun.row..begun.start])?;
    Ok(begun.start)
}

/// Goes past the code points up to one, which may be parted from those before it. Where the cluster before it is of
/// one code point, it joins the row.
#[inline(always)]
fn go_past<S: ClusterSink>(
    text: &[u32],
    begun: Begun,
    at: usize,
    parted: bool,
    out: &mut S,
) -> Result<Begun, AllocError>
    requires text { IsText text.now }
    requires row { begun.row ≤ begun.start }
    requires some { begun.start < at }
    requires within { at ≤ length text.now }
    ensures row { IfOk result (λ next. next.row ≤ next.start) }
    ensures parted { IfOk result (λ next. IsTrue parted → next.start ≡ at) }
    ensures given { IfOk result (λ next. IsTrue parted → with_clusters (S.given out.new) (singles (slice_range text.now next.row at))
        ≡ with_cluster (with_clusters (S.given out.old) (singles (slice_range text.now begun.row begun.start))) (slice_range text.now begun.start at)) }
    ensures joined { IfOk result (λ next. parted ≡ false → (next ≡ begun) × (S.given out.new ≡ S.given out.old)) }
    ensures grew { Grew (S.given out.old) (S.given out.new) }
{
    if !parted {
        return Ok(begun);
    }
    if at - begun.start == 1 {
        return Ok(Begun {
            row: begun.row,
            start: at,
        });
    }
    out.push_run(&text[begun.row..begun.start])?;
    give_cluster(&text[begun.start..at], out)?;
    Ok(Begun { row: at, start: at })
}

/// What the rules read of a text.
#[inline(always)]
fn memory_of(text: &[u32]) -> Memory
    requires { IsText text.now }
    ensures { Remembers result (reverse text.now) }
{
    let mut memory = Memory::new();
    for c in text {
        memory = memory.then(kind_of(*c));
    }
    memory
}
