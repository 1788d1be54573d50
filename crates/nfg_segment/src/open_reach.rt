//! The open cluster while code points of a text belong to it.
ghost use Rattle.std.specs.Prelude.{◌≡◌, ◌<◌, ◌≤◌, ◌+◌, ◌-◌, ℕ, true, List, [], ◌∷◌, take, drop, length, IsTrue, IfOk, OnOk};
ghost use Rattle.std.specs.Char.{IsScalar};
ghost use Rattle.std.specs.List.{slice_index_or, slice_range};
ghost use Rattle.nfg_text.specs.Breaks.{IsKindOf, Remembers};
ghost use Rattle.nfg_text.specs.Grapheme.{is_grapheme_break};
ghost use Rattle.nfg_text.specs.Text.{IsText};
ghost use Rattle.nfg_segment.specs.Given.{Grew, with_clusters};
ghost use Rattle.nfg_segment.specs.Held.{Keeps, is_some, ends_before, closed, next, next_all, closed_all};
ghost use Rattle.nfg_segment.specs.Reach.{Reaches, HasPassed};

use crate::ClusterSink;
use crate::open_cluster::OpenCluster;
use nfg_text::{Kind, Memory};
use std::alloc::AllocError;

/// How the open cluster reaches into a text: from `start` on it is still there. And what the rules
/// read of all of it.
#[derive(Clone, Copy)]
pub(crate) struct Reach {
    start: usize,
    memory: Memory,
}

/// Goes on with the code points that still belong to the open cluster. Says how many these are; the cluster that
/// begins behind them is not gone on with.
pub(crate) fn pass_open<S: ClusterSink>(
    open_cluster: &mut OpenCluster,
    text: &[u32],
    out: &mut S,
) -> Result<usize, AllocError>
    requires text { IsText text.now }
    requires some { 0 < length text.now }
    ensures whole { (cluster : List ℕ) → Keeps open_cluster.old.now cluster → IfOk result (λ n. n ≡ length text.now
        → (Keeps open_cluster.new.now (next_all cluster text.now))
        × (S.given out.new ≡ with_clusters (S.given out.old) (closed_all cluster text.now))) }
    ensures part { (cluster : List ℕ) → Keeps open_cluster.old.now cluster → IfOk result (λ n. n < length text.now
        → HasPassed open_cluster.new.now (S.given out.old) (S.given out.new) cluster text.now n) }
    ensures within { IfOk result (λ n. n ≤ length text.now) }
    ensures marked { open_cluster.new.marked ≡ open_cluster.old.marked }
    ensures grew { Grew (S.given out.old) (S.given out.new) }
{
    let mut reach = Reach {
        start: 0,
        memory: open_cluster.memory(),
    };
    for at in 0..text.len() {
        if !open_cluster.is_some() {
            return Ok(reach.start);
        }
        reach = go_on(open_cluster, text, at, reach, kind_of(text[at]), out)?;
    }
    if !open_cluster.is_some() {
        return Ok(reach.start);
    }
    open_cluster.join_all(&text[reach.start..], reach.memory)?;
    Ok(text.len())
}

/// Goes on with the code point there, which is of this kind.
#[inline(always)]
fn go_on<S: ClusterSink>(
    open_cluster: &mut OpenCluster,
    text: &[u32],
    at: usize,
    reach: Reach,
    kind: Kind,
    out: &mut S,
) -> Result<Reach, AllocError>
    requires text { IsText text.now }
    requires within { at < length text.now }
    requires start { reach.start ≤ at }
    requires kind { IsKindOf kind (slice_index_or text.now at 0) }
    ensures given { (cluster : List ℕ) → Reaches open_cluster.old.now text.now at reach cluster
        → IfOk result (λ r. (Reaches open_cluster.new.now text.now (at + 1) r (next cluster (slice_index_or text.now at 0)))
        × (S.given out.new ≡ with_clusters (S.given out.old) (closed cluster (slice_index_or text.now at 0)))) }
    ensures start { IfOk result (λ r. r.start ≤ at) }
    ensures same { IfOk result (λ r. r.start < at → open_cluster.new.now ≡ open_cluster.old.now) }
    ensures marked { open_cluster.new.marked ≡ open_cluster.old.marked }
    ensures grew { Grew (S.given out.old) (S.given out.new) }
{
    if ends_before(open_cluster, text, at, reach, kind) {
        open_cluster.close_with(&text[reach.start..at], reach.memory, out)?;
        return Ok(Reach {
            start: at,
            memory: Memory::new().then(kind),
        });
    }
    Ok(Reach {
        start: reach.start,
        memory: reach.memory.then(kind),
    })
}

/// Whether there is a cluster that ends before the code point there, which is of this kind.
#[inline(always)]
fn ends_before(
    open_cluster: &OpenCluster,
    text: &[u32],
    at: usize,
    reach: Reach,
    kind: Kind,
) -> bool
    requires within { at < length text.now }
    requires start { reach.start ≤ at }
    requires kind { IsKindOf kind (slice_index_or text.now at 0) }
    ensures ends { (cluster : List ℕ) → Reaches open_cluster.now.now text.now at reach cluster
        → result ≡ ends_before cluster (slice_index_or text.now at 0) }
    ensures some { IsTrue result → reach.start ≡ at → 0 < length open_cluster.now.now.head }
{
    if !is_some(open_cluster, text, at, reach) {
        return false;
    }
    reach.memory.breaks_before(kind)
}

/// Whether there is a cluster.
#[inline(always)]
fn is_some(open_cluster: &OpenCluster, text: &[u32], at: usize, reach: Reach) -> bool
    requires within { at < length text.now }
    requires start { reach.start ≤ at }
    ensures some { (cluster : List ℕ) → Reaches open_cluster.now.now text.now at reach cluster
        → result ≡ is_some cluster }
    ensures head { IsTrue result → reach.start ≡ at → 0 < length open_cluster.now.now.head }
{
    if reach.start < at {
        return true;
    }
    open_cluster.is_some()
}

/// The kind of a code point.
#[inline(always)]
pub(crate) fn kind_of(c: u32) -> Kind
    requires { IsScalar c }
    ensures { IsKindOf result c }
{
    Kind::of_number(c)
}

/// Whether a cluster ends between the two code points where it begins before the first.
pub(crate) fn are_parted(first: u32, next: u32) -> bool
    requires first { IsScalar first }
    requires next { IsScalar next }
    ensures { result ≡ is_grapheme_break true (first ∷ []) (next ∷ []) }
{
    let memory = Memory::new().then(kind_of(first));
    memory.breaks_before(kind_of(next))
}
