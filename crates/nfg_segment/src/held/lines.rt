//! Plain lines, which a segmenter goes on with where what it holds is apart from them.
ghost use Rattle.std.specs.Prelude.{◌≡◌, ◌<◌, ◌≤◌, ℕ, List, [], ◌∷◌, ◌++◌, length, take, IsTrue, OnOk};
ghost use Rattle.nfg_text.specs.Plain.{singles};
ghost use Rattle.nfg_text.specs.Text.{IsText};
ghost use Rattle.nfg_passes.specs.Ids.{id_number};
ghost use Rattle.nfg_segment.specs.Follows.{Follows, IsApart};
ghost use Rattle.nfg_segment.specs.Given.{Grew, with_clusters};
ghost use Rattle.nfg_segment.specs.PlainLines.{ArePlainLines};

use super::Held;
use crate::ClusterSink;
use crate::open_cluster::give_cluster;
use nfg_passes::id_of;
use nfg_text::is_plain;
use std::alloc::AllocError;

/// The id of CR, and of no other code point.
const CARRIAGE_RETURN: u8 = 2;

impl Held {
    /// Whether nothing is held, or one plain code point.
    #[inline]
    pub(super) fn is_apart(&self) -> bool
        ensures few { IsTrue result → length self.now.now.tail ≤ 1 }
        ensures apart { IsTrue result → (fed : List ℕ) (given : List (List ℕ)) → Follows self.now.now fed given
            → IsApart self.now.now fed given }
    {
        if self.cluster.is_some() {
            return false;
        }
        let tail = self.tail.as_slice();
        if tail.len() != 1 {
            return tail.is_empty();
        }
        is_plain(tail[0])
    }

    /// Gives out the tail of one code point at most as a cluster.
    #[inline]
    fn give_tail<S: ClusterSink>(&mut self, out: &mut S) -> Result<(), AllocError>
        requires { length self.old.now.tail ≤ 1 }
        ensures given { OnOk result (S.given out.new ≡ with_clusters (S.given out.old) (singles self.old.now.tail)) }
        ensures cluster { OnOk result (self.new.now.cluster ≡ self.old.now.cluster) }
        ensures tail { OnOk result (self.new.now.tail ≡ []) }
        ensures marked { self.new.marked ≡ self.old.marked }
        ensures grew { Grew (S.given out.old) (S.given out.new) }
    {
        let tail = self.tail.as_slice();
        if tail.len() == 1 {
            out.push_run(tail)?;
            self.tail.clear();
        }
        Ok(())
    }

    /// Goes on with plain lines where a plain code point is all that is held, if anything is.
    pub(super) fn take_lines<S: ClusterSink>(
        &mut self,
        lines: &[u32],
        out: &mut S,
    ) -> Result<(), AllocError>
        requires few { length self.old.now.tail ≤ 1 }
        requires text { IsText lines.now }
        requires plain { ArePlainLines lines.now }
        requires some { 0 < length lines.now }
        ensures follows { (fed : List ℕ) (given : List (List ℕ)) → IsApart self.old.now fed given
            → OnOk result ((more : List (List ℕ)) × (Follows self.new.now (fed ++ lines.now) (given ++ more))
            × (S.given out.new ≡ with_clusters (S.given out.old) more)) }
        ensures marked { self.new.marked ≡ self.old.marked }
        ensures grew { Grew (S.given out.old) (S.given out.new) }
    {
        self.give_tail(out)?;
        let last = lines.len() - 1;
        if lines[last] == 0xA {
            out.push_run(lines)?;
            return Ok(());
        }
        out.push_run(&lines[..last])?;
        self.tail.push(lines[last])?;
        Ok(())
    }

    /// Goes on with plain lines, if any, and the CR LF behind them, in the same place.
    pub(super) fn take_ended_lines<S: ClusterSink>(
        &mut self,
        lines: &[u32],
        line_end: &[u32],
        out: &mut S,
    ) -> Result<(), AllocError>
        requires few { length self.old.now.tail ≤ 1 }
        requires text { IsText lines.now }
        requires plain { ArePlainLines lines.now }
        requires line_end_text { IsText line_end.now }
        requires line_end { (c : ℕ) × (id_number c ≡ 2) × (line_end.now ≡ c ∷ 0xA ∷ []) }
        ensures follows { (fed : List ℕ) (given : List (List ℕ)) → IsApart self.old.now fed given
            → OnOk result ((more : List (List ℕ)) × (Follows self.new.now (fed ++ (lines.now ++ line_end.now)) (given ++ more))
            × (S.given out.new ≡ with_clusters (S.given out.old) more)) }
        ensures marked { self.new.marked ≡ self.old.marked }
        ensures grew { Grew (S.given out.old) (S.given out.new) }
    {
        self.give_tail(out)?;
        out.push_run(lines)?;
        give_cluster(line_end, out)?;
        Ok(())
    }
}

/// Whether the text begins with CR LF.
#[inline(always)]
pub(super) fn begins_with_line_end(text: &[u32]) -> bool
    ensures size { IsTrue result → 2 ≤ length text.now }
    ensures line_end { IsTrue result → (c : ℕ) × (id_number c ≡ 2) × (take 2 text.now ≡ c ∷ 0xA ∷ []) }
{
    if text.len() < 2 {
        return false;
    }
    if text[1] != 0xA {
        return false;
    }
    id_of(text[0]) == CARRIAGE_RETURN
}
