//! What a segmenter holds of a text.
ghost use Rattle.std.specs.Prelude.{◌≡◌, ◌<◌, ◌≤◌, ℕ, true, false, List, [], ◌∷◌, ◌++◌, ◌+◌, map, take, drop, length, IsTrue, IfSome, IfOk, OnOk};
ghost use Rattle.std.specs.Char.{IsScalar};
ghost use Rattle.std.specs.List.{slice_index_or};
ghost use Rattle.nfg_text.specs.Forms.{nfc};
ghost use Rattle.nfg_text.specs.Graphemes.{graphemes_of, starts_safely};
ghost use Rattle.nfg_text.specs.Text.{IsText};
ghost use Rattle.nfg_passes.specs.Ids.{id_number};
ghost use Rattle.nfg_passes.specs.Unsettled.{IsSettledText};
ghost use Rattle.nfg_segment.specs.Follows.{Tracks, Follows};
ghost use Rattle.nfg_segment.specs.Given.{Grew, with_clusters};
ghost use Rattle.nfg_segment.specs.Held.{Keeps, next_all, closed_all, as_list, none_safe};

use crate::ClusterSink;
use crate::composer::{Composer, composite_of};
use crate::draft::Draft;
use crate::marked_run::push_settled;
use crate::open_cluster::OpenCluster;
use crate::open_reach::{are_parted, kind_of};
use crate::plain::plain_lines_len;
use crate::settled_run::{WINDOW, goes_on_settled, settled_len, unsafe_len};
use lines::begins_with_line_end;
use nfg_text::starts_safely;
use std::alloc::{AllocError, Global};
use std::marker::Model;

mod lines;

/// The cluster at the end of what is composed, and the text behind it that is not composed yet.
#[derive(Drop)]
pub(crate) struct Held {
    cluster: OpenCluster,
    tail: Draft,
    composer: Composer,
}

impl Model for Held {
    ghost use Rattle.nfg_segment.specs.Held.{MarkedHeld};

    ghost Value = { MarkedHeld };

    ghost view = { λ h. record {
      now = record { cluster = h.cluster.now; tail = h.tail.current };
      marked = record { cluster = h.cluster.marked; tail = h.tail.marked };
    } };
}

impl Held {
    /// Nothing is held of the empty text.
    pub(crate) fn new(alloc: Global) -> Held
        ensures { Follows result.now [] [] }
    {
        Held {
            cluster: OpenCluster::new(alloc),
            tail: Draft::new(alloc),
            composer: Composer::new(alloc),
        }
    }

    /// Marks what is held.
    pub(crate) fn mark(&mut self)
        ensures now { self.new.now ≡ self.old.now }
        ensures marked { self.new.marked ≡ self.old.now }
    {
        self.cluster.mark();
        self.tail.mark();
    }

    /// Goes back to what was marked.
    pub(crate) fn undo(&mut self)
        ensures { self.new.now ≡ self.old.marked }
    {
        self.cluster.undo();
        self.tail.undo();
    }

    /// Goes on with a text that is not composed yet.
    fn hold(&mut self, text: &[u32]) -> Result<(), AllocError>
        requires { IsText text.now }
        ensures tracks { (fed : List ℕ) (given : List (List ℕ)) → Tracks self.old.now fed given
            → OnOk result (Tracks self.new.now (fed ++ text.now) given) }
        ensures follows { (fed : List ℕ) (given : List (List ℕ)) → none_safe text.now ≡ true → Follows self.old.now fed given
            → OnOk result (Follows self.new.now (fed ++ text.now) given) }
        ensures marked { self.new.marked ≡ self.old.marked }
    {
        self.tail.extend(text)?;
        Ok(())
    }

    /// Composes the tail, and goes on with its code points.
    fn settle<S: ClusterSink>(&mut self, out: &mut S) -> Result<(), AllocError>
        ensures settled { (cluster : List ℕ) → Keeps self.old.now.cluster cluster
            → OnOk result ((Keeps self.new.now.cluster (next_all cluster (nfc self.old.now.tail))) × (self.new.now.tail ≡ [])
            × (S.given out.new ≡ with_clusters (S.given out.old) (closed_all cluster (nfc self.old.now.tail)))) }
        ensures marked { self.new.marked ≡ self.old.marked }
        ensures grew { Grew (S.given out.old) (S.given out.new) }
    {
        if self.tail.as_slice().is_empty() {
            return Ok(());
        }
        if let Some(c) = self.single() {
            self.cluster.push(c, out)?;
            self.tail.clear();
            return Ok(());
        }
        self.composer
            .push_composed(self.tail.as_slice(), &mut self.cluster, out)?;
        self.tail.clear();
        Ok(())
    }

    /// The code point that is the tail and starts safely, so that it is composed.
    #[inline]
    fn single(&self) -> Option<u32>
        ensures tail { IfSome result (λ c. self.now.now.tail ≡ c ∷ []) }
        ensures scalar { IfSome result (λ c. IsScalar c) }
        ensures safe { IfSome result (λ c. starts_safely c ≡ true) }
    {
        let tail = self.tail.as_slice();
        if tail.len() != 1 {
            return None;
        }
        let c = tail[0];
        if !starts_safely(c) {
            return None;
        }
        Some(c)
    }

    /// Composes the tail, and goes on with it and with the first `n` code points of the text, which are settled.
    fn settle_run<S: ClusterSink>(
        &mut self,
        text: &[u32],
        n: usize,
        ids: &[u8],
        out: &mut S,
    ) -> Result<(), AllocError>
        requires text { IsText text.now }
        requires within { n < length text.now }
        requires first { starts_safely (slice_index_or text.now 0 0) ≡ true }
        requires settled { IsSettledText (take n text.now) }
        requires ids { ids.now ≡ map id_number (take n text.now) }
        requires few { n ≤ 256 }
        ensures settled { (cluster : List ℕ) → Keeps self.old.now.cluster cluster
            → OnOk result ((Keeps self.new.now.cluster (next_all cluster (nfc (self.old.now.tail ++ take n text.now))))
            × (self.new.now.tail ≡ [])
            × (S.given out.new ≡ with_clusters (S.given out.old) (closed_all cluster (nfc (self.old.now.tail ++ take n text.now))))) }
        ensures marked { self.new.marked ≡ self.old.marked }
        ensures grew { Grew (S.given out.old) (S.given out.new) }
    {
        self.settle(out)?;
        push_settled(&mut self.cluster, &text[..n], ids, out)?;
        Ok(())
    }

    /// Goes on with the first `n` code points of the text, which are settled, and with the next. Says how many these are.
    fn take_run<S: ClusterSink>(
        &mut self,
        text: &[u32],
        n: usize,
        ids: &[u8],
        out: &mut S,
    ) -> Result<usize, AllocError>
        requires text { IsText text.now }
        requires within { n < length text.now }
        requires first { starts_safely (slice_index_or text.now 0 0) ≡ true }
        requires settled { IsSettledText (take n text.now) }
        requires ids { ids.now ≡ map id_number (take n text.now) }
        requires few { n ≤ 256 }
        requires safe { starts_safely (slice_index_or text.now n 0) ≡ true }
        ensures follows { (fed : List ℕ) (given : List (List ℕ)) → Tracks self.old.now fed given
            → IfOk result (λ n. (more : List (List ℕ)) × (Follows self.new.now (fed ++ take n text.now) (given ++ more))
            × (S.given out.new ≡ with_clusters (S.given out.old) more)) }
        ensures some { IfOk result (λ n. (0 < n) × (n ≤ length text.now)) }
        ensures marked { self.new.marked ≡ self.old.marked }
        ensures grew { Grew (S.given out.old) (S.given out.new) }
    {
        self.settle_run(text, n, ids, out)?;
        let c = text[n];
        if c == 0xA {
            self.cluster.push(c, out)?;
            self.cluster.close(out)?;
            return Ok(n + 1);
        }
        self.cluster.close_before(c, kind_of(c), out)?;
        self.tail.push(c)?;
        Ok(n + 1)
    }

    /// Goes on with a code point that composes with the one that is the tail. Says whether it does;
    /// if not, nothing is done.
    fn compose_last(&mut self, c: u32) -> Result<bool, AllocError>
        requires { IsScalar c }
        ensures follows { (fed : List ℕ) (given : List (List ℕ)) → starts_safely c ≡ false → Follows self.old.now fed given
            → IfOk result (λ done. IsTrue done → Follows self.new.now (fed ++ c ∷ []) given) }
        ensures same { IfOk result (λ done. done ≡ false → self.new.now ≡ self.old.now) }
        ensures marked { self.new.marked ≡ self.old.marked }
    {
        let tail = self.tail.as_slice();
        if tail.len() != 1 {
            return Ok(false);
        }
        match composite_of(tail[0], c) {
            None => Ok(false),
            Some(whole) => {
                self.tail.clear();
                self.tail.push(whole)?;
                Ok(true)
            }
        }
    }

    /// Gives out the one code point that is all that is held, and holds the next one in its place,
    /// where the rules part them. Says whether they do; if not, nothing is done.
    fn replace_single<S: ClusterSink>(&mut self, next: u32, out: &mut S) -> Result<bool, AllocError>
        requires scalar { IsScalar next }
        requires safe { starts_safely next ≡ true }
        ensures follows { (fed : List ℕ) (given : List (List ℕ)) → Follows self.old.now fed given
            → IfOk result (λ done. IsTrue done → (more : List (List ℕ)) × (Follows self.new.now (fed ++ next ∷ []) (given ++ more))
            × (S.given out.new ≡ with_clusters (S.given out.old) more)) }
        ensures same { IfOk result (λ done. done ≡ false → self.new.now ≡ self.old.now) }
        ensures same_out { IfOk result (λ done. done ≡ false → S.given out.new ≡ S.given out.old) }
        ensures marked { self.new.marked ≡ self.old.marked }
        ensures grew { Grew (S.given out.old) (S.given out.new) }
    {
        if next == 0xA {
            return Ok(false);
        }
        if self.cluster.is_some() {
            return Ok(false);
        }
        match self.single() {
            None => Ok(false),
            Some(first) => {
                if !are_parted(first, next) {
                    return Ok(false);
                }
                out.push_run(&[first])?;
                self.tail.clear();
                self.tail.push(next)?;
                Ok(true)
            }
        }
    }

    /// Goes on with the first code point, which starts safely. Says with how many: one.
    fn take_safe<S: ClusterSink>(&mut self, text: &[u32], out: &mut S) -> Result<usize, AllocError>
        requires text { IsText text.now }
        requires some { 0 < length text.now }
        requires first { starts_safely (slice_index_or text.now 0 0) ≡ true }
        ensures follows { (fed : List ℕ) (given : List (List ℕ)) → Follows self.old.now fed given
            → IfOk result (λ n. (more : List (List ℕ)) × (Follows self.new.now (fed ++ take n text.now) (given ++ more))
            × (S.given out.new ≡ with_clusters (S.given out.old) more)) }
        ensures some { IfOk result (λ n. (0 < n) × (n ≤ length text.now)) }
        ensures marked { self.new.marked ≡ self.old.marked }
        ensures grew { Grew (S.given out.old) (S.given out.new) }
    {
        if self.replace_single(text[0], out)? {
            return Ok(1);
        }
        self.take_run(text, 0, &[], out)
    }

    /// Goes on with a settled run, or with one code point where there is none. Says with how many.
    fn take_settled<S: ClusterSink>(
        &mut self,
        text: &[u32],
        out: &mut S,
    ) -> Result<usize, AllocError>
        requires text { IsText text.now }
        requires some { 0 < length text.now }
        requires first { starts_safely (slice_index_or text.now 0 0) ≡ true }
        ensures follows { (fed : List ℕ) (given : List (List ℕ)) → Follows self.old.now fed given
            → IfOk result (λ n. (more : List (List ℕ)) × (Follows self.new.now (fed ++ take n text.now) (given ++ more))
            × (S.given out.new ≡ with_clusters (S.given out.old) more)) }
        ensures some { IfOk result (λ n. (0 < n) × (n ≤ length text.now)) }
        ensures marked { self.new.marked ≡ self.old.marked }
        ensures grew { Grew (S.given out.old) (S.given out.new) }
    {
        let mut ids = [0; WINDOW];
        let n = settled_len(text, &mut ids);
        if n > 0 {
            return self.take_run(text, n, &ids[..n], out);
        }
        self.take_safe(text, out)
    }

    /// Goes on with code points of which the first starts safely, one or a settled run. Says with how many.
    fn take_next_safe<S: ClusterSink>(
        &mut self,
        text: &[u32],
        out: &mut S,
    ) -> Result<usize, AllocError>
        requires text { IsText text.now }
        requires some { 0 < length text.now }
        requires first { starts_safely (slice_index_or text.now 0 0) ≡ true }
        ensures follows { (fed : List ℕ) (given : List (List ℕ)) → Follows self.old.now fed given
            → IfOk result (λ n. (more : List (List ℕ)) × (Follows self.new.now (fed ++ take n text.now) (given ++ more))
            × (S.given out.new ≡ with_clusters (S.given out.old) more)) }
        ensures some { IfOk result (λ n. (0 < n) × (n ≤ length text.now)) }
        ensures marked { self.new.marked ≡ self.old.marked }
        ensures grew { Grew (S.given out.old) (S.given out.new) }
    {
        if goes_on_settled(text) {
            return self.take_settled(text, out);
        }
        self.take_safe(text, out)
    }

    /// Goes on with some of a text of any kind, and says with how much.
    fn take_mixed<S: ClusterSink>(&mut self, text: &[u32], out: &mut S) -> Result<usize, AllocError>
        requires text { IsText text.now }
        requires some { 0 < length text.now }
        ensures follows { (fed : List ℕ) (given : List (List ℕ)) → Follows self.old.now fed given
            → IfOk result (λ n. (more : List (List ℕ)) × (Follows self.new.now (fed ++ take n text.now) (given ++ more))
            × (S.given out.new ≡ with_clusters (S.given out.old) more)) }
        ensures some { IfOk result (λ n. (0 < n) × (n ≤ length text.now)) }
        ensures marked { self.new.marked ≡ self.old.marked }
        ensures grew { Grew (S.given out.old) (S.given out.new) }
    {
        if starts_safely(text[0]) {
            return self.take_next_safe(text, out);
        }
        if self.compose_last(text[0])? {
            return Ok(1);
        }
        let n = unsafe_len(text);
        self.hold(&text[..n])?;
        Ok(n)
    }

    /// Goes on with some of the text, and says with how much.
    fn take_some<S: ClusterSink>(&mut self, text: &[u32], out: &mut S) -> Result<usize, AllocError>
        requires text { IsText text.now }
        requires some { 0 < length text.now }
        ensures follows { (fed : List ℕ) (given : List (List ℕ)) → Follows self.old.now fed given
            → IfOk result (λ n. (more : List (List ℕ)) × (Follows self.new.now (fed ++ take n text.now) (given ++ more))
            × (S.given out.new ≡ with_clusters (S.given out.old) more)) }
        ensures some { IfOk result (λ n. (0 < n) × (n ≤ length text.now)) }
        ensures marked { self.new.marked ≡ self.old.marked }
        ensures grew { Grew (S.given out.old) (S.given out.new) }
    {
        if self.is_apart() {
            let n = plain_lines_len(text);
            if begins_with_line_end(&text[n..]) {
                self.take_ended_lines(&text[..n], &text[n..n + 2], out)?;
                return Ok(n + 2);
            }
            if n > 0 {
                self.take_lines(&text[..n], out)?;
                return Ok(n);
            }
        }
        self.take_mixed(text, out)
    }

    /// Goes on with the text.
    pub(crate) fn take<S: ClusterSink>(
        &mut self,
        text: &[u32],
        out: &mut S,
    ) -> Result<(), AllocError>
        requires { IsText text.now }
        ensures follows { (fed : List ℕ) (given : List (List ℕ)) → Follows self.old.now fed given
            → OnOk result ((more : List (List ℕ)) × (Follows self.new.now (fed ++ text.now) (given ++ more))
            × (S.given out.new ≡ with_clusters (S.given out.old) more)) }
        ensures marked { self.new.marked ≡ self.old.marked }
        ensures grew { Grew (S.given out.old) (S.given out.new) }
    {
        let mut at = 0;
        while at < text.len() {
            at += self.take_some(&text[at..], out)?;
        }
        Ok(())
    }

    /// Gives out all that is held.
    pub(crate) fn end<S: ClusterSink>(&mut self, out: &mut S) -> Result<(), AllocError>
        ensures ended { (fed : List ℕ) (given : List (List ℕ)) → Tracks self.old.now fed given
            → OnOk result ((more : List (List ℕ)) × (given ++ more ≡ graphemes_of fed) × (Follows self.new.now [] [])
            × (S.given out.new ≡ with_clusters (S.given out.old) more)) }
        ensures marked { self.new.marked ≡ self.old.marked }
        ensures grew { Grew (S.given out.old) (S.given out.new) }
    {
        self.settle(out)?;
        self.cluster.close(out)?;
        Ok(())
    }
}
