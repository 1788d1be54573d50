//! The cluster that is not finished.
ghost use Rattle.std.specs.Prelude.{◌≡◌, ◌<◌, ◌+◌, ℕ, false, List, [], ◌∷◌, ◌++◌, length, reverse, IsTrue, OnOk};
ghost use Rattle.std.specs.Char.{IsScalar};
ghost use Rattle.nfg_text.specs.Breaks.{IsKindOf, Remembers};
ghost use Rattle.nfg_text.specs.Text.{IsText};
ghost use Rattle.nfg_segment.specs.Given.{Grew, with_cluster, with_clusters};
ghost use Rattle.nfg_segment.specs.Held.{Keeps, is_some, ends_before, closed, left_open, next, next_all, closed_all, as_list};

use crate::ClusterSink;
use crate::draft::Draft;
use crate::open_reach::kind_of;
use nfg_text::{Kind, Memory};
use std::alloc::{AllocError, Global};
use std::marker::Model;

/// How many code points of a cluster are kept.
const LONGEST: usize = 1024;

/// A cluster that more code points may join, or none.
#[derive(Drop)]
pub(crate) struct OpenCluster {
    head: Draft,
    is_long: bool,
    memory: Memory,
    marked_is_long: bool,
    marked_memory: Memory,
}

impl Model for OpenCluster {
    ghost use Rattle.std.specs.Prelude.{◌≤◌, length};
    ghost use Rattle.nfg_segment.specs.Held.{MarkedCluster};

    ghost Value = { MarkedCluster };

    ghost view = { λ c. record {
      now = record { head = c.head.current; is_long = c.is_long; memory = c.memory };
      marked = record { head = c.head.marked; is_long = c.marked_is_long; memory = c.marked_memory };
    } };

    ghost invariant = { λ c. (length c.head.current ≤ 1024) × (length c.head.marked ≤ 1024) };
}

impl OpenCluster {
    pub(crate) fn new(alloc: Global) -> OpenCluster
        ensures { Keeps result.now [] }
    {
        let memory = Memory::new();
        OpenCluster {
            head: Draft::new(alloc),
            is_long: false,
            memory,
            marked_is_long: false,
            marked_memory: memory,
        }
    }

    /// Marks the cluster as it is.
    #[inline]
    pub(crate) fn mark(&mut self)
        ensures now { self.new.now ≡ self.old.now }
        ensures marked { self.new.marked ≡ self.old.now }
    {
        self.head.mark();
        self.marked_is_long = self.is_long;
        self.marked_memory = self.memory;
    }

    /// Goes back to what was marked.
    pub(crate) fn undo(&mut self)
        ensures { self.new.now ≡ self.old.marked }
    {
        self.head.undo();
        self.is_long = self.marked_is_long;
        self.memory = self.marked_memory;
    }

    /// Whether there is a cluster.
    #[inline]
    pub(crate) fn is_some(&self) -> bool
        ensures cluster { (cluster : List ℕ) → Keeps self.now.now cluster → result ≡ is_some cluster }
        ensures head { IsTrue result → 0 < length self.now.now.head }
        ensures none { result ≡ false → length self.now.now.head ≡ 0 }
    {
        self.head.len() > 0
    }

    /// What the rules read of the cluster.
    #[inline]
    pub(crate) fn memory(&self) -> Memory
        ensures { (cluster : List ℕ) → Keeps self.now.now cluster → Remembers result (reverse cluster) }
    {
        self.memory
    }

    /// Whether there is a cluster that ends before the code point.
    #[inline]
    fn ends_before(&self, c: u32, kind: Kind) -> bool
        requires { IsKindOf kind c }
        ensures cluster { (cluster : List ℕ) → Keeps self.now.now cluster → result ≡ ends_before cluster c }
        ensures head { IsTrue result → 0 < length self.now.now.head }
    {
        self.is_some() && self.memory.breaks_before(kind)
    }

    /// Gives the cluster out.
    fn give<S: ClusterSink>(&mut self, out: &mut S) -> Result<(), AllocError>
        requires { 0 < length self.old.now.head }
        ensures given { (cluster : List ℕ) → Keeps self.old.now cluster
            → OnOk result ((Keeps self.new.now []) × (S.given out.new ≡ with_cluster (S.given out.old) cluster)) }
        ensures marked { self.new.marked ≡ self.old.marked }
        ensures grew { Grew (S.given out.old) (S.given out.new) }
    {
        out.push(self.head.as_slice(), self.is_long)?;
        self.head.clear();
        self.is_long = false;
        self.memory = Memory::new();
        Ok(())
    }

    /// Gives the cluster out where it ends before the code point.
    #[inline]
    pub(crate) fn close_before<S: ClusterSink>(
        &mut self,
        c: u32,
        kind: Kind,
        out: &mut S,
    ) -> Result<(), AllocError>
        requires { IsKindOf kind c }
        ensures given { (cluster : List ℕ) → Keeps self.old.now cluster
            → OnOk result ((Keeps self.new.now (left_open cluster c)) × (S.given out.new ≡ with_clusters (S.given out.old) (closed cluster c))) }
        ensures marked { self.new.marked ≡ self.old.marked }
        ensures grew { Grew (S.given out.old) (S.given out.new) }
    {
        if self.ends_before(c, kind) {
            self.give(out)?;
        }
        Ok(())
    }

    /// Gives the cluster out, where there is one.
    pub(crate) fn close<S: ClusterSink>(&mut self, out: &mut S) -> Result<(), AllocError>
        ensures given { (cluster : List ℕ) → Keeps self.old.now cluster
            → OnOk result ((Keeps self.new.now []) × (S.given out.new ≡ with_clusters (S.given out.old) (as_list cluster))) }
        ensures marked { self.new.marked ≡ self.old.marked }
        ensures grew { Grew (S.given out.old) (S.given out.new) }
    {
        if self.is_some() {
            self.give(out)?;
        }
        Ok(())
    }

    /// Goes on with a code point of the same cluster.
    #[inline(always)]
    fn join(&mut self, c: u32, kind: Kind) -> Result<(), AllocError>
        requires scalar { IsScalar c }
        requires kind { IsKindOf kind c }
        ensures joined { (cluster : List ℕ) → Keeps self.old.now cluster → OnOk result (Keeps self.new.now (cluster ++ c ∷ [])) }
        ensures marked { self.new.marked ≡ self.old.marked }
    {
        if self.head.len() >= LONGEST {
            self.is_long = true;
            self.memory = self.memory.then(kind);
            return Ok(());
        }
        self.head.push(c)?;
        self.memory = self.memory.then(kind);
        Ok(())
    }

    /// Goes on with code points of the same cluster, of which the rules then read the memory.
    pub(crate) fn join_all(&mut self, text: &[u32], memory: Memory) -> Result<(), AllocError>
        requires { IsText text.now }
        ensures joined { (cluster : List ℕ) → Keeps self.old.now cluster → Remembers memory (reverse (cluster ++ text.now))
            → OnOk result (Keeps self.new.now (cluster ++ text.now)) }
        ensures marked { self.new.marked ≡ self.old.marked }
    {
        let room = LONGEST - self.head.len();
        if text.len() > room {
            self.head.extend(&text[..room])?;
            self.is_long = true;
            self.memory = memory;
            return Ok(());
        }
        self.head.extend(text)?;
        self.memory = memory;
        Ok(())
    }

    /// Gives out the cluster with the code points of it that are still in the text.
    pub(crate) fn close_with<S: ClusterSink>(
        &mut self,
        text: &[u32],
        memory: Memory,
        out: &mut S,
    ) -> Result<(), AllocError>
        requires text { IsText text.now }
        requires some { 0 < length self.old.now.head + length text.now }
        ensures given { (cluster : List ℕ) → Keeps self.old.now cluster → Remembers memory (reverse (cluster ++ text.now))
            → OnOk result ((Keeps self.new.now []) × (S.given out.new ≡ with_cluster (S.given out.old) (cluster ++ text.now))) }
        ensures marked { self.new.marked ≡ self.old.marked }
        ensures grew { Grew (S.given out.old) (S.given out.new) }
    {
        if !self.is_some() {
            give_cluster(text, out)?;
            return Ok(());
        }
        self.join_all(text, memory)?;
        self.close(out)?;
        Ok(())
    }

    /// Goes on with the next code point of the NFC, which is of this kind.
    #[inline(always)]
    fn push_kind<S: ClusterSink>(
        &mut self,
        c: u32,
        kind: Kind,
        out: &mut S,
    ) -> Result<(), AllocError>
        requires scalar { IsScalar c }
        requires kind { IsKindOf kind c }
        ensures given { (cluster : List ℕ) → Keeps self.old.now cluster
            → OnOk result ((Keeps self.new.now (next cluster c)) × (S.given out.new ≡ with_clusters (S.given out.old) (closed cluster c))) }
        ensures marked { self.new.marked ≡ self.old.marked }
        ensures grew { Grew (S.given out.old) (S.given out.new) }
    {
        self.close_before(c, kind, out)?;
        self.join(c, kind)
    }

    /// Goes on with the next code point of the NFC.
    pub(crate) fn push<S: ClusterSink>(&mut self, c: u32, out: &mut S) -> Result<(), AllocError>
        requires { IsScalar c }
        ensures given { (cluster : List ℕ) → Keeps self.old.now cluster
            → OnOk result ((Keeps self.new.now (next cluster c)) × (S.given out.new ≡ with_clusters (S.given out.old) (closed cluster c))) }
        ensures marked { self.new.marked ≡ self.old.marked }
        ensures grew { Grew (S.given out.old) (S.given out.new) }
    {
        self.push_kind(c, kind_of(c), out)
    }
}

/// Gives out a cluster.
pub(crate) fn give_cluster<S: ClusterSink>(cluster: &[u32], out: &mut S) -> Result<(), AllocError>
    requires text { IsText cluster.now }
    requires some { 0 < length cluster.now }
    ensures given { OnOk result (S.given out.new ≡ with_cluster (S.given out.old) cluster.now) }
    ensures grew { Grew (S.given out.old) (S.given out.new) }
{
    if cluster.len() == 1 {
        out.push_run(cluster)?;
        return Ok(());
    }
    if cluster.len() > LONGEST {
        out.push(&cluster[..LONGEST], true)?;
        return Ok(());
    }
    out.push(cluster, false)?;
    Ok(())
}
