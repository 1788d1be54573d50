//! The graphemes of a text that is repeated become numbers.
ghost use Rattle.std.specs.Prelude.{◌≡◌, ◌<◌, ◌≤◌, ℕ, List, None, OnOk, IfOk, IfErr, length};
ghost use Rattle.std.specs.List.{repeat};
ghost use Rattle.nfg_text.specs.Graphemes.{graphemes_of};
ghost use Rattle.nfg_text.specs.Text.{IsText};
ghost use Rattle.nfg_syn.specs.Learned.{first_long};
ghost use Rattle.nfg_syn.specs.Seen.{Keeps, SameCounts};
ghost use Rattle.nfg_seam.specs.Numbered.{IsCluster, AreClusters, Holds};
ghost use Rattle.nfg_seam.specs.Numbered.{IsNumbered, IsUnnumbered, AreNumbered, AreRefused};

use crate::SeamError;
use nfg_segment::{Clusters, Segmenter};
use nfg_syn::{InternError, Synthetics};
use std::alloc::{AllocError, Global};

/// The numbers of the graphemes of a text that stands `n` times in a row.
pub(crate) fn number_repeated<T: Synthetics>(
    alloc: Global,
    table: &T,
    pass: &mut T::Pass,
    text: &[u32],
    n: u64,
) -> Result<Vec<i32>, SeamError>
    requires text { IsText text.now }
    requires table { T.is_of table.now pass.old }
    ensures table { T.is_of table.now pass.new }
    ensures keeps { Keeps (T.seen pass.old) (T.seen pass.new) }
    ensures counts { SameCounts (T.seen pass.old) (T.seen pass.new) }
    ensures short { IfOk result (λ numbers. first_long (graphemes_of (repeat n text.now)) ≡ None) }
    ensures numbers { IfOk result (λ numbers. AreNumbered (graphemes_of (repeat n text.now))
        (T.seen pass.old).known (T.seen pass.new).known numbers.items) }
    ensures refused { IfErr result (λ error. AreRefused (graphemes_of (repeat n text.now))
        (T.seen pass.old) (T.seen pass.new) error) }
{
    match clusters_of(alloc, text, n) {
        Ok(clusters) => number_all(alloc, table, pass, &clusters),
        Err(_) => Err(SeamError::OutOfMemory),
    }
}

/// The graphemes of a text that stands `n` times in a row, each by its first 1,024 code points.
fn clusters_of(alloc: Global, text: &[u32], n: u64) -> Result<Clusters, AllocError>
    requires { IsText text.now }
    ensures { IfOk result (λ clusters. Holds clusters (graphemes_of (repeat n text.now))) }
{
    let mut segmenter = Segmenter::new(alloc);
    let mut clusters = Clusters::new(alloc);
    'copies: for _copy in 0..n {
        segmenter.feed(alloc, text, &mut clusters)?;
    }
    segmenter.finish(alloc, &mut clusters)?;
    Ok(clusters)
}

/// The numbers of clusters, unless one of them is too long.
fn number_all<T: Synthetics>(
    alloc: Global,
    table: &T,
    pass: &mut T::Pass,
    clusters: &Clusters,
) -> Result<Vec<i32>, SeamError>
    requires clusters { (all : List (List ℕ)) × Holds clusters.now all }
    requires table { T.is_of table.now pass.old }
    ensures table { T.is_of table.now pass.new }
    ensures keeps { Keeps (T.seen pass.old) (T.seen pass.new) }
    ensures counts { SameCounts (T.seen pass.old) (T.seen pass.new) }
    ensures short { (all : List (List ℕ)) → Holds clusters.now all
        → IfOk result (λ numbers. first_long all ≡ None) }
    ensures numbers { (all : List (List ℕ)) → Holds clusters.now all
        → IfOk result (λ numbers. AreNumbered all
        (T.seen pass.old).known (T.seen pass.new).known numbers.items) }
    ensures refused { (all : List (List ℕ)) → Holds clusters.now all
        → IfErr result (λ error. AreRefused all (T.seen pass.old) (T.seen pass.new) error) }
{
    let first_long = clusters.first_long();
    if let Some(at) = first_long {
        return Err(SeamError::ClusterLong { at: at as u64 });
    }
    match vec![in alloc; 0i32; clusters.len()] {
        Ok(mut numbers) => match number_each(alloc, table, pass, clusters, &mut numbers) {
            Ok(()) => Ok(numbers),
            Err(error) => Err(error),
        },
        Err(_) => Err(SeamError::OutOfMemory),
    }
}

/// Puts the numbers of clusters into a slice of as many places.
fn number_each<T: Synthetics>(
    alloc: Global,
    table: &T,
    pass: &mut T::Pass,
    clusters: &Clusters,
    into: &mut [i32],
) -> Result<(), SeamError>
    requires room { length into.old ≡ length clusters.now.heads }
    requires clusters { AreClusters clusters.now.heads }
    requires short { first_long clusters.now.heads ≡ None }
    requires table { T.is_of table.now pass.old }
    ensures table { T.is_of table.now pass.new }
    ensures keeps { Keeps (T.seen pass.old) (T.seen pass.new) }
    ensures counts { SameCounts (T.seen pass.old) (T.seen pass.new) }
    ensures numbers { OnOk result (AreNumbered clusters.now.heads
        (T.seen pass.old).known (T.seen pass.new).known into.new) }
    ensures refused { IfErr result (λ error. AreRefused clusters.now.heads
        (T.seen pass.old) (T.seen pass.new) error) }
{
    'numbering: for k in 0..into.len() {
        match number_of(alloc, table, pass, clusters.get(k)) {
            Ok(number) => into[k] = number,
            Err(error) => return Err(error),
        }
    }
    Ok(())
}

/// The number of a cluster: its code point where it has one alone, else the table's number.
fn number_of<T: Synthetics>(
    alloc: Global,
    table: &T,
    pass: &mut T::Pass,
    cluster: &[u32],
) -> Result<i32, SeamError>
    requires cluster { IsCluster cluster.now }
    requires short { length cluster.now ≤ 1024 }
    requires table { T.is_of table.now pass.old }
    ensures table { T.is_of table.now pass.new }
    ensures keeps { Keeps (T.seen pass.old) (T.seen pass.new) }
    ensures counts { SameCounts (T.seen pass.old) (T.seen pass.new) }
    ensures number { IfOk result (λ number. IsNumbered cluster.now
        (T.seen pass.old).known (T.seen pass.new).known number) }
    ensures refused { IfErr result (λ error. IsUnnumbered cluster.now
        (T.seen pass.old) (T.seen pass.new) error) }
{
    if cluster.len() == 1 {
        return Ok(cluster[0] as i32);
    }
    match table.intern(alloc, pass, cluster) {
        Ok(n) => Ok(n),
        Err(InternError::RowFull) => Err(SeamError::RowFull),
        Err(InternError::NoPortion) => Err(SeamError::NoPortion),
        Err(InternError::OutOfMemory) => Err(SeamError::OutOfMemory),
    }
}
