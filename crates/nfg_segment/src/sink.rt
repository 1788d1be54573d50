//! Where a segmenter puts the clusters that it gives out.
ghost use Rattle.std.specs.Prelude.{◌≡◌, ◌<◌, ◌≤◌, List, ℕ, length, take, Option, OnOk};
ghost use Rattle.nfg_text.specs.Plain.{singles};
ghost use Rattle.nfg_text.specs.Text.{IsText};
ghost use Rattle.nfg_segment.specs.Given.{Given, Grew, with_head, with_clusters};

use std::alloc::AllocError;

/// What takes clusters in order, as code points. A text that is mostly plain reaches it as slices of
/// code points that are clusters of their own, so it can keep them without a look at each.
pub trait ClusterSink {
    /// The clusters that it was given, each by its first 1,024 code points.
    ghost given: { Self → Given };

    /// How many clusters it was given.
    fn len(&self) -> usize
        ensures { result ≡ length (given self.now).heads };

    /// The index of the first cluster of more than 1,024 code points.
    fn first_long(&self) -> Option<usize>
        ensures { result ≡ (given self.now).first_long };

    /// Takes one cluster more, by its first code points. Where it has more than these, it is long.
    fn push(&mut self, head: &[u32], is_long: bool) -> Result<(), AllocError>
        requires text { IsText head.now }
        requires some { 0 < length head.now }
        requires short { length head.now ≤ 1024 }
        ensures pushed { OnOk result (given self.new ≡ with_head (given self.old) head.now is_long) }
        ensures grew { Grew (given self.old) (given self.new) };

    /// Takes a run of clusters of one code point each.
    fn push_run(&mut self, run: &[u32]) -> Result<(), AllocError>
        requires { IsText run.now }
        ensures pushed { OnOk result (given self.new ≡ with_clusters (given self.old) (singles run.now)) }
        ensures grew { Grew (given self.old) (given self.new) };

    /// Goes back to its first `len` clusters, of which `first_long` was the first long one.
    fn cut_back(&mut self, len: usize, first_long: Option<usize>)
        requires { len ≤ length (given self.old).heads }
        ensures heads { (given self.new).heads ≡ take len (given self.old).heads }
        ensures first_long { (given self.new).first_long ≡ first_long };
}
