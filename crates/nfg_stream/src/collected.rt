//! Clusters as the numbers that a string will have, but for those that a table must number.
ghost use Rattle.std.specs.Prelude.{◌≡◌, ◌<◌, ◌≤◌, ℕ, ℤ, List, [], ◌∷◌, ◌++◌, length, map, IfOk, OnOk, OnErr};
ghost use Rattle.nfg_text.specs.Text.{IsText};
ghost use Rattle.nfg_segment.specs.Given.{Given, nothing, first_or};
ghost use Rattle.nfg_stream.specs.Collected.{kept_as, IsCounted, AreCounted};

use crate::longer::Longer;
use crate::numbers::Numbers;
use nfg_segment::ClusterSink;
use std::alloc::{AllocError, Global};
use std::marker::Model;

/// Clusters in order. Most are one code point, and are kept as that number. Equal ones of several code
/// points share a number.
#[derive(Drop)]
pub(crate) struct Collected {
    graphemes: Numbers,
    longer: Longer,
    first_long: Option<usize>,
}

impl Model for Collected {
    ghost use Rattle.std.specs.Prelude.{length, map};
    ghost use Rattle.nfg_segment.specs.Given.{Given};
    ghost use Rattle.nfg_stream.specs.Collected.{kept_as, AreCounted};

    ghost Value = { Given };

    ghost view = { λ c. record {
      heads = map (kept_as c.longer) c.graphemes;
      first_long = c.first_long;
    } };

    ghost invariant = { λ c. AreCounted (length c.longer) c.graphemes };
}

impl Collected {
    /// No clusters.
    pub(crate) fn new(alloc: Global) -> Collected
        ensures { result ≡ nothing }
    {
        Collected {
            graphemes: Numbers::new(alloc),
            longer: Longer::new(alloc),
            first_long: None,
        }
    }

    /// The index of the first cluster of more than 1,024 code points.
    pub(crate) fn first_long(&self) -> Option<usize>
        ensures { result ≡ self.now.first_long }
    {
        self.first_long
    }

    /// The numbers, and the longer clusters that they count.
    pub(crate) fn into_parts(self) -> (Numbers, Longer)
        ensures heads { map (kept_as result.1) result.0 ≡ self.heads }
        ensures counted { AreCounted (length result.1) result.0 }
    {
        (self.graphemes, self.longer)
    }
}

impl ClusterSink for Collected {
    ghost given = { λ c. c };

    fn len(&self) -> usize {
        self.graphemes.len()
    }

    fn first_long(&self) -> Option<usize> {
        Collected::first_long(self)
    }

    fn push(&mut self, head: &[u32], is_long: bool) -> Result<(), AllocError> {
        push_kept(&mut self.graphemes, &mut self.longer, head)?;
        self.first_long = first_or(self.first_long, is_long, self.graphemes.len() - 1);
        Ok(())
    }

    fn push_run(&mut self, run: &[u32]) -> Result<(), AllocError> {
        self.graphemes.append_codes(run)?;
        Ok(())
    }

    fn cut_back(&mut self, len: usize, first_long: Option<usize>) {
        self.graphemes.truncate(len);
        self.first_long = first_long;
    }
}

/// The number as which a cluster is kept, which becomes one of the longer ones unless it has one code
/// point.
fn kept(longer: &mut Longer, head: &[u32]) -> Result<i32, AllocError>
    requires text { IsText head.now }
    requires some { 0 < length head.now }
    requires short { length head.now ≤ 1024 }
    ensures number { IfOk result (λ n. kept_as longer.new n ≡ head.now) }
    ensures counted { IfOk result (λ n. IsCounted (length longer.new) n) }
    ensures grew { (more : List (List ℕ)) × (longer.new ≡ longer.old ++ more) }
{
    if head.len() == 1 {
        return Ok(head[0] as i32);
    }
    let place = longer.place_of(head)?;
    Ok(-1 - place as i32)
}

/// Adds the number of a cluster at the end.
fn push_kept(graphemes: &mut Numbers, longer: &mut Longer, head: &[u32]) -> Result<(), AllocError>
    requires text { IsText head.now }
    requires some { 0 < length head.now }
    requires short { length head.now ≤ 1024 }
    ensures pushed { OnOk result ((n : ℤ) × (graphemes.new ≡ graphemes.old ++ n ∷ [])
        × (kept_as longer.new n ≡ head.now) × IsCounted (length longer.new) n) }
    ensures none { OnErr result (graphemes.new ≡ graphemes.old) }
    ensures grew { (more : List (List ℕ)) × (longer.new ≡ longer.old ++ more) }
{
    let number = kept(longer, head)?;
    graphemes.push(number)?;
    Ok(())
}

fn first_or(first: Option<usize>, is_long: bool, here: usize) -> Option<usize>
    ensures { result ≡ first_or first is_long here }
{
    match first {
        Some(k) => Some(k),
        None => { if is_long { Some(here) } else { None } }
    }
}
