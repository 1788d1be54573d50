//! Clusters in a list.
ghost use Rattle.std.specs.Prelude.{◌≡◌, ◌<◌, ◌+◌, ℕ, List, [], ◌++◌, length, None, IfOk};
ghost use Rattle.std.specs.List.{slice_index_or};
ghost use Rattle.nfg_text.specs.Text.{IsText};
ghost use Rattle.nfg_segment.specs.Given.{Given, nothing, first_or};
ghost use Rattle.nfg_segment.specs.Kept.{head_of, AreCounted};

use crate::ClusterSink;
use crate::texts::Texts;
use std::alloc::{AllocError, Global};
use std::marker::Model;

/// The least number that does not stand for one code point.
const LONGER: u32 = 0x8000_0000;

/// Clusters in order, each by its first 1,024 code points.
#[derive(Drop)]
pub struct Clusters {
    // for each cluster its one code point, or LONGER and the index of its text
    numbers: Vec<u32>,
    longer: Texts,
    first_long: Option<usize>,
}

impl Model for Clusters {
    ghost use Rattle.std.specs.Prelude.{length, map};
    ghost use Rattle.nfg_segment.specs.Given.{Given};
    ghost use Rattle.nfg_segment.specs.Kept.{head_of, AreCounted};

    ghost Value = { Given };

    ghost view = { λ c. record { heads = map (head_of c.longer) c.numbers.items; first_long = c.first_long } };

    ghost invariant = { λ c. AreCounted (length c.longer) c.numbers.items };
}

impl Clusters {
    /// No clusters.
    pub fn new(alloc: Global) -> Clusters
        ensures { result ≡ nothing }
    {
        Clusters {
            numbers: Vec::new(alloc),
            longer: Texts::new(alloc),
            first_long: None,
        }
    }

    /// How many clusters there are.
    pub fn len(&self) -> usize
        ensures { result ≡ length self.now.heads }
    {
        self.numbers.len()
    }

    /// The code points of a cluster, up to 1,024 of them.
    pub fn get(&self, k: usize) -> &[u32]
        requires { k < length self.now.heads }
        ensures { result.now ≡ slice_index_or self.now.heads k [] }
    {
        let number = self.numbers[k];
        if number < LONGER {
            return &self.numbers[k..k + 1];
        }
        self.longer.get((number - LONGER) as usize)
    }

    /// The index of the first cluster of more than 1,024 code points, of which `get` gives the
    /// first 1,024.
    pub fn first_long(&self) -> Option<usize>
        ensures { result ≡ self.now.first_long }
    {
        self.first_long
    }
}

impl ClusterSink for Clusters {
    ghost given = { λ c. c };

    fn len(&self) -> usize {
        Clusters::len(self)
    }

    fn first_long(&self) -> Option<usize> {
        Clusters::first_long(self)
    }

    fn push(&mut self, head: &[u32], is_long: bool) -> Result<(), AllocError> {
        let number = number_of(&mut self.longer, head)?;
        self.numbers.push(number)?;
        self.first_long = first_or(self.first_long, is_long, self.numbers.len() - 1);
        Ok(())
    }

    fn push_run(&mut self, run: &[u32]) -> Result<(), AllocError> {
        self.numbers.extend_from_slice(run)?;
        Ok(())
    }

    fn cut_back(&mut self, len: usize, first_long: Option<usize>) {
        self.numbers.truncate(len);
        self.first_long = first_long;
    }
}

/// The number of a cluster, which becomes the last of the longer ones unless it has one code point.
fn number_of(longer: &mut Texts, head: &[u32]) -> Result<u32, AllocError>
    requires text { IsText head.now }
    requires some { 0 < length head.now }
    ensures number { IfOk result (λ number. (head_of longer.new number ≡ head.now) × (number < 0x8000_0000 + length longer.new)) }
    ensures grew { (more : List (List ℕ)) × (longer.new ≡ longer.old ++ more) }
{
    if head.len() == 1 {
        return Ok(head[0]);
    }
    let index = longer.len();
    if index >= LONGER as usize {
        return Err(AllocError);
    }
    longer.push(head)?;
    Ok(LONGER + index as u32)
}

fn first_or(first: Option<usize>, is_long: bool, here: usize) -> Option<usize>
    ensures { result ≡ first_or first is_long here }
{
    match first {
        Some(k) => Some(k),
        None => { if is_long { Some(here) } else { None } }
    }
}
