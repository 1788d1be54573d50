//! Composing, by a normalizer that takes and gives characters.
ghost use Rattle.std.specs.Prelude.{◌≡◌, ℕ, List, ◌∷◌, ◌++◌, IfSome, OnOk};
ghost use Rattle.std.specs.Char.{IsScalar};
ghost use Rattle.nfg_text.specs.Forms.{nfc};
ghost use Rattle.nfg_text.specs.Text.{IsText};
ghost use Rattle.nfg_segment.specs.Given.{Grew, with_clusters};
ghost use Rattle.nfg_segment.specs.Held.{Keeps, next_all, closed_all};

use crate::ClusterSink;
use crate::open_cluster::OpenCluster;
use nfg_text::{append_nfc, compose_pair};
use std::alloc::{AllocError, Global};

/// Where texts are composed. What it holds is kept for its room alone.
#[derive(Drop)]
pub(crate) struct Composer {
    chars: Vec<char>,
    composed: Vec<char>,
}

impl Composer {
    pub(crate) fn new(alloc: Global) -> Composer {
        Composer {
            chars: Vec::new(alloc),
            composed: Vec::new(alloc),
        }
    }

    /// Composes a text, and goes on with its code points.
    pub(crate) fn push_composed<S: ClusterSink>(
        &mut self,
        text: &[u32],
        open_cluster: &mut OpenCluster,
        out: &mut S,
    ) -> Result<(), AllocError>
        requires { IsText text.now }
        ensures given { (cluster : List ℕ) → Keeps open_cluster.old.now cluster
            → OnOk result ((Keeps open_cluster.new.now (next_all cluster (nfc text.now)))
            × (S.given out.new ≡ with_clusters (S.given out.old) (closed_all cluster (nfc text.now)))) }
        ensures marked { open_cluster.new.marked ≡ open_cluster.old.marked }
        ensures grew { Grew (S.given out.old) (S.given out.new) }
    {
        self.chars.clear();
        extend(&mut self.chars, text)?;
        self.composed.clear();
        append_nfc(&mut self.composed, &self.chars)?;
        push_all(open_cluster, &self.composed, out)
    }
}

/// The code point that two neighbors compose to, where they do, which may stand in their place at
/// the front of a text.
pub(crate) fn composite_of(first: u32, second: u32) -> Option<u32>
    requires first { IsScalar first }
    requires second { IsScalar second }
    ensures in_place { IfSome result (λ c. (rest : List ℕ)
        → nfc (c ∷ rest) ≡ nfc (first ∷ second ∷ rest)) }
    ensures scalar { IfSome result (λ c. IsScalar c) }
{
    match compose_pair(to_char(first), to_char(second)) {
        None => None,
        Some(c) => Some(to_code(c)),
    }
}

/// Goes on with the next characters of the NFC.
fn push_all<S: ClusterSink>(
    open_cluster: &mut OpenCluster,
    chars: &[char],
    out: &mut S,
) -> Result<(), AllocError>
    ensures given { (cluster : List ℕ) → Keeps open_cluster.old.now cluster
        → OnOk result ((Keeps open_cluster.new.now (next_all cluster chars.now))
        × (S.given out.new ≡ with_clusters (S.given out.old) (closed_all cluster chars.now))) }
    ensures marked { open_cluster.new.marked ≡ open_cluster.old.marked }
    ensures grew { Grew (S.given out.old) (S.given out.new) }
{
    for c in chars {
        open_cluster.push(to_code(*c), out)?;
    }
    Ok(())
}

/// Adds the characters of a text at the end.
fn extend(chars: &mut Vec<char>, text: &[u32]) -> Result<(), AllocError>
    requires { IsText text.now }
    ensures { OnOk result (chars.new.items ≡ chars.old.items ++ text.now) }
{
    chars.reserve(text.len())?;
    for c in text {
        chars.push(to_char(*c))?;
    }
    Ok(())
}

#[inline]
fn to_char(c: u32) -> char
    requires { IsScalar c }
    ensures { result ≡ c }
{
    char::from_u32(c).unwrap()
}

#[inline]
fn to_code(c: char) -> u32
    ensures code { result ≡ c }
    ensures scalar { IsScalar result }
{
    c as u32
}
