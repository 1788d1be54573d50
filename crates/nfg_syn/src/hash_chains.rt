//! Hashes in the order in which they were added, with the places of each hash linked.
ghost use Rattle.std.specs.Prelude.{◌≡◌, ◌≢◌, ◌+◌, ◌<◌, ◌≤◌, ℕ, List, [], ◌∷◌, ◌++◌, length, replicate, slice_index, OnOk, OnErr};
ghost use Rattle.nfg_syn.specs.HashChains.{AreLinked, AreChains, IsLastBefore, bucket_of, hash_of, hash_step};

use std::alloc::{AllocError, Global};
use std::marker::Model;

// 2^64 over the golden ratio, an odd number.
const GOLDEN: u64 = 0x9E37_79B9_7F4A_7C15;

// The number of buckets that the first hash makes.
const FIRST_BUCKETS: usize = 64;

#[tactic(auto, unfolding(crate::specs::HashChains::hash_step))]
fn hash_with(hash: u64, code: u32) -> u64
    ensures { result ≡ hash_step hash code }
{
    hash.wrapping_add(u64::from(code)).wrapping_mul(GOLDEN)
}

/// The hash of a text.
#[tactic(auto, unfolding(crate::specs::HashChains::hash_of))]
pub fn hash(text: &[u32]) -> u32
    ensures { result ≡ hash_of text.now }
{
    let mut hash = 0;
    for code in text {
        hash = hash_with(hash, *code);
    }
    (hash >> 32) as u32
}

// The bucket of a hash.
#[tactic(auto, unfolding(crate::specs::HashChains::bucket_of))]
fn bucket(hash: u32, count: usize) -> usize
    requires { 0 < count }
    ensures bucket { result ≡ bucket_of count hash }
    ensures within { result < count }
{
    hash as usize & (count - 1)
}

// Links a place after those below it.
fn link(hashes: &[u32], heads: &mut [u32], links: &mut [u32], place: usize)
    requires linked { AreLinked hashes.now heads.old links.old place }
    requires place { place < length hashes.now }
    requires few { place < 1048576 }
    requires buckets { 0 < length heads.old }
    requires room { place < length links.old }
    ensures { AreLinked hashes.now heads.new links.new (place + 1) }
{
    let bucket = bucket(hashes[place], heads.len());
    links[place] = heads[bucket];
    heads[bucket] = (place + 1) as u32;
}

// Links all places.
fn link_all(hashes: &[u32], heads: &mut [u32], links: &mut [u32])
    requires linked { AreLinked hashes.now heads.old links.old 0 }
    requires few { length hashes.now ≤ 1048576 }
    requires buckets { 0 < length heads.old }
    requires room { length hashes.now ≤ length links.old }
    ensures { AreLinked hashes.now heads.new links.new (length hashes.now) }
{
    for place in 0..hashes.len() {
        link(hashes, heads, links, place);
    }
}

// The last place before `at` that has the hash, where the place before `at` falls into its bucket.
fn walk(hashes: &[u32], heads: &[u32], links: &[u32], at: usize, hash: u32) -> Option<usize>
    requires linked { AreLinked hashes.now heads.now links.now (length hashes.now) }
    requires room { length hashes.now ≤ length links.now }
    requires within { at ≤ length hashes.now }
    requires bucket { (k : ℕ) → at ≡ k + 1
        → bucket_of (length heads.now) (slice_index hashes.now k) ≡ bucket_of (length heads.now) hash }
    ensures { IsLastBefore hashes.now at hash result }
{
    let mut at = at;
    while at != 0 {
        let place = at - 1;
        if hashes[place] == hash {
            return Some(place);
        }
        at = links[place] as usize;
    }
    None
}

// The last place that has the hash.
fn find_last(hashes: &[u32], heads: &[u32], links: &[u32], hash: u32) -> Option<usize>
    requires { AreChains hashes.now heads.now links.now }
    ensures { IsLastBefore hashes.now (length hashes.now) hash result }
{
    if heads.is_empty() {
        return None;
    }
    let at = heads[bucket(hash, heads.len())] as usize;
    walk(hashes, heads, links, at, hash)
}

// The last place before `place` that has the same hash.
fn find_before(hashes: &[u32], heads: &[u32], links: &[u32], place: usize) -> Option<usize>
    requires chains { AreChains hashes.now heads.now links.now }
    requires place { place < length hashes.now }
    ensures { IsLastBefore hashes.now place (slice_index hashes.now place) result }
{
    let at = links[place] as usize;
    walk(hashes, heads, links, at, hashes[place])
}

// Makes twice as many buckets, and links all places anew.
fn grow(
    alloc: Global,
    hashes: &[u32],
    heads: &mut Vec<u32>,
    links: &mut Vec<u32>,
) -> Result<(), AllocError>
    requires { AreChains hashes.now heads.old.items links.old.items }
    ensures grown { OnOk result (AreChains hashes.now heads.new.items links.new.items) }
    ensures more { OnOk result (length hashes.now < length heads.new.items) }
    ensures refused { OnErr result (heads.new.items ≡ heads.old.items) }
    ensures links_refused { OnErr result (links.new.items ≡ links.old.items) }
{
    let count = heads.len().max(FIRST_BUCKETS / 2) * 2;
    let mut new_heads = vec![in alloc; 0u32; count]?;
    let mut new_links = vec![in alloc; 0u32; count]?;
    link_all(hashes, new_heads.as_mut_slice(), new_links.as_mut_slice());
    *heads = new_heads;
    *links = new_links;
    Ok(())
}

// Makes room for one more place.
fn make_room(
    alloc: Global,
    hashes: &[u32],
    heads: &mut Vec<u32>,
    links: &mut Vec<u32>,
) -> Result<(), AllocError>
    requires { AreChains hashes.now heads.old.items links.old.items }
    ensures chains { AreChains hashes.now heads.new.items links.new.items }
    ensures room { OnOk result (length hashes.now < length heads.new.items) }
{
    if hashes.len() < heads.len() {
        return Ok(());
    }
    grow(alloc, hashes, heads, links)
}

/// A list of hashes, in which the places of a hash are found from the last one to the first.
#[derive(Drop)]
pub struct HashChains {
    alloc: Global,
    hashes: Vec<u32>,
    // For each bucket one more than its last place, or 0.
    heads: Vec<u32>,
    // For each place one more than the place before it in its bucket, or 0.
    links: Vec<u32>,
}

impl Model for HashChains {
    ghost Value = { List ℕ };

    ghost view = { λ chains. chains.hashes.items };

    ghost invariant = { λ chains. AreChains chains.hashes.items chains.heads.items chains.links.items };
}

impl HashChains {
    /// The empty list, which takes no memory.
    pub fn new(alloc: Global) -> HashChains
        ensures { result ≡ [] }
    {
        HashChains {
            alloc,
            hashes: Vec::new(alloc),
            heads: Vec::new(alloc),
            links: Vec::new(alloc),
        }
    }

    /// The last place that has the hash.
    pub fn last(&self, hash: u32) -> Option<usize>
        ensures { IsLastBefore self.now (length self.now) hash result }
    {
        find_last(
            self.hashes.as_slice(),
            self.heads.as_slice(),
            self.links.as_slice(),
            hash,
        )
    }

    /// The last place before `place` that has the same hash.
    pub fn before(&self, place: usize) -> Option<usize>
        requires { place < length self.now }
        ensures { IsLastBefore self.now place (slice_index self.now place) result }
    {
        find_before(
            self.hashes.as_slice(),
            self.heads.as_slice(),
            self.links.as_slice(),
            place,
        )
    }

    /// Adds a hash at the end.
    pub fn push(&mut self, hash: u32) -> Result<(), AllocError>
        requires { length self.old < 1048576 }
        ensures added { OnOk result (self.new ≡ self.old ++ hash ∷ []) }
        ensures refused { OnErr result (self.new ≡ self.old) }
    {
        make_room(
            self.alloc,
            self.hashes.as_slice(),
            &mut self.heads,
            &mut self.links,
        )?;
        let place = self.hashes.len();
        self.hashes.push(hash)?;
        link(
            self.hashes.as_slice(),
            self.heads.as_mut_slice(),
            self.links.as_mut_slice(),
            place,
        );
        Ok(())
    }
}
