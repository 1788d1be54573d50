//! The clusters of several code points, of which equal ones are kept once where they are found again.
ghost use Rattle.std.specs.Prelude.{◌≡◌, ◌<◌, ◌≤◌, ℕ, List, [], ◌∷◌, ◌++◌, length, IfOk, IfErr, OnOk};
ghost use Rattle.std.specs.List.{slice_index_or};
ghost use Rattle.nfg_text.specs.Text.{IsText};
ghost use Rattle.nfg_segment.specs.Given.{Given};

use nfg_segment::{ClusterSink, Clusters};
use std::alloc::{AllocError, Global};
use std::marker::Model;

/// How many texts there are at most.
const TEXT_LIMIT: usize = 1 << 30;

/// How many slots there are at first, a power of two.
const FIRST_SLOTS: usize = 64;

/// How many slots in a row are searched for a text.
const ROW: usize = 8;

/// What a slot holds that has no text.
const NO_TEXT: u32 = u32::MAX;

/// 2^64 over the golden ratio, an odd number.
const GOLDEN: u64 = 0x9E37_79B9_7F4A_7C15;

/// Texts of several code points. What the slots hold is only where to look first.
#[derive(Drop)]
pub(crate) struct Longer {
    texts: Clusters,
    // the index of a text with this hash, or of none
    slots: Vec<u32>,
}

impl Model for Longer {
    ghost use Rattle.std.specs.Prelude.{ℕ, List};

    ghost Value = { List (List ℕ) };

    ghost view = { λ l. l.texts.heads };
}

impl Longer {
    /// No texts.
    pub(crate) fn new(alloc: Global) -> Longer
        ensures { result ≡ [] }
    {
        Longer {
            texts: Clusters::new(alloc),
            slots: Vec::new(alloc),
        }
    }

    /// How many texts there are.
    pub(crate) fn len(&self) -> usize
        ensures { result ≡ length self.now }
    {
        self.texts.len()
    }

    /// The text at a place.
    pub(crate) fn get(&self, place: usize) -> &[u32]
        requires { place < length self.now }
        ensures { result.now ≡ slice_index_or self.now place [] }
    {
        self.texts.get(place)
    }

    /// A place of the text, which is added where it isn't found.
    pub(crate) fn place_of(&mut self, text: &[u32]) -> Result<usize, AllocError>
        requires text { IsText text.now }
        requires some { 0 < length text.now }
        requires short { length text.now ≤ 1024 }
        ensures within { IfOk result (λ place. place < length self.new) }
        ensures few { IfOk result (λ place. place < 0x4000_0000) }
        ensures place { IfOk result (λ place. slice_index_or self.new place [] ≡ text.now) }
        ensures grew { (more : List (List ℕ)) × (self.new ≡ self.old ++ more) }
    {
        make_room(&self.texts, &mut self.slots)?;
        match find(&self.texts, &self.slots, text) {
            Ok(place) => Ok(place),
            Err(slot) => {
                let place = add(&mut self.texts, text)?;
                self.slots[slot] = place as u32;
                Ok(place)
            }
        }
    }
}

/// Adds a text, and gives its place.
fn add(texts: &mut Clusters, text: &[u32]) -> Result<usize, AllocError>
    requires text { IsText text.now }
    requires some { 0 < length text.now }
    requires short { length text.now ≤ 1024 }
    ensures within { IfOk result (λ place. place < length texts.new.heads) }
    ensures few { IfOk result (λ place. place < 0x4000_0000) }
    ensures place { IfOk result (λ place. slice_index_or texts.new.heads place [] ≡ text.now) }
    ensures grew { (more : List (List ℕ)) × (texts.new.heads ≡ texts.old.heads ++ more) }
{
    let place = texts.len();
    if place >= TEXT_LIMIT {
        return Err(AllocError);
    }
    texts.push(text, false)?;
    Ok(place)
}

fn hash_with(hash: u64, code: u32) -> u64 {
    hash.wrapping_add(u64::from(code)).wrapping_mul(GOLDEN)
}

fn hash(text: &[u32]) -> usize {
    let mut hash = 0;
    for code in text {
        hash = hash_with(hash, *code);
    }
    (hash >> 32) as usize
}

/// The slot that is `step` slots behind the first one of a hash.
fn slot_at(count: usize, hash: usize, step: usize) -> usize
    requires { 0 < count }
    ensures { result < count }
{
    hash.wrapping_add(step) & (count - 1)
}

/// The place of a text, or else a slot for it.
#[inline(always)]
fn find(texts: &Clusters, slots: &[u32], text: &[u32]) -> Result<usize, usize>
    requires { 0 < length slots.now }
    ensures within { IfOk result (λ place. place < length texts.now.heads) }
    ensures few { IfOk result (λ place. place < 0x4000_0000) }
    ensures place { IfOk result (λ place. slice_index_or texts.now.heads place [] ≡ text.now) }
    ensures slot { IfErr result (λ slot. slot < length slots.now) }
{
    let hash = hash(text);
    let count = texts.len().min(TEXT_LIMIT);
    for step in 0..ROW {
        let slot = slot_at(slots.len(), hash, step);
        let place = slots[slot] as usize;
        if place >= count {
            return Err(slot);
        }
        if texts.get(place) == text {
            return Ok(place);
        }
    }
    Err(slot_at(slots.len(), hash, 0))
}

/// A slot without a text, or else the first one of a hash.
fn slot_for(slots: &[u32], hash: usize) -> usize
    requires { 0 < length slots.now }
    ensures { result < length slots.now }
{
    for step in 0..ROW {
        let slot = slot_at(slots.len(), hash, step);
        if slots[slot] == NO_TEXT {
            return slot;
        }
    }
    slot_at(slots.len(), hash, 0)
}

/// Puts the text at a place into a slot.
fn enter(texts: &Clusters, slots: &mut [u32], place: usize)
    requires slots { 0 < length slots.old }
    requires place { place < length texts.now.heads }
    requires few { place < 0x4000_0000 }
{
    let slot = slot_for(slots, hash(texts.get(place)));
    slots[slot] = place as u32;
}

/// Puts each text into a slot.
fn enter_all(texts: &Clusters, slots: &mut [u32])
    requires { 0 < length slots.old }
{
    for place in 0..texts.len().min(TEXT_LIMIT) {
        enter(texts, slots, place);
    }
}

/// Makes room for one text more: more than half of the slots have none. Mostly there is room, which the
/// caller sees in place.
#[inline(always)]
fn make_room(texts: &Clusters, slots: &mut Vec<u32>) -> Result<(), AllocError>
    ensures { OnOk result (0 < length slots.new.items) }
{
    let count = slots.len();
    if count > 0 && texts.len() < count / 2 {
        return Ok(());
    }
    double_slots(texts, slots)
}

/// Doubles the slots.
#[inline(never)]
fn double_slots(texts: &Clusters, slots: &mut Vec<u32>) -> Result<(), AllocError>
    ensures { OnOk result (0 < length slots.new.items) }
{
    let count = slots.len();
    slots.truncate(0);
    slots.resize(count.max(FIRST_SLOTS / 2) * 2, NO_TEXT)?;
    enter_all(texts, slots);
    Ok(())
}
