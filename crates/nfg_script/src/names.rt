//! The names that the lines so far define.
ghost use Rattle.std.specs.Prelude.{◌≡◌, ◌<◌, ◌^◌, ◌++◌, ◌∷◌, [], length, OnOk, OnErr, None};
ghost use Rattle.nfg_script.specs.Words.{place_of, new_name, known_name};

use crate::Reason;
use crate::word::is_name;
use std::alloc::{AllocError, Global};
use std::collections::BTreeMap;
use std::marker::Model;

/// Names in the order in which lines define them.
#[derive(Drop)]
pub(crate) struct Names<'a> {
    in_order: Vec<&'a str>,
    places: BTreeMap<&'a str, u32>,
}

impl<'a> Model for Names<'a> {
    ghost use Rattle.std.specs.Prelude.{◌≡◌, ℕ, List, map};
    ghost use Rattle.std.specs.BTreeMap as tree;
    ghost use Rattle.std.specs.Cmp.Lexicographic.{slice_cmp};
    ghost use Rattle.std.specs.Ordering.{nat_cmp};
    ghost use Rattle.nfg_script.specs.Words.{place_of};

    ghost Value = { List (List ℕ) };

    ghost view = { λ names. map (λ name. name.now) names.in_order.items };

    ghost invariant = { λ names. (word : List ℕ) →
        tree.get_by (λ name. slice_cmp nat_cmp word name.now) names.places
        ≡ place_of (map (λ name. name.now) names.in_order.items) word };
}

impl<'a> Names<'a> {
    /// No names. It keeps the allocator and takes no memory.
    pub fn new(alloc: Global) -> Names<'a>
        ensures { result ≡ [] }
    {
        Names {
            in_order: Vec::new(alloc),
            places: BTreeMap::new(alloc),
        }
    }

    /// How many names there are.
    pub fn len(&self) -> usize
        ensures { result ≡ length self.now }
    {
        self.in_order.len()
    }

    /// The place of a name.
    pub fn place(&self, word: &str) -> Option<u32>
        ensures { result ≡ place_of self.now word.now }
    {
        self.places.get(word).copied()
    }

    /// One more name.
    pub fn push(&mut self, name: &'a str) -> Result<(), AllocError>
        requires fits { length self.old < 2 ^ 32 }
        requires new { place_of self.old name.now ≡ None }
        ensures added { OnOk result (self.new ≡ self.old ++ name.now ∷ []) }
        ensures unchanged { OnErr result (self.new ≡ self.old) }
    {
        let place = self.in_order.len() as u32;
        self.in_order.push(name)?;
        match self.places.insert(name, place) {
            Ok(_) => Ok(()),
            Err(_) => {
                self.in_order.truncate(place as usize);
                Err(AllocError)
            }
        }
    }
}

/// The number of the name that a line defines.
#[tactic(auto, unfolding(crate::specs::Words::new_name))]
pub(crate) fn read_new_name(names: &Names, word: &str) -> Result<u32, Reason>
    requires { length names.now < 2 ^ 32 }
    ensures number { result ≡ new_name names.now word.now }
    ensures new { OnOk result (place_of names.now word.now ≡ None) }
{
    if !is_name(word) {
        return Err(Reason::BadName);
    }
    match names.place(word) {
        Some(_) => Err(Reason::NameTaken),
        None => Ok(names.len() as u32),
    }
}

/// The number of a name that an earlier line defines.
#[tactic(auto, unfolding(crate::specs::Words::known_name))]
pub(crate) fn read_known_name(names: &Names, word: &str) -> Result<u32, Reason>
    ensures { result ≡ known_name names.now word.now }
{
    if !is_name(word) {
        return Err(Reason::BadName);
    }
    names.place(word).ok_or(Reason::UnknownName)
}
