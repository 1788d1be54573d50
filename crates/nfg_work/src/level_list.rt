//! A list of levels.
ghost use Rattle.std.specs.Prelude.{◌≡◌, ◌++◌, [], length, IfOk, OnOk, OnErr};

use std::alloc::{AllocError, Global};
use std::marker::Model;

/// A list of levels, one for each command of a script.
#[derive(Drop)]
pub struct LevelList {
    levels: Vec<u32>,
}

impl Model for LevelList {
    ghost use Rattle.std.specs.Prelude.{ℕ, List};

    ghost Value = { List ℕ };

    ghost view = { λ list. list.levels.items };
}

impl LevelList {
    /// The empty list. It keeps the allocator and takes no memory.
    pub fn new(alloc: Global) -> LevelList
        ensures { result ≡ [] }
    {
        LevelList {
            levels: Vec::new(alloc),
        }
    }

    /// The elements in order, copied.
    pub fn from_slice(alloc: Global, elements: &[u32]) -> Result<LevelList, AllocError>
        ensures { IfOk result (λ list. list ≡ elements.now) }
    {
        let levels = Vec::from_slice(alloc, elements)?;
        Ok(LevelList { levels })
    }

    /// Adds the elements at the end.
    pub fn append(&mut self, more: &[u32]) -> Result<(), AllocError>
        ensures ok { OnOk result (self.new ≡ self.old ++ more.now) }
        ensures err { OnErr result (self.new ≡ self.old) }
    {
        self.levels.extend_from_slice(more)
    }

    /// The number of elements.
    pub fn len(&self) -> usize
        ensures { result ≡ length self.now }
    {
        self.levels.len()
    }

    /// The whole list.
    pub fn as_slice(&self) -> &[u32]
        ensures { result.now ≡ self.now }
    {
        self.levels.as_slice()
    }
}
