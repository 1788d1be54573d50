//! A text that can go back to what it was.
ghost use Rattle.std.specs.Prelude.{◌≡◌, ◌≤◌, ◌+◌, [], ◌∷◌, ◌++◌, false, take, length, OnOk, OnErr, if◌then◌else◌};
ghost use Rattle.std.specs.Char.{IsScalar};
ghost use Rattle.nfg_text.specs.Text.{IsText};
ghost use Rattle.nfg_segment.specs.Draft.{Drafted};

use std::alloc::{AllocError, Global};
use std::marker::Model;
use std::mem;

/// A text, and what it was when it was last marked. Nothing is copied to keep both: until the text
/// is emptied, what was marked is its front, and then it is put aside as it is.
#[derive(Drop)]
pub(crate) struct Draft {
    codes: Vec<u32>,
    marked: usize,
    aside: Vec<u32>,
    is_aside: bool,
}

impl Model for Draft {
    ghost Value = { Drafted };

    ghost view = { λ d. record {
      current = d.codes.items;
      marked = if d.is_aside then d.aside.items else take d.marked d.codes.items;
    } };

    ghost invariant = { λ d. (d.is_aside ≡ false → d.marked ≤ length d.codes.items)
        × IsText d.codes.items × IsText d.aside.items };
}

impl Draft {
    pub(crate) fn new(alloc: Global) -> Draft
        ensures { result ≡ record { current = []; marked = [] } }
    {
        Draft {
            codes: Vec::new(alloc),
            marked: 0,
            aside: Vec::new(alloc),
            is_aside: false,
        }
    }

    #[inline]
    pub(crate) fn as_slice(&self) -> &[u32]
        ensures codes { result.now ≡ self.now.current }
        ensures text { IsText result.now }
    {
        &self.codes
    }

    #[inline]
    pub(crate) fn len(&self) -> usize
        ensures { result ≡ length self.now.current }
    {
        self.codes.len()
    }

    #[inline]
    pub(crate) fn push(&mut self, c: u32) -> Result<(), AllocError>
        requires { IsScalar c }
        ensures current { OnOk result (self.new.current ≡ self.old.current ++ c ∷ []) }
        ensures unchanged { OnErr result (self.new.current ≡ self.old.current) }
        ensures marked { self.new.marked ≡ self.old.marked }
    {
        self.codes.push(c)?;
        Ok(())
    }

    /// Adds a text at the end.
    pub(crate) fn extend(&mut self, text: &[u32]) -> Result<(), AllocError>
        requires { IsText text.now }
        ensures current { OnOk result (self.new.current ≡ self.old.current ++ text.now) }
        ensures within { length self.new.current ≤ length self.old.current + length text.now }
        ensures marked { self.new.marked ≡ self.old.marked }
    {
        self.codes.extend_from_slice(text)?;
        Ok(())
    }

    /// Empties the text.
    #[inline]
    pub(crate) fn clear(&mut self)
        ensures current { self.new.current ≡ [] }
        ensures marked { self.new.marked ≡ self.old.marked }
    {
        if !self.is_aside {
            self.codes.truncate(self.marked);
            mem::swap(&mut self.codes, &mut self.aside);
            self.is_aside = true;
        }
        self.codes.clear();
    }

    /// Marks the text as it is.
    #[inline]
    pub(crate) fn mark(&mut self)
        ensures current { self.new.current ≡ self.old.current }
        ensures marked { self.new.marked ≡ self.old.current }
    {
        self.is_aside = false;
        self.marked = self.codes.len();
    }

    /// Goes back to what was marked.
    pub(crate) fn undo(&mut self)
        ensures current { self.new.current ≡ self.old.marked }
        ensures marked { self.new.marked ≡ self.old.marked }
    {
        if self.is_aside {
            mem::swap(&mut self.codes, &mut self.aside);
            self.is_aside = false;
            self.marked = self.codes.len();
        } else {
            self.codes.truncate(self.marked);
        }
    }
}
