//! Lists of numbers inside public types, which contracts see as lists.
ghost use Rattle.std.specs.Prelude.{◌≡◌, ℕ, List, [], ◌∷◌, ◌++◌, length, take, ◌==◌, IfOk, OnOk, OnErr};

use std::alloc::{AllocError, Global};
use std::marker::Model;

/// A list of code points.
#[derive(Drop)]
pub struct CodeList {
    codes: Vec<u32>,
}

impl Model for CodeList {
    ghost Value = { List ℕ };

    ghost view = { λ list. list.codes.items };
}

impl CodeList {
    /// The empty list. It keeps the allocator and takes no memory.
    pub fn new(alloc: Global) -> CodeList
        ensures { result ≡ [] }
    {
        CodeList {
            codes: Vec::new(alloc),
        }
    }

    /// The elements in order, copied.
    pub fn from_slice(alloc: Global, elements: &[u32]) -> Result<CodeList, AllocError>
        ensures { IfOk result (λ list. list ≡ elements.now) }
    {
        let codes = Vec::from_slice(alloc, elements)?;
        Ok(CodeList { codes })
    }

    /// The elements of a vector, which is not copied.
    pub fn from_vec(codes: Vec<u32>) -> CodeList
        ensures { result ≡ codes.items }
    {
        CodeList { codes }
    }

    /// The vector that holds the elements, which is not copied.
    pub fn into_vec(self) -> Vec<u32>
        ensures { result.items ≡ self }
    {
        self.codes
    }

    /// Adds the elements at the end.
    pub fn append(&mut self, more: &[u32]) -> Result<(), AllocError>
        ensures ok { OnOk result (self.new ≡ self.old ++ more.now) }
        ensures err { OnErr result (self.new ≡ self.old) }
    {
        self.codes.extend_from_slice(more)
    }

    /// Adds one element at the end.
    #[inline(always)]
    pub fn push(&mut self, element: u32) -> Result<(), AllocError>
        ensures ok { OnOk result (self.new ≡ self.old ++ element ∷ []) }
        ensures err { OnErr result (self.new ≡ self.old) }
    {
        self.codes.push(element)?;
        Ok(())
    }

    /// Makes room for so many more elements, so that adding them grows nothing.
    pub fn reserve(&mut self, additional: usize) -> Result<(), AllocError>
        ensures { self.new ≡ self.old }
    {
        self.codes.reserve(additional)
    }

    /// Keeps the first `len` elements.
    pub fn truncate(&mut self, len: usize)
        ensures { self.new ≡ take len self.old }
    {
        self.codes.truncate(len);
    }

    /// The number of elements.
    pub fn len(&self) -> usize
        ensures { result ≡ length self.now }
    {
        self.codes.len()
    }

    /// Whether there is no element.
    pub fn is_empty(&self) -> bool
        ensures { result ≡ (length self.now == 0) }
    {
        self.codes.is_empty()
    }

    /// The whole list.
    pub fn as_slice(&self) -> &[u32]
        ensures { result.now ≡ self.now }
    {
        self.codes.as_slice()
    }
}

/// A list of offsets in code points.
#[derive(Drop)]
pub struct EndList {
    ends: Vec<usize>,
}

impl Model for EndList {
    ghost Value = { List ℕ };

    ghost view = { λ list. list.ends.items };
}

impl EndList {
    /// The empty list. It keeps the allocator and takes no memory.
    pub fn new(alloc: Global) -> EndList
        ensures { result ≡ [] }
    {
        EndList {
            ends: Vec::new(alloc),
        }
    }

    /// The elements in order, copied.
    pub fn from_slice(alloc: Global, elements: &[usize]) -> Result<EndList, AllocError>
        ensures { IfOk result (λ list. list ≡ elements.now) }
    {
        let ends = Vec::from_slice(alloc, elements)?;
        Ok(EndList { ends })
    }

    /// The elements of a vector, which is not copied.
    pub fn from_vec(ends: Vec<usize>) -> EndList
        ensures { result ≡ ends.items }
    {
        EndList { ends }
    }

    /// The vector that holds the elements, which is not copied.
    pub fn into_vec(self) -> Vec<usize>
        ensures { result.items ≡ self }
    {
        self.ends
    }

    /// Adds the elements at the end.
    pub fn append(&mut self, more: &[usize]) -> Result<(), AllocError>
        ensures ok { OnOk result (self.new ≡ self.old ++ more.now) }
        ensures err { OnErr result (self.new ≡ self.old) }
    {
        self.ends.extend_from_slice(more)
    }

    /// Makes room for so many more elements, so that adding them grows nothing.
    pub fn reserve(&mut self, additional: usize) -> Result<(), AllocError>
        ensures { self.new ≡ self.old }
    {
        self.ends.reserve(additional)
    }

    /// Keeps the first `len` elements.
    pub fn truncate(&mut self, len: usize)
        ensures { self.new ≡ take len self.old }
    {
        self.ends.truncate(len);
    }

    /// The number of elements.
    pub fn len(&self) -> usize
        ensures { result ≡ length self.now }
    {
        self.ends.len()
    }

    /// Whether there is no element.
    pub fn is_empty(&self) -> bool
        ensures { result ≡ (length self.now == 0) }
    {
        self.ends.is_empty()
    }

    /// The whole list.
    pub fn as_slice(&self) -> &[usize]
        ensures { result.now ≡ self.now }
    {
        self.ends.as_slice()
    }
}

/// A list of bytes.
#[derive(Drop)]
pub struct ByteList {
    octets: Vec<u8>,
}

impl Model for ByteList {
    ghost Value = { List ℕ };

    ghost view = { λ list. list.octets.items };
}

impl ByteList {
    /// The empty list. It keeps the allocator and takes no memory.
    pub fn new(alloc: Global) -> ByteList
        ensures { result ≡ [] }
    {
        ByteList {
            octets: Vec::new(alloc),
        }
    }

    /// The elements in order, copied.
    pub fn from_slice(alloc: Global, elements: &[u8]) -> Result<ByteList, AllocError>
        ensures { IfOk result (λ list. list ≡ elements.now) }
    {
        let octets = Vec::from_slice(alloc, elements)?;
        Ok(ByteList { octets })
    }

    /// The elements of a vector, which is not copied.
    pub fn from_vec(octets: Vec<u8>) -> ByteList
        ensures { result ≡ octets.items }
    {
        ByteList { octets }
    }

    /// The vector that holds the elements, which is not copied.
    pub fn into_vec(self) -> Vec<u8>
        ensures { result.items ≡ self }
    {
        self.octets
    }

    /// Adds the elements at the end.
    pub fn append(&mut self, more: &[u8]) -> Result<(), AllocError>
        ensures ok { OnOk result (self.new ≡ self.old ++ more.now) }
        ensures err { OnErr result (self.new ≡ self.old) }
    {
        self.octets.extend_from_slice(more)
    }

    /// Makes room for so many more elements, so that adding them grows nothing.
    pub fn reserve(&mut self, additional: usize) -> Result<(), AllocError>
        ensures { self.new ≡ self.old }
    {
        self.octets.reserve(additional)
    }

    /// Keeps the first `len` elements.
    pub fn truncate(&mut self, len: usize)
        ensures { self.new ≡ take len self.old }
    {
        self.octets.truncate(len);
    }

    /// The number of elements.
    pub fn len(&self) -> usize
        ensures { result ≡ length self.now }
    {
        self.octets.len()
    }

    /// Whether there is no element.
    pub fn is_empty(&self) -> bool
        ensures { result ≡ (length self.now == 0) }
    {
        self.octets.is_empty()
    }

    /// The whole list.
    pub fn as_slice(&self) -> &[u8]
        ensures { result.now ≡ self.now }
    {
        self.octets.as_slice()
    }
}
