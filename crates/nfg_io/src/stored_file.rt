//! A file that is kept in memory.
ghost use Rattle.std.specs.Prelude.{◌≡◌, ◌<◌, length, None, Some, IfOk, MatchOption};
ghost use Rattle.std.specs.Str.{bytes_eq};
ghost use Rattle.std.specs.FinMap.{get};
ghost use Rattle.nfg_io.specs.Entries.{paths_of, bytes_at};

use std::alloc::{AllocError, Global};
use std::marker::Model;

/// A path with its bytes.
#[derive(Drop)]
pub struct StoredFile {
    path: String,
    bytes: Vec<u8>,
}

impl Model for StoredFile {
    ghost use Rattle.std.specs.Prelude.{string_bytes};
    ghost use Rattle.nfg_io.specs.Entries.{Entry};

    ghost Value = { Entry };

    ghost view = { λ f. (string_bytes f.path, f.bytes.items) };
}

impl StoredFile {
    pub fn new(alloc: Global, path: &str, bytes: &[u8]) -> Result<StoredFile, AllocError>
        ensures { IfOk result (λ file. file ≡ (path.now, bytes.now)) }
    {
        Ok(StoredFile {
            path: String::from_str(alloc, path)?,
            bytes: Vec::from_slice(alloc, bytes)?,
        })
    }

    pub fn bytes(&self) -> &[u8]
        ensures { result.now ≡ self.now.1 }
    {
        &self.bytes
    }

    fn has_path(&self, path: &str) -> bool
        ensures { result ≡ bytes_eq path.now self.now.0 }
    {
        path == self.path.as_str()
    }
}

/// The index of the last file of a path.
pub fn find(files: &[StoredFile], path: &str) -> Option<usize>
    ensures { MatchOption result
        (get (paths_of files.now) path.now ≡ None)
        (λ index. (index < length files.now)
        × (get (paths_of files.now) path.now ≡ Some (bytes_at files.now index))) }
{
    let mut found = None;
    for (index, file) in files.iter().enumerate() {
        if file.has_path(path) {
            found = Some(index);
        }
    }
    found
}
