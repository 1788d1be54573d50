//! Files in memory.
ghost use Rattle.std.specs.Prelude.{◌≡◌, ◌+◌, ◌-◌, ◌≤◌, ◌<◌, length, min, Some, None, false, IfOk, OnOk, OnErr};
ghost use Rattle.std.specs.Prelude.{is_ok, is_err, IsSome, IfSome};
ghost use Rattle.std.specs.FinSet.{insert as insert_number};
ghost use Rattle.std.specs.FinMap.{empty, get, insert};
ghost use Rattle.nfg_io.specs.Causes.{HasCause};
ghost use Rattle.nfg_io.specs.Files.{IsThere, opened_bytes, ReadsAt};
ghost use Rattle.nfg_io.specs.Calls.{no_calls, fails_next, after_call};
ghost use Rattle.nfg_io.specs.Memory.{opens, bytes_left};

use crate::calls::Calls;
use crate::open_path::OpenPath;
use crate::stored_file::StoredFile;
use crate::{Failed, Files, stored_file};
use std::alloc::{AllocError, Global};
use std::marker::Model;
use std::snapshot::Snapshot;

/// Files in memory. A read gives at most `step` bytes.
#[derive(Drop)]
pub struct MemoryFiles {
    alloc: Global,
    files: Vec<StoredFile>,
    step: usize,
    // the file of the open path
    index: usize,
    position: usize,
    calls: Calls,
    open_path: OpenPath,
    broken: Snapshot<bool>,
}

impl Model for MemoryFiles {
    ghost use Rattle.std.specs.Prelude.{◌≡◌, ◌≤◌, false, IsSome};
    ghost use Rattle.nfg_io.specs.Codes.{files_code};
    ghost use Rattle.nfg_io.specs.Memory.{FilesInMemory};
    ghost use Rattle.nfg_io.specs.Entries.{paths_of, IsReading};

    ghost Value = { FilesInMemory };

    ghost coded = { files_code };

    ghost view = { λ m. record {
      files = paths_of m.files.items;
      step = m.step;
      open_path = m.open_path.path;
      position = m.position;
      broken = m.broken.value;
      calls = m.calls;
    } };

    ghost invariant = { λ m. (1 ≤ m.step)
        × (IsSome m.open_path.path → m.broken.value ≡ false
        → IsReading m.files.items m.index m.position m.open_path.path) };
}

impl MemoryFiles {
    /// No files.
    pub fn new(alloc: Global, step: usize) -> MemoryFiles
        requires { 1 ≤ step }
        ensures { result ≡ record {
          files = empty;
          step = step;
          open_path = None;
          position = 0;
          broken = false;
          calls = no_calls;
        } }
    {
        MemoryFiles {
            alloc,
            files: Vec::new(alloc),
            step,
            index: 0,
            position: 0,
            calls: Calls::new(alloc),
            open_path: OpenPath::none(),
            broken: Snapshot::of(&false),
        }
    }

    /// Sets the bytes of a path.
    pub fn add(&mut self, path: &str, bytes: &[u8]) -> Result<(), AllocError>
        requires { self.old.open_path ≡ None }
        ensures ok { OnOk result (self.new ≡ record self.old {
          files = insert self.old.files path.now bytes.now;
        }) }
        ensures err { OnErr result (self.new ≡ self.old) }
    {
        self.files.push(StoredFile::new(self.alloc, path, bytes)?)?;
        Ok(())
    }

    /// Makes the call with this number fail. The calls of `open` and `read` are counted together, from 0.
    pub fn fail_at(&mut self, call: u64) -> Result<(), AllocError>
        ensures ok { OnOk result (self.new ≡ record self.old {
          calls = record self.old.calls { failing = insert_number self.old.calls.failing call };
        }) }
        ensures err { OnErr result (self.new ≡ self.old) }
    {
        self.calls.fail_at(call)
    }
}

// Copies bytes from a position on, at most `step` of them.
fn copy_some(bytes: &[u8], position: usize, step: usize, into: &mut [u8]) -> usize
    requires within { position ≤ length bytes.now }
    requires room { 0 < length into.old }
    requires step { 1 ≤ step }
    ensures bound { result ≤ length into.old }
    ensures bytes { ReadsAt bytes.now position result into.new }
    ensures count { result ≡ min (min step (length into.old)) (length bytes.now - position) }
{
    let left = &bytes[position..];
    let count = step.min(into.len()).min(left.len());
    into[..count].copy_from_slice(&left[..count]);
    count
}

impl Files for MemoryFiles {
    ghost state = { λ m. record {
      faults = m.calls.faults;
      open_path = m.open_path;
      position = m.position;
      broken = m.broken;
      contents = Some (get m.files);
    } };

    fn open(&mut self, path: &str) -> Result<(), Failed>
        ensures opened { self.new.open_path ≡ Some path.now }
        ensures start { self.new.position ≡ 0 }
        ensures broken { self.new.broken ≡ is_err result }
        ensures there { OnOk result (IsThere (Some (get self.old.files)) path.now) }
        ensures contents { Some (get self.new.files) ≡ Some (get self.old.files) }
        ensures never_falls { self.old.calls.faults ≤ self.new.calls.faults }
        ensures cause { HasCause self.old.calls.faults self.new.calls.faults result }

        // It fails exactly at a number given to `fail_at` and where the path isn't there.
        ensures exact { is_ok result ≡ opens self.old path.now }
        ensures after { self.new ≡ record self.old {
          open_path = Some path.now;
          position = 0;
          broken = is_err result;
          calls = after_call (is_err result) self.old.calls;
        } }
    {
        let fails = self.calls.fails_next();
        let index = if fails {
            None
        } else {
            stored_file::find(&self.files, path)
        };
        self.calls.count(index.is_none());
        self.open_path = OpenPath::of(path);
        self.position = 0;
        self.broken = Snapshot::of(&index.is_none());
        match index {
            Some(index) => {
                self.index = index;
                Ok(())
            }
            None => Err(Failed),
        }
    }

    fn read(&mut self, into: &mut [u8]) -> Result<usize, Failed>
        requires room { 0 < length into.old }
        requires opened { IsSome self.old.open_path }
        requires unbroken { self.old.broken ≡ false }
        ensures bound { IfOk result (λ count. count ≤ length into.new) }
        ensures bytes { IfOk result (λ count.
            IfSome (opened_bytes (Some (get self.old.files)) self.old.open_path)
            (λ file. ReadsAt file self.old.position count into.new)) }
        ensures moved { IfOk result (λ count. self.new.position ≡ self.old.position + count) }
        ensures broken { self.new.broken ≡ is_err result }
        ensures path { self.new.open_path ≡ self.old.open_path }
        ensures contents { Some (get self.new.files) ≡ Some (get self.old.files) }
        ensures never_falls { self.old.calls.faults ≤ self.new.calls.faults }
        ensures cause { HasCause self.old.calls.faults self.new.calls.faults result }

        // It fails exactly at a number given to `fail_at`.
        ensures exact { is_err result ≡ fails_next self.old.calls }
        ensures count { IfOk result (λ count.
            count ≡ min (min self.old.step (length into.old)) (bytes_left self.old)) }
        ensures stays { OnErr result (self.new.position ≡ self.old.position) }
        ensures after { self.new ≡ record self.old {
          position = self.new.position;
          broken = is_err result;
          calls = after_call (is_err result) self.old.calls;
        } }
    {
        let fails = self.calls.fails_next();
        self.calls.count(fails);
        if fails {
            self.broken = Snapshot::of(&true);
            return Err(Failed);
        }
        let file = &self.files[self.index];
        let count = copy_some(file.bytes(), self.position, self.step, into);
        self.position += count;
        Ok(count)
    }
}
