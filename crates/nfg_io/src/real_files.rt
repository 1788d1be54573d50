//! The files of the system.
ghost use Rattle.std.specs.Prelude.{◌≡◌, ◌≤◌, None, IfSome, false, length};

use crate::open_path::OpenPath;
use crate::{Failed, Files};
use std::fs;
use std::io::{ErrorKind, Read};
use std::marker::Model;
use std::snapshot::Snapshot;

/// The files of the system. It doesn't tell their bytes.
#[derive(Drop)]
pub struct RealFiles<'a, R: std::rt::Files> {
    rt: &'a R,
    file: Option<R::File>,
    position: u64,
    faults: u64,
    open_path: OpenPath,
    broken: Snapshot<bool>,
}

impl<'a, R: std::rt::Files> Model for RealFiles<'a, R> {
    ghost use Rattle.nfg_io.specs.Real.{FilesOfSystem};

    ghost Value = { FilesOfSystem };

    ghost view = { λ f. record {
      faults = f.faults;
      open_path = f.open_path.path;
      position = f.position;
      broken = f.broken.value;
    } };
}

impl<'a, R: std::rt::Files> RealFiles<'a, R> {
    pub fn new(rt: &'a R) -> RealFiles<'a, R>
        ensures { result ≡ record {
          faults = 0;
          open_path = None;
          position = 0;
          broken = false;
        } }
    {
        RealFiles {
            rt,
            file: None,
            position: 0,
            faults: 0,
            open_path: OpenPath::none(),
            broken: Snapshot::of(&false),
        }
    }
}

impl<'a, R: std::rt::Files> Files for RealFiles<'a, R> {
    ghost state = { λ f. record {
      faults = f.faults;
      open_path = f.open_path;
      position = f.position;
      broken = f.broken;
      contents = None;
    } };

    fn open(&mut self, path: &str) -> Result<(), Failed> {
        self.file = fs::open(self.rt, path).ok();
        self.open_path = OpenPath::of(path);
        self.position = 0;
        self.broken = Snapshot::of(&self.file.is_none());
        if self.file.is_none() {
            self.faults = self.faults.saturating_add(1);
            return Err(Failed);
        }
        Ok(())
    }

    fn read(&mut self, into: &mut [u8]) -> Result<usize, Failed> {
        if let Some(file) = &mut self.file {
            if let Some(count) = read_some(file, into) {
                if let Some(position) = self.position.checked_add(count as u64) {
                    self.position = position;
                    return Ok(count);
                }
            }
        }
        self.broken = Snapshot::of(&true);
        self.faults = self.faults.saturating_add(1);
        Err(Failed)
    }
}

// Reads, and again where a signal came between.
fn read_some<F: Read>(file: &mut F, into: &mut [u8]) -> Option<usize>
    ensures bound { IfSome result (λ count. count ≤ length into.new) }
{
    for _ in 0..u64::MAX {
        match file.read(into) {
            Ok(count) => return Some(count),
            Err(error) => {
                if error.kind() != ErrorKind::Interrupted {
                    return None;
                }
            }
        }
    }
    None
}
