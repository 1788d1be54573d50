//! Files and output of which each call hands on a drawn number of bytes, for the tests.
ghost use Rattle.std.specs.Prelude.{◌≡◌, ◌≤◌, length, None, false, Some};
ghost use Rattle.std.specs.FinMap.{get};

use crate::draws::Draws;
use nfg_io::{Failed, Files, MemoryFiles, MemorySink, Sink};

/// Files of which a read gives one byte or more.
#[derive(Drop)]
pub(crate) struct DrawnFiles {
    pub files: MemoryFiles,
    pub draws: Draws,
}

impl Files for DrawnFiles {
    ghost state = { λ drawn. record {
      faults = drawn.files.calls.faults;
      open_path = drawn.files.open_path;
      position = drawn.files.position;
      broken = drawn.files.broken;
      contents = Some (get drawn.files.files);
    } };

    fn open(&mut self, path: &str) -> Result<(), Failed> {
        self.files.open(path)
    }

    fn read(&mut self, into: &mut [u8]) -> Result<usize, Failed> {
        let most = 1 + self.draws.next(into.len());
        self.files.read(&mut into[..most])
    }
}

/// Output of which a write takes one byte or more.
#[derive(Drop)]
pub(crate) struct DrawnSink {
    pub sink: MemorySink,
    pub draws: Draws,
}

impl Sink for DrawnSink {
    ghost state = { λ drawn. record { faults = drawn.sink.calls.faults; taken = Some drawn.sink.taken } };

    fn write(&mut self, piece: &[u8]) -> Result<usize, Failed> {
        let most = 1 + self.draws.next(piece.len());
        self.sink.write(&piece[..most])
    }
}
