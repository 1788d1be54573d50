//! A script and what was read for its loads.
ghost use Rattle.std.specs.Prelude.{true, IsTrue};
ghost use Rattle.nfg_work.specs.Evaluation.{AreWithinLimit, IsWithinLimit};

use nfg_script::Script;
use nfg_work::FileRead;

/// The most bytes of a file.
const FILE_LIMIT: usize = 1 << 26;

/// A script and what was read for its loads.
#[derive(Drop)]
pub struct Workload {
    pub script: Script,
    pub reads: Vec<FileRead>,
}

/// Whether no file is too long for a script.
pub fn are_within(reads: &[FileRead]) -> bool
    ensures { IsTrue result → AreWithinLimit reads.now }
{
    'looking: for k in 0..reads.len() {
        if !is_within(&reads[k]) {
            return false;
        }
    }
    true
}

/// Whether a file is not too long for a script.
fn is_within(read: &FileRead) -> bool
    ensures { IsTrue result → IsWithinLimit read.now }
{
    match read {
        FileRead::Bytes(bytes) => bytes.len() <= FILE_LIMIT,
        _ => true,
    }
}
