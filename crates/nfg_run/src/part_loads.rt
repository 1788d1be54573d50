//! What comes of a file in parts and of the same file as a whole, for the tests.
ghost use Rattle.std.specs.Prelude.{◌≡◌, ℕ, ◌<◌, ◌≤◌, suc, true, length, get_or, All};
ghost use Rattle.nfg_words.specs.Table.{IsWordPass, seen_of};

use nfg_decode::Encoding;
use nfg_words::{WordPass, WordTable};
use nfg_work::{Gate, OpenGate, load_parts};
use std::alloc::Global;
use std::marker::Sync;
use std::process::Abort;
use std::test::Fail;
use std::thread::Threads;

/// The bytes of a file, how they spell its text, and where they are cut.
#[derive(Clone, Copy)]
pub(crate) struct CutFile<'a> {
    pub encoding: Encoding,
    pub bytes: &'a [u8],
    pub cuts: &'a [usize],
}

/// Whether the cuts go up, to at most so many bytes.
fn are_cuts(cuts: &[usize], count: usize) -> bool
    ensures ascending { result ≡ true → (k : ℕ) → suc k < length cuts.now
        → get_or cuts.now k 0 ≤ get_or cuts.now (suc k) 0 }
    ensures within { result ≡ true → All (λ cut. cut ≤ count) cuts.now }
{
    'cuts: for k in 0..cuts.len() {
        if (cuts[k] > count) | (cuts[k.saturating_sub(1)] > cuts[k]) {
            return false;
        }
    }
    true
}

/// Ends the test unless the file is short, and its cuts go up and are few.
pub(crate) fn check_cuts(rt: &impl Abort, file: CutFile<'_>)
    ensures limit { length file.entry.bytes.now ≤ 67108864 }
    ensures few { length file.entry.cuts.now ≤ 63 }
    ensures ascending { (k : ℕ) → suc k < length file.entry.cuts.now
        → get_or file.entry.cuts.now k 0 ≤ get_or file.entry.cuts.now (suc k) 0 }
    ensures within { All (λ cut. cut ≤ length file.entry.bytes.now) file.entry.cuts.now }
{
    assert!(rt; file.bytes.len() < 1 << 20);
    assert!(rt; file.cuts.len() <= 63);
    assert!(rt; are_cuts(file.cuts, file.bytes.len()));
}

/// The file in parts has the string of the whole, or is refused as it is.
pub(crate) fn check_parted<R: Threads + Sync + Abort>(
    rt: &R,
    alloc: Global,
    table: &WordTable,
    pass: &mut WordPass,
    file: CutFile<'_>,
) -> Result<(), Fail>
    requires root { (seen_of pass.old).root ≡ true }
    requires table { IsWordPass table.now pass.old }
    ensures root { (seen_of pass.new).root ≡ true }
    ensures table { IsWordPass table.now pass.new }
{
    check_cuts(rt, file);
    let CutFile {
        encoding,
        bytes,
        cuts,
    } = file;
    let given = load_parts(rt, alloc, table, pass, encoding, bytes, cuts, &OpenGate);
    let whole = load_parts(rt, alloc, table, pass, encoding, bytes, &[], &OpenGate);
    match (given, whole) {
        (Ok(given), Ok(whole)) => {
            assert_eq!(rt; given.len(), whole.len());
            assert!(rt; given.iter().eq(whole.iter()));
            assert_eq!(rt; given.strands(), whole.strands());
            assert!(rt; given.strands() <= 1);
        }
        (Err(given), Err(whole)) => assert_eq!(rt; given, whole),
        (Ok(_), Err(_)) | (Err(_), Ok(_)) => Err("one of both is refused")?,
    }
    Ok(())
}
