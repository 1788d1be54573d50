//! Files are read.
ghost use Rattle.std.specs.Prelude.{◌≡◌, ◌≤◌, ◌<◌, ◌+◌, ℕ, List, length, take, drop, Some, IfOk, IfSome, MatchOption, IsErrOf, [], ◌∷◌};
ghost use Rattle.nfg_io.specs.Files.{HasFailedAt};
ghost use Rattle.nfg_script.specs.Script.{load_paths, is_load as is_load_command};
ghost use Rattle.nfg_run.specs.Headline.{HasFile, AreLoadsRead, failed_load, files_limit, most_after, IsOpen, IsLastOpen};
ghost use Rattle.nfg_run.specs.declared.reading.ReadError.{ReadError};
ghost use Rattle.nfg_run.specs.declared.reading.ReadError.TheVariants.{Failed as ReadFailed, OutOfMemory as NoMemory};

use crate::FileRead;
use nfg_io::{Failed, Files};
use nfg_script::{Command, Script};
use nfg_text::ByteList;
use std::alloc::{AllocError, Global};

/// Why a path isn't read.
#[derive(Clone, Copy, Debug, PartialEq, Eq)]
pub(crate) enum ReadError {
    Failed,
    OutOfMemory,
}

impl From<Failed> for ReadError {
    ghost from_gives = { λ _ e. e ≡ ReadFailed };

    fn from(_: Failed) -> ReadError {
        ReadError::Failed
    }
}

impl From<AllocError> for ReadError {
    ghost from_gives = { λ _ e. e ≡ NoMemory };

    fn from(_: AllocError) -> ReadError {
        ReadError::OutOfMemory
    }
}

/// The most bytes of one file.
const FILE_LIMIT: usize = 1 << 26;

/// The most bytes of all files of a script together.
const FILES_LIMIT: usize = 1 << 28;

/// The most bytes that are asked for in one read.
pub(crate) const PIECE: usize = 1 << 16;

/// What one read fills.
pub(crate) type Buffer = [u8; PIECE];

/// The bytes of a path, to its end or to the limit.
pub(crate) fn read_up_to<F: Files>(
    alloc: Global,
    files: &mut F,
    buffer: &mut Buffer,
    path: &str,
    limit: usize,
) -> Result<ByteList, ReadError>
    ensures bytes { IfOk result
        (λ bytes. HasFile (F.state files.old).contents path.now (λ file. bytes ≡ take limit file)) }
    ensures within { IfOk result (λ bytes. length bytes ≤ limit) }
    ensures open_path { IfOk result (λ _. (F.state files.new).open_path ≡ Some path.now) }
    ensures position { IfOk result (λ _. (F.state files.new).position ≤ limit) }
    ensures failed { IsErrOf result ReadError.Failed
        → HasFailedAt (F.state files.old) (F.state files.new) path.now }
    ensures contents { (F.state files.new).contents ≡ (F.state files.old).contents }
    ensures never_falls { (F.state files.old).faults ≤ (F.state files.new).faults }
{
    files.open(path)?;
    let mut bytes = ByteList::new(alloc);
    'reading: while bytes.len() < limit {
        let room = PIECE.min(limit - bytes.len());
        let count = files.read(&mut buffer[..room])?;
        if count == 0 {
            return Ok(bytes);
        }
        bytes.append(&buffer[..count])?;
    }
    Ok(bytes)
}

/// What is read for one load, after `earlier` bytes for the loads before it.
fn read_load<F: Files>(
    alloc: Global,
    files: &mut F,
    buffer: &mut Buffer,
    path: &str,
    earlier: usize,
) -> Result<FileRead, AllocError>
    requires { earlier ≤ files_limit }
    ensures read { IfOk result (λ read.
        AreLoadsRead (F.state files.old).contents earlier (path.now ∷ []) (read ∷ [])) }
    ensures failed { IfOk result (λ read. IfSome (failed_load (path.now ∷ []) (read ∷ []))
        (HasFailedAt (F.state files.old) (F.state files.new))) }
    ensures is_open { IfOk result (λ _. IsOpen (F.state files.new) path.now (most_after earlier)) }
    ensures contents { (F.state files.new).contents ≡ (F.state files.old).contents }
    ensures never_falls { (F.state files.old).faults ≤ (F.state files.new).faults }
{
    let limit = FILE_LIMIT.min(FILES_LIMIT - earlier);
    match read_up_to(alloc, files, buffer, path, limit + 1) {
        Ok(bytes) => {
            if bytes.len() > limit {
                return Ok(FileRead::TooLong);
            }
            Ok(FileRead::Bytes(bytes))
        }
        Err(ReadError::Failed) => Ok(FileRead::Failed),
        Err(ReadError::OutOfMemory) => Err(AllocError),
    }
}

/// The path of the command at `k`, counted from 0, where it is a load.
fn load_path(script: &Script, k: usize) -> Option<&str>
    requires { k < length script.now }
    ensures { MatchOption result
        (load_paths (drop k script.now) ≡ load_paths (drop (k + 1) script.now))
        (λ path. load_paths (drop k script.now) ≡ path.now ∷ load_paths (drop (k + 1) script.now)) }
{
    if !is_load(script.command(k)) {
        return None;
    }
    Some(script.path(k))
}

fn is_load(command: Command) -> bool
    ensures { result ≡ is_load_command command }
{
    matches!(command, Command::Load { .. })
}

/// What is read for the loads of a script, in order, to the first that fails or is too long.
pub(crate) fn read_loads<F: Files>(
    alloc: Global,
    files: &mut F,
    buffer: &mut Buffer,
    script: &Script,
) -> Result<Vec<FileRead>, AllocError>
    ensures read { IfOk result
        (λ reads. AreLoadsRead (F.state files.old).contents 0 (load_paths script.now) reads.items) }
    ensures failed { IfOk result (λ reads. IfSome (failed_load (load_paths script.now) reads.items)
        (HasFailedAt (F.state files.old) (F.state files.new))) }
    // whatever path was opened last before
    ensures last_open { IfOk result (λ reads. (last : List ℕ) (most : ℕ)
        → IsOpen (F.state files.old) last most
        → IsLastOpen (F.state files.new) last most 0 (load_paths script.now) reads.items) }
    ensures never_falls { (F.state files.old).faults ≤ (F.state files.new).faults }
{
    let mut reads = Vec::new(alloc);
    let mut earlier = 0;
    'loading: for k in 0..script.len() {
        let Some(path) = load_path(script, k) else {
            continue;
        };
        match read_load(alloc, files, buffer, path, earlier)? {
            FileRead::Bytes(bytes) => {
                earlier += bytes.len();
                reads.push(FileRead::Bytes(bytes))?;
            }
            FileRead::TooLong => {
                reads.push(FileRead::TooLong)?;
                return Ok(reads);
            }
            FileRead::Failed => {
                reads.push(FileRead::Failed)?;
                return Ok(reads);
            }
        }
    }
    Ok(reads)
}
