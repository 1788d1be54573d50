//! The strings of texts and files, and joined strings, whatever all strings cost.
ghost use Rattle.std.specs.Prelude.{◌≡◌, ◌≤◌, length};
ghost use Rattle.nfg_text.specs.Text.{IsText};
ghost use Rattle.nfg_text.specs.Graphemes.{graphemes_of};
ghost use Rattle.nfg_decode.specs.Encoding.{decode};
ghost use Rattle.nfg_syn.specs.Seen.{Keeps, SameCounts};
ghost use Rattle.nfg_stream.specs.Load.{HasLoaded};
ghost use Rattle.nfg_syn.specs.Represents.{AreGraphemes};
ghost use Rattle.nfg_work.specs.Values.{Value, flat};
ghost use Rattle.nfg_work.specs.Holding.{IsStringOf, IsStopOf, IsSeamStop};
ghost use Rattle.nfg_work.specs.Making.{IsMadeOf, unless_long, file_value, cat_wanted, rep_wanted};

use crate::Cause;
use crate::stop::Stop;
use nfg_decode::Encoding;
use nfg_seam::{SeamError, concat, repeat};
use nfg_strand::NString;
use nfg_stream::{DecodeStream, LoadError, string_of};
use nfg_syn::Synthetics;
use std::alloc::Global;

/// Why no string is made.
pub(crate) fn stop_of(error: LoadError) -> Stop
    ensures { IsStopOf error result }
{
    match error {
        LoadError::Malformed { at } => Stop::Refused(Cause::Malformed { at }),
        LoadError::ClusterLong { at } => Stop::Refused(Cause::ClusterTooLong { at }),
        LoadError::RowFull => Stop::RowFull,
        LoadError::NoPortion => Stop::NoPortion,
        LoadError::OutOfMemory => Stop::OutOfMemory,
    }
}

/// The string of a text.
pub(crate) fn string_of_text<T: Synthetics>(
    alloc: Global,
    table: &T,
    pass: &mut T::Pass,
    codes: &[u32],
) -> Result<NString, Stop>
    requires text { IsText codes.now }
    requires table { T.is_of table.now pass.old }
    ensures table { T.is_of table.now pass.new }
    ensures keeps { Keeps (T.seen pass.old) (T.seen pass.new) }
    ensures counts { SameCounts (T.seen pass.old) (T.seen pass.new) }
    ensures made { IsMadeOf (unless_long (flat (graphemes_of codes.now))) (T.seen pass.old) (T.seen pass.new) result }
{
    match string_of(alloc, table, pass, codes) {
        Ok(string) => Ok(string),
        Err(error) => Err(stop_of(error)),
    }
}

/// What the stream makes of a file's bytes.
pub(crate) fn load_bytes<T: Synthetics>(
    alloc: Global,
    table: &T,
    pass: &mut T::Pass,
    e: Encoding,
    bytes: &[u8],
) -> Result<NString, LoadError>
    requires table { T.is_of table.now pass.old }
    requires limit { length bytes.now ≤ 67108864 }
    ensures table { T.is_of table.now pass.new }
    ensures keeps { Keeps (T.seen pass.old) (T.seen pass.new) }
    ensures counts { SameCounts (T.seen pass.old) (T.seen pass.new) }
    ensures loaded { HasLoaded (decode e bytes.now) (T.seen pass.old) (T.seen pass.new) result }
{
    let mut stream = DecodeStream::new(alloc, e);
    // The stream keeps a refusal, and answers it again at the end.
    let _ = stream.feed(alloc, bytes);
    stream.finish(alloc, table, pass)
}

/// The string of a file's bytes.
pub(crate) fn string_of_file<T: Synthetics>(
    alloc: Global,
    table: &T,
    pass: &mut T::Pass,
    e: Encoding,
    bytes: &[u8],
) -> Result<NString, Stop>
    requires table { T.is_of table.now pass.old }
    requires limit { length bytes.now ≤ 67108864 }
    ensures table { T.is_of table.now pass.new }
    ensures keeps { Keeps (T.seen pass.old) (T.seen pass.new) }
    ensures counts { SameCounts (T.seen pass.old) (T.seen pass.new) }
    ensures made { IsMadeOf (file_value (decode e bytes.now)) (T.seen pass.old) (T.seen pass.new) result }
{
    match load_bytes(alloc, table, pass, e, bytes) {
        Ok(string) => Ok(string),
        Err(error) => Err(stop_of(error)),
    }
}

/// Why strings are not joined.
fn stop_of_seam(error: SeamError) -> Stop
    ensures { IsSeamStop error result }
{
    match error {
        SeamError::TooLong => Stop::Refused(Cause::StringTooLong),
        SeamError::ClusterLong { at } => Stop::Refused(Cause::ClusterTooLong { at }),
        SeamError::RowFull => Stop::RowFull,
        SeamError::NoPortion => Stop::NoPortion,
        SeamError::OutOfMemory => Stop::OutOfMemory,
    }
}

/// The string of two strings, joined.
pub(crate) fn string_of_both<T: Synthetics>(
    alloc: Global,
    table: &T,
    pass: &mut T::Pass,
    left: &NString,
    right: &NString,
) -> Result<NString, Stop>
    requires table { T.is_of table.now pass.old }
    requires left { AreGraphemes (T.seen pass.old).known left.now.graphemes }
    requires right { AreGraphemes (T.seen pass.old).known right.now.graphemes }
    ensures table { T.is_of table.now pass.new }
    ensures keeps { Keeps (T.seen pass.old) (T.seen pass.new) }
    ensures counts { SameCounts (T.seen pass.old) (T.seen pass.new) }
    ensures made { (a b : Value) → IsStringOf (T.seen pass.old).known left.now a
        → IsStringOf (T.seen pass.old).known right.now b
        → IsMadeOf (cat_wanted a b) (T.seen pass.old) (T.seen pass.new) result }
{
    match concat(alloc, table, pass, left, right) {
        Ok(string) => Ok(string),
        Err(error) => Err(stop_of_seam(error)),
    }
}

/// The string of so many times a string.
pub(crate) fn string_of_copies<T: Synthetics>(
    alloc: Global,
    table: &T,
    pass: &mut T::Pass,
    string: &NString,
    times: u64,
) -> Result<NString, Stop>
    requires table { T.is_of table.now pass.old }
    requires graphemes { AreGraphemes (T.seen pass.old).known string.now.graphemes }
    ensures table { T.is_of table.now pass.new }
    ensures keeps { Keeps (T.seen pass.old) (T.seen pass.new) }
    ensures counts { SameCounts (T.seen pass.old) (T.seen pass.new) }
    ensures made { (a : Value) → IsStringOf (T.seen pass.old).known string.now a
        → IsMadeOf (rep_wanted a times) (T.seen pass.old) (T.seen pass.new) result }
{
    match repeat(alloc, table, pass, string, times) {
        Ok(string) => Ok(string),
        Err(error) => Err(stop_of_seam(error)),
    }
}
