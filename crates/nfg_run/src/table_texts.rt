//! Bytes and code points as numbers of a table, of any kind, for the tests.
ghost use Rattle.std.specs.Prelude.{◌≡◌, ◌≤◌, length};
ghost use Rattle.nfg_text.specs.Text.{IsText};

use nfg_decode::Encoding;
use nfg_seam::{SeamError, concat};
use nfg_strand::NString;
use nfg_stream::{DecodeStream, LoadError, string_of};
use nfg_syn::{InternError, Synthetics};
use nfg_text::is_text;
use std::alloc::Global;
use std::process::Abort;

/// The number of a cluster of several code points.
pub(crate) fn intern<T: Synthetics>(
    rt: &impl Abort,
    alloc: Global,
    table: &T,
    pass: &mut T::Pass,
    cluster: &[u32],
) -> Result<i32, InternError>
    requires { T.is_of table.now pass.old }
    ensures { T.is_of table.now pass.new }
{
    assert!(rt; is_text(cluster));
    assert!(rt; cluster.len() >= 2);
    assert!(rt; cluster.len() <= 1024);
    table.intern(alloc, pass, cluster)
}

/// The string of a file in UTF-8.
pub(crate) fn load<T: Synthetics>(
    rt: &impl Abort,
    alloc: Global,
    table: &T,
    pass: &mut T::Pass,
    bytes: &[u8],
) -> Result<NString, LoadError>
    requires { T.is_of table.now pass.old }
    ensures { T.is_of table.now pass.new }
{
    assert!(rt; bytes.len() < 1 << 20);
    let mut stream = DecodeStream::new(alloc, Encoding::Utf8);
    stream.feed(alloc, bytes)?;
    stream.finish(alloc, table, pass)
}

/// The strings of two texts, joined.
pub(crate) fn joined<T: Synthetics>(
    rt: &impl Abort,
    alloc: Global,
    table: &T,
    pass: &mut T::Pass,
    left: &[u32],
    right: &[u32],
) -> Result<NString, SeamError>
    requires { T.is_of table.now pass.old }
    ensures { T.is_of table.now pass.new }
{
    assert!(rt; is_text(left));
    assert!(rt; is_text(right));
    let Ok(a) = string_of(alloc, table, pass, left) else {
        return Err(SeamError::OutOfMemory);
    };
    let Ok(b) = string_of(alloc, table, pass, right) else {
        return Err(SeamError::OutOfMemory);
    };
    concat(alloc, table, pass, &a, &b)
}
