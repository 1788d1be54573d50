//! The answer is written.
ghost use Rattle.std.specs.Prelude.{◌≡◌, ◌≤◌, OnOk, OnErr};
ghost use Rattle.nfg_io.specs.Causes.{HasCause};
ghost use Rattle.nfg_io.specs.Sink.{Grew};
ghost use Rattle.nfg_run.specs.Headline.{GrewInPart};

use nfg_io::{Failed, Sink};

/// The most bytes that are handed over in one write.
const PIECE: usize = 1 << 16;

/// Writes the bytes piece by piece, until all are taken or a write fails. It takes no memory.
pub(crate) fn write_all<S: Sink>(out: &mut S, bytes: &[u8]) -> Result<(), Failed>
    ensures whole { OnOk result (Grew (S.state out.old).taken (S.state out.new).taken bytes.now) }
    ensures part { OnErr result
        (GrewInPart (S.state out.old).taken (S.state out.new).taken bytes.now) }
    ensures cause { HasCause (S.state out.old).faults (S.state out.new).faults result }
{
    let mut sent = 0;
    'writing: while sent < bytes.len() {
        let end = sent + PIECE.min(bytes.len() - sent);
        sent += out.write(&bytes[sent..end])?;
    }
    Ok(())
}
