//! Where output goes.
ghost use Rattle.std.specs.Prelude.{◌≡◌, ◌<◌, ◌≤◌, length, take, IfOk, OnErr};
ghost use Rattle.nfg_io.specs.Causes.{HasCause};
ghost use Rattle.nfg_io.specs.Sink.{SinkState, Grew};

use crate::Failed;

/// Something that takes bytes.
pub trait Sink {
    ghost state: { Self → SinkState };

    /// Takes bytes from the front of the piece, at least one, and answers how many.
    fn write(&mut self, piece: &[u8]) -> Result<usize, Failed>
        requires { 0 < length piece.now }
        ensures some { IfOk result (λ count. 0 < count) }
        ensures bound { IfOk result (λ count. count ≤ length piece.now) }
        ensures taken { IfOk result (λ count.
            Grew (state self.old).taken (state self.new).taken (take count piece.now)) }
        ensures unchanged { OnErr result ((state self.new).taken ≡ (state self.old).taken) }
        ensures never_falls { (state self.old).faults ≤ (state self.new).faults }
        ensures cause { HasCause (state self.old).faults (state self.new).faults result };
}
