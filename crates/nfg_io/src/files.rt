//! Files that are opened and read one at a time.
ghost use Rattle.std.specs.Prelude.{◌≡◌, ◌+◌, ◌≤◌, ◌<◌, false, length, Some, IsSome, IfSome};
ghost use Rattle.std.specs.Prelude.{IfOk, OnOk, is_err};
ghost use Rattle.nfg_io.specs.Causes.{HasCause};
ghost use Rattle.nfg_io.specs.Files.{FilesState, IsThere, opened_bytes, ReadsAt};

/// A call on the outside failed, and the object that was called has counted it.
#[derive(Clone, Copy, Debug, PartialEq, Eq)]
pub struct Failed;

/// Files that are opened and read one at a time, each from its start.
pub trait Files {
    ghost state: { Self → FilesState };

    /// Makes the path the open one, at position 0, whether or not it can be read. A path that
    /// isn't there is a fault.
    fn open(&mut self, path: &str) -> Result<(), Failed>
        ensures opened { (state self.new).open_path ≡ Some path.now }
        ensures start { (state self.new).position ≡ 0 }
        ensures broken { (state self.new).broken ≡ is_err result }
        ensures there { OnOk result (IsThere (state self.old).contents path.now) }
        ensures contents { (state self.new).contents ≡ (state self.old).contents }
        ensures never_falls { (state self.old).faults ≤ (state self.new).faults }
        ensures cause { HasCause (state self.old).faults (state self.new).faults result };

    /// Puts bytes of the open path at the front of `into` and goes on by as many: at least one, or
    /// 0 at the end. What then stands behind them in `into` is left open, and after `Failed` all of
    /// it is, and the position.
    fn read(&mut self, into: &mut [u8]) -> Result<usize, Failed>
        requires room { 0 < length into.old }
        requires opened { IsSome (state self.old).open_path }
        requires unbroken { (state self.old).broken ≡ false }
        ensures bound { IfOk result (λ count. count ≤ length into.new) }
        // the bytes at the position, and 0 exactly at the end, where the files are told
        ensures bytes { IfOk result (λ count.
            IfSome (opened_bytes (state self.old).contents (state self.old).open_path)
            (λ file. ReadsAt file (state self.old).position count into.new)) }
        ensures moved { IfOk result (λ count.
            (state self.new).position ≡ (state self.old).position + count) }
        ensures broken { (state self.new).broken ≡ is_err result }
        ensures path { (state self.new).open_path ≡ (state self.old).open_path }
        ensures contents { (state self.new).contents ≡ (state self.old).contents }
        ensures never_falls { (state self.old).faults ≤ (state self.new).faults }
        ensures cause { HasCause (state self.old).faults (state self.new).faults result };
}
