//! A script that was accepted.
ghost use Rattle.std.specs.Prelude.{◌≡◌, ◌<◌, ◌++◌, ◌∷◌, [], true, length, slice_get, IfSome, OnOk, OnErr};
ghost use Rattle.nfg_decode.specs.Text.{IsText};
ghost use Rattle.nfg_script.specs.Script.{is_load, is_text, load_paths};
ghost use Rattle.nfg_script.specs.Answer.{numbered_command};

use crate::Command;
use crate::line::Line;
use std::alloc::{AllocError, Global};
use std::marker::Model;

/// A script that was accepted, as the list of its commands.
#[derive(Drop)]
pub struct Script {
    lines: Vec<Line>,
    loads: usize,
}

impl Model for Script {
    ghost use Rattle.std.specs.Prelude.{◌≡◌, List, map, length};
    ghost use Rattle.nfg_script.specs.Script.{NumberedCommand, load_paths};
    ghost use Rattle.nfg_script.specs.Answer.{numbered_command};

    ghost Value = { List NumberedCommand };

    ghost view = { λ script. map numbered_command script.lines.items };

    ghost invariant = { λ script.
        script.loads ≡ length (load_paths (map numbered_command script.lines.items)) };
}

impl Script {
    /// The script without commands. It keeps the allocator and takes no memory.
    pub(crate) fn new(alloc: Global) -> Script
        ensures { result ≡ [] }
    {
        Script {
            lines: Vec::new(alloc),
            loads: 0,
        }
    }

    /// One more command.
    pub(crate) fn push(&mut self, line: Line) -> Result<(), AllocError>
        ensures added { OnOk result (self.new ≡ self.old ++ numbered_command line ∷ []) }
        ensures unchanged { OnErr result (self.new ≡ self.old) }
    {
        let loads = line.command.loads();
        self.lines.push(line)?;
        self.loads += loads;
        Ok(())
    }

    /// How many commands there are.
    pub fn len(&self) -> usize
        ensures { result ≡ length self.now }
    {
        self.lines.len()
    }

    /// The command at `k`, counted from 0.
    pub fn command(&self, k: usize) -> Command
        requires { k < length self.now }
        ensures { IfSome (slice_get self.now k) (λ numbered. result ≡ numbered.command) }
    {
        self.lines[k].command
    }

    /// The line of the command at `k`, counted from 1.
    pub fn line(&self, k: usize) -> u32
        requires { k < length self.now }
        ensures { IfSome (slice_get self.now k) (λ numbered. result ≡ numbered.line) }
    {
        self.lines[k].number
    }

    /// The path of the load at `k`.
    pub fn path(&self, k: usize) -> &str
        requires place { k < length self.now }
        requires load { IfSome (slice_get self.now k)
            (λ numbered. is_load numbered.command ≡ true) }
        ensures { IfSome (slice_get self.now k) (λ numbered. result.now ≡ numbered.path) }
    {
        self.lines[k].path.as_str()
    }

    /// The code points of the text at `k`.
    pub fn codes(&self, k: usize) -> &[u32]
        requires place { k < length self.now }
        requires text { IfSome (slice_get self.now k)
            (λ numbered. is_text numbered.command ≡ true) }
        ensures codes { IfSome (slice_get self.now k) (λ numbered. result.now ≡ numbered.codes) }
        ensures scalar_values { IsText result.now }
    {
        self.lines[k].codes.as_slice()
    }

    /// How many loads there are.
    pub fn loads(&self) -> usize
        ensures { result ≡ length (load_paths self.now) }
    {
        self.loads
    }
}
