//! Where a script defines its names and has its loads.
ghost use Rattle.std.specs.Prelude.{◌≡◌, ◌+◌, ◌++◌, ◌∷◌, [], IfOk, OnOk, if◌then◌else◌};
ghost use Rattle.nfg_script.specs.Script.{is_load};
ghost use Rattle.nfg_work.specs.Levels.{is_definition};
ghost use Rattle.nfg_work.specs.Planned.{IsPlan};

use crate::level::defines;
use nfg_script::{Command, Script};
use std::alloc::{AllocError, Global};

/// Where a script defines its names and has its loads.
#[derive(Drop)]
pub(crate) struct Plan {
    /// The command of each name, counted from 0.
    pub(crate) definitions: Vec<usize>,
    /// How many loads stand before each command.
    pub(crate) loads_before: Vec<usize>,
}

/// How many files the command loads.
fn loads_of(command: Command) -> usize
    ensures { result ≡ (if is_load command then 1 else 0) }
{
    match command {
        Command::Load { .. } => 1,
        _ => 0,
    }
}

impl Plan {
    /// Notes the command at `k`, which has so many loads before it.
    fn note(&mut self, command: Command, k: usize, loads: usize) -> Result<(), AllocError>
        ensures loads { OnOk result (self.new.loads_before.items
            ≡ self.old.loads_before.items ++ loads ∷ []) }
        ensures definitions { OnOk result (self.new.definitions.items
            ≡ self.old.definitions.items ++ (if is_definition command then k ∷ [] else [])) }
    {
        self.loads_before.push(loads)?;
        if defines(command) {
            self.definitions.push(k)?;
        }
        Ok(())
    }

    /// The plan of a script.
    pub(crate) fn new(alloc: Global, script: &Script) -> Result<Plan, AllocError>
        ensures { IfOk result (IsPlan script.now) }
    {
        let mut plan = Plan {
            definitions: Vec::new(alloc),
            loads_before: Vec::new(alloc),
        };
        let mut loads = 0;
        'planning: for k in 0..script.len() {
            let command = script.command(k);
            plan.note(command, k, loads)?;
            loads += loads_of(command);
        }
        Ok(plan)
    }
}
