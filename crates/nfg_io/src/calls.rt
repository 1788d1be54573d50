//! The calls of an object in memory, some of which are made to fail.
ghost use Rattle.std.specs.Prelude.{◌≡◌, ◌≤◌, OnOk, OnErr, if◌then◌else◌};
ghost use Rattle.std.specs.FinSet.{insert};
ghost use Rattle.nfg_io.specs.Calls.{no_calls, fails_next, after_call};

use std::alloc::{AllocError, Global};
use std::collections::BTreeSet;
use std::marker::Model;

/// How many calls were made, which of them fail by their numbers from 0, and how many failed.
#[derive(Drop)]
pub struct Calls {
    failing: BTreeSet<u64>,
    // the number of the next call, where a `u64` holds it
    next: Option<u64>,
    faults: u64,
}

impl Model for Calls {
    ghost use Rattle.std.specs.Prelude.{◌≡◌, ◌^◌, false, unwrap_or};
    ghost use Rattle.std.specs.Ordering.{nat_cmp};
    ghost use Rattle.std.specs.FinSet.{from_list, contains};
    ghost use Rattle.nfg_io.specs.Calls.{Calls as CallsMade};
    ghost use Rattle.nfg_io.specs.Codes.{calls_code};

    ghost Value = { CallsMade };

    ghost coded = { calls_code };

    ghost view = { λ c. record {
      failing = from_list c.failing.keys;
      made = unwrap_or c.next (2 ^ 64);
      faults = c.faults;
    } };

    ghost invariant = { λ c. contains (from_list {R = nat_cmp} c.failing.keys) (2 ^ 64) ≡ false };
}

impl Calls {
    pub fn new(alloc: Global) -> Calls
        ensures { result ≡ no_calls }
    {
        Calls {
            failing: BTreeSet::new(alloc),
            next: Some(0),
            faults: 0,
        }
    }

    pub fn fail_at(&mut self, call: u64) -> Result<(), AllocError>
        ensures ok { OnOk result (self.new ≡ record self.old {
          failing = insert self.old.failing call;
        }) }
        ensures err { OnErr result (self.new ≡ self.old) }
    {
        self.failing.insert(call)?;
        Ok(())
    }

    /// Whether the call that is made now is one of those that fail.
    pub fn fails_next(&self) -> bool
        ensures { result ≡ fails_next self.now }
    {
        match self.next {
            Some(number) => self.failing.contains(&number),
            None => false,
        }
    }

    /// Counts the call that is made now.
    pub fn count(&mut self, failed: bool)
        ensures after { self.new ≡ after_call failed self.old }
        ensures never_falls { self.old.faults ≤ self.new.faults }
    {
        self.next = match self.next {
            Some(number) => number.checked_add(1),
            None => None,
        };
        if failed {
            self.faults = self.faults.saturating_add(1);
        }
    }
}
