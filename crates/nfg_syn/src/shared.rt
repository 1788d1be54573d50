//! The trait of the tables that several callers share.
ghost use Rattle.std.specs.Prelude.{◌≡◌, ◌+◌, false, true, IfOk, OnOk, IfErr, OnErr};
ghost use Rattle.nfg_syn.specs.Known.{IsSame};
ghost use Rattle.nfg_syn.specs.Seen.{Keeps, IsForkOf, IsUnchanged, Meets};

use crate::Synthetics;
use std::alloc::{AllocError, Global};

/// The pass that could not be met for want of memory.
#[derive(Drop)]
pub struct Refused<P> {
    pub from: P,
}

/// A table that callers on several threads share, each with a pass of its own.
///
/// The pass that comes with a new table is a root. Passes are forked from a root and given to other
/// callers, and each is met again in a pass of the same table, which then knows what both knew.
pub trait Shared: Synthetics + Sync {
    /// A new pass, which knows what `pass` knows. On a refusal `pass` is unchanged.
    fn fork(&self, alloc: Global, pass: &mut Self::Pass) -> Result<Self::Pass, AllocError>
        requires root { (Self.seen pass.old).root ≡ true }
        requires table { Self.is_of self.now pass.old }
        ensures table { Self.is_of self.now pass.new }
        ensures keeps { Keeps (Self.seen pass.old) (Self.seen pass.new) }
        ensures known { IsSame (Self.seen pass.old).known (Self.seen pass.new).known }
        ensures places { IsSame (Self.seen pass.old).places (Self.seen pass.new).places }
        ensures meets { (Self.seen pass.new).meets ≡ (Self.seen pass.old).meets }
        ensures counted { OnOk result ((Self.seen pass.new).forks ≡ (Self.seen pass.old).forks + 1) }
        ensures fork_table { IfOk result (λ fork. Self.is_of self.now fork) }
        ensures forked { IfOk result (λ fork. IsForkOf (Self.seen pass.old) (Self.seen fork)) }
        ensures refused { OnErr result (IsUnchanged (Self.seen pass.old) (Self.seen pass.new)) };

    /// Gives `into` what `from` knows. On a refusal, for want of memory, `from` comes back and
    /// `into` is unchanged.
    fn meet(
        &self,
        alloc: Global,
        into: &mut Self::Pass,
        from: Self::Pass,
    ) -> Result<(), Refused<Self::Pass>>
        requires no_root { (Self.seen from).root ≡ false }
        requires into_table { Self.is_of self.now into.old }
        requires from_table { Self.is_of self.now from }
        ensures table { Self.is_of self.now into.new }
        ensures keeps { Keeps (Self.seen into.old) (Self.seen into.new) }
        ensures forks { (Self.seen into.new).forks ≡ (Self.seen into.old).forks }
        ensures met { OnOk result (Meets (Self.seen into.old) (Self.seen from) (Self.seen into.new)) }
        ensures refused { OnErr result (IsUnchanged (Self.seen into.old) (Self.seen into.new)) }
        ensures given_back { IfErr result (λ refused. refused.from ≡ from) };
}
