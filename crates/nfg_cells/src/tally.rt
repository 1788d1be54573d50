//! How many passes were forked and met, for contracts alone.
ghost use Rattle.std.specs.Prelude.{◌≡◌, ℕ, ◌+◌};
ghost use base.Fml.{ftrue};

use std::marker::{Model, PhantomData};

/// The counts of a pass. It takes no bytes, and nothing reads it when the program runs.
pub struct Tally {
    marker: PhantomData<()>,
    pub ghost forks: { ℕ },
    pub ghost meets: { ℕ },
}

impl Model for Tally {
    ghost also_owns = { λ _. ftrue };
}

impl Tally {
    /// No fork, and no meet.
    pub fn first() -> Tally
        ensures { (result.forks ≡ 0) × (result.meets ≡ 0) }
    {
        Tally {
            marker: PhantomData,
        }
    }

    /// One fork more.
    pub fn forked(self) -> Tally
        ensures { (result.forks ≡ self.forks + 1) × (result.meets ≡ self.meets) }
    {
        let Tally { marker: _ } = self;
        Tally {
            marker: PhantomData,
        }
    }

    /// The meets of both, and one more.
    pub fn met(self, from: Tally) -> Tally
        ensures { (result.forks ≡ self.forks) × (result.meets ≡ self.meets + from.meets + 1) }
    {
        let Tally { marker: _ } = self;
        let Tally { marker: _ } = from;
        Tally {
            marker: PhantomData,
        }
    }
}

impl Drop for Tally {
    fn drop(self) {
        let Tally { marker: _ } = self;
    }
}

unsafe impl Send for Tally {}

unsafe impl Sync for Tally {}
