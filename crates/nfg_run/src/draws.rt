//! Numbers that seem to be drawn, for the tests.
ghost use Rattle.std.specs.Prelude.{◌<◌};

/// Numbers that seem to be drawn, the same ones each time.
#[derive(Drop)]
pub(crate) struct Draws {
    state: u32,
}

impl Draws {
    pub(crate) fn new(seed: u32) -> Draws {
        Draws { state: seed }
    }

    /// The next number, which is less than `count`.
    pub(crate) fn next(&mut self, count: usize) -> usize
        requires { 0 < count }
        ensures { result < count }
    {
        self.state = self
            .state
            .wrapping_mul(1_664_525)
            .wrapping_add(1_013_904_223);
        (self.state >> 8) as usize % count
    }
}
