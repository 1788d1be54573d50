//! What comes of a call.
use std::alloc::AllocError;
use std::io;

/// What came of a call.
#[derive(Clone, Copy)]
pub(crate) enum Outcome {
    Done,
    /// It was refused, and what it was given stands as before.
    Kept,
    /// It was refused, and something that it was given has changed.
    Changed,
}

/// What came of a call that was refused.
pub(crate) fn refused(is_as_before: bool) -> Outcome {
    if is_as_before {
        Outcome::Kept
    } else {
        Outcome::Changed
    }
}

/// Says what came of a call, or that there was no memory for what it is given.
pub(crate) fn print(
    rt: &impl Print,
    name: &str,
    outcome: Result<Outcome, AllocError>,
) -> io::Result<()> {
    match outcome {
        Ok(Outcome::Done) => println!(rt; "{name}: done"),
        Ok(Outcome::Kept) => println!(rt; "{name}: refused, and all is as before"),
        Ok(Outcome::Changed) => println!(rt; "{name}: refused, and something has CHANGED"),
        Err(_) => println!(rt; "{name}: not made, for want of memory before it"),
    }
}
