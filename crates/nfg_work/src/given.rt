//! What a job has given, by kind.
ghost use Rattle.std.specs.Prelude.{◌≡◌};
ghost use Rattle.nfg_work.specs.Given.{made_of, place_of, equivalence_of, order_of};

use crate::outcome::Outcome;
use nfg_strand::NString;
use std::cmp::Ordering;

/// The string that a job has made.
pub(crate) fn made(outcome: Outcome) -> Option<NString>
    ensures { result ≡ made_of outcome }
{
    match outcome {
        Outcome::Made(string) => Some(string),
        _ => None,
    }
}

/// The place, or none, that a job has found.
pub(crate) fn place(outcome: Outcome) -> Option<Option<u64>>
    ensures { result ≡ place_of outcome }
{
    match outcome {
        Outcome::Found(place) => Some(place),
        _ => None,
    }
}

/// Whether two texts are canonically equivalent, as a job has found.
pub(crate) fn equivalence(outcome: Outcome) -> Option<bool>
    ensures { result ≡ equivalence_of outcome }
{
    match outcome {
        Outcome::Compared(holds) => Some(holds),
        _ => None,
    }
}

/// The order of two texts that a job has found.
pub(crate) fn ordering(outcome: Outcome) -> Option<Ordering>
    ensures { result ≡ order_of outcome }
{
    match outcome {
        Outcome::Ordered(ordering) => Some(ordering),
        _ => None,
    }
}
