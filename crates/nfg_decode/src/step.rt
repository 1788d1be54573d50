//! What one byte makes of the unfinished sequence before it.

ghost use Rattle.std.specs.Prelude.{[], ◌∷◌, ◌++◌};
ghost use Rattle.nfg_decode.specs.declared.encoding.Encoding.TheVariants.{Latin1};
ghost use Rattle.nfg_decode.specs.Reading.{as_encoding};
ghost use Rattle.nfg_decode.specs.Step.{StepsTo};
ghost use Rattle.nfg_decode.specs.Tail.{bytes_of};

use crate::reading::Form;
use crate::tail::Tail;
use crate::utf8_steps::step_utf8;
use crate::utf16::step_utf16;

/// What the held bytes and one more are. It is not said of bytes that are malformed, or that no
/// unfinished sequence begins.
#[derive(Clone, Copy, Debug)]
pub(crate) enum Step {
    /// One sequence, of this code point.
    Whole(u32),
    /// An unfinished sequence.
    Held(Tail),
    /// This is not said.
    Other,
}

/// What became of a piece that may be one byte.
#[derive(Clone, Copy, Debug)]
pub(crate) enum Taken {
    /// It ends a sequence, or is held.
    All,
    /// There is no memory for its code point, and nothing has changed.
    OutOfMemory,
    /// It is neither, and nothing has changed.
    Nothing,
}

#[inline(always)]
fn step_latin1(tail: Tail, byte: u8) -> Step
    ensures { StepsTo Latin1 (bytes_of tail ++ byte ∷ []) result }
{
    match tail {
        Tail::Empty => Step::Whole(u32::from(byte)),
        _ => Step::Other,
    }
}

/// Takes one byte more.
#[inline(always)]
pub(crate) fn next_step(form: Form, tail: Tail, byte: u8) -> Step
    ensures { StepsTo (as_encoding form) (bytes_of tail ++ byte ∷ []) result }
{
    match form {
        Form::Utf8 => step_utf8(tail, byte),
        Form::Utf16(order) => step_utf16(order, tail, byte),
        Form::Latin1 => step_latin1(tail, byte),
    }
}
