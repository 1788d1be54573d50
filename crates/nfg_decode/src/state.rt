//! What a stream knows of the bytes that it has read.

ghost use Rattle.std.specs.Prelude.{◌≡◌, ℕ, ◌+◌, ◌^◌, ◌≤◌, List, [], length, IfOk, OnErr};
ghost use Rattle.nfg_decode.specs.declared.encoding.Encoding.{Encoding};
ghost use Rattle.nfg_decode.specs.Reads.{Grew};
ghost use Rattle.nfg_decode.specs.State.{IsOpen, IsReady, HasAdvanced, StepsOn, lone_limit, whole_limit};
ghost use Rattle.nfg_decode.specs.Tail.{bytes_of};

use crate::encoding::Encoding;
use crate::mark::{Opening, look_for_mark};
use crate::reading::{Form, read_on};
use crate::step::{Step, next_step};
use crate::tail::Tail;
use crate::utf16::ByteOrder;
use nfg_text::CodeList;
use std::alloc::AllocError;

/// How the bytes to come are read, if the mark of UTF-16 is not to come yet; how many bytes were
/// decoded; and the unfinished bytes behind them.
#[derive(Clone, Copy, Debug)]
pub(crate) struct State {
    pub(crate) form: Option<Form>,
    pub(crate) settled: u64,
    pub(crate) tail: Tail,
}

/// The next state, and the place of the fault, if there is one.
#[derive(Clone, Copy, Debug)]
pub(crate) struct Next {
    pub(crate) state: State,
    pub(crate) malformed: Option<u64>,
}

/// The state before the first byte.
pub(crate) fn first_state(encoding: Encoding) -> State
    ensures open { IsOpen result encoding [] }
    ensures settled { result.settled ≡ 0 }
    ensures tail { bytes_of result.tail ≡ [] }
{
    let form = match encoding {
        Encoding::Utf8 => Some(Form::Utf8),
        Encoding::Utf16 => None,
        Encoding::Utf16Le => Some(Form::Utf16(ByteOrder::Little)),
        Encoding::Utf16Be => Some(Form::Utf16(ByteOrder::Big)),
        Encoding::Latin1 => Some(Form::Latin1),
    };
    State {
        form,
        settled: 0,
        tail: Tail::Empty,
    }
}

/// How the piece is to be read.
fn opening_of(state: State, piece: &[u8]) -> Opening
    ensures ready { (e : Encoding) (bytes : List ℕ) → IsOpen state e bytes → IsReady state e bytes piece.now result }
    ensures used { result.used ≤ length piece.now }
    ensures len { result.mark + length (bytes_of result.tail) ≤ length (bytes_of state.tail) + result.used }
{
    match state.form {
        None => look_for_mark(state.tail, piece),
        Some(_) => Opening {
            form: state.form,
            tail: state.tail,
            mark: 0,
            used: 0,
        },
    }
}

/// Below this number a byte is a whole sequence, that of the code point of its number.
#[inline(always)]
fn whole_limit(form: Form) -> u32
    ensures { result ≡ whole_limit form }
{
    match form {
        Form::Utf8 => 128,
        Form::Utf16(_) => 0,
        Form::Latin1 => 256,
    }
}

/// The same where no bytes are held, and 0 where some are or the mark is to come.
#[inline(always)]
pub(crate) fn lone_limit(form: Option<Form>, tail: Tail) -> u32
    ensures { result ≡ lone_limit form tail }
{
    match tail {
        Tail::Empty => match form {
            Some(form) => whole_limit(form),
            None => 0,
        },
        _ => 0,
    }
}

/// What a piece of one byte makes of the held bytes. It is not said of longer pieces, or before the mark.
#[inline(always)]
pub(crate) fn step_of(state: &State, piece: &[u8]) -> Step
    ensures { StepsOn state.now piece.now result }
{
    let Some(form) = state.form else {
        return Step::Other;
    };
    let [byte] = piece else {
        return Step::Other;
    };
    next_step(form, state.tail, *byte)
}

/// Reads the piece.
pub(crate) fn advance(state: State, piece: &[u8], into: &mut CodeList) -> Result<Next, AllocError>
    requires { state.settled + length (bytes_of state.tail) + length piece.now ≤ 2 ^ 32 }
    ensures ok { IfOk result (λ next. (e : Encoding) (bytes : List ℕ) → IsOpen state e bytes
        → HasAdvanced e bytes piece.now into.old into.new next) }
    ensures bound { IfOk result (λ next. next.state.settled + length (bytes_of next.state.tail)
        ≤ state.settled + length (bytes_of state.tail) + length piece.now) }
    ensures err { OnErr result (Grew into.old into.new) }
{
    let opening = opening_of(state, piece);
    let Some(form) = opening.form else {
        let state = State {
            form: None,
            settled: state.settled,
            tail: opening.tail,
        };
        return Ok(Next {
            state,
            malformed: None,
        });
    };
    let reading = read_on(form, opening.tail, &piece[opening.used..], into)?;
    let settled = state.settled + (opening.mark + reading.settled) as u64;
    let state = State {
        form: Some(form),
        settled,
        tail: reading.tail,
    };
    let malformed = if reading.is_malformed {
        Some(settled)
    } else {
        None
    };
    Ok(Next { state, malformed })
}
