//! UTF-16 in either byte order.

ghost use Rattle.std.specs.Prelude.{◌≡◌, ℕ, ◌+◌, ◌^◌, ◌<◌, ◌≤◌, ◌⊎◌, ◌↔◌, List, [], ◌∷◌, ◌++◌, length, take, IfOk, IfSome, IfNone, IsTrue, true, false, not, ◌&&◌, MatchOption, Ok, Err, OnErr, MatchBool};
ghost use Rattle.std.specs.Char.Utf16.{is_high_surrogate, is_low_surrogate, surrogate_pair_char};
ghost use Rattle.nfg_decode.specs.Decoded.{after_text};
ghost use Rattle.nfg_decode.specs.Utf16.{unit, is_surrogate, is_surely_low, may_be_low, is_hopeless, decode_utf16};
ghost use Rattle.nfg_decode.specs.Reads.{Grew, Reads, AppendsUnits, utf16_form};
ghost use Rattle.nfg_decode.specs.Step.{StepsTo};
ghost use Rattle.nfg_decode.specs.Tail.{bytes_of};

use crate::reach::Reach;
use crate::step::Step;
use crate::tail::Tail;
use nfg_text::CodeList;
use std::alloc::AllocError;

/// Which byte of a unit comes first.
#[derive(Clone, Copy, Debug, PartialEq, Eq)]
pub(crate) enum ByteOrder {
    /// The low byte.
    Little,
    /// The high byte.
    Big,
}

/// How many bytes a run of whole sequences takes, and how many code points they are.
#[derive(Clone, Copy, Debug)]
struct Run {
    bytes: usize,
    codes: usize,
}

/// The unit of two bytes.
fn unit_of(order: ByteOrder, x: u8, y: u8) -> u32
    ensures { result ≡ unit order x y }
{
    match order {
        ByteOrder::Little => u32::from(x) + u32::from(y) * 256,
        ByteOrder::Big => u32::from(x) * 256 + u32::from(y),
    }
}

/// Whether two units are a high surrogate and a low one.
fn is_pair(high: u32, low: u32) -> bool
    ensures { result ≡ (is_high_surrogate high && is_low_surrogate low) }
{
    (0xD800 <= high && high < 0xDC00) && (0xDC00 <= low && low < 0xE000)
}

fn is_lone(unit: u32) -> bool
    ensures { result ≡ not (is_surrogate unit) }
{
    unit < 0xD800 || 0xE000 <= unit
}

fn is_low(unit: u32) -> bool
    ensures { result ≡ is_low_surrogate unit }
{
    0xDC00 <= unit && unit < 0xE000
}

/// Whether the first byte of a unit says that the unit is a low surrogate.
fn is_first_low(order: ByteOrder, first: u8) -> bool
    ensures { result ≡ is_surely_low order first }
{
    match order {
        ByteOrder::Little => false,
        ByteOrder::Big => 0xDC <= first && first <= 0xDF,
    }
}

/// Whether the unit may be a low surrogate.
fn can_be_low(order: ByteOrder, first: u8) -> bool
    ensures { result ≡ may_be_low order first }
{
    match order {
        ByteOrder::Little => true,
        ByteOrder::Big => 0xDC <= first && first <= 0xDF,
    }
}

/// The code point of a pair.
fn pair_code(high: u32, low: u32) -> u32
    requires { IsTrue (is_high_surrogate high && is_low_surrogate low) }
    ensures { result ≡ surrogate_pair_char high low }
{
    0x1_0000 + (high - 0xD800) * 0x400 + (low - 0xDC00)
}

/// A unit that is in no pair, which takes two bytes.
fn lone_code(unit: u32) -> Option<(u32, usize)>
    ensures { MatchOption result (is_surrogate unit ≡ true)
        (λ found. (is_surrogate unit ≡ false) × (found.0 ≡ unit) × (found.1 ≡ 2)) }
{
    if is_lone(unit) { Some((unit, 2)) } else { None }
}

/// The code point of a sequence at the front, and how many bytes it takes.
fn first_code(order: ByteOrder, bytes: &[u8]) -> Option<(u32, usize)>
    ensures within { IfSome result (λ found. (0 < found.1) × (found.1 ≤ length bytes.now)) }
    ensures found { IfSome result (λ found. (ys : List ℕ) → decode_utf16 order (take found.1 bytes.now ++ ys)
        ≡ after_text (found.0 ∷ []) found.1 (decode_utf16 order ys)) }
    ensures none { IfNone result ((bytes.now ≡ []) ⊎ (decode_utf16 order bytes.now ≡ Err 0)) }
{
    match bytes {
        [x, y, z, w, ..] => {
            let high = unit_of(order, *x, *y);
            let low = unit_of(order, *z, *w);
            if is_pair(high, low) {
                return Some((pair_code(high, low), 4));
            }
            lone_code(high)
        }
        [x, y, ..] => lone_code(unit_of(order, *x, *y)),
        _ => None,
    }
}

/// Decodes whole sequences from the front, as many as the buffer has room for.
fn read_run(order: ByteOrder, bytes: &[u8], codes: &mut [u32]) -> Run
    requires { 0 < length codes.old }
    ensures bytes { result.bytes ≤ length bytes.now }
    ensures codes { result.codes ≤ length codes.new }
    ensures text { decode_utf16 order (take result.bytes bytes.now) ≡ Ok (take result.codes codes.new) }
    ensures none { result.bytes ≡ 0 → (bytes.now ≡ []) ⊎ (decode_utf16 order bytes.now ≡ Err 0) }
{
    let mut at = 0;
    for k in 0..codes.len() {
        match first_code(order, &bytes[at..]) {
            None => {
                return Run {
                    bytes: at,
                    codes: k,
                };
            }
            Some((code, len)) => {
                codes[k] = code;
                at += len;
            }
        }
    }
    Run {
        bytes: at,
        codes: codes.len(),
    }
}

/// Adds the code points of all whole sequences, and answers how many bytes they take.
fn append_units(
    order: ByteOrder,
    bytes: &[u8],
    codes: &mut [u32],
    into: &mut CodeList,
) -> Result<usize, AllocError>
    requires { 0 < length codes.old }
    ensures ok { IfOk result (λ at. AppendsUnits order bytes.now into.old into.new at) }
    ensures err { OnErr result (Grew into.old into.new) }
{
    let mut at = 0;
    let mut run = read_run(order, bytes, codes);
    while run.bytes != 0 {
        into.append(&codes[..run.codes])?;
        at += run.bytes;
        run = read_run(order, &bytes[at..], codes);
    }
    Ok(at)
}

/// Whether no sequence can begin the bytes, whatever bytes follow, where none begins them now.
fn is_past_hope(order: ByteOrder, bytes: &[u8]) -> bool
    ensures { result ≡ is_hopeless order bytes.now }
{
    match bytes {
        [] => false,
        [x] => is_first_low(order, *x),
        [x, y] => is_low(unit_of(order, *x, *y)),
        [x, y, z] => is_low(unit_of(order, *x, *y)) | !can_be_low(order, *z),
        [_, _, _, _, ..] => true,
    }
}

/// Reads whole sequences, and looks at what is left.
pub(crate) fn read_utf16(
    order: ByteOrder,
    bytes: &[u8],
    codes: &mut [u32],
    into: &mut CodeList,
) -> Result<Reach, AllocError>
    requires { 0 < length codes.old }
    ensures ok { IfOk result
        (λ reach. Reads (utf16_form order) bytes.now into.old into.new reach.at reach.is_malformed) }
    ensures err { OnErr result (Grew into.old into.new) }
{
    let at = append_units(order, bytes, codes, into)?;
    let is_malformed = is_past_hope(order, &bytes[at..]);
    Ok(Reach { at, is_malformed })
}

#[inline(always)]
fn step_one(order: ByteOrder, x: u8) -> Step
    ensures { StepsTo (utf16_form order) (x ∷ []) result }
{
    if is_first_low(order, x) {
        return Step::Other;
    }
    Step::Held(Tail::One(x))
}

#[inline(always)]
fn step_two(order: ByteOrder, x: u8, y: u8) -> Step
    ensures { StepsTo (utf16_form order) (x ∷ y ∷ []) result }
{
    let unit = unit_of(order, x, y);
    if is_lone(unit) {
        return Step::Whole(unit);
    }
    if is_low(unit) {
        return Step::Other;
    }
    Step::Held(Tail::Two(x, y))
}

#[inline(always)]
fn step_three(order: ByteOrder, x: u8, y: u8, z: u8) -> Step
    ensures { StepsTo (utf16_form order) (x ∷ y ∷ z ∷ []) result }
{
    let unit = unit_of(order, x, y);
    if is_lone(unit) {
        return Step::Other;
    }
    if is_low(unit) {
        return Step::Other;
    }
    if !can_be_low(order, z) {
        return Step::Other;
    }
    Step::Held(Tail::Three(x, y, z))
}

#[inline(always)]
fn step_four(order: ByteOrder, x: u8, y: u8, z: u8, w: u8) -> Step
    ensures { StepsTo (utf16_form order) (x ∷ y ∷ z ∷ w ∷ []) result }
{
    let high = unit_of(order, x, y);
    let low = unit_of(order, z, w);
    if is_pair(high, low) {
        return Step::Whole(pair_code(high, low));
    }
    Step::Other
}

/// Takes one byte more.
#[inline(always)]
pub(crate) fn step_utf16(order: ByteOrder, tail: Tail, byte: u8) -> Step
    ensures { StepsTo (utf16_form order) (bytes_of tail ++ byte ∷ []) result }
{
    match tail {
        Tail::Empty => step_one(order, byte),
        Tail::One(x) => step_two(order, x, byte),
        Tail::Two(x, y) => step_three(order, x, y, byte),
        Tail::Three(x, y, z) => step_four(order, x, y, z, byte),
    }
}
