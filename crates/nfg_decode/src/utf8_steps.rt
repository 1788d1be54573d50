//! What a byte more makes of held bytes of UTF-8 (The Unicode Standard, Table 3-7).

ghost use Rattle.std.specs.Prelude.{◌≡◌, ◌+◌, ◌-◌, ◌*◌, ◌<◌, ◌≤◌, [], ◌∷◌, ◌++◌};
ghost use Rattle.std.specs.Str.Lossy.{second_byte_min, second_byte_max};
ghost use Rattle.std.specs.Bool.{OnTrue};
ghost use Rattle.nfg_decode.specs.Step.{StepsTo};
ghost use Rattle.nfg_decode.specs.Tail.{bytes_of};
ghost use Rattle.nfg_decode.specs.declared.encoding.Encoding.TheVariants.{Utf8};

use crate::step::Step;
use crate::tail::Tail;

/// The least byte that may follow the first (Table 3-7).
#[inline(always)]
fn least_second(a: u8) -> u8
    ensures { result ≡ second_byte_min a }
{
    if a == 0xE0 {
        return 0xA0;
    }
    if a == 0xF0 { 0x90 } else { 0x80 }
}

/// The greatest one.
#[inline(always)]
fn greatest_second(a: u8) -> u8
    ensures { result ≡ second_byte_max a }
{
    if a == 0xED {
        return 0x9F;
    }
    if a == 0xF4 { 0x8F } else { 0xBF }
}

/// Whether the second byte may follow the first.
#[inline(always)]
fn follows(a: u8, b: u8) -> bool
    ensures leads { OnTrue result ((0xC2 ≤ a) × (a ≤ 0xF4)) }
    ensures least { OnTrue result (second_byte_min a ≤ b) }
    ensures most { OnTrue result (b ≤ second_byte_max a) }
{
    if a < 0xC2 || a > 0xF4 {
        return false;
    }
    least_second(a) <= b && b <= greatest_second(a)
}

/// Whether the byte may be a third or fourth one.
fn continues(b: u8) -> bool
    ensures { OnTrue result ((0x80 ≤ b) × (b ≤ 0xBF)) }
{
    0x80 <= b && b <= 0xBF
}

#[inline(always)]
fn step_one(a: u8) -> Step
    ensures { StepsTo Utf8 (a ∷ []) result }
{
    if a < 0x80 {
        return Step::Whole(u32::from(a));
    }
    if a < 0xC2 {
        return Step::Other;
    }
    if a > 0xF4 {
        return Step::Other;
    }
    Step::Held(Tail::One(a))
}

#[inline(always)]
fn step_two(a: u8, b: u8) -> Step
    ensures { StepsTo Utf8 (a ∷ b ∷ []) result }
{
    if !follows(a, b) {
        return Step::Other;
    }
    if a < 0xE0 {
        return Step::Whole((u32::from(a) - 0xC0) * 0x40 + (u32::from(b) - 0x80));
    }
    Step::Held(Tail::Two(a, b))
}

#[inline(always)]
fn step_three(a: u8, b: u8, c: u8) -> Step
    ensures { StepsTo Utf8 (a ∷ b ∷ c ∷ []) result }
{
    if !follows(a, b) {
        return Step::Other;
    }
    if !continues(c) {
        return Step::Other;
    }
    if a < 0xE0 {
        return Step::Other;
    }
    if a < 0xF0 {
        let high = (u32::from(a) - 0xE0) * 0x1000 + (u32::from(b) - 0x80) * 0x40;
        return Step::Whole(high + (u32::from(c) - 0x80));
    }
    Step::Held(Tail::Three(a, b, c))
}

#[inline(always)]
fn step_four(a: u8, b: u8, c: u8, d: u8) -> Step
    ensures { StepsTo Utf8 (a ∷ b ∷ c ∷ d ∷ []) result }
{
    if !follows(a, b) {
        return Step::Other;
    }
    if !continues(c) {
        return Step::Other;
    }
    if !continues(d) {
        return Step::Other;
    }
    if a < 0xF0 {
        return Step::Other;
    }
    let high = (u32::from(a) - 0xF0) * 0x4_0000 + (u32::from(b) - 0x80) * 0x1000;
    Step::Whole(high + (u32::from(c) - 0x80) * 0x40 + (u32::from(d) - 0x80))
}

/// Takes one byte more.
#[inline(always)]
pub(crate) fn step_utf8(tail: Tail, byte: u8) -> Step
    ensures { StepsTo Utf8 (bytes_of tail ++ byte ∷ []) result }
{
    match tail {
        Tail::Empty => step_one(byte),
        Tail::One(a) => step_two(a, byte),
        Tail::Two(a, b) => step_three(a, b, byte),
        Tail::Three(a, b, c) => step_four(a, b, c, byte),
    }
}
