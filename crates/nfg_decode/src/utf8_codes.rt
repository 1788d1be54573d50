//! The code points of bytes that are well-formed UTF-8, put into a buffer.

ghost use Rattle.std.specs.Prelude.{◌≡◌, ◌+◌, ◌-◌, ◌*◌, ◌<◌, ◌≤◌, ◌⊎◌, [], ◌∷◌, length, take, slice_index, MatchBool, IsUtf8, chars};
ghost use Rattle.std.specs.List.{list_all};
ghost use Rattle.std.specs.Str.{IsAscii};
ghost use Rattle.std.specs.Bool.{OnFalse, OnTrue};
ghost use Rattle.nfg_decode.specs.Utf8.{IsFirst, IsFront, is_three_lead};

use crate::part::widen;
use std::simd::prelude::*;

/// Whether each byte is below 80.
fn is_ascii(bytes: &[u8]) -> bool
    ensures { OnTrue result (IsAscii bytes.now) }
{
    let mut most = 0u8;
    for byte in bytes {
        most = most.max(*byte);
    }
    most < 0x80
}

/// Whether the byte begins a sequence of three bytes, where it begins one.
#[inline(always)]
fn leads_three(a: u8) -> bool
    ensures { MatchBool result ((0xE0 ≤ a) × (a < 0xF0)) ((a < 0xE0) ⊎ (0xF0 ≤ a)) }
{
    0xE0 <= a && a < 0xF0
}

/// The code point of two bytes that are a sequence.
#[inline(always)]
fn code_of_two(a: u8, b: u8) -> u32
    requires { (0xC0 ≤ a) × (0x80 ≤ b) }
    ensures { result ≡ (a - 0xC0) * 0x40 + (b - 0x80) }
{
    u32::from(a) * 0x40 + u32::from(b) - 0x3080
}

/// The code point of three bytes that are a sequence.
#[inline(always)]
fn code_of_three(a: u8, b: u8, c: u8) -> u32
    requires { (0xE0 ≤ a) × (0x80 ≤ b) × (0x80 ≤ c) }
    ensures { result ≡ (a - 0xE0) * 0x1000 + (b - 0x80) * 0x40 + (c - 0x80) }
{
    u32::from(a) * 0x1000 + u32::from(b) * 0x40 + u32::from(c) - 0xE_2080
}

/// The code point of four bytes that are a sequence.
#[inline(always)]
fn code_of_four(a: u8, b: u8, c: u8, d: u8) -> u32
    requires { (0xF0 ≤ a) × (0x80 ≤ b) × (0x80 ≤ c) × (0x80 ≤ d) }
    ensures { result ≡ (a - 0xF0) * 0x4_0000 + (b - 0x80) * 0x1000 + (c - 0x80) * 0x40 + (d - 0x80) }
{
    let high = u32::from(a) * 0x4_0000 + u32::from(b) * 0x1000 + u32::from(c) * 0x40;
    high + u32::from(d) - 0x3C8_2080
}

/// The first code point of a text, and how many bytes it takes. A sequence of three bytes is tried
/// first: where most are such, as in the scripts of East and South Asia, each test costs.
#[inline(always)]
fn first_code(text: &[u8]) -> (u32, usize)
    requires text { IsUtf8 text.now }
    requires some { 0 < length text.now }
    ensures some { 0 < result.1 }
    ensures first { IsFirst text.now result.1 result.0 }
{
    let a = text[0];
    if leads_three(a) {
        return (code_of_three(a, text[1], text[2]), 3);
    }
    if a < 0x80 {
        return (u32::from(a), 1);
    }
    if a < 0xE0 {
        return (code_of_two(a, text[1]), 2);
    }
    (code_of_four(a, text[1], text[2], text[3]), 4)
}

/// Whether four sequences of three bytes come first. Then puts their code points into the buffer.
#[inline(always)]
fn fill_four(text: &[u8], codes: &mut [u32]) -> bool
    requires text { IsUtf8 text.now }
    requires source { 16 ≤ length text.now }
    requires room { 4 ≤ length codes.old }
    ensures leads { result ≡ list_all is_three_lead
        (slice_index text.now 0 ∷ slice_index text.now 3 ∷ slice_index text.now 6 ∷ slice_index text.now 9 ∷ []) }
    ensures front { OnTrue result (IsFront text.now 12 (take 4 codes.new)) }
    ensures unchanged { OnFalse result (codes.new ≡ codes.old) }
{
    let block = u8x16::from_slice(text);
    // a byte below E0 wraps around, so one test finds each byte that is no lead of three
    let first = block.swizzle([0, 3, 6, 9]).cast::<u32>() - u32x4::splat(0xE0);
    if first.simd_ge(u32x4::splat(0x10)).to_bitmask() != 0 {
        return false;
    }
    let second = block.swizzle([1, 4, 7, 10]).cast::<u32>();
    let third = block.swizzle([2, 5, 8, 11]).cast::<u32>();
    let sum = first * u32x4::splat(0x1000) + second * u32x4::splat(0x40) + third;
    // less the 80 of each second and third byte
    (sum - u32x4::splat(0x2080)).copy_to_slice(codes);
    true
}

/// Takes four sequences of three bytes at a time from the front of a text, as long as they come and are
/// not near the end, and answers how many fours.
#[inline(always)]
fn fill_fours(text: &[u8], codes: &mut [u32]) -> usize
    requires text { IsUtf8 text.now }
    requires room { length text.now ≤ length codes.old }
    ensures { IsFront text.now (result * 12) (take (result * 4) codes.new) }
{
    let mut fours = 0;
    while fours * 12 + 16 <= text.len() && fill_four(&text[fours * 12..], &mut codes[fours * 4..]) {
        fours += 1;
    }
    fours
}

/// Takes sequence by sequence from the front of a text, through the first that has not three bytes, and
/// answers how many bytes and how many code points.
#[inline(always)]
fn fill_through_other(text: &[u8], codes: &mut [u32]) -> (usize, usize)
    requires text { IsUtf8 text.now }
    requires room { length text.now ≤ length codes.old }
    ensures some { 0 < length text.now → 0 < result.0 }
    ensures most { result.1 ≤ result.0 }
    ensures front { IsFront text.now result.0 (take result.1 codes.new) }
{
    let mut at = 0;
    let mut n = 0;
    let mut last_len = 3;
    while at < text.len() && last_len == 3 {
        let (code, len) = first_code(&text[at..]);
        codes[n] = code;
        n += 1;
        at += len;
        last_len = len;
    }
    (at, n)
}

/// Puts the code points of a text into the buffer, by fours where it can, and answers how many they are.
#[inline(never)]
fn fill_by_fours(text: &str, codes: &mut [u32]) -> usize
    requires { length text.now ≤ length codes.old }
    ensures within { result ≤ length codes.new }
    ensures codes { take result codes.new ≡ chars text.now }
{
    let bytes = text.as_bytes();
    let mut at = 0;
    let mut n = 0;
    while at < bytes.len() {
        let fours = fill_fours(&bytes[at..], &mut codes[n..]);
        at += fours * 12;
        n += fours * 4;
        let (len, count) = fill_through_other(&bytes[at..], &mut codes[n..]);
        at += len;
        n += count;
    }
    n
}

/// Takes ASCII byte by byte from the front of a text, and answers how many bytes.
#[inline(always)]
fn fill_ascii(text: &[u8], codes: &mut [u32]) -> usize
    requires text { IsUtf8 text.now }
    requires room { length text.now ≤ length codes.old }
    ensures { IsFront text.now result (take result codes.new) }
{
    let mut n = 0;
    while n < text.len() && text[n] < 0x80 {
        codes[n] = u32::from(text[n]);
        n += 1;
    }
    n
}

/// The same by runs of ASCII, and sequence by sequence between them.
#[inline(never)]
fn fill_by_runs(text: &str, codes: &mut [u32]) -> usize
    requires { length text.now ≤ length codes.old }
    ensures within { result ≤ length codes.new }
    ensures codes { take result codes.new ≡ chars text.now }
{
    let bytes = text.as_bytes();
    let mut at = 0;
    let mut n = 0;
    while at < bytes.len() {
        let run = fill_ascii(&bytes[at..], &mut codes[n..]);
        at += run;
        n += run;
        let (len, count) = fill_through_other(&bytes[at..], &mut codes[n..]);
        at += len;
        n += count;
    }
    n
}

/// The same, sequence by sequence.
#[inline(never)]
fn fill_codes(text: &str, codes: &mut [u32]) -> usize
    requires { length text.now ≤ length codes.old }
    ensures within { result ≤ length codes.new }
    ensures codes { take result codes.new ≡ chars text.now }
{
    let bytes = text.as_bytes();
    let mut at = 0;
    let mut n = 0;
    while at < bytes.len() {
        let (code, len) = first_code(&bytes[at..]);
        codes[n] = code;
        n += 1;
        at += len;
    }
    n
}

/// Bytes at the front of a text that tell how it is read.
const SAMPLE: usize = 128;

/// So many of them begin a sequence of three bytes where at most five are of others: as in Chinese and
/// Japanese, and not in Korean or Hindi, whose words are too short to be read by fours.
const MOST_LEADS: u8 = 41;

/// Whether nearly all sequences have three bytes, by the sample. Either answer is right: it picks
/// the faster way to the same codes.
#[inline(never)]
fn is_nearly_all_threes(bytes: &[u8]) -> bool {
    if bytes.len() < SAMPLE {
        return false;
    }
    let mut leads = 0u8;
    for at in 0..SAMPLE {
        leads += u8::from(leads_three(bytes[at]));
    }
    leads >= MOST_LEADS
}

/// So many bytes of a sample are ASCII where runs of it are long enough to be taken apart: as in French, and not in
/// Russian or among emoji.
const MANY_ASCII: u8 = 80;

/// Whether most bytes are ASCII, by the sample. Here too either answer is right.
fn is_mostly_ascii(bytes: &[u8]) -> bool {
    if bytes.len() < SAMPLE {
        return false;
    }
    let mut ascii = 0u8;
    for at in 0..SAMPLE {
        ascii += u8::from(bytes[at] < 0x80);
    }
    ascii >= MANY_ASCII
}

/// Puts the code points of a text into the buffer, and answers how many they are.
pub(crate) fn fill(text: &str, codes: &mut [u32]) -> usize
    requires { length text.now ≤ length codes.old }
    ensures within { result ≤ length codes.new }
    ensures codes { take result codes.new ≡ chars text.now }
{
    let bytes = text.as_bytes();
    if is_ascii(bytes) {
        widen(bytes, &mut codes[..bytes.len()]);
        return bytes.len();
    }
    if is_mostly_ascii(bytes) {
        return fill_by_runs(text, codes);
    }
    if is_nearly_all_threes(bytes) {
        return fill_by_fours(text, codes);
    }
    fill_codes(text, codes)
}
