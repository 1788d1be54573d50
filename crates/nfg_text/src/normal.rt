//! The normal form of a text.
ghost use Rattle.std.specs.Prelude.{◌≡◌, ◌↔◌, ◌≤◌, ℕ, true, List, ◌∷◌, ◌++◌, length, take, drop, IsTrue, IfSome, IfOk, OnOk, OnErr};
ghost use Rattle.std.specs.Char.{IsScalar};
ghost use Rattle.std.specs.List.{list_all};
ghost use Rattle.unicode_normalization.specs.Compose.{primary_composite};
ghost use Rattle.unicode_normalization.specs.Forms.{nfc};
ghost use Rattle.nfg_text.specs.Graphemes.{starts_safely};
ghost use Rattle.nfg_text.specs.Plain.{is_plain};
ghost use Rattle.nfg_text.specs.Text.{IsText};

use crate::CodeList;
use crate::properties::{is_plain_by_table, is_plain_number, properties_of};
use std::alloc::{AllocError, Global};
use unicode_normalization::char::compose;
use unicode_normalization::slice::extend_nfc;

/// Whether every number is a Unicode scalar value.
pub fn is_text(t: &[u32]) -> bool
    ensures { IsTrue result ↔ IsText t.now }
{
    for c in t {
        if char::from_u32(*c).is_none() {
            return false;
        }
    }
    true
}

/// Whether composing never reaches back over the place before `c`: its combining class is 0 and its NFC quick
/// check is Yes (UAX #15, section 9).
#[inline]
pub fn starts_safely(c: u32) -> bool
    requires { IsScalar c }
    ensures { result ≡ starts_safely c }
{
    properties_of(c) < 128
}

/// Whether the code point is plain: it starts safely, and no rule holds two such code points
/// together. Between two of them a text is always settled.
#[inline]
pub fn is_plain(c: u32) -> bool
    ensures { result ≡ is_plain c }
{
    if c < 0x1_0000 {
        return is_plain_by_table(c);
    }
    is_plain_beyond(c)
}

/// Whether a code point of the other planes is plain. Few texts have many, so it is a call.
#[inline(never)]
fn is_plain_beyond(c: u32) -> bool
    ensures { result ≡ is_plain c }
{
    c < 0x11_0000 && is_plain_number(properties_of(c))
}

/// The text in Normalization Form C (UAX #15). What comes before the first code point that may compose or move is
/// copied as it stands.
pub fn nfc_of(alloc: Global, t: &[u32]) -> Result<CodeList, AllocError>
    requires { IsText t.now }
    ensures codes { IfOk result (λ codes. codes ≡ nfc t.now) }
    ensures text { IfOk result (λ codes. IsText codes) }
{
    let kept = kept_len(t);
    let mut codes = Vec::with_capacity(alloc, t.len())?;
    codes.extend_from_slice(&t[..kept])?;
    extend_composed(alloc, &mut codes, &t[kept..])?;
    Ok(CodeList::from_vec(codes))
}

/// A length up to which NFC leaves the text as it is.
fn kept_len(t: &[u32]) -> usize
    requires { IsText t.now }
    ensures bound { result ≤ length t.now }
    ensures kept { nfc t.now ≡ take result t.now ++ nfc (drop result t.now) }
{
    let safe = safe_len(t);
    if safe == t.len() {
        safe
    } else {
        safe.saturating_sub(1)
    }
}

/// How many code points start safely, one after the other from the front on.
fn safe_len(t: &[u32]) -> usize
    requires { IsText t.now }
    ensures bound { result ≤ length t.now }
    ensures safe { list_all starts_safely (take result t.now) ≡ true }
{
    for i in 0..t.len() {
        if !starts_safely(t[i]) {
            return i;
        }
    }
    t.len()
}

/// Adds the NFC of the text at the end.
fn extend_composed(alloc: Global, codes: &mut Vec<u32>, t: &[u32]) -> Result<(), AllocError>
    requires { IsText t.now }
    ensures codes { OnOk result (codes.new.items ≡ codes.old.items ++ nfc t.now) }
    ensures text { IsText codes.old.items → OnOk result (IsText codes.new.items) }
{
    if t.is_empty() {
        return Ok(());
    }
    let chars = to_chars(alloc, t)?;
    let mut composed = Vec::with_capacity(alloc, t.len())?;
    extend_nfc(&mut composed, &chars)?;
    extend_codes(codes, &composed)
}

/// Adds the NFC of a text at the end.
#[inline]
pub fn append_nfc(into: &mut Vec<char>, text: &[char]) -> Result<(), AllocError>
    ensures appended { OnOk result (into.new.items ≡ into.old.items ++ nfc text.now) }
    ensures unchanged { OnErr result (into.new.items ≡ into.old.items) }
{
    extend_nfc(into, text)
}

/// The code point that two neighbors compose to, where they do, which may stand in their place at
/// the front of a text.
#[inline]
pub fn compose_pair(first: char, second: char) -> Option<char>
    ensures composite { result ≡ primary_composite first second }
    ensures in_place { IfSome result (λ c. (rest : List ℕ)
        → nfc (c ∷ rest) ≡ nfc (first ∷ second ∷ rest)) }
{
    compose(first, second)
}

#[inline]
pub(crate) fn to_char(c: u32) -> char
    requires { IsScalar c }
    ensures { result ≡ c }
{
    char::from_u32(c).unwrap()
}

fn to_chars(alloc: Global, t: &[u32]) -> Result<Vec<char>, AllocError>
    requires { IsText t.now }
    ensures { IfOk result (λ chars. chars.items ≡ t.now) }
{
    let mut chars = Vec::with_capacity(alloc, t.len())?;
    for c in t {
        chars.push(to_char(*c))?;
    }
    Ok(chars)
}

fn extend_codes(codes: &mut Vec<u32>, chars: &[char]) -> Result<(), AllocError>
    ensures codes { OnOk result (codes.new.items ≡ codes.old.items ++ chars.now) }
    ensures text { IsText codes.old.items → OnOk result (IsText codes.new.items) }
{
    codes.reserve(chars.len())?;
    for c in chars {
        codes.push(to_code(*c))?;
    }
    Ok(())
}

#[inline]
fn to_code(c: char) -> u32
    ensures code { result ≡ c }
    ensures scalar { IsScalar result }
{
    c as u32
}
