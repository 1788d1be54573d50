//! Plain code points and line feeds, between which a text is settled.
ghost use Rattle.std.specs.Prelude.{◌≡◌, ◌≤◌, ◌+◌, true, IsTrue, map, take, length};
ghost use Rattle.std.specs.List.{list_all};
ghost use Rattle.nfg_segment.specs.PlainLines.{is_of_plain_lines, is_of_low_lines, capped, ArePlainLines};

use nfg_text::is_plain;

/// How many code points are looked at together.
const BLOCK: usize = 16;

/// How many are looked at one by one before.
const FEW: usize = 4;

/// Of what a block is told to be alone: ASCII; letters of Latin and syllables of Hangul as well; or what is
/// written in East Asia.
#[derive(Clone, Copy)]
enum Script {
    Ascii,
    Letters,
    EastAsian,
}

/// How many code points of plain lines the text begins with. Few are soon found; many are counted
/// by blocks.
#[inline(always)]
pub(crate) fn plain_lines_len(text: &[u32]) -> usize
    ensures within { result ≤ length text.now }
    ensures plain { ArePlainLines (take result text.now) }
{
    let few = text.len().min(FEW);
    let some = plain_up_to(text, 0, few);
    if some < few && !is_of_plain_lines(text[some]) {
        return some;
    }
    many_lines(text, some)
}

/// How many code points of plain lines the text begins with, of which `from` are known. Blocks of ASCII are
/// told at once. Behind another block, which is told one by one, blocks of other scripts are too.
#[inline(never)]
fn many_lines(text: &[u32], from: usize) -> usize
    requires from { from ≤ length text.now }
    requires known { ArePlainLines (take from text.now) }
    ensures within { result ≤ length text.now }
    ensures plain { ArePlainLines (take result text.now) }
{
    let mut at = past_blocks(text, from, Script::Ascii);
    while text.len() - at >= BLOCK {
        let end = at + BLOCK;
        let next = lines_up_to(text, at, end);
        if next < end {
            return next;
        }
        at = past_blocks(text, end, Script::Letters);
        at = past_blocks(text, at, Script::EastAsian);
    }
    lines_up_to(text, at, text.len())
}

/// The place from which on the next block is not of this script alone, from one on up to which all is known.
#[inline(always)]
fn past_blocks(text: &[u32], from: usize, script: Script) -> usize
    requires from { from ≤ length text.now }
    requires known { ArePlainLines (take from text.now) }
    ensures from { from ≤ result }
    ensures within { result ≤ length text.now }
    ensures plain { ArePlainLines (take result text.now) }
{
    let mut at = from;
    while text.len() - at >= BLOCK && are_lines_of(script, &text[at..at + BLOCK]) {
        at += BLOCK;
    }
    at
}

/// How many code points of plain lines the text begins with, of which `from` are known, as far as
/// `end`.
#[inline(always)]
fn lines_up_to(text: &[u32], from: usize, end: usize) -> usize
    requires from { from ≤ end }
    requires end { end ≤ length text.now }
    requires known { ArePlainLines (take from text.now) }
    ensures from { from ≤ result }
    ensures within { result ≤ end }
    ensures plain { ArePlainLines (take result text.now) }
{
    let mut at = plain_up_to(text, from, end);
    while at < end && is_of_plain_lines(text[at]) {
        at = plain_up_to(text, at + 1, end);
    }
    at
}

/// The same for plain code points of the first plane alone, which are told by one look-up each.
#[inline(always)]
fn plain_up_to(text: &[u32], from: usize, end: usize) -> usize
    requires from { from ≤ end }
    requires end { end ≤ length text.now }
    requires known { ArePlainLines (take from text.now) }
    ensures from { from ≤ result }
    ensures within { result ≤ end }
    ensures plain { ArePlainLines (take result text.now) }
{
    let mut at = from;
    while at < end && is_low_plain(text[at]) {
        at += 1;
    }
    at
}

/// Whether the code point is a plain one of the first plane.
#[inline(always)]
fn is_low_plain(c: u32) -> bool
    ensures { IsTrue result → is_of_plain_lines c ≡ true }
{
    c < 0x1_0000 && is_plain(c)
}

#[inline(always)]
fn is_of_plain_lines(c: u32) -> bool
    ensures { result ≡ is_of_plain_lines c }
{
    is_plain(c) || c == 0xA
}

/// Whether every code point is of plain lines in this script, by vectors of 16 bits.
#[inline(always)]
fn are_lines_of(script: Script, block: &[u32]) -> bool
    requires { length block.now ≡ 16 }
    ensures { IsTrue result → ArePlainLines block.now }
{
    let mut low = [0; BLOCK];
    cap_all(block, &mut low);
    are_low_lines_of(script, &low)
}

/// Copies each number into 16 bits, the greatest one where it is greater.
#[inline(always)]
fn cap_all(block: &[u32], low: &mut [u16])
    requires { length block.now ≡ length low.old }
    ensures { low.new ≡ map capped block.now }
{
    for k in 0..block.len() {
        low[k] = capped(block[k]);
    }
}

#[inline(always)]
fn capped(c: u32) -> u16
    ensures { result ≡ capped c }
{
    if c < 0xFFFF { c as u16 } else { 0xFFFF }
}

/// There is no branch in the loop, so that it becomes vectors.
#[inline(always)]
fn are_low_lines_of(script: Script, low: &[u16]) -> bool
    ensures { IsTrue result → list_all is_of_low_lines low.now ≡ true }
{
    let mut all = true;
    for c in low {
        all &= is_of_lines_of(script, *c);
    }
    all
}

/// Whether it is of plain lines in this script.
#[inline(always)]
fn is_of_lines_of(script: Script, c: u16) -> bool
    ensures { IsTrue result → is_of_low_lines c ≡ true }
{
    match script {
        Script::Ascii => is_of_ascii_lines(c),
        Script::Letters => is_of_letter_lines(c),
        Script::EastAsian => is_of_east_asian_lines(c),
    }
}

/// Whether it is printable ASCII or a line feed.
#[inline(always)]
fn is_of_ascii_lines(c: u16) -> bool
    ensures { IsTrue result → is_of_low_lines c ≡ true }
{
    (0x20 <= c) & (c <= 0x7E) | (c == 0xA)
}

/// Whether it is one of these, a letter of Latin, a dash or quotation mark, or a syllable of Hangul, of those
/// that stand together.
#[inline(always)]
fn is_of_letter_lines(c: u16) -> bool
    ensures { IsTrue result → is_of_low_lines c ≡ true }
{
    (0x20 <= c) & (c <= 0x7E)
        | (c == 0xA)
        | (0xC0 <= c) & (c <= 0x2FF)
        | (0x2010 <= c) & (c <= 0x2027)
        | (0xAC00 <= c) & (c <= 0xD7A3)
}

/// Whether it is printable ASCII, a line feed, a dash or quotation mark, kana, an ideograph or its
/// punctuation, a syllable of Hangul, or a full-width form, of those that stand together.
#[inline(always)]
fn is_of_east_asian_lines(c: u16) -> bool
    ensures { IsTrue result → is_of_low_lines c ≡ true }
{
    (0x20 <= c) & (c <= 0x7E)
        | (c == 0xA)
        | (0x2010 <= c) & (c <= 0x2027)
        | (0x2E00 <= c) & (c <= 0x3029)
        | (0x303E <= c) & (c <= 0x3098)
        | (0x309B <= c) & (c <= 0x3296)
        | (0x329A <= c) & (c <= 0xA66E)
        | (0xAC00 <= c) & (c <= 0xD7A3)
        | (0xFF00 <= c) & (c <= 0xFF9D)
}
