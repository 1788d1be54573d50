//! The bytes of one code point.

ghost use Rattle.std.specs.Prelude.{◌≡◌, ◌<◌, ◌≤◌, true, [], ◌∷◌, length, take, encode_utf8, flat_map};
ghost use Rattle.std.specs.Char.Escape.{encode_utf16};
ghost use Rattle.nfg_decode.specs.declared.utf16.ByteOrder.TheVariants.{Little, Big};
ghost use Rattle.nfg_decode.specs.Encoding.{encode_code, has_code};
ghost use Rattle.nfg_decode.specs.Utf16.{unit_bytes};

use nfg_decode::Encoding;

/// Puts the bytes of a code point at the front of the buffer, and answers how many they are.
#[inline(always)]
fn put_utf8(code: u32, out: &mut [u8]) -> usize
    requires code { code < 0x11_0000 }
    requires room { 4 ≤ length out.old }
    ensures len { result ≤ 4 }
    ensures bytes { take result out.new ≡ encode_utf8 code }
{
    if code < 0x80 {
        out[0] = code as u8;
        return 1;
    }
    if code < 0x800 {
        out[0] = (192 + code / 64) as u8;
        out[1] = (128 + code % 64) as u8;
        return 2;
    }
    if code < 0x1_0000 {
        out[0] = (224 + code / 4096) as u8;
        out[1] = (128 + code / 64 % 64) as u8;
        out[2] = (128 + code % 64) as u8;
        return 3;
    }
    out[0] = (240 + code / 262144) as u8;
    out[1] = (128 + code / 4096 % 64) as u8;
    out[2] = (128 + code / 64 % 64) as u8;
    out[3] = (128 + code % 64) as u8;
    4
}

/// The same, high byte first.
#[inline(always)]
fn put_utf16_big(code: u32, out: &mut [u8]) -> usize
    requires code { code < 0x11_0000 }
    requires room { 4 ≤ length out.old }
    ensures len { result ≤ 4 }
    ensures bytes { take result out.new ≡ flat_map (unit_bytes Big) (encode_utf16 code) }
{
    if code < 0x1_0000 {
        out[0] = (code / 256) as u8;
        out[1] = (code % 256) as u8;
        return 2;
    }
    let high = 0xD800 + (code - 0x1_0000) / 0x400;
    let low = 0xDC00 + (code - 0x1_0000) % 0x400;
    out[0] = (high / 256) as u8;
    out[1] = (high % 256) as u8;
    out[2] = (low / 256) as u8;
    out[3] = (low % 256) as u8;
    4
}

/// The same, low byte first.
#[inline(always)]
fn put_utf16_little(code: u32, out: &mut [u8]) -> usize
    requires code { code < 0x11_0000 }
    requires room { 4 ≤ length out.old }
    ensures len { result ≤ 4 }
    ensures bytes { take result out.new ≡ flat_map (unit_bytes Little) (encode_utf16 code) }
{
    if code < 0x1_0000 {
        out[0] = (code % 256) as u8;
        out[1] = (code / 256) as u8;
        return 2;
    }
    let high = 0xD800 + (code - 0x1_0000) / 0x400;
    let low = 0xDC00 + (code - 0x1_0000) % 0x400;
    out[0] = (high % 256) as u8;
    out[1] = (high / 256) as u8;
    out[2] = (low % 256) as u8;
    out[3] = (low / 256) as u8;
    4
}

/// A byte alone.
#[inline(always)]
fn put_latin1(code: u32, out: &mut [u8]) -> usize
    requires code { code < 256 }
    requires room { 4 ≤ length out.old }
    ensures len { result ≤ 4 }
    ensures bytes { take result out.new ≡ code ∷ [] }
{
    out[0] = code as u8;
    1
}

/// Puts the bytes of a code point at the front of the buffer, and answers how many they are.
#[inline(always)]
pub(crate) fn put_code(e: Encoding, code: u32, out: &mut [u8]) -> usize
    requires code { code < 0x11_0000 }
    requires had { has_code e code ≡ true }
    requires room { 4 ≤ length out.old }
    ensures len { result ≤ 4 }
    ensures bytes { take result out.new ≡ encode_code e code }
{
    match e {
        Encoding::Utf8 => put_utf8(code, out),
        Encoding::Utf16 | Encoding::Utf16Be => put_utf16_big(code, out),
        Encoding::Utf16Le => put_utf16_little(code, out),
        Encoding::Latin1 => put_latin1(code, out),
    }
}
