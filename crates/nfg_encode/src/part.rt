//! The bytes of a part of a text, in a buffer.

ghost use Rattle.std.specs.Prelude.{◌≡◌, ◌*◌, ◌<◌, ◌≤◌, All, length, take, flat_map};
ghost use Rattle.nfg_decode.specs.declared.utf16.ByteOrder.TheVariants.{Little, Big};
ghost use Rattle.nfg_decode.specs.Encoding.{encode_code};
ghost use Rattle.nfg_decode.specs.Utf16.{unit_bytes};
ghost use Rattle.nfg_encode.specs.Refusal.{AreEncodable};

use crate::code::put_code;
use nfg_decode::Encoding;

/// The greatest of the code points, or 0. No branch stands in the loop.
fn greatest(codes: &[u32]) -> u32
    ensures { All (λ c. c ≤ result) codes.now }
{
    let mut greatest = 0;
    for code in codes {
        greatest = greatest.max(*code);
    }
    greatest
}

/// Puts each code point into one byte, and answers how many they are.
fn fill_bytes(codes: &[u32], out: &mut [u8]) -> usize
    requires small { All (λ c. c < 256) codes.now }
    requires room { length codes.now ≤ length out.old }
    ensures len { result ≤ length out.new }
    ensures bytes { take result out.new ≡ codes.now }
{
    'filling: for k in 0..codes.len() {
        out[k] = codes[k] as u8;
    }
    codes.len()
}

/// Puts each code point into two bytes, high byte first, and answers how many bytes they are.
fn fill_units_big(codes: &[u32], out: &mut [u8]) -> usize
    requires small { All (λ c. c < 0x1_0000) codes.now }
    requires room { 4 * length codes.now ≤ length out.old }
    ensures len { result ≤ length out.new }
    ensures bytes { take result out.new ≡ flat_map (unit_bytes Big) codes.now }
{
    'filling: for k in 0..codes.len() {
        out[2 * k] = (codes[k] / 256) as u8;
        out[2 * k + 1] = (codes[k] % 256) as u8;
    }
    2 * codes.len()
}

/// The same, low byte first.
fn fill_units_little(codes: &[u32], out: &mut [u8]) -> usize
    requires small { All (λ c. c < 0x1_0000) codes.now }
    requires room { 4 * length codes.now ≤ length out.old }
    ensures len { result ≤ length out.new }
    ensures bytes { take result out.new ≡ flat_map (unit_bytes Little) codes.now }
{
    'filling: for k in 0..codes.len() {
        out[2 * k] = (codes[k] % 256) as u8;
        out[2 * k + 1] = (codes[k] / 256) as u8;
    }
    2 * codes.len()
}

/// Puts the bytes of one code point after the other into the buffer, and answers how many they are.
fn fill_each(e: Encoding, codes: &[u32], out: &mut [u8]) -> usize
    requires codes { AreEncodable e codes.now }
    requires room { 4 * length codes.now ≤ length out.old }
    ensures len { result ≤ length out.new }
    ensures bytes { take result out.new ≡ flat_map (encode_code e) codes.now }
{
    let mut at = 0;
    for code in codes {
        at += put_code(e, *code, &mut out[at..]);
    }
    at
}

/// Puts the bytes of the code points into the buffer, and answers how many they are. Where all of
/// them have as many bytes, a loop without a branch copies them.
pub(crate) fn fill(e: Encoding, codes: &[u32], out: &mut [u8]) -> usize
    requires codes { AreEncodable e codes.now }
    requires room { 4 * length codes.now ≤ length out.old }
    ensures len { result ≤ length out.new }
    ensures bytes { take result out.new ≡ flat_map (encode_code e) codes.now }
{
    let greatest = greatest(codes);
    match e {
        Encoding::Latin1 => return fill_bytes(codes, out),
        Encoding::Utf8 => {
            if greatest < 0x80 {
                return fill_bytes(codes, out);
            }
        }
        Encoding::Utf16 | Encoding::Utf16Be => {
            if greatest < 0x1_0000 {
                return fill_units_big(codes, out);
            }
        }
        Encoding::Utf16Le => {
            if greatest < 0x1_0000 {
                return fill_units_little(codes, out);
            }
        }
    }
    fill_each(e, codes, out)
}
