//! Code points in hexadecimal.
ghost use Rattle.std.specs.Prelude.{◌≡◌, ◌<◌, ◌≤◌, ◌++◌, ◌∷◌, [], true, OnOk, length, drop, take};
ghost use Rattle.std.specs.Fmt.{digits, digit_glyph};

use nfg_text::ByteList;
use std::alloc::AllocError;

/// The most digits of a number of 32 bits.
const MOST_DIGITS: usize = 8;

/// The most bytes of a number with a separator behind it.
pub(crate) const MOST_BYTES: usize = 9;

/// The digit of a value below 16.
#[inline(always)]
fn digit(value: u32) -> u8
    requires { value < 16 }
    ensures { result ≡ digit_glyph true value }
{
    if value < 10 {
        b'0' + value as u8
    } else {
        b'A' + (value as u8 - 10)
    }
}

/// Puts the digits of a number at the end of the buffer, and answers where they begin.
fn fill(number: u32, buffer: &mut [u8]) -> usize
    requires { length buffer.old ≡ 8 }
    ensures inside { result ≤ 8 }
    ensures len { length buffer.new ≡ 8 }
    ensures digits { drop result buffer.new ≡ digits 16 true number }
{
    let mut start = MOST_DIGITS;
    let mut left = number;
    'filling: while left >= 16 {
        start -= 1;
        buffer[start] = digit(left % 16);
        left /= 16;
    }
    start -= 1;
    buffer[start] = digit(left);
    start
}

/// Puts the digits of a number at the front of the buffer: how many. It takes any number, and is for
/// those of more than four digits.
fn put_long(number: u32, out: &mut [u8]) -> usize
    requires { 9 ≤ length out.old }
    ensures len { result ≤ 8 }
    ensures digits { take result out.new ≡ digits 16 true number }
{
    let mut buffer = [0u8; MOST_DIGITS];
    let start = fill(number, &mut buffer);
    let len = MOST_DIGITS - start;
    out[..len].copy_from_slice(&buffer[start..]);
    len
}

/// Puts the digits of a number at the front of the buffer: how many.
#[inline(always)]
fn put_digits(number: u32, out: &mut [u8]) -> usize
    requires { 9 ≤ length out.old }
    ensures len { result ≤ 8 }
    ensures digits { take result out.new ≡ digits 16 true number }
{
    if number < 0x10 {
        out[0] = digit(number);
        return 1;
    }
    if number < 0x100 {
        out[0] = digit(number / 16);
        out[1] = digit(number % 16);
        return 2;
    }
    if number < 0x1000 {
        out[0] = digit(number / 256);
        out[1] = digit(number / 16 % 16);
        out[2] = digit(number % 16);
        return 3;
    }
    if number < 0x1_0000 {
        out[0] = digit(number / 4096);
        out[1] = digit(number / 256 % 16);
        out[2] = digit(number / 16 % 16);
        out[3] = digit(number % 16);
        return 4;
    }
    put_long(number, out)
}

/// Puts the number in upper-case hexadecimal, and the separator, at the front of the buffer: how many
/// bytes.
#[inline(always)]
pub(crate) fn put_number(number: u32, separator: u8, out: &mut [u8]) -> usize
    requires { 9 ≤ length out.old }
    ensures len { result ≤ 9 }
    ensures bytes { take result out.new ≡ digits 16 true number ++ separator ∷ [] }
{
    let len = put_digits(number, out);
    out[len] = separator;
    len + 1
}

/// Adds the number in upper-case hexadecimal, and the separator.
pub(crate) fn append_number(
    number: u32,
    separator: u8,
    output: &mut ByteList,
) -> Result<(), AllocError>
    ensures { OnOk result (output.new ≡ output.old ++ (digits 16 true number ++ separator ∷ [])) }
{
    let mut buffer = [0u8; MOST_BYTES];
    let len = put_number(number, separator, &mut buffer);
    output.append(&buffer[..len])
}
