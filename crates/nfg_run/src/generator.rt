//! A script and two files are generated.
ghost use Rattle.std.specs.Prelude.{◌≡◌, ◌≤◌, ◌<◌, ◌^◌, IfOk, flat_map, length};
ghost use Rattle.nfg_work.specs.Evaluation.{file_limit};
ghost use Rattle.nfg_decode.specs.declared.encoding.Encoding.TheVariants.{Utf8, Utf16};
ghost use Rattle.nfg_decode.specs.Encoding.{encode_code};
ghost use Rattle.nfg_run.specs.Generator.{first_file, second_file, script_text, draw_of, next_number};
ghost use Rattle.nfg_run.specs.Generator.{first_spelling, second_spelling};

use crate::generated_input::Generated;
use nfg_text::ByteList;
use std::alloc::{AllocError, Global};

/// The script that is generated.
const SCRIPT: &str = "load a utf8 a\nload b utf16 b\ntext p 71 307 323\neq a b\nlen a\ncat c a b\n\
len c\nshape c\nrep d a 2\neq c d\nfind c p 0\nrfind c p 18446744073709551615\ncmp a c\n";

/// The mark of big-endian UTF-16.
const MARK: &[u8] = b"\xFE\xFF";

/// The script that joins, repeats, searches and compares two files, and the files: equivalent texts of
/// `count` spellings that the seed draws, of which the first is UTF-8 and the second UTF-16.
pub fn generated(alloc: Global, seed: u32, count: u32) -> Result<Generated, AllocError>
    requires seed { seed < 2 ^ 31 }
    requires count { 1 ≤ count }
    requires at_most { count ≤ 2 ^ 20 }
    ensures script { IfOk result (λ made. made.script ≡ script_text) }
    ensures a { IfOk result (λ made. made.a ≡ first_file seed count) }
    ensures b { IfOk result (λ made. made.b ≡ second_file seed count) }
    ensures a_is_within { IfOk result (λ made. length made.a ≤ file_limit) }
    ensures b_is_within { IfOk result (λ made. length made.b ≤ file_limit) }
{
    let script = ByteList::from_slice(alloc, SCRIPT.as_bytes())?;
    let mut a = ByteList::new(alloc);
    let mut b = ByteList::from_slice(alloc, MARK)?;
    let mut number = seed;
    'drawing: for k in 0..count {
        number = next(number);
        let draw = draw(number);
        a.append(first_bytes(draw))?;
        b.append(second_bytes(draw))?;
    }
    Ok(Generated { script, a, b })
}

/// The number after this one.
fn next(number: u32) -> u32
    requires { number < 2 ^ 31 }
    ensures next { result ≡ next_number number }
    ensures within { result < 2 ^ 31 }
{
    ((1_103_515_245 * u64::from(number) + 12_345) % 2_147_483_648) as u32
}

/// Which of the 16 spellings the number draws.
fn draw(number: u32) -> u32
    ensures draw { result ≡ draw_of number }
    ensures within { result < 16 }
{
    number / 65_536 % 16
}

/// The spelling of a draw in the first file.
fn first_bytes(draw: u32) -> &'static [u8]
    requires { draw < 16 }
    ensures bytes { result.now ≡ flat_map (encode_code Utf8) (first_spelling draw) }
    ensures within { length result.now ≤ 18 }
{
    match draw {
        0 => b"abc ",
        1 => b"\xC3\xA9",
        2 => b"\xEA\xB0\x81",
        3 => b"\r\n",
        4 => b"\xF0\x9F\x91\xA8\xE2\x80\x8D\xF0\x9F\x91\xA9\xE2\x80\x8D\xF0\x9F\x91\xA7",
        5 => b"\xF0\x9F\x87\xA6\xF0\x9F\x87\xA7",
        6 => b"\xF0\x9F\x87\xA6",
        7 => b"\xE0\xA4\x95\xE0\xA5\x8D\xE0\xA4\xB7\xE0\xA4\xBF",
        8 => b"\xE0\xA5\x98",
        9 => b"q\xCC\xA3\xCC\x87",
        10 => b"\xE2\x86\x94\xCC\xB8",
        11 => b"\xCC\x81",
        12 => b"\xE1\x84\x80",
        13 => b"\xE1\x85\xA1",
        14 => b"\xE0\xA4\xB9\xE0\xA4\xBF",
        _ => b". ",
    }
}

/// The spelling of a draw in the second file.
fn second_bytes(draw: u32) -> &'static [u8]
    requires { draw < 16 }
    ensures bytes { result.now ≡ flat_map (encode_code Utf16) (second_spelling draw) }
    ensures within { length result.now ≤ 18 }
{
    match draw {
        0 => b"\x00a\x00b\x00c\x00 ",
        1 => b"\x00e\x03\x01",
        2 => b"\x11\x00\x11a\x11\xA8",
        3 => b"\x00\r\x00\n",
        4 => b"\xD8=\xDCh \r\xD8=\xDCi \r\xD8=\xDCg",
        5 => b"\xD8<\xDD\xE6\xD8<\xDD\xE7",
        6 => b"\xD8<\xDD\xE6",
        7 => b"\x09\x15\x09M\x097\x09?",
        8 => b"\x09\x15\x09<",
        9 => b"\x00q\x03\x07\x03#",
        10 => b"!\xAE",
        11 => b"\x03\x01",
        12 => b"\x11\x00",
        13 => b"\x11a",
        14 => b"\x099\x09?",
        _ => b"\x00.\x00 ",
    }
}
