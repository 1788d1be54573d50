//! One word of a line is read.
ghost use Rattle.std.specs.Prelude.{◌≡◌};
ghost use Rattle.std.specs.List.{list_all};
ghost use Rattle.std.specs.Char.{is_ascii_digit, is_ascii_hexdigit};
ghost use Rattle.nfg_script.specs.Words.{number_of, encoding_of, code_point_of};
ghost use Rattle.nfg_script.specs.Words.{is_name as is_name_of, is_name_byte as is_byte_of_name};

use crate::Reason;
use nfg_decode::Encoding;

/// Whether a word is 1 to 64 ASCII letters, digits and `_`.
#[tactic(auto, unfolding(crate::specs::Words::is_name))]
pub(crate) fn is_name(word: &str) -> bool
    ensures { result ≡ is_name_of word.now }
{
    if word.len() == 0 {
        return false;
    }
    if word.len() > 64 {
        return false;
    }
    has_name_bytes(word)
}

fn has_name_bytes(word: &str) -> bool
    ensures { result ≡ list_all is_byte_of_name word.now }
{
    word.as_bytes().iter().all(|byte| is_name_byte(*byte))
}

fn is_name_byte(byte: u8) -> bool
    ensures { result ≡ is_byte_of_name byte }
{
    byte.is_ascii_alphanumeric() || byte == b'_'
}

/// The encoding that a word names.
#[tactic(auto, unfolding(crate::specs::Words::encoding_of))]
pub(crate) fn read_encoding(word: &str) -> Result<Encoding, Reason>
    ensures { result ≡ encoding_of word.now }
{
    match word {
        "utf8" => Ok(Encoding::Utf8),
        "utf16" => Ok(Encoding::Utf16),
        "utf16le" => Ok(Encoding::Utf16Le),
        "utf16be" => Ok(Encoding::Utf16Be),
        "latin1" => Ok(Encoding::Latin1),
        _ => Err(Reason::BadEncoding),
    }
}

fn has_digits(word: &str) -> bool
    ensures { result ≡ list_all is_ascii_digit word.now }
{
    word.as_bytes().iter().all(|byte| byte.is_ascii_digit())
}

fn has_hexadecimal_digits(word: &str) -> bool
    ensures { result ≡ list_all is_ascii_hexdigit word.now }
{
    word.as_bytes().iter().all(|byte| byte.is_ascii_hexdigit())
}

/// The value of 1 to 20 decimal digits, where it is below 2^64.
#[tactic(auto, unfolding(crate::specs::Words::number_of))]
pub(crate) fn read_number(word: &str) -> Result<u64, Reason>
    ensures { result ≡ number_of word.now }
{
    if word.len() == 0 {
        return Err(Reason::BadNumber);
    }
    if word.len() > 20 {
        return Err(Reason::BadNumber);
    }
    if !has_digits(word) {
        return Err(Reason::BadNumber);
    }
    match u64::from_str_radix(word, 10) {
        Ok(number) => Ok(number),
        Err(_) => Err(Reason::BadNumber),
    }
}

/// The scalar value that 1 to 6 hexadecimal digits spell.
#[tactic(auto, unfolding(crate::specs::Words::code_point_of))]
pub(crate) fn read_code_point(word: &str) -> Result<u32, Reason>
    ensures { result ≡ code_point_of word.now }
{
    if word.len() == 0 {
        return Err(Reason::BadCodePoint);
    }
    if word.len() > 6 {
        return Err(Reason::BadCodePoint);
    }
    if !has_hexadecimal_digits(word) {
        return Err(Reason::BadCodePoint);
    }
    match u32::from_str_radix(word, 16) {
        Ok(number) => match char::from_u32(number) {
            Some(code) => Ok(code as u32),
            None => Err(Reason::BadCodePoint),
        },
        Err(_) => Err(Reason::BadCodePoint),
    }
}
