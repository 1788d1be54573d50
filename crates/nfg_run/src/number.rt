//! One word of the command line is read.
ghost use Rattle.std.specs.Prelude.{◌≡◌, ◌≤◌, ◌<◌, ◌^◌, IsTrue, true, false, MatchOption, length, drop, nat_eq};
ghost use Rattle.std.specs.List.{list_all, starts_with};
ghost use Rattle.std.specs.Char.{is_ascii_digit};
ghost use Rattle.nfg_run.specs.CommandLine.{number_of, if_passes, is_seed as is_a_seed};
ghost use Rattle.nfg_run.specs.CommandLine.{is_worker_count as counts_workers, is_table_size as is_size};
ghost use Rattle.nfg_run.specs.CommandLine.{is_count as is_a_count};

fn has_digits(word: &str) -> bool
    ensures { result ≡ list_all is_ascii_digit word.now }
{
    word.as_bytes().iter().all(|byte| byte.is_ascii_digit())
}

/// The value of decimal digits, where it is below 2^64.
#[tactic(auto, unfolding(crate::specs::CommandLine::number_of))]
fn read_number(word: &str) -> Option<u64>
    ensures { result ≡ number_of word.now }
{
    if word.len() == 0 {
        return None;
    }
    if !has_digits(word) {
        return None;
    }
    match u64::from_str_radix(word, 10) {
        Ok(number) => Some(number),
        Err(_) => None,
    }
}

/// The number of workers that a word is.
pub(crate) fn worker_count(word: &str) -> Option<u32>
    ensures { result ≡ if_passes counts_workers (number_of word.now) }
{
    match read_number(word) {
        Some(number) if is_worker_count(number) => Some(number as u32),
        _ => None,
    }
}

/// The places of a table that a word is.
pub(crate) fn table_size(word: &str) -> Option<u32>
    ensures { result ≡ if_passes is_size (number_of word.now) }
{
    match read_number(word) {
        Some(number) if is_table_size(number) => Some(number as u32),
        _ => None,
    }
}

/// The seed that a word is.
pub(crate) fn read_seed(word: &str) -> Option<u32>
    ensures { result ≡ if_passes is_a_seed (number_of word.now) }
{
    match read_number(word) {
        Some(number) if is_seed(number) => Some(number as u32),
        _ => None,
    }
}

/// The count of spellings that a word is.
pub(crate) fn read_count(word: &str) -> Option<u32>
    ensures { result ≡ if_passes is_a_count (number_of word.now) }
{
    match read_number(word) {
        Some(number) if is_count(number) => Some(number as u32),
        _ => None,
    }
}

fn is_worker_count(number: u64) -> bool
    ensures is { result ≡ counts_workers number }
    ensures within { IsTrue result → number ≤ 64 }
{
    1 <= number && number <= 64
}

fn is_seed(number: u64) -> bool
    ensures is { result ≡ is_a_seed number }
    ensures within { IsTrue result → number < 2 ^ 31 }
{
    number < 1 << 31
}

fn is_count(number: u64) -> bool
    ensures is { result ≡ is_a_count number }
    ensures within { IsTrue result → number ≤ 1048576 }
{
    1 <= number && number <= 1 << 20
}

/// Whether it is a power of two from 2^4 to 2^20.
fn is_table_size(number: u64) -> bool
    ensures is { result ≡ is_size number }
    ensures within { IsTrue result → number ≤ 1048576 }
{
    matches!(
        number,
        16 | 32
            | 64
            | 128
            | 256
            | 512
            | 1024
            | 2048
            | 4096
            | 8192
            | 16_384
            | 32_768
            | 65_536
            | 131_072
            | 262_144
            | 524_288
            | 1_048_576
    )
}
