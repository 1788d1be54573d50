//! Plain loops, element by element, each with the equation of the kernel that it stands beside.
ghost use Rattle.std.specs.Prelude.{◌≡◌, List, ◌++◌, length, take, drop, min, IfOk};
ghost use Rattle.std.specs.Char.{is_ascii};
ghost use Rattle.std.specs.List.{common_prefix_len, list_all, position_or_len, prefix_len};
ghost use Rattle.std.specs.Ordering.{int_eq};
ghost use Rattle.nfg_lanes.specs.Lanes.{common_suffix_len, is_narrow_grapheme};

use std::alloc::{AllocError, Global};

/// How many bytes at the front are ASCII, below 128.
pub fn ascii_run(bytes: &[u8]) -> usize
    ensures { result ≡ prefix_len is_ascii bytes.now }
{
    for at in 0..bytes.len() {
        if bytes[at] >= 128 {
            return at;
        }
    }
    bytes.len()
}

/// The least index that holds `x`, or the length.
pub fn first_equal8(a: &[i8], x: i8) -> usize
    ensures { result ≡ position_or_len (λ y. int_eq y x) a.now }
{
    for at in 0..a.len() {
        if a[at] == x {
            return at;
        }
    }
    a.len()
}

/// The least index that holds `x`, or the length.
pub fn first_equal32(a: &[i32], x: i32) -> usize
    ensures { result ≡ position_or_len (λ y. int_eq y x) a.now }
{
    for at in 0..a.len() {
        if a[at] == x {
            return at;
        }
    }
    a.len()
}

/// How many elements at the front the two have in common.
pub fn common_front8(a: &[i8], b: &[i8]) -> usize
    ensures { result ≡ common_prefix_len int_eq a.now b.now }
{
    let len = a.len().min(b.len());
    for at in 0..len {
        if a[at] != b[at] {
            return at;
        }
    }
    len
}

/// How many elements at the front the two have in common.
pub fn common_front32(a: &[i32], b: &[i32]) -> usize
    ensures { result ≡ common_prefix_len int_eq a.now b.now }
{
    let len = a.len().min(b.len());
    for at in 0..len {
        if a[at] != b[at] {
            return at;
        }
    }
    len
}

/// The same of elements whose widths differ.
pub fn common_front_mixed(a: &[i8], b: &[i32]) -> usize
    ensures { result ≡ common_prefix_len int_eq a.now b.now }
{
    let len = a.len().min(b.len());
    for at in 0..len {
        if a[at] as i32 != b[at] {
            return at;
        }
    }
    len
}

/// How many elements at the back the two have in common.
pub fn common_back32(a: &[i32], b: &[i32]) -> usize
    ensures { result ≡ common_suffix_len int_eq a.now b.now }
{
    let len = a.len().min(b.len());
    for count in 0..len {
        if a[a.len() - 1 - count] != b[b.len() - 1 - count] {
            return count;
        }
    }
    len
}

/// Whether each element is 0 to 127 or -1.
pub fn narrow_fits(a: &[i32]) -> bool
    ensures { result ≡ list_all is_narrow_grapheme a.now }
{
    for &x in a {
        if x < -1 || x > 127 {
            return false;
        }
    }
    true
}

/// Each byte as a number of 32 bits, in a list of its own.
pub fn widened(alloc: Global, bytes: &[u8]) -> Result<Vec<u32>, AllocError>
    ensures { IfOk result (λ codes. codes.items ≡ bytes.now) }
{
    let mut codes = vec![in alloc; 0u32; bytes.len()]?;
    widen(bytes, codes.as_mut_slice());
    Ok(codes)
}

/// The same piece by piece, in one list after another at one place. Answers how many they are.
pub fn widened_by_pieces(alloc: Global, bytes: &[u8], len: usize) -> Result<usize, AllocError>
    ensures { IfOk result (λ count. count ≡ length bytes.now) }
{
    let room = len.max(1);
    let mut codes = vec![in alloc; 0u32; room]?;
    let mut count: usize = 0;
    for piece in bytes.chunks(room) {
        count = count.wrapping_add(widen(piece, codes.as_mut_slice()));
    }
    Ok(count)
}

/// Puts each byte into the list, as long as it has room, and leaves the rest of the list. Answers how
/// many there are.
#[inline(never)]
fn widen(bytes: &[u8], codes: &mut [u32]) -> usize
    ensures count { result ≡ min (length bytes.now) (length codes.old) }
    ensures codes { codes.new ≡ take result bytes.now ++ drop result codes.old }
{
    let len = bytes.len().min(codes.len());
    for at in 0..len {
        codes[at] = u32::from(bytes[at]);
    }
    len
}
