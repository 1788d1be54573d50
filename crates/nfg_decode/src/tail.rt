//! The bytes of an unfinished sequence.

ghost use Rattle.std.specs.Prelude.{◌≡◌, ◌+◌, ◌≤◌, min, ◌++◌, length, take, drop};
ghost use Rattle.nfg_decode.specs.Tail.{bytes_of};

/// At most three bytes, which are held back until more come.
#[derive(Clone, Copy, Debug)]
pub(crate) enum Tail {
    Empty,
    One(u8),
    Two(u8, u8),
    Three(u8, u8, u8),
}

/// The bytes as a tail.
pub(crate) fn tail_of(bytes: &[u8]) -> Tail
    requires { length bytes.now ≤ 3 }
    ensures { bytes_of result ≡ bytes.now }
{
    match bytes {
        [] => Tail::Empty,
        [x] => Tail::One(*x),
        [x, y] => Tail::Two(*x, *y),
        [x, y, z] => Tail::Three(*x, *y, *z),
        [_, _, _, _, ..] => unreachable!(),
    }
}

/// How many bytes are held.
pub(crate) fn tail_len(tail: Tail) -> usize
    ensures { result ≡ length (bytes_of tail) }
{
    match tail {
        Tail::Empty => 0,
        Tail::One(_) => 1,
        Tail::Two(_, _) => 2,
        Tail::Three(_, _, _) => 3,
    }
}

/// Puts the bytes at the front of a buffer, which keeps the rest.
fn put(tail: Tail, seam: &mut [u8; 4])
    ensures { seam.new ≡ bytes_of tail ++ drop (length (bytes_of tail)) seam.old }
{
    match tail {
        Tail::Empty => {}
        Tail::One(x) => seam[0] = x,
        Tail::Two(x, y) => {
            seam[0] = x;
            seam[1] = y;
        }
        Tail::Three(x, y, z) => {
            seam[0] = x;
            seam[1] = y;
            seam[2] = z;
        }
    }
}

/// Puts the held bytes and those that follow into the buffer, until it is full or they end, and
/// answers how many they are.
pub(crate) fn fill_seam(tail: Tail, piece: &[u8], seam: &mut [u8; 4]) -> usize
    ensures within { result ≤ 4 }
    ensures bytes { take result seam.new ≡ take 4 (bytes_of tail ++ piece.now) }
    ensures len { result ≡ min 4 (length (bytes_of tail) + length piece.now) }
{
    let held = tail_len(tail);
    let len = piece.len().min(4 - held);
    put(tail, seam);
    seam[held..held + len].copy_from_slice(&piece[..len]);
    held + len
}
