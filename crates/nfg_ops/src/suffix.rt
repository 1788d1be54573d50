//! The greatest suffix of a needle, and its period.

ghost use Rattle.std.specs.Prelude.{◌≡◌, ◌≢◌, ◌<◌, ◌≤◌, ◌+◌, ◌^◌, true, false, length};
ghost use Rattle.nfg_ops.specs.Cuts.{number_at, IsGreatest, IsScan, next_greatest};
ghost use Rattle.nfg_ops.specs.Precedes.{Precedes};

use nfg_strand::NString;

/// A suffix by its place, and its least period.
#[derive(Clone, Copy)]
pub(crate) struct Suffix {
    pub(crate) place: u64,
    pub(crate) period: u64,
}

/// The greatest suffix so far, and a candidate with which it has the first `offset` graphemes in common.
#[derive(Clone, Copy)]
pub(crate) struct Scan {
    pub(crate) place: u64,
    pub(crate) candidate: u64,
    pub(crate) offset: u64,
}

/// The greatest suffix by the order of the numbers, or by the order turned round. It takes time by the length.
pub(crate) fn greatest_suffix(needle: &NString, is_turned: bool) -> Suffix
    requires { 0 < length needle.now.graphemes }
    ensures { IsGreatest (Precedes is_turned) (number_at needle.now.graphemes) (length needle.now.graphemes) result }
{
    let len = needle.len();
    let mut scan = Scan {
        place: 0,
        candidate: 1,
        offset: 0,
    };
    while scan.candidate + scan.offset < len {
        scan = scanned(needle, scan, is_turned);
    }
    Suffix {
        place: scan.place,
        period: scan.candidate - scan.place,
    }
}

/// The scan after a comparison of one grapheme.
fn scanned(needle: &NString, scan: Scan, is_turned: bool) -> Scan
    requires scan { IsScan (Precedes is_turned) (number_at needle.now.graphemes) (length needle.now.graphemes) scan }
    requires inside { scan.candidate + scan.offset < length needle.now.graphemes }
    requires bounded { length needle.now.graphemes ≤ 2 ^ 40 }
    ensures scan { IsScan (Precedes is_turned) (number_at needle.now.graphemes) (length needle.now.graphemes) result }
    ensures nearer { scan.place + scan.candidate + scan.offset < result.place + result.candidate + result.offset }
{
    let current = needle.get(scan.place + scan.offset);
    let other = needle.get(scan.candidate + scan.offset);
    if current == other {
        return Scan {
            place: scan.place,
            candidate: scan.candidate,
            offset: scan.offset + 1,
        };
    }
    if precedes(other, current, is_turned) {
        return Scan {
            place: scan.place,
            candidate: scan.candidate + scan.offset + 1,
            offset: 0,
        };
    }
    after_greater(scan)
}

/// The scan after the candidate turned out greater: it is the greatest suffix now, and what is known to come again
/// after its period is not compared again.
fn after_greater(scan: Scan) -> Scan
    requires ordered { scan.place < scan.candidate }
    requires bounded { scan.candidate + scan.offset < 2 ^ 40 }
    ensures { result ≡ next_greatest scan }
{
    let period = scan.candidate - scan.place;
    if scan.offset < period {
        return Scan {
            place: scan.candidate,
            candidate: scan.candidate + 1,
            offset: 0,
        };
    }
    Scan {
        place: scan.candidate,
        candidate: scan.candidate + period,
        offset: scan.offset - period,
    }
}

/// Whether the first number comes before the second in the order.
fn precedes(a: i32, b: i32, is_turned: bool) -> bool
    ensures yes { result ≡ true → Precedes is_turned a b }
    ensures no { result ≡ false → a ≢ b → Precedes is_turned b a }
{
    if is_turned { b < a } else { a < b }
}
