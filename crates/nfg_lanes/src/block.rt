//! What the kernels share over one block of lanes.
ghost use Rattle.std.specs.Prelude.{◌≡◌, ℕ, ◌+◌, ◌<◌, ◌≤◌, pos, length, slice_index_or, FitsSigned};
ghost use Rattle.std.specs.Int.{w8, w32};

/// Lanes of a block of 8-bit elements.
pub(crate) const LANES8: usize = 32;

/// Lanes of a block of 32-bit elements.
pub(crate) const LANES32: usize = 16;

// A read tells that an element is in its type's range. The compiled code has no trace of these.
#[inline(always)]
pub(crate) fn read8(a: &[i8], at: usize, lanes: usize)
    requires { at + lanes ≤ length a.now }
    ensures { (k : ℕ) → k < lanes → FitsSigned w8 (slice_index_or a.now (at + k) (pos 0)) }
{
    for k in 0..lanes {
        let _element = a[at + k];
    }
}

#[inline(always)]
pub(crate) fn read32(a: &[i32], at: usize, lanes: usize)
    requires { at + lanes ≤ length a.now }
    ensures { (k : ℕ) → k < lanes → FitsSigned w32 (slice_index_or a.now (at + k) (pos 0)) }
{
    for k in 0..lanes {
        let _element = a[at + k];
    }
}
