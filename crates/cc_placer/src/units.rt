//! Rounding up to a multiple, and the unit and the padded size of an object.
ghost use Rattle.std.specs.Prelude.{◌≡◌, ◌+◌, ◌*◌, ◌%◌, ◌^◌, ◌<◌, ◌≤◌, ℕ};
ghost use Rattle.std.specs.Int.{div_ceil};
ghost use Rattle.cc_placer.specs.Align.{padded_size_for, unit_of};

use cc_bounds::{Align, granule};

/// Returns the smallest multiple of `align` that is at least `n`.
///
/// Requires: `align > 0`; `n <= 2^65`.
pub fn round_up(n: u128, align: u64) -> u128
    requires some { 0 < align }
    requires fits { n ≤ 2 ^ 65 }
    ensures aligned { result % align ≡ 0 }
    ensures from { n ≤ result }
    ensures near { result < n + align }
    ensures value { result ≡ div_ceil n align * align }
    ensures least { (other : ℕ) → n ≤ other → other % align ≡ 0 → result ≤ other }
{
    let align = u128::from(align);
    let end = n + (align - 1);
    end - end % align
}

/// Returns the unit of an object of `size` bytes: the larger of the granule of its size and the alignment. The
/// ends of the object are multiples of it.
///
/// Requires: `size <= 2^64`.
pub fn unit(align: Align, size: u128) -> u64
    requires { size ≤ 2 ^ 64 }
    ensures value { result ≡ unit_of align size }
    ensures some { 0 < result }
{
    granule(size).max(align.bytes())
}

/// Returns the padded size of an object of `size` bytes: `size` rounded up to a multiple of its unit.
///
/// Requires: `size <= 2^64`.
pub fn padded_size(align: Align, size: u128) -> u128
    requires { size ≤ 2 ^ 64 }
    ensures { result ≡ padded_size_for align size }
{
    round_up(size, unit(align, size))
}
