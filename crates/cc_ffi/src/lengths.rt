//! Lengths: the granule, the representable length and the alignment mask.
ghost use Rattle.std.specs.Prelude.{◌≡◌, ◌-◌, ◌^◌, ◌<◌, ◌≤◌};
ghost use Rattle.cc_ffi.specs.Numbers.{number_of_halves, number_in};
ghost use Rattle.cc_bounds.specs.Span.{from_zero};
ghost use Rattle.cc_bounds.specs.Granule.{IsGranule, granule_of, padded_size};

use crate::halves::{halves, number};
use crate::structs::Halves;
use cc_bounds::ADDRESS_SPACE;

/// Returns the granule of a length, in bytes: 1 below 4,096 bytes, and otherwise a power of two
/// from 8 to 2^55. Returns 0 for a length above 2^64.
#[unsafe(no_mangle)]
pub extern "C" fn cheri_cap_granule(length_high: u64, length_low: u64) -> u64
    ensures granule { number_of_halves length_high length_low ≤ 2 ^ 64
        → IsGranule (from_zero (number_of_halves length_high length_low)) result }
    ensures too_long { 2 ^ 64 < number_of_halves length_high length_low → result ≡ 0 }
{
    let length = number(length_high, length_low);
    if length > ADDRESS_SPACE {
        return 0;
    }
    cc_bounds::granule(length)
}

/// Returns the representable length: the length rounded up to a multiple of its granule. Returns
/// all ones for a length above 2^64.
///
/// Instruction: CRRL.
#[unsafe(no_mangle)]
pub extern "C" fn cheri_cap_round_length(length_high: u64, length_low: u64) -> Halves
    ensures rounded { number_of_halves length_high length_low ≤ 2 ^ 64
        → number_in result ≡ padded_size (number_of_halves length_high length_low) }
    ensures too_long { 2 ^ 64 < number_of_halves length_high length_low → number_in result ≡ 2 ^ 128 - 1 }
{
    let length = number(length_high, length_low);
    if length > ADDRESS_SPACE {
        return halves(u128::MAX);
    }
    halves(cc_bounds::round_length(length))
}

/// Returns the representable alignment mask of a length: all ones, except the bits below its
/// granule. Returns 0 for a length above 2^64.
///
/// Instruction: CRAM.
#[unsafe(no_mangle)]
pub extern "C" fn cheri_cap_alignment_mask(length_high: u64, length_low: u64) -> u64
    ensures mask { number_of_halves length_high length_low ≤ 2 ^ 64
        → result ≡ 2 ^ 64 - granule_of (from_zero (number_of_halves length_high length_low)) }
    ensures too_long { 2 ^ 64 < number_of_halves length_high length_low → result ≡ 0 }
{
    let length = number(length_high, length_low);
    if length > ADDRESS_SPACE {
        return 0;
    }
    cc_bounds::alignment_mask(length)
}
