//! The granule of a request, and requests and lengths rounded to it.
ghost use Rattle.std.specs.Prelude.{◌≡◌, ◌+◌, ◌-◌, ◌*◌, ◌^◌, ◌<◌, ◌≤◌};
ghost use Rattle.std.specs.Int.{div_ceil};
ghost use Rattle.cc_bounds.specs.Span.{IsSpan, length_of, from_zero};
ghost use Rattle.cc_bounds.specs.Granule.{granule_count, IsGranule, rounded_to, granule_of, padded_size};

use crate::span::{ADDRESS_SPACE, Span};

/// The smallest length in bytes of a request with a granule of more than 1 byte.
const SHORTEST_COARSE: u128 = 4096;

/// The distance from the first byte to the last of such a request.
const SHORTEST_DISTANCE: u64 = 4095;

/// The maximum number of granules that a request of at least 4,096 bytes may touch: the largest
/// number of ten bits.
const MAX_GRANULES: u64 = 1023;

/// The power of two of the largest granule.
const MAX_POWER: u32 = 55;

/// Returns the mask of the bits below bit `power`.
fn low_bits(power: u32) -> u64
    requires { power ≤ MAX_POWER }
    ensures { result ≡ 2 ^ power - 1 }
{
    (1 << power) - 1
}

/// Returns `high - low`, if `low` is not above `high`.
fn distance(low: u64, high: u64) -> u64
    ensures { low ≤ high → result ≡ high - low }
{
    high.wrapping_sub(low)
}

/// Returns the number, or 4,095 for a smaller one.
fn raised(number: u64) -> u64
    ensures least { 4095 ≤ result }
    ensures same { 4095 ≤ number → result ≡ number }
{
    number.max(SHORTEST_DISTANCE)
}

/// Returns the power of two that a number of at least 4,095 contains at least 512 and less than
/// 1,024 times.
///
/// It is 2, and one more for each bit from bit 12 to the highest that is set in the number.
#[tactic(auto, using(crate::proofs::GranuleLemmas::leading_number))]
fn leading_power(number: u64) -> u32
    requires { 4095 ≤ number }
    ensures fits { result ≤ 54 }
    ensures least { 512 * 2 ^ result ≤ number }
    ensures below { number < 1024 * 2 ^ result }
{
    54 - number.leading_zeros()
}

/// Returns how much larger the power of a request's granule is, if `before` granules lie between the
/// granules of its first and its last byte.
fn growth(before: u64) -> u32
    ensures few { before < 1023 → result ≡ 0 }
    ensures many { 1023 ≤ before → result ≡ 1 }
{
    u32::from(before >= MAX_GRANULES)
}

/// Returns the address of a request's last byte, if it has one.
fn last_byte(request: &Span) -> u64
    requires { IsSpan request.now }
    ensures { request.now.base < request.now.top → request.now.top ≡ result + 1 }
{
    (request.top.wrapping_sub(1) % ADDRESS_SPACE) as u64
}

/// Returns the power of two of the granule of a request of at least 4,096 bytes.
///
/// This is the power for the distance from the first byte to the last, or one more if the request
/// touches more than 1,023 granules of that size. Branch-free. For a shorter request the result is
/// unspecified.
fn coarse_power(request: &Span) -> u32
    requires { IsSpan request.now }
    ensures granule { 4096 ≤ length_of request.now → IsGranule request.now (2 ^ result) }
    ensures coarse { 4096 ≤ length_of request.now → 3 ≤ result }
    ensures fits { result ≤ MAX_POWER }
{
    let first = request.base;
    let last = last_byte(request);
    let power = leading_power(raised(distance(first, last)));
    power + growth(distance(first >> power, last >> power))
}

/// Returns the granule of a request as a power of two: 0 for less than 4,096 bytes, otherwise from
/// 3 to 55.
///
/// Both are computed, so that the compiler chooses without a branch.
pub(crate) fn granule_power(request: &Span) -> u32
    requires { IsSpan request.now }
    ensures granule { IsGranule request.now (2 ^ result) }
    ensures fits { result ≤ MAX_POWER }
    ensures small { length_of request.now < 4096 → result ≡ 0 }
    ensures large { 4096 ≤ length_of request.now → 3 ≤ result }
{
    let len = request.top - u128::from(request.base);
    let power = coarse_power(request);
    if len < SHORTEST_COARSE { 0 } else { power }
}

/// Returns the number rounded up to a multiple of 2^power.
#[tactic(auto, using(crate::proofs::GranuleLemmas::rounded_up_masked))]
fn round_up(number: u128, power: u32) -> u128
    requires number_fits { number ≤ 2 ^ 64 }
    requires power_fits { power ≤ MAX_POWER }
    ensures { result ≡ div_ceil number (2 ^ power) * 2 ^ power }
{
    let low_bits = u128::from(low_bits(power));
    (number + low_bits) & !low_bits
}

/// Returns the request with its base rounded down and its top rounded up to a multiple of 2^power
/// bytes.
pub(crate) fn rounded(request: &Span, power: u32) -> Span
    requires is_span { IsSpan request.now }
    requires fits { power ≤ MAX_POWER }
    ensures { result ≡ rounded_to (2 ^ power) request.now }
{
    Span {
        base: (request.base >> power) << power,
        top: round_up(request.top, power),
    }
}

/// Returns the granule of a length as a power of two: 0 for less than 4,096 bytes, otherwise from 3
/// to 55.
#[tactic(auto, using(crate::proofs::ComputingLemmas::granule_power_of))]
fn length_power(len: u128) -> u32
    requires { len ≤ 2 ^ 64 }
    ensures granule { IsGranule (from_zero len) (2 ^ result) }
    ensures computed { 2 ^ result ≡ granule_of (from_zero len) }
    ensures fits { result ≤ MAX_POWER }
{
    granule_power(&Span { base: 0, top: len })
}

/// Returns the granule of a length, in bytes.
///
/// It is the unit that stores the bounds of that many bytes from address 0: 1 for less than 4,096
/// bytes, otherwise a power of two from 8 to 2^55.
///
/// Requires: `len <= 2^64`.
/// Source: UCAM-CL-TR-987, `CRRL` and `CRAM`; Woodruff et al. 2019.
pub fn granule(len: u128) -> u64
    requires { len ≤ 2 ^ 64 }
    ensures granule { IsGranule (from_zero len) result }
    ensures computed { result ≡ granule_of (from_zero len) }
{
    1 << length_power(len)
}

/// Returns the representable length: the length rounded up to a multiple of its granule, in bytes.
///
/// For the whole address space it is 2^64, and not 0. A request for this many bytes at a multiple
/// of the granule has exact bounds. No exact bounds of at least `len` bytes are shorter.
///
/// Requires: `len <= 2^64`.
/// Instruction: CRRL (CRepresentableLength), which returns 0 if the length rounds to 2^64.
/// Source: UCAM-CL-TR-987.
pub fn round_length(len: u128) -> u128
    requires { len ≤ 2 ^ 64 }
    ensures { result ≡ padded_size len }
{
    round_up(len, length_power(len))
}

/// Returns the representable alignment mask: all ones, except the bits below the granule of the
/// length.
///
/// An address "and" the mask is the address rounded down to a multiple of the granule.
///
/// Requires: `len <= 2^64`.
/// Instruction: CRAM (CRepresentableAlignmentMask).
/// Source: UCAM-CL-TR-987.
pub fn alignment_mask(len: u128) -> u64
    requires { len ≤ 2 ^ 64 }
    ensures { result ≡ 2 ^ 64 - granule_of (from_zero len) }
{
    u64::MAX - (granule(len) - 1)
}
