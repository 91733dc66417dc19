//! Numbers of 128 bits from halves, and halves from numbers.
ghost use Rattle.std.specs.Prelude.{◌≡◌};
ghost use Rattle.cc_ffi.specs.Numbers.{number_of_halves, number_in};

use crate::structs::Halves;

/// The bits of the lower half of a number.
const LOWER_HALF: u128 = 0xffff_ffff_ffff_ffff;

/// Returns the number of two halves.
pub(crate) fn number(high: u64, low: u64) -> u128
    ensures { result ≡ number_of_halves high low }
{
    (u128::from(high) << 64) + u128::from(low)
}

/// Returns the upper half of a number, and the lower.
pub(crate) fn halves(number: u128) -> Halves
    ensures { number_in result ≡ number }
{
    Halves {
        high: (number >> 64) as u64,
        low: (number & LOWER_HALF) as u64,
    }
}
