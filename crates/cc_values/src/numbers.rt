//! Reads numbers.
ghost use Rattle.std.specs.Prelude.{◌≡◌, ◌-◌, ◌^◌};
ghost use Rattle.cc_values.specs.Digits.{Spells};
ghost use Rattle.cc_values.specs.Numbers.{within_limit, number_of};
ghost use Rattle.cc_values.specs.Values.{address_in, index_in, length_in};

use crate::digits::{Spelled, read_digits};
use cc_bounds::{ADDRESS_SPACE, Len};
use cc_word::Refusal;

/// Parses an address or an increment: one number of at most 2^64 - 1, of any length.
///
/// Errors, in order: `Syntax` if the string is not a number; `OutOfRange` above the limit.
#[inline(always)]
pub fn read_address(text: &[u8]) -> Result<u64, Refusal>
    ensures { result ≡ address_in text.now }
{
    match read_number(text) {
        Spelled::Number(number) => Ok(number),
        Spelled::Whole | Spelled::Over => Err(Refusal::OutOfRange),
        Spelled::Nothing => Err(Refusal::Syntax),
    }
}

/// Parses the number of a slot or of an object, at most 2^32 - 1.
///
/// Errors, in order: `Syntax` if the string is not a number; `OutOfRange` above the maximum.
#[inline(always)]
pub fn read_index(text: &[u8]) -> Result<u32, Refusal>
    ensures { result ≡ index_in text.now }
{
    match read_number(text) {
        Spelled::Number(number) if number <= u64::from(u32::MAX) => Ok(number as u32),
        Spelled::Number(_) | Spelled::Whole | Spelled::Over => Err(Refusal::OutOfRange),
        Spelled::Nothing => Err(Refusal::Syntax),
    }
}

/// Parses a length: one number of at most 2^64, of any length.
///
/// Errors, in order: `Syntax` if the string is not a number; `OutOfRange` above the limit.
#[inline(always)]
pub fn read_length(text: &[u8]) -> Result<Len, Refusal>
    ensures { result ≡ length_in text.now }
{
    match read_number(text) {
        Spelled::Number(number) => Len::new(u128::from(number)).ok_or(Refusal::OutOfRange),
        Spelled::Whole => Len::new(ADDRESS_SPACE).ok_or(Refusal::OutOfRange),
        Spelled::Over => Err(Refusal::OutOfRange),
        Spelled::Nothing => Err(Refusal::Syntax),
    }
}

/// Parses a number: decimal digits, or `0x` and hexadecimal digits of either case, any number of
/// them, with or without leading zeros, and no sign.
#[inline(never)]
pub fn read_number(text: &[u8]) -> Spelled
    ensures { Spells result (number_of text.now) }
{
    match text {
        [b'0', b'x', digits @ ..] => read_digits(digits, 16),
        _ => read_digits(text, 10),
    }
}
