//! Digits, and the numbers that they parse as.
ghost use Rattle.std.specs.Prelude.{◌≡◌, ◌⊎◌, ◌↔◌, ◌+◌, ◌*◌, ◌%◌, ◌<◌, ◌≤◌, ◌^◌, length, min, take, false, ℕ};
ghost use Rattle.std.specs.Prelude.{Option, Some, SomeIff, IsSome, IsTrue};
ghost use Rattle.std.specs.Char.{digit_value};
ghost use Rattle.cc_values.specs.Numbers.{numeral_of, capped};
ghost use Rattle.cc_values.specs.Digits.{number_further, Spells};

use cc_word::read_quarter;

/// The number of addresses, one more than the greatest.
const ADDRESS_SPACE: u128 = 1 << 64;

/// A number above every limit. Numbers of at least this value are read as this one.
const OVER_ALL_LIMITS: u128 = 1 << 65;

/// The value of each byte as a digit or a letter, of either case, or 36 if it is neither.
#[rattlefmt::skip]
const DIGIT_VALUES: [u8; 256] = [
    36, 36, 36, 36, 36, 36, 36, 36, 36, 36, 36, 36, 36, 36, 36, 36,
    36, 36, 36, 36, 36, 36, 36, 36, 36, 36, 36, 36, 36, 36, 36, 36,
    36, 36, 36, 36, 36, 36, 36, 36, 36, 36, 36, 36, 36, 36, 36, 36,
    0, 1, 2, 3, 4, 5, 6, 7, 8, 9, 36, 36, 36, 36, 36, 36,
    36, 10, 11, 12, 13, 14, 15, 16, 17, 18, 19, 20, 21, 22, 23, 24,
    25, 26, 27, 28, 29, 30, 31, 32, 33, 34, 35, 36, 36, 36, 36, 36,
    36, 10, 11, 12, 13, 14, 15, 16, 17, 18, 19, 20, 21, 22, 23, 24,
    25, 26, 27, 28, 29, 30, 31, 32, 33, 34, 35, 36, 36, 36, 36, 36,
    36, 36, 36, 36, 36, 36, 36, 36, 36, 36, 36, 36, 36, 36, 36, 36,
    36, 36, 36, 36, 36, 36, 36, 36, 36, 36, 36, 36, 36, 36, 36, 36,
    36, 36, 36, 36, 36, 36, 36, 36, 36, 36, 36, 36, 36, 36, 36, 36,
    36, 36, 36, 36, 36, 36, 36, 36, 36, 36, 36, 36, 36, 36, 36, 36,
    36, 36, 36, 36, 36, 36, 36, 36, 36, 36, 36, 36, 36, 36, 36, 36,
    36, 36, 36, 36, 36, 36, 36, 36, 36, 36, 36, 36, 36, 36, 36, 36,
    36, 36, 36, 36, 36, 36, 36, 36, 36, 36, 36, 36, 36, 36, 36, 36,
    36, 36, 36, 36, 36, 36, 36, 36, 36, 36, 36, 36, 36, 36, 36, 36,
];

/// The number that a string parses as, as far as the limits of values need it.
#[derive(Clone, Copy)]
pub enum Spelled {
    /// This number.
    Number(u64),
    /// The number 2^64.
    Whole,
    /// A number above 2^64.
    Over,
    /// The string is not a number.
    Nothing,
}

/// Returns the number that digits parse as.
///
/// Requires: `radix` is 10 or 16.
#[inline(always)]
pub fn read_digits(digits: &[u8], radix: u8) -> Spelled
    requires radix { (radix ≡ 10) ⊎ (radix ≡ 16) }
    ensures { Spells result (numeral_of radix digits.now) }
{
    if !are_few(digits, radix) {
        return read_many(digits, radix);
    }
    if digits.is_empty() {
        return Spelled::Nothing;
    }
    match read_short(digits, radix) {
        Some(number) => Spelled::Number(number),
        None => Spelled::Nothing,
    }
}

/// Returns the number that at least 16 digits parse as.
#[cold]
#[inline(never)]
fn read_many(digits: &[u8], radix: u8) -> Spelled
    requires radix { (radix ≡ 10) ⊎ (radix ≡ 16) }
    requires many { 16 ≤ length digits.now }
    ensures { Spells result (numeral_of radix digits.now) }
{
    spelled_by(read_long(digits, radix))
}

/// Returns the number of a numeral that was read up to [`OVER_ALL_LIMITS`].
fn spelled_by(number: Option<u128>) -> Spelled
    ensures { (spelled : Option ℕ) → number ≡ capped (2 ^ 65) spelled → Spells result spelled }
{
    match number {
        Some(number) if number < ADDRESS_SPACE => Spelled::Number(number as u64),
        Some(number) if number > ADDRESS_SPACE => Spelled::Over,
        Some(_) => Spelled::Whole,
        None => Spelled::Nothing,
    }
}

/// Returns whether there are so few digits that their number fits 64 bits, whatever they are.
#[inline(always)]
#[tactic(auto, using(crate::proofs::EightLemmas::sixteen_fit, crate::proofs::EightLemmas::nineteen_fit))]
fn are_few(digits: &[u8], radix: u8) -> bool
    requires radix { (radix ≡ 10) ⊎ (radix ≡ 16) }
    ensures few { IsTrue result → radix ^ length digits.now ≤ 2 ^ 64 }
    ensures many { result ≡ false → 16 ≤ length digits.now }
{
    if radix == 16 {
        digits.len() <= 16
    } else {
        digits.len() <= 19
    }
}

/// Returns the number of digits so few that it fits 64 bits whatever they are. The first of them
/// are read one by one, so that a multiple of eight is left.
#[inline(always)]
fn read_short(digits: &[u8], radix: u8) -> Option<u64>
    requires radix { (radix ≡ 10) ⊎ (radix ≡ 16) }
    requires some { 0 < length digits.now }
    requires fits { radix ^ length digits.now ≤ 2 ^ 64 }
    ensures { result ≡ numeral_of radix digits.now }
{
    let at = digits.len() % 8;
    match read_first(&digits[..at], radix) {
        Some(first) => read_eights(first, &digits[at..], radix),
        None => None,
    }
}

/// Returns the number of at least 16 digits, or [`OVER_ALL_LIMITS`] if it is above that.
fn read_long(digits: &[u8], radix: u8) -> Option<u128>
    requires radix { (radix ≡ 10) ⊎ (radix ≡ 16) }
    requires long { 16 ≤ length digits.now }
    ensures { result ≡ capped (2 ^ 65) (numeral_of radix digits.now) }
{
    match read_eights(0, &digits[..16], radix) {
        Some(first) => read_behind(first, digits, radix),
        None => None,
    }
}

/// Returns the number of at least 16 digits, or [`OVER_ALL_LIMITS`] if it is above that. `first` is
/// the number of the first sixteen.
#[inline(always)]
fn read_behind(first: u64, digits: &[u8], radix: u8) -> Option<u128>
    requires radix { (radix ≡ 10) ⊎ (radix ≡ 16) }
    requires long { 16 ≤ length digits.now }
    requires known { Some first ≡ number_further radix 0 (take 16 digits.now) }
    ensures { result ≡ capped (2 ^ 65) (numeral_of radix digits.now) }
{
    let mut number = u128::from(first);
    let mut at = 16;
    'digits: while at < digits.len() {
        let digit = value_of_digit(digits[at], radix)?;
        number = with_digit(number, radix, digit);
        at += 1;
    }
    Some(number)
}

/// Returns the number with one more digit at its end, or [`OVER_ALL_LIMITS`] if it is above that.
fn with_digit(number: u128, radix: u8, digit: u8) -> u128
    requires number { number ≤ 2 ^ 65 }
    requires radix { radix ≤ 16 }
    requires digit { digit < 16 }
    ensures { result ≡ min (number * radix + digit) (2 ^ 65) }
{
    (number * u128::from(radix) + u128::from(digit)).min(OVER_ALL_LIMITS)
}

/// Returns the number of up to seven digits, which is 0 if there are none.
#[inline(always)]
fn read_first(digits: &[u8], radix: u8) -> Option<u64>
    requires radix { (radix ≡ 10) ⊎ (radix ≡ 16) }
    requires few { length digits.now < 8 }
    ensures { result ≡ number_further radix 0 digits.now }
{
    let mut number = 0;
    for byte in digits {
        let digit = value_in(*byte, radix)?;
        number = number * u64::from(radix) + u64::from(digit);
    }
    Some(number)
}

/// Returns the number of the digits of `first` and these digits after them, which are read eight at
/// a time.
#[inline(always)]
fn read_eights(first: u64, digits: &[u8], radix: u8) -> Option<u64>
    requires radix { (radix ≡ 10) ⊎ (radix ≡ 16) }
    requires eights { length digits.now % 8 ≡ 0 }
    requires fits { (first + 1) * radix ^ length digits.now ≤ 2 ^ 64 }
    ensures { result ≡ number_further radix first digits.now }
{
    let mut number = first;
    let mut rest = digits;
    'eights: while let Some((eight, after)) = rest.split_first_chunk::<8>() {
        number = number * eighth_power(radix) + u64::from(read_eight(eight, radix)?);
        rest = after;
    }
    Some(number)
}

/// Returns the factor of a digit that eight digits follow.
#[inline(always)]
fn eighth_power(radix: u8) -> u64
    requires radix { (radix ≡ 10) ⊎ (radix ≡ 16) }
    ensures value { result ≡ radix ^ 8 }
    ensures fits { result ≤ 2 ^ 32 }
{
    if radix == 16 { 1 << 32 } else { 100_000_000 }
}

#[inline(always)]
fn read_eight(digits: &[u8; 8], radix: u8) -> Option<u32>
    requires radix { (radix ≡ 10) ⊎ (radix ≡ 16) }
    ensures { result ≡ number_further radix 0 digits.now }
{
    if radix == 16 {
        read_quarter(digits)
    } else {
        read_eight_decimal(digits)
    }
}

/// Returns the number of eight decimal digits.
///
/// No digit depends on another, so that the compiler takes all in one vector.
#[inline(always)]
fn read_eight_decimal(digits: &[u8; 8]) -> Option<u32>
    ensures { result ≡ number_further 10 0 digits.now }
{
    let (a, b) = (decimal_value(digits[0]), decimal_value(digits[1]));
    let (c, d) = (decimal_value(digits[2]), decimal_value(digits[3]));
    let (e, f) = (decimal_value(digits[4]), decimal_value(digits[5]));
    let (g, h) = (decimal_value(digits[6]), decimal_value(digits[7]));
    let greatest = a.max(b).max(c.max(d)).max(e.max(f).max(g.max(h)));
    if greatest > 9 {
        return None;
    }
    Some(
        u32::from(a) * 10_000_000
            + u32::from(b) * 1_000_000
            + u32::from(c) * 100_000
            + u32::from(d) * 10_000
            + u32::from(e) * 1000
            + u32::from(f) * 100
            + u32::from(g) * 10
            + u32::from(h),
    )
}

/// Returns the value of a decimal digit, and more than 9 for another byte.
#[inline(always)]
fn decimal_value(byte: u8) -> u8
    ensures digit { result < 10 ↔ digit_value byte < 10 }
    ensures value { result < 10 → result ≡ digit_value byte }
{
    byte.wrapping_sub(b'0')
}

/// Returns the value of a decimal digit, or `None` for another byte.
#[inline(always)]
pub fn value_of_decimal(byte: u8) -> Option<u8>
    ensures value { SomeIff result (digit_value byte < 10) (digit_value byte) }
    ensures succeeds { digit_value byte < 10 → IsSome result }
{
    let value = byte.wrapping_sub(b'0');
    if value < 10 { Some(value) } else { None }
}

/// Returns the value of a digit of either case, if it is below the radix. Does not use the table
/// for radix 10.
#[inline(always)]
fn value_in(byte: u8, radix: u8) -> Option<u8>
    requires { (radix ≡ 10) ⊎ (radix ≡ 16) }
    ensures value { SomeIff result (digit_value byte < radix) (digit_value byte) }
    ensures succeeds { digit_value byte < radix → IsSome result }
{
    if radix == 16 {
        value_of_digit(byte, 16)
    } else {
        value_of_decimal(byte)
    }
}

/// Returns the value of a digit of either case, if it is below the radix.
#[tactic(auto, using(crate::proofs::NumberLemmas::value_listed))]
fn value_of_digit(byte: u8, radix: u8) -> Option<u8>
    requires { radix ≤ 16 }
    ensures value { SomeIff result (digit_value byte < radix) (digit_value byte) }
    ensures succeeds { digit_value byte < radix → IsSome result }
{
    let value = DIGIT_VALUES[usize::from(byte)];
    if value < radix { Some(value) } else { None }
}
