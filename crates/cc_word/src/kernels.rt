//! The digits of words by vectors and tables, for callers that read or write words by the million.
//! The contracts are the same as in `word_text`.
ghost use Rattle.std.specs.Prelude.{◌≡◌, ◌↔◌, ◌*◌, ◌<◌, ◌^◌, ◌++◌, length, map, slice_index, if◌then◌else◌, IsSome};
ghost use Rattle.std.specs.Prelude.{IfSome};
ghost use Rattle.std.specs.Char.{digit_value};
ghost use Rattle.std.specs.List.{AllPass};
ghost use Rattle.std.specs.Str.Parse.{digits_value};
ghost use Rattle.std.specs.Simd.Lanes.{Each1, Each2};
ghost use Rattle.hex.specs.Hex.{is_hex_digit, lower_digits};
ghost use Rattle.cc_word.specs.WordText.{IsWordText, digits_of};
ghost use Rattle.cc_word.specs.DigitValue.{IsValue};

use std::simd::prelude::*;

/// The places of the first digits of the pairs of a word's text.
const FIRST_DIGITS: [usize; 16] = [0, 2, 4, 6, 8, 10, 12, 14, 16, 18, 20, 22, 24, 26, 28, 30];

/// The places of the second digits of the pairs of a word's text.
const SECOND_DIGITS: [usize; 16] = [1, 3, 5, 7, 9, 11, 13, 15, 17, 19, 21, 23, 25, 27, 29, 31];

/// The places of the digits of eight bytes, the lowest byte first, in a vector of all first digits
/// and one of all second digits.
const HIGHEST_FIRST: [usize; 16] = [7, 23, 6, 22, 5, 21, 4, 20, 3, 19, 2, 18, 1, 17, 0, 16];

/// The bits of a letter that are the same in both cases.
const UPPER_CASE: u8 = 0xdf;

/// Difference between the letter of a number from 10 to 15 and the character `0` plus the number.
const TO_LETTERS: u8 = b'a' - b'0' - 10;

/// Table entry for a byte that is not a hexadecimal digit. Larger than any eight-digit value.
const NONE: u64 = 1 << 32;

/// The value of each byte as a hexadecimal digit, of either case.
#[rattlefmt::skip]
const DIGIT_VALUES: [u64; 256] = [
    NONE, NONE, NONE, NONE, NONE, NONE, NONE, NONE, NONE, NONE, NONE, NONE, NONE, NONE, NONE, NONE,
    NONE, NONE, NONE, NONE, NONE, NONE, NONE, NONE, NONE, NONE, NONE, NONE, NONE, NONE, NONE, NONE,
    NONE, NONE, NONE, NONE, NONE, NONE, NONE, NONE, NONE, NONE, NONE, NONE, NONE, NONE, NONE, NONE,
    0, 1, 2, 3, 4, 5, 6, 7, 8, 9, NONE, NONE, NONE, NONE, NONE, NONE,
    NONE, 10, 11, 12, 13, 14, 15, NONE, NONE, NONE, NONE, NONE, NONE, NONE, NONE, NONE,
    NONE, NONE, NONE, NONE, NONE, NONE, NONE, NONE, NONE, NONE, NONE, NONE, NONE, NONE, NONE, NONE,
    NONE, 10, 11, 12, 13, 14, 15, NONE, NONE, NONE, NONE, NONE, NONE, NONE, NONE, NONE,
    NONE, NONE, NONE, NONE, NONE, NONE, NONE, NONE, NONE, NONE, NONE, NONE, NONE, NONE, NONE, NONE,
    NONE, NONE, NONE, NONE, NONE, NONE, NONE, NONE, NONE, NONE, NONE, NONE, NONE, NONE, NONE, NONE,
    NONE, NONE, NONE, NONE, NONE, NONE, NONE, NONE, NONE, NONE, NONE, NONE, NONE, NONE, NONE, NONE,
    NONE, NONE, NONE, NONE, NONE, NONE, NONE, NONE, NONE, NONE, NONE, NONE, NONE, NONE, NONE, NONE,
    NONE, NONE, NONE, NONE, NONE, NONE, NONE, NONE, NONE, NONE, NONE, NONE, NONE, NONE, NONE, NONE,
    NONE, NONE, NONE, NONE, NONE, NONE, NONE, NONE, NONE, NONE, NONE, NONE, NONE, NONE, NONE, NONE,
    NONE, NONE, NONE, NONE, NONE, NONE, NONE, NONE, NONE, NONE, NONE, NONE, NONE, NONE, NONE, NONE,
    NONE, NONE, NONE, NONE, NONE, NONE, NONE, NONE, NONE, NONE, NONE, NONE, NONE, NONE, NONE, NONE,
    NONE, NONE, NONE, NONE, NONE, NONE, NONE, NONE, NONE, NONE, NONE, NONE, NONE, NONE, NONE, NONE,
];

/// Entry of [`FIRST_DIGIT_VALUES`] for a byte that is not a hexadecimal digit.
const MORE: u64 = 16 * NONE;

/// The value of each byte as the first of two hexadecimal digits: 16 times the value in
/// [`DIGIT_VALUES`].
#[rattlefmt::skip]
const FIRST_DIGIT_VALUES: [u64; 256] = [
    MORE, MORE, MORE, MORE, MORE, MORE, MORE, MORE, MORE, MORE, MORE, MORE, MORE, MORE, MORE, MORE,
    MORE, MORE, MORE, MORE, MORE, MORE, MORE, MORE, MORE, MORE, MORE, MORE, MORE, MORE, MORE, MORE,
    MORE, MORE, MORE, MORE, MORE, MORE, MORE, MORE, MORE, MORE, MORE, MORE, MORE, MORE, MORE, MORE,
    0x00, 0x10, 0x20, 0x30, 0x40, 0x50, 0x60, 0x70, 0x80, 0x90, MORE, MORE, MORE, MORE, MORE, MORE,
    MORE, 0xa0, 0xb0, 0xc0, 0xd0, 0xe0, 0xf0, MORE, MORE, MORE, MORE, MORE, MORE, MORE, MORE, MORE,
    MORE, MORE, MORE, MORE, MORE, MORE, MORE, MORE, MORE, MORE, MORE, MORE, MORE, MORE, MORE, MORE,
    MORE, 0xa0, 0xb0, 0xc0, 0xd0, 0xe0, 0xf0, MORE, MORE, MORE, MORE, MORE, MORE, MORE, MORE, MORE,
    MORE, MORE, MORE, MORE, MORE, MORE, MORE, MORE, MORE, MORE, MORE, MORE, MORE, MORE, MORE, MORE,
    MORE, MORE, MORE, MORE, MORE, MORE, MORE, MORE, MORE, MORE, MORE, MORE, MORE, MORE, MORE, MORE,
    MORE, MORE, MORE, MORE, MORE, MORE, MORE, MORE, MORE, MORE, MORE, MORE, MORE, MORE, MORE, MORE,
    MORE, MORE, MORE, MORE, MORE, MORE, MORE, MORE, MORE, MORE, MORE, MORE, MORE, MORE, MORE, MORE,
    MORE, MORE, MORE, MORE, MORE, MORE, MORE, MORE, MORE, MORE, MORE, MORE, MORE, MORE, MORE, MORE,
    MORE, MORE, MORE, MORE, MORE, MORE, MORE, MORE, MORE, MORE, MORE, MORE, MORE, MORE, MORE, MORE,
    MORE, MORE, MORE, MORE, MORE, MORE, MORE, MORE, MORE, MORE, MORE, MORE, MORE, MORE, MORE, MORE,
    MORE, MORE, MORE, MORE, MORE, MORE, MORE, MORE, MORE, MORE, MORE, MORE, MORE, MORE, MORE, MORE,
    MORE, MORE, MORE, MORE, MORE, MORE, MORE, MORE, MORE, MORE, MORE, MORE, MORE, MORE, MORE, MORE,
];

/// Returns the value of a digit, or [`NONE`] for a byte that is not a digit.
#[tactic(auto, using(crate::proofs::ReadingLemmas::value_listed))]
fn value_of_digit(byte: u8) -> u64
    ensures { result ≡ (if is_hex_digit byte then digit_value byte else 2 ^ 32) }
{
    DIGIT_VALUES[usize::from(byte)]
}

/// Returns 16 times the value of a digit, or 16 times [`NONE`] for a byte that is not a digit.
#[tactic(auto, using(crate::proofs::ReadingLemmas::first_value_listed))]
fn value_of_first_digit(byte: u8) -> u64
    ensures { result ≡ 16 * (if is_hex_digit byte then digit_value byte else 2 ^ 32) }
{
    FIRST_DIGIT_VALUES[usize::from(byte)]
}

/// Returns the hexadecimal digits of sixteen numbers below 16, in lower case.
#[inline(always)]
fn digits_of_values(values: u8x16) -> u8x16
    requires { Each1 (λ value. value < 16) values }
    ensures { result ≡ map (λ value. slice_index lower_digits value) values }
{
    let after_nine = values.simd_gt(u8x16::splat(9));
    let decimal = values + u8x16::splat(b'0');
    decimal + after_nine.select(u8x16::splat(TO_LETTERS), u8x16::splat(0))
}

/// Returns the number of eight hexadecimal digits, which is below 2^32, or a larger number if a
/// byte is not a digit.
///
/// Reads two digits at a time, each from its own table, so that no digit is shifted separately.
#[inline(always)]
fn value_of_eight(digits: &[u8]) -> u64
    requires { length digits.now ≡ 8 }
    ensures found { result < 2 ^ 32 ↔ AllPass is_hex_digit digits.now }
    ensures value { result < 2 ^ 32 → result ≡ digits_value 16 digits.now }
{
    let mut number = 0;
    for pair in 0..4 {
        let first = value_of_first_digit(digits[2 * pair]);
        let second = value_of_digit(digits[2 * pair + 1]);
        number = number * 256 + first + second;
    }
    number
}

/// Returns the values of 32 bytes as hexadecimal digits of either case. That of a byte that is not a
/// digit is more than 15.
#[inline(always)]
fn values_of_digits(text: u8x32) -> u8x32
    ensures all { length result ≡ 32 }
    ensures values { Each2 IsValue text result }
{
    // by comparisons, since the first x86-64 looks up no table in a vector;
    // the digits 0 to 9 are moved to the last ten bytes, and from there to their values; any other
    // byte gets 16 or more
    let moved = text + u8x32::splat(u8::MAX - b'9');
    let decimal = moved.simd_max(u8x32::splat(6)) - u8x32::splat(246);
    // the letters, of either case, are moved to the first bytes; the sum of no other byte wraps
    let moved = (text & u8x32::splat(UPPER_CASE)) - u8x32::splat(b'A');
    let letter = moved.simd_min(u8x32::splat(u8::MAX - 10)) + u8x32::splat(10);
    decimal.simd_min(letter)
}

/// Writes the digits of a word's two halves.
#[inline(always)]
fn write_halves(high: u64, low: u64, text: &mut [u8; 32])
    ensures { text.new ≡ digits_of 16 high ++ digits_of 16 low }
{
    text[..16].copy_from_slice(&write_half(high));
    text[16..32].copy_from_slice(&write_half(low));
}

/// Returns the word of 32 hexadecimal digits of either case, or `None` for any other input.
///
/// Has the contract of [`read_word`](crate::read_word). Reads all 32 digits at once, by vectors of
/// bytes.
pub fn read_word_fast(text: &[u8]) -> Option<u128>
    ensures found { IsSome result ↔ IsWordText text.now }
    ensures value { IfSome result (λ word. word ≡ digits_value 16 text.now) }
{
    if text.len() != 32 {
        return None;
    }
    let values = values_of_digits(u8x32::from_slice(text));
    if values.simd_gt(u8x32::splat(15)).to_bitmask() != 0 {
        return None;
    }
    let bytes = values.swizzle(FIRST_DIGITS) * u8x16::splat(16) + values.swizzle(SECOND_DIGITS);
    Some(u128::from_be_bytes(bytes.to_array()))
}

/// Returns the number of eight hexadecimal digits of either case, or `None` if a byte is not a
/// digit.
#[inline(always)]
pub fn read_quarter(digits: &[u8; 8]) -> Option<u32>
    ensures found { IsSome result ↔ AllPass is_hex_digit digits.now }
    ensures value { IfSome result (λ number. number ≡ digits_value 16 digits.now) }
{
    let number = value_of_eight(digits);
    if number < NONE {
        Some(number as u32)
    } else {
        None
    }
}

/// Returns the 32 hexadecimal digits of a word, in lower case, the highest first.
///
/// Has the contract of [`write_word`](crate::write_word).
#[inline(always)]
pub fn write_word_fast(word: u128) -> [u8; 32]
    ensures { result ≡ digits_of 32 word }
{
    let mut text = [0; 32];
    write_word_fast_to(word, &mut text);
    text
}

/// Writes the 32 hexadecimal digits of a word into the caller's array, in lower case, the highest
/// first.
#[inline(always)]
#[tactic(auto, using(crate::proofs::DigitLemmas::word_halves))]
pub fn write_word_fast_to(word: u128, text: &mut [u8; 32])
    ensures { text.new ≡ digits_of 32 word }
{
    write_halves((word >> 64) as u64, (word % (1 << 64)) as u64, text);
}

/// Returns the 16 hexadecimal digits of half a word, such as an address, in lower case, the highest
/// first.
#[inline(always)]
pub fn write_half(half: u64) -> [u8; 16]
    ensures { result ≡ digits_of 16 half }
{
    let bytes = u64x2::from_array([half, 0]).to_le_bytes();
    let high = bytes >> u8x16::splat(4);
    let low = bytes & u8x16::splat(15);
    digits_of_values(high.shuffle(low, HIGHEST_FIRST)).to_array()
}
