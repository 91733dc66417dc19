//! The length and the granule of a word, and the bytes that rounding loses.
ghost use Rattle.std.specs.Prelude.{◌≡◌, ◌+◌, ◌-◌, ◌%◌, ◌^◌, ◌≤◌};
ghost use Rattle.cc_ffi.specs.Numbers.{number_of_halves, number_in};
ghost use Rattle.cc_ffi.specs.Words.{OfFields};
ghost use Rattle.cc_ffi.specs.Measures.{stored_granule, IsExcess, IsNoExcess};
ghost use Rattle.cc_bounds.specs.declared.span.Span.{Span as SpanSpec};
ghost use Rattle.cc_bounds.specs.Span.{span_from};
ghost use Rattle.cc_bounds.specs.Granule.{IsGranule, IsGranted};
ghost use Rattle.cc_bounds.specs.Encoding.{StoresSpan};
ghost use Rattle.cc_bounds.specs.Decoding.{DecodesTo};

use crate::halves::{halves, number};
use crate::structs::{Excess, Halves};
use cc_bounds::{ADDRESS_SPACE, decode, exponent, set_bounds};
use cc_word::unpack;

/// Returns the number of bytes of the bounds of any word: the top minus the base, modulo 2^128 if
/// the top is below the base.
#[unsafe(no_mangle)]
pub extern "C" fn cheri_cap_word_length(high: u64, low: u64) -> Halves
    ensures { OfFields (number_of_halves high low) (λ fields. (span : SpanSpec) → DecodesTo fields span
        → number_in result ≡ (span.top + 2 ^ 128 - span.base) % 2 ^ 128) }
{
    let span = decode(&unpack(number(high, low)));
    halves(span.top.wrapping_sub(u128::from(span.base)))
}

/// Returns the granule of any word in bytes: 1 without IE, and with IE 2^(E+3).
///
/// It is the unit of the bounds that the word stores, if it stores them as setting bounds does.
#[unsafe(no_mangle)]
pub extern "C" fn cheri_cap_word_granule(high: u64, low: u64) -> u64
    ensures value { OfFields (number_of_halves high low) (λ fields. result ≡ stored_granule fields) }
    ensures stored { OfFields (number_of_halves high low) (λ fields.
        (span : SpanSpec) → StoresSpan fields span → IsGranule span result) }
{
    let fields = unpack(number(high, low));
    if fields.ie {
        1 << (exponent(&fields) + 3)
    } else {
        1
    }
}

/// Returns the numbers of granted bytes before and after a request.
///
/// If the request ends above 2^64, `in_range` is false and the numbers are 0.
#[unsafe(no_mangle)]
pub extern "C" fn cheri_cap_lost(base: u64, length_high: u64, length_low: u64) -> Excess
    ensures granted { base + number_of_halves length_high length_low ≤ 2 ^ 64
        → (granted : SpanSpec) → IsGranted (span_from base (number_of_halves length_high length_low)) granted
        → IsExcess (span_from base (number_of_halves length_high length_low)) granted result }
    ensures refused { (¬ base + number_of_halves length_high length_low ≤ 2 ^ 64) → IsNoExcess result }
{
    let length = number(length_high, length_low);
    if length > ADDRESS_SPACE - u128::from(base) {
        return Excess {
            before: 0,
            after: 0,
            in_range: false,
        };
    }
    let granted = set_bounds(base, length).granted();
    let top = u128::from(base) + length;
    Excess {
        before: base.wrapping_sub(granted.base),
        after: granted.top.wrapping_sub(top) as u64,
        in_range: true,
    }
}
