//! Bounds: those that a word decodes to, those that a request is granted, and the addresses that
//! they allow.
ghost use Rattle.std.specs.Prelude.{false, ◌≡◌, ◌+◌, ◌^◌, ◌≤◌, ◌↔◌, IsTrue};
ghost use Rattle.cc_ffi.specs.Numbers.{number_of_halves};
ghost use Rattle.cc_ffi.specs.Words.{OfFields};
ghost use Rattle.cc_ffi.specs.Bounds.{AreDecoded, IsRequestGranted, IsNothing, HasEncoding, StoresNone};
ghost use Rattle.cc_bounds.specs.Span.{span_from};
ghost use Rattle.cc_bounds.specs.Decoding.{stored_exponent, DecodesTo, SharesBoundsFields};
ghost use Rattle.cc_bounds.specs.Window.{IsRepresentable, Represents};
ghost use Rattle.cc_bounds.specs.Encoding.{StoresSpan};
ghost use Rattle.cc_bounds.specs.declared.span.Span.{Span as SpanSpec};
ghost use Rattle.cc_word.specs.declared.fields.Fields.{Fields as FieldsSpec};

use crate::halves::{halves, number};
use crate::structs::{Bounds, GrantedBounds};
use cc_bounds::{ADDRESS_SPACE, Set, exponent, keeps_bounds, represents, set_bounds};
use cc_cap::Decoded;
use cc_word::unpack;

/// Returns the base, the top and the exponent of any word.
#[unsafe(no_mangle)]
pub extern "C" fn cheri_cap_decode(high: u64, low: u64) -> Bounds
    ensures { OfFields (number_of_halves high low) (λ fields. AreDecoded fields result) }
{
    let decoded = Decoded::of_word(number(high, low));
    let top = halves(decoded.bounds.top);
    Bounds {
        base: decoded.bounds.base,
        top_high: top.high,
        top_low: top.low,
        exponent: decoded.exponent,
    }
}

/// Returns the exponent of any word, from 0 to 52.
#[unsafe(no_mangle)]
pub extern "C" fn cheri_cap_exponent(high: u64, low: u64) -> u8
    ensures { OfFields (number_of_halves high low) (λ fields. result ≡ stored_exponent fields) }
{
    exponent(&unpack(number(high, low)))
}

/// Returns a granted request as C has it, with `in_range` true.
fn granted(set: &Set) -> GrantedBounds
    ensures { HasEncoding set.now result }
{
    let span = set.granted();
    let top = halves(span.top);
    GrantedBounds {
        base: span.base,
        top_high: top.high,
        top_low: top.low,
        t: set.t(),
        b: set.b(),
        exponent: set.e(),
        ie: set.ie(),
        exact: set.exact(),
        in_range: true,
    }
}

/// Returns the bounds that a request for `length` bytes from `base` is granted.
///
/// If the request ends above 2^64, `in_range` is false and every other field is zero.
#[unsafe(no_mangle)]
pub extern "C" fn cheri_cap_set_bounds(
    base: u64,
    length_high: u64,
    length_low: u64,
) -> GrantedBounds
    ensures granted { base + number_of_halves length_high length_low ≤ 2 ^ 64
        → IsRequestGranted (span_from base (number_of_halves length_high length_low)) result }
    ensures refused { (¬ base + number_of_halves length_high length_low ≤ 2 ^ 64) → IsNothing result }
{
    let length = number(length_high, length_low);
    if length > ADDRESS_SPACE - u128::from(base) {
        return GrantedBounds {
            base: 0,
            top_high: 0,
            top_low: 0,
            t: 0,
            b: 0,
            exponent: 0,
            ie: false,
            exact: false,
            in_range: false,
        };
    }
    granted(&set_bounds(base, length))
}

/// Returns whether a word stores its bounds as setting bounds stores them, and the address is
/// representable for them: the word with this address as its low half decodes to the same bounds.
///
/// The permissions, the reserved bits, the flag and the type are not examined.
#[inline(always)]
#[unsafe(no_mangle)]
pub extern "C" fn cheri_cap_represents(high: u64, low: u64, address: u64) -> bool
    ensures stored { OfFields (number_of_halves high low) (λ fields.
        (span : SpanSpec) → StoresSpan fields span → (IsTrue result ↔ Represents span address)) }
    ensures decodes { OfFields (number_of_halves high low) (λ fields. OfFields (number_of_halves high address) (λ moved.
        (span : SpanSpec) → StoresSpan fields span → (IsTrue result ↔ DecodesTo moved span))) }
    ensures none { OfFields (number_of_halves high low) (λ fields. StoresNone fields → result ≡ false) }
{
    match Set::of_fields(&unpack(number(high, low))) {
        Some(set) => represents(&set, address),
        None => false,
    }
}

/// Returns whether a word decodes to the same bounds at `address` as at its own address. Any word
/// is accepted.
///
/// At exponents of at least 50, the result is true. If the word stores its bounds as setting bounds
/// stores them, the result equals that of [`cheri_cap_represents`].
#[unsafe(no_mangle)]
pub extern "C" fn cheri_cap_keeps_bounds(high: u64, low: u64, address: u64) -> bool
    // True if and only if a word with the same IE, T and B, at this address, decodes to the same
    // bounds.
    ensures decodes { OfFields (number_of_halves high low) (λ fields.
        (other : FieldsSpec) (span : SpanSpec) → SharesBoundsFields fields other → other.address ≡ address
        → DecodesTo fields span → (IsTrue result ↔ DecodesTo other span)) }
    // True if and only if the address is in the window of these bounds.
    ensures window { OfFields (number_of_halves high low) (λ fields.
        (span : SpanSpec) → DecodesTo fields span
        → (IsTrue result ↔ IsRepresentable span.base (stored_exponent fields) address)) }
    ensures large { OfFields (number_of_halves high low) (λ fields. 50 ≤ stored_exponent fields → IsTrue result) }
    ensures stored { OfFields (number_of_halves high low) (λ fields.
        (span : SpanSpec) → StoresSpan fields span → (IsTrue result ↔ Represents span address)) }
{
    keeps_bounds(&unpack(number(high, low)), address)
}
