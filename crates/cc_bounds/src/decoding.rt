//! The bounds that a word decodes to.
ghost use Rattle.std.specs.Prelude.{◌≡◌, ◌+◌, ◌%◌, ◌^◌, ◌<◌, ◌≤◌, ◌↔◌, IsTrue, min, if◌then◌else◌};
ghost use Rattle.cc_bounds.specs.Decoding.{exponent_field, stored_exponent, without_exponent, base_mantissa};
ghost use Rattle.cc_bounds.specs.Decoding.{IsTopMantissa, IsDecodedBase, DecodesTo};
ghost use Rattle.cc_bounds.specs.Encoding.{StoresSpan};
ghost use Rattle.cc_bounds.specs.Window.{IsRepresentable};
ghost use Rattle.cc_bounds.specs.declared.span.Span.{Span as SpanSpec};

use crate::span::Span;
use cc_word::Fields;

/// The largest exponent of decoded bounds. A larger exponent field is treated as this.
pub const MAX_EXPONENT: u64 = 52;

/// At this exponent and above, T reaches bit 64, so that T alone gives all 65 bits of the top.
pub(crate) const FIRST_LARGE_EXPONENT: u64 = 51;

/// The 14 bits of a mantissa, which counts units of 2^exponent bytes.
const MANTISSA_BITS: u64 = 0x3fff;

/// The bits of a mantissa that give its section of the window.
const SECTION_BITS: u64 = 0x3800;

/// The number of units of 2^exponent bytes in a section.
const SECTION: u64 = 0x800;

/// Returns the bits of a stored field that are the exponent's: with IE the low three, otherwise
/// none.
#[inline(always)]
fn exponent_bits(ie: bool) -> u64
    ensures { result ≡ (if ie then 7 else 0) }
{
    if ie { 0x7 } else { 0 }
}

/// Returns the exponent's digit in a stored field: with IE its low three bits, otherwise 0.
#[inline(always)]
fn exponent_digit(ie: bool, field: u16) -> u64
    ensures { result ≡ (if ie then field % 8 else 0) }
{
    u64::from(field) & exponent_bits(ie)
}

/// Returns a stored field without the exponent's bits: with IE its low three bits are cleared.
#[inline(always)]
fn without_exponent(ie: bool, field: u16) -> u64
    ensures { result ≡ without_exponent ie field }
{
    u64::from(field) & !exponent_bits(ie)
}

/// Returns the exponent as it is stored, from 0 to 63: 0 without IE. With IE, its octal digits are
/// the low three bits of the T field and of the B field.
///
/// [`exponent`] is this field, or [`MAX_EXPONENT`] if it is more.
#[inline(always)]
pub fn exponent_field(fields: &Fields) -> u64
    ensures field { result ≡ exponent_field fields.now }
    ensures capped { stored_exponent fields.now ≡ min 52 result }
    ensures fits { result ≤ 63 }
{
    let high = exponent_digit(fields.ie, fields.t);
    let low = exponent_digit(fields.ie, fields.b);
    (high << 3) | low
}

/// Returns the exponent of a word's bounds, from 0 to 52.
///
/// It is 0 without IE. With IE, the low three bits of the T field and of the B field hold it; a value
/// above 52 counts as 52.
///
/// Source: UCAM-CL-TR-987, the decoding of the bounds; Woodruff et al. 2019.
pub fn exponent(fields: &Fields) -> u8
    ensures { result ≡ stored_exponent fields.now }
{
    exponent_field(fields).min(MAX_EXPONENT) as u8
}

/// Returns the mantissa B, 14 bits: the B field without the exponent's bits.
#[inline(always)]
fn base_mantissa(fields: &Fields) -> u64
    ensures { result ≡ base_mantissa fields.now }
{
    without_exponent(fields.ie, fields.b)
}

/// Returns the distance from the mantissa B up to the mantissa T, modulo 2^14.
///
/// The T field stores the low 12 bits of T. No word stores the two upper bits: they are those that
/// make this length less than 2^12 without IE, and from 2^12 to 2^13 - 1 with IE.
#[inline(always)]
fn mantissa_length(fields: &Fields) -> u64
    ensures top { IsTopMantissa fields.now ((base_mantissa fields.now + result) % 2 ^ 14) }
    ensures fits { result < 2 ^ 13 }
{
    let top = without_exponent(fields.ie, fields.t);
    let low = top.wrapping_sub(base_mantissa(fields)) & 0xfff;
    (u64::from(fields.ie) << 12) | low
}

/// Returns the base: the low 64 bits of the place of B.
///
/// A window has 2^14 units of 2^exponent bytes, and begins one section below that of B. The address
/// is some whole windows and a remainder above `start`. B is as many whole windows above the value
/// of its 14 bits.
#[inline(always)]
#[tactic(auto, using(crate::proofs::DecodedBaseLemmas::decoded_base_masked))]
fn decoded_base(fields: &Fields, exponent: u64) -> u64
    requires { exponent ≡ stored_exponent fields.now }
    ensures { IsDecodedBase fields.now result }
{
    let mantissa = base_mantissa(fields);
    let start = (mantissa & SECTION_BITS).wrapping_sub(SECTION);
    let above_start = (fields.address >> exponent).wrapping_sub(start);
    (above_start & !MANTISSA_BITS).wrapping_add(mantissa) << exponent
}

/// Returns the bounds of a word whose exponent is at most 50: T is as far above B as the mantissas
/// are apart.
#[inline(always)]
fn small_bounds(fields: &Fields, exponent: u64) -> Span
    requires is_exponent { exponent ≡ stored_exponent fields.now }
    requires small { exponent < 51 }
    ensures { DecodesTo fields.now result }
{
    let base = decoded_base(fields, exponent);
    let size = mantissa_length(fields) << exponent;
    Span {
        base,
        top: u128::from(base) + u128::from(size),
    }
}

/// Returns the bounds of a word whose exponent is at least 51: its window has at least 2^65 bytes,
/// so that the mantissas give all bits.
#[inline(always)]
fn large_bounds(fields: &Fields, exponent: u64) -> Span
    requires is_exponent { exponent ≡ stored_exponent fields.now }
    requires large { 51 ≤ exponent }
    ensures { DecodesTo fields.now result }
{
    let mantissa = base_mantissa(fields);
    let end = u128::from(mantissa + mantissa_length(fields));
    Span {
        base: mantissa << exponent,
        top: (end << exponent) & 0x1_ffff_ffff_ffff_ffff,
    }
}

/// Returns whether the fields with this exponent field store the bounds that they decode to, if it is
/// at least 51: whether T is at most 2^64 bytes.
///
/// The length alone is more than that from exponent 53 on, and so is a base with a bit above bit 63.
#[inline(always)]
pub(crate) fn large_stores(fields: &Fields, exponent: u64) -> bool
    requires is_field { exponent ≡ exponent_field fields.now }
    requires large { 51 ≤ exponent }
    requires fits { exponent ≤ 63 }
    ensures { (span : SpanSpec) → DecodesTo fields.now span → (IsTrue result ↔ StoresSpan fields.now span) }
{
    base_mantissa(fields) + mantissa_length(fields) <= 1 << (64 - exponent)
}

/// Returns the bounds of a word, as [`decode`] does, from its exponent field.
///
/// Requires: `exponent` is the [`exponent_field`] of the fields, or any number from 52 up if that is 52 or more.
#[inline(always)]
pub fn decode_with(fields: &Fields, exponent: u64) -> Span
    requires { stored_exponent fields.now ≡ min 52 exponent }
    ensures decodes { DecodesTo fields.now result }
    ensures only { (span : SpanSpec) → DecodesTo fields.now span → span ≡ result }
{
    if exponent < FIRST_LARGE_EXPONENT {
        small_bounds(fields, exponent)
    } else {
        large_bounds(fields, exponent.min(MAX_EXPONENT))
    }
}

/// Returns the bounds of a word.
///
/// Every word has bounds. If the word is not canonical, its top can be below its base, or above
/// 2^64 but below 2^65.
///
/// Source: UCAM-CL-TR-987, the decoding of the bounds; Woodruff et al. 2019.
#[inline(always)]
pub fn decode(fields: &Fields) -> Span
    // The fields decode to this span, and to no other.
    ensures decodes { DecodesTo fields.now result }
    ensures only { (span : SpanSpec) → DecodesTo fields.now span → span ≡ result }

    // The word's own address is representable for its bounds.
    ensures representable { IsRepresentable result.base (stored_exponent fields.now) fields.now.address }
{
    decode_with(fields, exponent_field(fields))
}
