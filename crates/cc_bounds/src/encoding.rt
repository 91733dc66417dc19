//! The encoding of a sound span, and setting bounds.
ghost use Rattle.std.specs.Prelude.{◌≡◌, ◌+◌, ◌/◌, ◌%◌, ◌^◌, ◌<◌, ◌≤◌, ◌↔◌, IsTrue, true, IfSome, min};
ghost use Rattle.cc_bounds.specs.Span.{IsSpan, span_from, length_of};
ghost use Rattle.cc_bounds.specs.Granule.{IsExponent, IsGranted, IsSound, exponent_of};
ghost use Rattle.cc_bounds.specs.Encoding.{HasBoundsFields, IsEncoding, StoresSpan, ie_of, t_of, b_of};
ghost use Rattle.cc_bounds.specs.Decoding.{DecodesTo, exponent_field};
ghost use Rattle.cc_bounds.specs.declared.span.Span.{Span as SpanSpec};
ghost use Rattle.cc_bounds.specs.Tightest.{DecodesBack, IsTight, IsTightest};

use crate::decoding::{FIRST_LARGE_EXPONENT, decode_with, exponent_field, large_stores};
use crate::rounding::{granule_power, rounded};
use crate::span::{ADDRESS_SPACE, Span};
use cc_word::Fields;
use std::marker::Model;

/// The bounds of a capability as its word stores them: a sound span with its exponent and its
/// bounds fields, and whether the request for it was exact.
///
/// Only [`set_bounds`], [`Set::of_fields`], [`Set::of_sound`] and [`Set::as_exact`] create a `Set`.
///
/// Source: UCAM-CL-TR-987, the compressed capability encoding; Woodruff et al. 2019.
#[derive(Clone, Copy, PartialEq, Eq, Debug)]
pub struct Set {
    // the granted span but for the top's bit 64, and then the other fields in eight bytes
    base: u64,
    low_top: u64,
    t: u16,
    b: u16,
    exponent: u8,
    /// Bit 64 of the top, which is set only if the span ends at 2^64.
    high_top: u8,
    ie: bool,
    exact: bool,
}

impl Model for Set {
    ghost use Rattle.std.specs.Prelude.{◌≡◌, ◌+◌, ◌*◌, ◌^◌};
    ghost use Rattle.cc_bounds.specs.Encoding.{Encoding, IsEncoding, ie_of, t_of, b_of, low_top_of, high_top_of};
    ghost use Rattle.cc_bounds.specs.Granule.{exponent_of};
    ghost use Rattle.cc_bounds.specs.declared.span.Span.{Span as SpanSpec};
    ghost use Rattle.std.proofs.Common.{sym};

    ghost Value = { Encoding };

    ghost view = { λ set. record {
      granted = record { base = set.base; top = set.high_top * 2 ^ 64 + set.low_top };
      exact = set.exact;
    } };

    ghost invariant = { λ set.
        let granted : SpanSpec = record { base = set.base; top = set.high_top * 2 ^ 64 + set.low_top } in
        IsEncoding granted set.exponent set.ie set.t set.b
        × (set.low_top ≡ low_top_of granted) × (set.high_top ≡ high_top_of granted) };

    ghost inverse = { λ encoding. record {
      base = encoding.granted.base;
      low_top = low_top_of encoding.granted;
      t = t_of encoding.granted;
      b = b_of encoding.granted;
      exponent = exponent_of encoding.granted;
      high_top = high_top_of encoding.granted;
      ie = ie_of encoding.granted;
      exact = encoding.exact;
    } };

    ghost inverse_ok = { λ set h i. record {
      base = set.base;
      low_top = sym h.1 i;
      t = sym h.0.is_t i;
      b = sym h.0.is_b i;
      exponent = sym h.0.is_e i;
      high_top = sym h.2 i;
      ie = sym h.0.is_ie i;
      exact = set.exact;
    } };
}

impl Set {
    /// Returns the encoding that these fields store: `Some` if and only if they have the bounds
    /// fields of a sound span for which their address is representable.
    ///
    /// The encoding grants that span, and is exact. The permissions, the reserved bits, the flag
    /// and the type are not examined.
    #[inline(always)]
    pub fn of_fields(fields: &Fields) -> Option<Set>
        // The fields store the span.
        ensures found { IfSome result (λ set. StoresSpan fields.now set.granted) }
        // If they store a span, the result is the encoding of that span.
        ensures only { (span : SpanSpec) → StoresSpan fields.now span
            → result ≡ Some (record { granted = span; exact = true }) }
    {
        let exponent = exponent_field(fields);
        let span = decode_with(fields, exponent);
        if !stores_with(fields, exponent, &span) {
            return None;
        }
        Some(storing(span, exponent as u8, fields.ie, fields.t, fields.b, true))
    }

    /// Returns the encoding of a sound span, which is exact: the result of setting bounds to the
    /// span.
    ///
    /// Nothing is rounded, so it takes fewer instructions than [`set_bounds`].
    ///
    /// Requires: the span is sound.
    #[inline(always)]
    pub fn of_sound(span: Span) -> Set
        requires is_span { IsSpan span }
        requires sound { IsSound span }
        ensures { result ≡ record { granted = span; exact = true } }
    {
        let power = granule_power(&span);
        encoded(span, power, true)
    }

    /// Returns the exponent E, from 0 to 52.
    ///
    /// The granule is 2^(E+3) bytes if [`Set::ie`] is true, otherwise 1 byte.
    pub fn e(&self) -> u8
        ensures exponent { IsExponent self.now.granted result }
        ensures computed { result ≡ exponent_of self.now.granted }
        ensures fits { result ≤ 52 }
    {
        self.exponent
    }

    /// Returns the internal exponent bit IE: whether the low bits of the T and B fields store the
    /// exponent.
    ///
    /// They do for spans of at least 4,096 bytes.
    pub fn ie(&self) -> bool
        ensures internal { IsTrue result ↔ (4096 ≤ length_of self.now.granted) }
        ensures computed { result ≡ ie_of self.now.granted }
    {
        self.ie
    }

    /// Returns the T field as stored, 12 bits, with the exponent's high digit if [`Set::ie`] is
    /// true.
    pub fn t(&self) -> u16
        ensures computed { result ≡ t_of self.now.granted }
        ensures fits { result < 2 ^ 12 }
    {
        self.t
    }

    /// Returns the B field as stored, 14 bits, with the exponent's low digit if [`Set::ie`] is
    /// true.
    pub fn b(&self) -> u16
        ensures computed { result ≡ b_of self.now.granted }
        ensures fits { result < 2 ^ 14 }
    {
        self.b
    }

    /// Returns the granted span, which is sound: setting bounds to it grants the span itself.
    pub fn granted(&self) -> Span
        ensures granted { result ≡ self.now.granted }
        ensures is_span { IsSpan self.now.granted }
        ensures sound { IsSound self.now.granted }
    {
        Span {
            base: self.base,
            top: (u128::from(self.high_top) << 64) + u128::from(self.low_top),
        }
    }

    /// Returns whether the request was granted as it was, with neither end rounded.
    pub fn exact(&self) -> bool
        ensures { result ≡ self.now.exact }
    {
        self.exact
    }

    /// Returns these bounds with [`Set::exact`] true: the result of setting bounds to the granted
    /// span.
    pub fn as_exact(self) -> Set
        ensures { result ≡ record self { exact = true } }
    {
        Set {
            exact: true,
            ..self
        }
    }
}

/// Returns whether the bounds end at 2^64 or below, by numbers of 64 bits alone.
///
/// Requires: they have fewer than 2^64 bytes.
#[inline(always)]
fn ends_in_space(bounds: &Span) -> bool
    requires base_fits { bounds.now.base < 2 ^ 64 }
    requires in_order { bounds.now.base ≤ bounds.now.top }
    requires short { bounds.now.top < bounds.now.base + 2 ^ 64 }
    ensures { IsTrue result ↔ (bounds.now.top ≤ 2 ^ 64) }
{
    // modulo 2^64, which is below the base only if the bounds end at 2^64 or above
    let end = bounds.base.wrapping_add(bounds.len() as u64);
    end >= bounds.base || end == 0
}

/// Returns whether the fields store the bounds that they decode to: a word with these bounds fields
/// is canonical in all but its reserved bits and its type.
///
/// Requires: the fields decode to `bounds`.
#[inline(always)]
pub fn stores(fields: &Fields, bounds: &Span) -> bool
    requires { DecodesTo fields.now bounds.now }
    ensures { IsTrue result ↔ StoresSpan fields.now bounds.now }
{
    stores_with(fields, exponent_field(fields), bounds)
}

/// Returns whether the fields store the bounds that they decode to, as [`stores`] does, from their
/// exponent field.
///
/// Requires: `exponent` is the exponent field of the fields, and they decode to `bounds`.
#[inline(always)]
pub fn stores_with(fields: &Fields, exponent: u64, bounds: &Span) -> bool
    requires is_field { exponent ≡ exponent_field fields.now }
    requires decodes { DecodesTo fields.now bounds.now }
    ensures { IsTrue result ↔ StoresSpan fields.now bounds.now }
{
    if exponent < FIRST_LARGE_EXPONENT {
        ends_in_space(bounds)
    } else {
        large_stores(fields, exponent)
    }
}

/// Returns the encoding of a granted span, whose granule is 2^power bytes.
#[inline(always)]
fn encoded(granted: Span, power: u32, exact: bool) -> Set
    requires is_span { IsSpan granted }
    requires sound { IsSound granted }
    requires small { length_of granted < 4096 → power ≡ 0 }
    requires large { 4096 ≤ length_of granted → power ≡ exponent_of granted + 3 }
    requires fits { power ≤ 55 }
    ensures { result ≡ record { granted = granted; exact = exact } }
{
    let exponent = power.saturating_sub(3);
    let t = t_field(&granted, exponent);
    let b = b_field(&granted, exponent);
    storing(granted, exponent as u8, power > 0, t, b, exact)
}

/// Returns the encoding of a granted span that has this exponent and these bounds fields.
#[inline(always)]
#[tactic(auto, unfolding(crate::specs::Encoding::low_top_of, crate::specs::Encoding::high_top_of))]
fn storing(granted: Span, exponent: u8, ie: bool, t: u16, b: u16, exact: bool) -> Set
    requires { IsEncoding granted exponent ie t b }
    ensures { result ≡ record { granted = granted; exact = exact } }
{
    Set {
        base: granted.base,
        low_top: low_half(granted.top),
        t,
        b,
        exponent,
        high_top: (granted.top >> 64) as u8,
        ie,
        exact,
    }
}

/// Returns the low 64 bits of a top.
#[inline(always)]
fn low_half(top: u128) -> u64
    ensures { result ≡ top % 2 ^ 64 }
{
    (top & 0xffff_ffff_ffff_ffff) as u64
}

/// Returns the T field of a granted span: its top in units of 2^exponent bytes, with the exponent's
/// high digit.
///
/// No bit of the field comes from the top's bit 64.
#[tactic(auto, using(crate::proofs::EncodingLemmas::low_bits_masked))]
fn t_field(granted: &Span, exponent: u32) -> u16
    requires { exponent ≤ 52 }
    ensures { result ≡ granted.now.top / 2 ^ exponent % 2 ^ 12 + exponent / 8 }
{
    ((low_half(granted.top) >> exponent) & 0xfff) as u16 + (exponent >> 3) as u16
}

/// Returns the B field of a granted span: its base in units of 2^exponent bytes, with the
/// exponent's low digit.
fn b_field(granted: &Span, exponent: u32) -> u16
    requires { exponent ≤ 52 }
    ensures { result ≡ granted.now.base / 2 ^ exponent % 2 ^ 14 + exponent % 8 }
{
    ((granted.base >> exponent) & 0x3fff) as u16 + (exponent & 0x7) as u16
}

/// Returns the encoding of the span that a request is granted.
#[inline(always)]
fn encode(request: &Span) -> Set
    requires { IsSpan request.now }
    ensures granted { IsGranted request.now result.granted }
    ensures exact { IsTrue result.exact ↔ IsSound request.now }
{
    let power = granule_power(request);
    let granted = rounded(request, power);
    encoded(granted, power, granted == *request)
}

/// Returns the encoding of the tightest bounds that cover the request [base, base + len).
///
/// A request of less than 4,096 bytes is granted as it is. Otherwise, its ends are rounded outward
/// to the granule, and the granted bounds are within the bounds of every word whose bounds cover
/// the request.
///
/// Requires: `base + len <= 2^64`.
/// Instruction: CSetBounds.
/// Source: UCAM-CL-TR-987; Woodruff et al. 2019.
pub fn set_bounds(base: u64, len: u128) -> Set
    requires { base + len ≤ 2 ^ 64 }
    // The granted span is the request rounded to its granule: 1 byte below 4,096 bytes, otherwise
    // the smallest power of two that is coarse enough.
    ensures granted { IsGranted (span_from base len) result.granted }
    // `exact` says whether the request is granted unchanged.
    ensures exact { IsTrue result.exact ↔ IsSound (span_from base len) }
    // The stored fields encode the granted span.
    ensures fields { HasBoundsFields result.granted (ie_of result.granted) (t_of result.granted) (b_of result.granted) }
    // Fields with this encoding, at any representable address, decode to the granted span.
    ensures decodes { DecodesBack result.granted }
    // The granted span covers the request, and equals it below 4,096 bytes. Otherwise it exceeds
    // the request by less than a granule on each side, and 511 granules are shorter than the
    // request.
    ensures tight { IsTight (span_from base len) result.granted }
    // The granted span lies within the bounds of each of the 2^128 words whose bounds cover the
    // request, including bounds with tops past 2^64.
    ensures tightest { IsTightest (span_from base len) result.granted }
{
    encode(&Span {
        base,
        top: u128::from(base) + len,
    })
}
