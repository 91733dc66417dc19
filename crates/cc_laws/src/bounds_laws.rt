//! Laws of every word, of every request and of every sound span. The contract of each function is a
//! law, and its body is empty.
//!
//! Requests, granted spans and sound spans are spans of the address space (`IsSpan`), and lengths
//! are at most 2^64.
ghost use Rattle.std.specs.Prelude.{ℕ, Bool, ◌≡◌, ◌+◌, ◌%◌, ◌/◌, ◌^◌, ◌<◌, ◌≤◌, ◌↔◌, max};
ghost use Rattle.cc_word.specs.declared.fields.Fields.{Fields as FieldsSpec};
ghost use Rattle.cc_bounds.specs.declared.span.Span.{Span as SpanSpec};
ghost use Rattle.cc_bounds.specs.Span.{IsSpan, IsWithin, length_of, span_from, from_zero};
ghost use Rattle.cc_bounds.specs.Granule.{IsGranule, IsExponent, IsGranted, IsSound, granule_of, exponent_of};
ghost use Rattle.cc_bounds.specs.Granule.{granted_span, padded_size};
ghost use Rattle.cc_bounds.specs.Encoding.{HasBoundsFields, StoresSpan, ie_of, t_of, b_of};
ghost use Rattle.cc_bounds.specs.Window.{IsRepresentable, Represents};
ghost use Rattle.cc_bounds.specs.Decoding.{stored_exponent, IsTopMantissa, IsWindow, IsPlaced, IsTopBeside};
ghost use Rattle.cc_bounds.specs.Decoding.{DecodesTo, SharesBoundsFields, EveryBitCounts, ExactlyOne};
ghost use Rattle.cc_bounds.specs.Tightest.{IsDecoded};
ghost use Rattle.cc_laws.specs.Margin.{IsNear};

/// Proves that each relation that defines decoding has exactly one number, and so every word one
/// span.
///
/// The relations are `IsTopMantissa`, `IsWindow`, `IsPlaced` for a mantissa below 2^14,
/// `IsTopBeside` for a base below 2^64, and `DecodesTo`.
pub fn every_word_decodes_once()
    ensures top_mantissa { (fields : FieldsSpec) → ExactlyOne (IsTopMantissa fields) }
    ensures window { (fields : FieldsSpec) → ExactlyOne (IsWindow fields) }
    ensures place { (fields : FieldsSpec) (mantissa : ℕ) → mantissa < 2 ^ 14 → ExactlyOne (IsPlaced fields mantissa) }
    ensures top { (exponent base place : ℕ) → base < 2 ^ 64 → ExactlyOne (IsTopBeside exponent base place) }
    ensures span { (fields : FieldsSpec) → ExactlyOne (DecodesTo fields) }
{}

/// Proves that every request has exactly one granule, one exponent and one granted span, and that
/// every span has one set of bounds fields: those of the executable definitions.
pub fn every_request_is_encoded_once()
    ensures granule { (request : SpanSpec) (granule : ℕ) → IsSpan request
        → (IsGranule request granule ↔ (granule ≡ granule_of request)) }
    ensures exponent { (request : SpanSpec) (exponent : ℕ) → IsSpan request
        → (IsExponent request exponent ↔ (exponent ≡ exponent_of request)) }
    ensures granted { (request granted : SpanSpec) → IsSpan request
        → (IsGranted request granted ↔ (granted ≡ granted_span request)) }
    ensures fields { (span : SpanSpec) (ie : Bool) (t b : ℕ) → IsSpan span
        → (HasBoundsFields span ie t b ↔ ((ie ≡ ie_of span) × (t ≡ t_of span) × (b ≡ b_of span))) }
{}

/// Proves that the granted span of a request is sound, and has the exponent of the request.
pub fn granted_spans_are_sound()
    ensures is_span { (request granted : SpanSpec) → IsSpan request → IsGranted request granted → IsSpan granted }
    ensures sound { (request granted : SpanSpec) → IsSpan request → IsGranted request granted → IsSound granted }
    ensures exponent { (request granted : SpanSpec) → IsSpan request → IsGranted request granted
        → exponent_of granted ≡ exponent_of request }
{}

/// Proves that a span is sound if and only if some word decodes to it.
pub fn sound_spans_are_those_decoded()
    ensures { (span : SpanSpec) → IsSpan span → (IsSound span ↔ IsDecoded span) }
{}

/// Proves that a word stores the span that it decodes to if and only if this is a span of the
/// address space and every bit of the word's bounds fields counts.
///
/// So a test of whether a word is canonical needs to encode nothing.
pub fn words_store_what_they_decode_to()
    ensures { (fields : FieldsSpec) (span : SpanSpec) → DecodesTo fields span
        → (StoresSpan fields span ↔ (IsSpan span × EveryBitCounts fields)) }
{}

/// Proves that a span is sound if it begins at a multiple of the granule of a length and has the
/// representable length of that length.
///
/// The representable length is at least the length, at most 1/512 more, and at most 2^64.
pub fn padded_spans_are_sound()
    ensures sound { (start size : ℕ) → size ≤ 2 ^ 64 → start % granule_of (from_zero size) ≡ 0
        → IsSpan (span_from start (padded_size size)) → IsSound (span_from start (padded_size size)) }
    ensures enough { (size : ℕ) → size ≤ 2 ^ 64 → size ≤ padded_size size }
    ensures little { (size : ℕ) → size ≤ 2 ^ 64 → padded_size size ≤ size + size / 512 }
    ensures fits { (size : ℕ) → size ≤ 2 ^ 64 → padded_size size ≤ 2 ^ 64 }
{}

/// Proves that a sound span of at least `size` bytes begins at a multiple of the granule of `size`,
/// and is at least as long as the representable length of `size`.
///
/// With [`padded_spans_are_sound`], these are the least alignment and the least length of exact
/// bounds that can hold `size` bytes.
pub fn padded_sizes_are_least()
    ensures aligned { (span : SpanSpec) (size : ℕ) → IsSpan span → IsSound span → size ≤ length_of span
        → span.base % granule_of (from_zero size) ≡ 0 }
    ensures enough { (span : SpanSpec) (size : ℕ) → IsSpan span → IsSound span → size ≤ length_of span
        → padded_size size ≤ length_of span }
{}

/// Proves that a word keeps its bounds at another address if and only if this address is
/// representable for them, for every word, canonical or not.
///
/// The two words share their bounds fields, and can differ in every other field. At exponents of at
/// least 50, a word keeps its bounds at every address. For each word and each address there is
/// such another word.
pub fn representable_addresses_keep_bounds()
    ensures window { (fields other : FieldsSpec) (span : SpanSpec) → SharesBoundsFields fields other
        → DecodesTo fields span
        → (DecodesTo other span ↔ IsRepresentable span.base (stored_exponent fields) other.address) }
    ensures large { (fields other : FieldsSpec) (span : SpanSpec) → SharesBoundsFields fields other
        → DecodesTo fields span → 50 ≤ stored_exponent fields → DecodesTo other span }
    ensures every_address { (fields : FieldsSpec) (address : ℕ) → address < 2 ^ 64
        → ((other : FieldsSpec) × SharesBoundsFields fields other × (other.address ≡ address)) }
{}

/// Proves that bounds have a margin of representable addresses: every address from the section below
/// that of the base to the second section above that of the top.
///
/// A section has 2^(exponent + 11) bytes: at least 2,048, and more than a quarter of the span's
/// length. So an address is representable if it is at most a quarter of the length below the base, or
/// at most half of the length above the top. For worked spans, addresses one section further are not.
pub fn margin_around_bounds()
    ensures sections { (span : SpanSpec) (exponent address : ℕ) → IsSpan span → IsSound span → IsExponent span exponent
        → IsNear span exponent address → Represents span address }
    ensures bytes { (span : SpanSpec) (address : ℕ) → IsSpan span → IsSound span
        → span.base ≤ address + max 2048 (length_of span / 4) → address ≤ span.top + max 4096 (length_of span / 2)
        → Represents span address }
{}

/// Proves that a larger request is granted more: a request within another is granted bounds within
/// those that the other is granted.
///
/// So the representable length grows with the length. That of a representable length is itself.
pub fn larger_requests_are_granted_more()
    ensures within { (inner outer granted more : SpanSpec) → IsSpan inner → IsSpan outer → IsWithin inner outer
        → IsGranted inner granted → IsGranted outer more → IsWithin granted more }
    ensures padded { (size larger : ℕ) → size ≤ larger → larger ≤ 2 ^ 64 → padded_size size ≤ padded_size larger }
    ensures twice { (size : ℕ) → size ≤ 2 ^ 64 → padded_size (padded_size size) ≡ padded_size size }
{}
