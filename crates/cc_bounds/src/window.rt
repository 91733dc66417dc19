//! The window of addresses at which bounds are representable.
ghost use Rattle.std.specs.Prelude.{◌≡◌, ◌≤◌, ◌↔◌, IsTrue};
ghost use Rattle.cc_word.specs.declared.fields.Fields.{Fields as FieldsSpec};
ghost use Rattle.cc_bounds.specs.declared.span.Span.{Span as SpanSpec};
ghost use Rattle.cc_bounds.specs.Window.{IsRepresentable, Represents};
ghost use Rattle.cc_bounds.specs.Encoding.{HasBoundsFields, StoresSpan};
ghost use Rattle.cc_bounds.specs.Decoding.{stored_exponent, DecodesTo, SharesBoundsFields};

use crate::decoding::{decode, exponent};
use crate::encoding::Set;
use cc_word::Fields;

/// Returns whether the address is in the window, which wraps around the end of the address space.
///
/// Sections are counted from address 0 up, and the window begins one section below that of the
/// base.
#[tactic(auto, using(crate::proofs::WindowLemmas::representable_test))]
fn is_representable(base: u64, exponent: u8, address: u64) -> bool
    requires { exponent ≤ 52 }
    ensures { IsTrue result ↔ IsRepresentable base exponent address }
{
    let section_width = exponent + 11;
    let start = (base >> section_width).wrapping_sub(1) << section_width;
    address.wrapping_sub(start) >> section_width < 8
}

/// Returns whether the address is representable for the bounds: whether a word with these bounds
/// fields decodes to these bounds at this address.
///
/// Every address within the bounds is representable, and so is their top if it is below 2^64. At
/// exponents of at least 50, every address is.
///
/// Source: UCAM-CL-TR-987, the representable region; Woodruff et al. 2019.
pub fn represents(set: &Set, address: u64) -> bool
    // True if and only if the address is in the cyclic window of the span.
    ensures window { IsTrue result ↔ Represents set.now.granted address }
    // True if and only if fields with this encoding, at this address, decode to the span.
    ensures decodes { (fields : FieldsSpec) → HasBoundsFields set.now.granted fields.ie fields.t fields.b
        → fields.address ≡ address → (IsTrue result ↔ DecodesTo fields set.now.granted) }
    ensures inside { set.now.granted.base ≤ address → address ≤ set.now.granted.top → IsTrue result }
{
    is_representable(set.granted().base, set.e(), address)
}

/// Returns whether a word with these bounds fields decodes to the same bounds at `address` as at its
/// own address.
///
/// The word can be any, canonical or not, and only the address is replaced. At exponents of at
/// least 50, the result is true. If the fields store a sound span, the result equals that of
/// [`represents`] for this span.
///
/// Source: UCAM-CL-TR-987, the representable region; Woodruff et al. 2019.
pub fn keeps_bounds(fields: &Fields, address: u64) -> bool
    // True if and only if fields with the same IE, T and B, at this address, decode to the same
    // bounds.
    ensures decodes { (other : FieldsSpec) (span : SpanSpec) → SharesBoundsFields fields.now other
        → other.address ≡ address → DecodesTo fields.now span → (IsTrue result ↔ DecodesTo other span) }
    // True if and only if the address is in the cyclic window of these bounds.
    ensures window { (span : SpanSpec) → DecodesTo fields.now span
        → (IsTrue result ↔ IsRepresentable span.base (stored_exponent fields.now) address) }
    ensures large { 50 ≤ stored_exponent fields.now → IsTrue result }
    ensures stored { (span : SpanSpec) → StoresSpan fields.now span → (IsTrue result ↔ Represents span address) }
{
    let bounds = decode(fields);
    is_representable(bounds.base, exponent(fields), address)
}
