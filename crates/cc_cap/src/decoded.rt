//! A word with its fields, its exponent and its bounds.
ghost use Rattle.std.specs.Prelude.{◌≡◌, ◌↔◌, IsTrue, MatchOption};
ghost use Rattle.cc_word.specs.Word.{word_of};
ghost use Rattle.cc_word.specs.ObjType.{IsObjType};
ghost use Rattle.cc_word.specs.declared.fields.Fields.{Fields as FieldsSpec};
ghost use Rattle.cc_bounds.specs.Decoding.{DecodesTo, exponent_field, stored_exponent};
ghost use Rattle.cc_bounds.specs.declared.span.Span.{Span as SpanSpec};
ghost use Rattle.cc_cap.specs.Canonical.{IsCanonical};
ghost use Rattle.cc_cap.specs.Defect.{HasDefect};

use crate::canonical::Defect;
use cc_bounds::{ADDRESS_SPACE, MAX_EXPONENT, Span, decode_with, exponent_field, stores_with};
use cc_word::{Fields, ObjType, unpack};

/// A decoded word: its fields, and the exponent and the bounds that they decode to.
///
/// Its methods do not decode the word again.
#[derive(Clone, Copy)]
pub struct Decoded {
    /// The fields of the word.
    pub fields: Fields,
    /// The exponent, from 0 to 52.
    pub exponent: u8,
    /// The bounds that the fields decode to.
    pub bounds: Span,
    // the exponent as the fields store it, from 0 to 63
    field: u8,
    pub ghost is_exponent: { exponent ≡ stored_exponent fields },
    pub ghost decodes: { (span : SpanSpec) → DecodesTo fields span → (span.base ≡ bounds.base)
        × (span.top ≡ bounds.top) },
    pub ghost is_field: { field ≡ exponent_field fields },
}

impl Decoded {
    /// Returns the fields, the exponent and the bounds of a word.
    #[inline(always)]
    pub fn of_word(word: u128) -> Decoded
        ensures word { word_of result.fields ≡ word }
        ensures decodes { DecodesTo result.fields result.bounds }
        ensures only_fields { (fields : FieldsSpec) → word_of fields ≡ word → fields ≡ result.fields }
        ensures only_bounds { (span : SpanSpec) → DecodesTo result.fields span → span ≡ result.bounds }
    {
        let fields = unpack(word);
        let field = exponent_field(&fields);
        Decoded {
            fields,
            exponent: field.min(MAX_EXPONENT) as u8,
            bounds: decode_with(&fields, field),
            field: field as u8,
        }
    }

    /// Returns whether the word is canonical: the word of some capability, sealed or not.
    #[inline(always)]
    pub fn is_canonical(&self) -> bool
        ensures { IsTrue result ↔ IsCanonical (word_of self.now.fields) }
    {
        self.defect().is_none()
    }

    /// Returns the first reason why the word is not canonical, or `None` if it is.
    #[inline(always)]
    pub fn defect(&self) -> Option<Defect>
        ensures { MatchOption result (IsCanonical (word_of self.now.fields))
            (λ defect. (¬ IsCanonical (word_of self.now.fields)) × HasDefect self.now.fields self.now.bounds defect) }
    {
        if self.fields.reserved != 0 {
            Some(Defect::ReservedBits)
        } else if !is_type(self.fields.otype) {
            Some(Defect::ReservedType)
        } else if stores_with(&self.fields, u64::from(self.field), &self.bounds) {
            None
        } else if self.bounds.top < u128::from(self.bounds.base) {
            Some(Defect::TopBelowBase)
        } else if self.bounds.top > ADDRESS_SPACE {
            Some(Defect::TopPastEnd)
        } else {
            Some(Defect::OtherFields)
        }
    }
}

/// Returns whether a capability may have the type: it is unsealed, or one that sealing gives.
fn is_type(otype: u32) -> bool
    ensures { IsTrue result ↔ IsObjType otype }
{
    ObjType::from_bits(otype).is_some()
}
