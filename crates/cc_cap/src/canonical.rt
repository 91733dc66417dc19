//! Canonical words: those that are the word of a capability.
ghost use Rattle.std.specs.Prelude.{◌↔◌, IsTrue};
ghost use Rattle.cc_cap.specs.Canonical.{IsCanonical};

use crate::cap::Cap;

/// Returns whether the word is canonical: the word of some capability, sealed or not.
///
/// It is not canonical if a reserved bit is set, if the type is reserved, or if no sound span has
/// these bounds fields at this address: another exponent field or other mantissas may decode to the
/// same bounds. [`crate::Decoded::defect`] returns the reason.
#[inline(always)]
pub fn is_canonical(word: u128) -> bool
    ensures { IsTrue result ↔ IsCanonical word }
{
    Cap::of_word(word).is_some()
}

/// The first of these reasons that applies to a word that is not canonical.
#[derive(Clone, Copy, PartialEq, Eq, Debug)]
pub enum Defect {
    /// A reserved bit is set.
    ReservedBits,
    /// The type is reserved: from 0x3fff0 to 0x3fffe.
    ReservedType,
    /// The top is below the base.
    TopBelowBase,
    /// The top is above 2^64.
    TopPastEnd,
    /// Setting the bounds that the word decodes to stores other bounds fields.
    OtherFields,
}
