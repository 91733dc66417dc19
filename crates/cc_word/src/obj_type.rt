//! The object types that a capability may have.
ghost use Rattle.std.specs.Prelude.{ℕ, ◌≡◌, ◌↔◌, ◌≤◌, IsTrue, IsSome, IfSome};
ghost use Rattle.cc_word.specs.ObjType.{IsObjType, last_sealing_type};

use std::marker::Model;

/// The last type that sealing gives. Of the 16 types above it, the last is unsealed and the others
/// are reserved.
const LAST_SEALING_TYPE: u32 = 0x3ffef;

/// The reserved type of a sealed entry, which only the hardware of the ISA creates.
pub const SENTRY_TYPE: u32 = 0x3fffe;

/// The type of an unsealed capability.
pub const UNSEALED_TYPE: u32 = 0x3ffff;

/// The object type of a capability: unsealed, or one of the types from 0 to 0x3ffef that sealing
/// gives.
///
/// No value is one of the reserved types from 0x3fff0 to 0x3fffe.
///
/// Source: UCAM-CL-TR-987, the object types of 128-bit capabilities.
#[derive(Clone, Copy, PartialEq, Eq, Debug)]
pub struct ObjType {
    bits: u32,
}

impl Model for ObjType {
    ghost Value = { ℕ };

    ghost view = { λ otype. otype.bits };

    ghost invariant = { λ otype. IsObjType otype.bits };

    ghost inverse = { λ bits. record { bits = bits } };
}

impl ObjType {
    /// The type of an unsealed capability, 0x3ffff.
    pub const UNSEALED: ObjType = ObjType {
        bits: UNSEALED_TYPE,
    };

    /// Returns the type that sealing gives for this number, an authority's address, or `None` for a
    /// number above 0x3ffef.
    pub fn sealing(number: u64) -> Option<ObjType>
        ensures found { IsSome result ↔ (number ≤ last_sealing_type) }
        ensures value { IfSome result (λ otype. otype ≡ number) }
    {
        if number <= u64::from(LAST_SEALING_TYPE) {
            Some(ObjType {
                bits: number as u32,
            })
        } else {
            None
        }
    }

    /// Returns the type of these 18 bits, or `None` for a reserved type, 0x3fff0 to 0x3fffe, or a
    /// number above 0x3ffff.
    pub fn from_bits(bits: u32) -> Option<ObjType>
        ensures found { IsSome result ↔ IsObjType bits }
        ensures value { IfSome result (λ otype. otype ≡ bits) }
    {
        if bits <= LAST_SEALING_TYPE || bits == UNSEALED_TYPE {
            Some(ObjType { bits })
        } else {
            None
        }
    }

    /// Returns the type's 18 bits: from 0 to 0x3ffef, or 0x3ffff.
    pub fn bits(self) -> u32
        ensures value { result ≡ self }
        // No type is a reserved one.
        ensures allowed { IsObjType self }
    {
        self.bits
    }

    /// Returns whether a capability of this type is sealed.
    pub fn is_sealed(self) -> bool
        ensures { IsTrue result ↔ (self ≤ last_sealing_type) }
    {
        self != ObjType::UNSEALED
    }
}
