//! The reason why a call was refused.
ghost use Rattle.std.specs.Prelude.{◌≡◌};
ghost use Rattle.cc_word.specs.Refusal.{code_of, name_of};

/// The reason why a call was refused.
///
/// One table serves every crate of the library. After a refusal, the state is as it was.
#[derive(Clone, Copy, PartialEq, Eq, Debug)]
pub enum Refusal {
    /// An input that is not the required command, number or word.
    Syntax = 1,
    /// An input that ends too early: in a line without its line feed, in a word of bytes, or in a core file.
    Unfinished = 2,
    /// A line of a script that has more than 128 bytes.
    TooLong = 3,
    /// A number that is over its limit.
    OutOfRange = 4,
    /// The number of a slot that does not exist.
    NoSlot = 5,
    /// A slot whose capability was revoked.
    Revoked = 6,
    /// A sealed capability that must be unsealed.
    Sealed = 7,
    /// An unsealed capability that must be sealed.
    Unsealed = 8,
    /// A request that is not within the capability's bounds, or an authority's address that is not
    /// within its own.
    OutOfBounds = 9,
    /// Requested bounds that cannot be stored without rounding.
    Inexact = 10,
    /// An address at which the word would decode to other bounds.
    Unrepresentable = 11,
    /// An authority that lacks the permission to seal or to unseal.
    MissingPermission = 12,
    /// An authority whose address is above 0x3ffef, the last type that sealing gives.
    ReservedType = 13,
    /// An authority whose address is not the type of the sealed capability.
    TypeMismatch = 14,
    /// A word that is not the word of a capability.
    NotCanonical = 15,
    /// A word that grants more than its authority, or is sealed.
    ExceedsAuthority = 16,
    /// A missing pool: none has been set.
    NoPool = 17,
    /// A second pool: one has already been set.
    PoolAlreadySet = 18,
    /// Size 0, which no object can have.
    ZeroSize = 19,
    /// The size of an object for which the pool has no place left.
    NoRoom = 20,
    /// The number of an object that does not exist, or of one that is not live if a live one is required.
    NoObject = 21,
    /// The limit on slots or objects: as many were created as it allows.
    Full = 22,
}

impl Refusal {
    /// Returns the number that scripts print for the refusal, from 1 to 22.
    pub fn code(self) -> u8
        ensures { result ≡ code_of self }
    {
        self as u8
    }

    /// Returns the name that scripts print for the refusal: one token in lower case.
    pub fn name(self) -> &'static str
        ensures { result.now ≡ name_of self }
    {
        match self {
            Refusal::Syntax => "syntax",
            Refusal::Unfinished => "unfinished",
            Refusal::TooLong => "long",
            Refusal::OutOfRange => "range",
            Refusal::NoSlot => "slot",
            Refusal::Revoked => "revoked",
            Refusal::Sealed => "sealed",
            Refusal::Unsealed => "unsealed",
            Refusal::OutOfBounds => "bounds",
            Refusal::Inexact => "inexact",
            Refusal::Unrepresentable => "unrepresentable",
            Refusal::MissingPermission => "permission",
            Refusal::ReservedType => "type",
            Refusal::TypeMismatch => "mismatch",
            Refusal::NotCanonical => "canonical",
            Refusal::ExceedsAuthority => "exceeds",
            Refusal::NoPool => "nopool",
            Refusal::PoolAlreadySet => "poolset",
            Refusal::ZeroSize => "zero",
            Refusal::NoRoom => "noroom",
            Refusal::NoObject => "object",
            Refusal::Full => "full",
        }
    }
}
