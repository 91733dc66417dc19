//! Capabilities, and the functions that derive them.
ghost use Rattle.std.specs.Prelude.{◌≡◌, ◌↔◌, IsTrue};
ghost use Rattle.cc_word.specs.Permissions.{bits_of};
ghost use Rattle.cc_word.specs.Word.{word_of};
ghost use Rattle.cc_word.specs.ObjType.{unsealed_type};
ghost use Rattle.cc_word.specs.declared.fields.Fields.{Fields as FieldsSpec};
ghost use Rattle.cc_cap.specs.Capability.{unsealed_permissions};
ghost use Rattle.cc_cap.specs.Cap.{IsRefusedWord};

use bitflags::Flags;
use cc_bounds::{ADDRESS_SPACE, Set, Span, represents};
use cc_word::{Fields, ObjType, Perms, Refusal, pack, unpack};
use std::marker::Model;

/// A capability: bounds, an address, permissions, a flag and an object type.
///
/// It is tagged, and cannot be forged: its fields are private, only the functions of this type
/// create one, and its invariant is proved whenever one is created. Each of these functions except
/// [`Cap::root`] derives it from one or two others, or refuses. Its word is canonical.
///
/// The clause `made` of a function says exactly what it creates, when it refuses, and with which
/// reason. `monotonic` says that the created capability grants no more than `self`, or for
/// [`Cap::rebuild`] than the authority.
///
/// Source: UCAM-CL-TR-987, the capability instructions.
#[derive(Clone, Copy, Debug)]
pub struct Cap {
    set: Set,
    address: u64,
    perms: Perms,
    flag: bool,
    otype: ObjType,
}

impl Model for Cap {
    ghost use Rattle.cc_cap.specs.Capability.{Capability};

    ghost Value = { Capability };

    ghost use Rattle.cc_cap.specs.Cap.{value_of, IsWellFormed, inside_of, inside_of-value_of};

    ghost view = { value_of };

    ghost invariant = { IsWellFormed };

    ghost inverse = { inside_of };

    ghost inverse_ok = { inside_of-value_of };
}

impl PartialEq for Cap {
    ghost use Rattle.std.specs.Prelude.{◌==◌};
    ghost use Rattle.std.proofs.Common.{rules};
    ghost use Rattle.std.specs.Cmp.Rules.{comparing};
    ghost use Rattle.cc_cap.specs.Canonical.{word_of_capability};

    // Two capabilities are equal if and only if their words are equal.
    ghost eq = { λ one other. word_of_capability one == word_of_capability other };

    ghost laws = { Prim.search (comparing, rules) };

    fn eq(&self, other: &Cap) -> bool {
        self.word() == other.word()
    }
}

impl Eq for Cap {
    ghost use Rattle.std.proofs.Common.{rules};
    ghost use Rattle.std.specs.Cmp.Rules.{comparing};

    ghost laws = { Prim.search (comparing, rules) };
}

impl Cap {
    ghost use Rattle.std.specs.Prelude.{ℕ, false, ◌≡◌, ◌↔◌, ◌≤◌, ◌^◌, IsTrue, IfOk, Ok, MatchOption, MatchResult};
    ghost use Rattle.cc_bounds.specs.Granule.{IsSound};
    ghost use Rattle.cc_bounds.specs.Span.{IsSpan, IsWithin, length_of};
    ghost use Rattle.cc_bounds.specs.Encoding.{ie_of, t_of, b_of};
    ghost use Rattle.cc_cap.specs.Cap.{ChecksAuthority, IsUnsealedFrom};
    ghost use Rattle.cc_cap.specs.Capability.{Capability, IsCapability, IsSealed, IsUnsealed, GrantsNoMore};
    ghost use Rattle.cc_cap.specs.Capability.{at_address, root_capability, with_span};
    ghost use Rattle.cc_cap.specs.Canonical.{IsWordOf, IsCanonical, word_of_capability};
    ghost use Rattle.cc_cap.specs.Reach.{IsReachable};
    ghost use Rattle.cc_cap.specs.Derivation.{SetsAddress, Increments, SetsBounds, SetsExactBounds, SetsBoundsBy};
    ghost use Rattle.cc_cap.specs.Derivation.{MasksPermissions, SetsFlag, Seals, Unseals, Rebuilds};

    /// Returns the root capability: every permission over every address, at address 0 and unsealed.
    pub fn root() -> Cap
        ensures { result ≡ root_capability }
    {
        Cap {
            set: cc_bounds::set_bounds(0, ADDRESS_SPACE).as_exact(),
            address: 0,
            perms: Perms::all(),
            flag: false,
            otype: ObjType::UNSEALED,
        }
    }

    /// Returns this capability at another address, with the same bounds.
    ///
    /// The address may be outside the bounds. Nothing is granted there.
    ///
    /// Errors, in order: `Sealed`; `Unrepresentable`, if the word would decode to other bounds at
    /// this address.
    /// Instruction: CSetAddr.
    #[inline(always)]
    pub fn set_address(&self, address: u64) -> Result<Cap, Refusal>
        ensures made { SetsAddress self.now address result }
        ensures monotonic { IfOk result (λ cap. GrantsNoMore cap self.now) }
    {
        if self.is_sealed() {
            return Err(Refusal::Sealed);
        }
        if !represents(&self.set, address) {
            return Err(Refusal::Unrepresentable);
        }
        Ok(Cap { address, ..*self })
    }

    /// Returns this capability with `amount` added to its address, modulo 2^64.
    ///
    /// Errors, in order: `Sealed`; `Unrepresentable`.
    /// Instruction: CIncOffset.
    #[inline(always)]
    pub fn increment(&self, amount: u64) -> Result<Cap, Refusal>
        ensures made { Increments self.now amount result }
        ensures monotonic { IfOk result (λ cap. GrantsNoMore cap self.now) }
    {
        self.set_address(self.address.wrapping_add(amount))
    }

    /// Returns this capability with the bounds of `len` bytes from its address.
    ///
    /// Bounds that cannot be stored exactly are rounded outward, but never beyond the current
    /// bounds. The address does not change.
    ///
    /// Requires: `len <= 2^64`.
    /// Errors, in order: `Sealed`; `OutOfBounds`, unless the requested bounds are within the current
    /// ones.
    /// Instruction: CSetBounds.
    #[inline(always)]
    pub fn set_bounds(&self, len: u128) -> Result<Cap, Refusal>
        requires { len ≤ 2 ^ 64 }
        ensures made { SetsBounds self.now len result }
        ensures monotonic { IfOk result (λ cap. GrantsNoMore cap self.now) }
    {
        if self.is_sealed() {
            return Err(Refusal::Sealed);
        }
        self.bounded(len, false)
    }

    /// Returns this capability with exactly the bounds of `len` bytes from its address.
    ///
    /// The address does not change.
    ///
    /// Requires: `len <= 2^64`.
    /// Errors, in order: `Sealed`; `OutOfBounds`, unless the requested bounds are within the current
    /// ones; `Inexact`, if they cannot be stored without rounding.
    /// Instruction: CSetBoundsExact.
    #[inline(always)]
    pub fn set_bounds_exact(&self, len: u128) -> Result<Cap, Refusal>
        requires { len ≤ 2 ^ 64 }
        ensures made { SetsExactBounds self.now len result }
        ensures monotonic { IfOk result (λ cap. GrantsNoMore cap self.now) }
    {
        if self.is_sealed() {
            return Err(Refusal::Sealed);
        }
        self.bounded(len, true)
    }

    /// Returns this capability with its address at the start of a span, and exactly the bounds of
    /// the span.
    ///
    /// It is the result of [`Cap::set_address`] and then of [`Cap::set_bounds_exact`]. Neither
    /// refuses such a span, so nothing is tested.
    ///
    /// Requires: the capability is unsealed; the span is sound, and within the bounds.
    /// Instructions: CSetAddr and CSetBoundsExact.
    #[inline(always)]
    pub fn carve(&self, span: Span) -> Cap
        requires unsealed { IsUnsealed self.now }
        requires in_bounds { IsWithin span self.now.span }
        requires is_span { IsSpan span }
        requires sound { IsSound span }
        ensures made { result ≡ with_span (at_address self.now span.base) span }
        // Setting the address to the start of the span, and then exact bounds of its length, gives
        // this capability.
        ensures derived { SetsAddress self.now span.base (Ok (at_address self.now span.base))
            × SetsExactBounds (at_address self.now span.base) (length_of span) (Ok result) }
        ensures monotonic { GrantsNoMore result self.now }
    {
        Cap {
            set: Set::of_sound(span),
            address: span.base,
            ..*self
        }
    }

    /// Returns this capability with the permissions that are also in the mask.
    ///
    /// Errors: `Sealed`.
    /// Instruction: CAndPerm.
    #[tactic(auto, using(crate::proofs::DerivationLemmas::permissions_stay))]
    #[inline(always)]
    pub fn and_perms(&self, mask: Perms) -> Result<Cap, Refusal>
        ensures made { MasksPermissions self.now (bits_of mask) result }
        ensures monotonic { IfOk result (λ cap. GrantsNoMore cap self.now) }
    {
        if self.is_sealed() {
            return Err(Refusal::Sealed);
        }
        let perms = self.perms.intersection(mask);
        Ok(Cap { perms, ..*self })
    }

    /// Returns this capability with its flag set to `flag`.
    ///
    /// Errors: `Sealed`.
    /// Instruction: CSetFlags.
    #[inline(always)]
    pub fn set_flag(&self, flag: bool) -> Result<Cap, Refusal>
        ensures made { SetsFlag self.now flag result }
        ensures monotonic { IfOk result (λ cap. GrantsNoMore cap self.now) }
    {
        if self.is_sealed() {
            return Err(Refusal::Sealed);
        }
        Ok(Cap { flag, ..*self })
    }

    /// Returns this capability sealed with the authority's address as its type.
    ///
    /// Errors, in order: `Sealed`, if either is sealed; `MissingPermission`, unless the authority
    /// has SEAL; `OutOfBounds`, unless its address is in its bounds; `ReservedType`, for an address
    /// above 0x3ffef.
    /// Instruction: CSeal.
    pub fn seal(&self, authority: &Cap) -> Result<Cap, Refusal>
        ensures made { Seals self.now authority.now result }
        ensures monotonic { IfOk result (λ cap. GrantsNoMore cap self.now) }
    {
        if self.is_sealed() || authority.is_sealed() {
            return Err(Refusal::Sealed);
        }
        authority.check_authority(Perms::SEAL)?;
        let Some(otype) = ObjType::sealing(authority.address) else {
            return Err(Refusal::ReservedType);
        };
        Ok(Cap { otype, ..*self })
    }

    /// Returns this sealed capability unsealed.
    ///
    /// It keeps GLOBAL only if the authority has it too.
    ///
    /// Errors, in order: `Unsealed`, if it is not sealed; `Sealed`, if the authority is sealed;
    /// `MissingPermission`, unless the authority has UNSEAL; `OutOfBounds`, unless its address is
    /// in its bounds; `TypeMismatch`, unless its address is the type.
    /// Instruction: CUnseal.
    #[tactic(auto, using(crate::proofs::DerivationLemmas::permissions_stay))]
    pub fn unseal(&self, authority: &Cap) -> Result<Cap, Refusal>
        ensures made { Unseals self.now authority.now result }
        ensures monotonic { IfOk result (λ cap. GrantsNoMore cap self.now) }
    {
        if !self.is_sealed() {
            return Err(Refusal::Unsealed);
        }
        if authority.is_sealed() {
            return Err(Refusal::Sealed);
        }
        authority.check_authority(Perms::UNSEAL)?;
        if authority.address != u64::from(self.otype.bits()) {
            return Err(Refusal::TypeMismatch);
        }
        let perms = unsealed_perms(self.perms, authority.perms);
        Ok(Cap {
            perms,
            otype: ObjType::UNSEALED,
            ..*self
        })
    }

    /// Returns the capability of a word, if it grants no more than the authority.
    ///
    /// Either flag is accepted. This function adds no power: the other functions derive the same
    /// capability from the authority.
    ///
    /// Errors, in order: `Sealed`, if the authority is sealed; `NotCanonical`, if no capability has
    /// the word; `ExceedsAuthority`, if its capability is sealed, has bounds that are not within
    /// the authority's, or has a permission that the authority lacks.
    pub fn rebuild(authority: &Cap, word: u128) -> Result<Cap, Refusal>
        ensures made { Rebuilds authority.now word result }
        ensures monotonic { IfOk result (λ cap. GrantsNoMore cap authority.now) }
        // Five calls of the other functions derive it from the authority too, and none is refused.
        ensures reached { IfOk result (λ cap. IsReachable authority.now cap) }
    {
        if authority.is_sealed() {
            return Err(Refusal::Sealed);
        }
        let Some(cap) = Cap::of_word(word) else {
            return Err(Refusal::NotCanonical);
        };
        if !cap.is_allowed_by(authority) {
            return Err(Refusal::ExceedsAuthority);
        }
        Ok(cap)
    }

    /// Returns the capability's word, which is canonical, and which no other capability has.
    ///
    /// Source: UCAM-CL-TR-987, the compressed capability encoding.
    #[inline(always)]
    pub fn word(&self) -> u128
        ensures word { IsWordOf self.now result }
        ensures computed { result ≡ word_of_capability self.now }
        // The capability has no other word.
        ensures one_word { (word : ℕ) → IsWordOf self.now word → word ≡ result }
        // No other capability has the word.
        ensures one_capability { (other : Capability) → IsWordOf other result → other ≡ self.now }
    {
        pack(&self.fields())
    }

    /// Returns the bounds, which are sound, and for which the address is representable.
    ///
    /// Instructions: CGetBase and CGetLen.
    pub fn span(&self) -> Span
        ensures span { result ≡ self.now.span }
        ensures is_capability { IsCapability self.now }
    {
        self.set.granted()
    }

    /// Returns the capability's own address, which may be outside its bounds.
    ///
    /// Instruction: CGetAddr.
    pub fn address(&self) -> u64
        ensures { result ≡ self.now.address }
    {
        self.address
    }

    /// Returns the permissions.
    ///
    /// Instruction: CGetPerm.
    pub fn perms(&self) -> Perms
        ensures { bits_of result ≡ self.now.permissions }
    {
        self.perms
    }

    /// Returns the flag: whether code runs in capability mode.
    ///
    /// Instruction: CGetFlags.
    pub fn flag(&self) -> bool
        ensures { result ≡ self.now.flag }
    {
        self.flag
    }

    /// Returns the object type.
    ///
    /// Instruction: CGetType, which returns -1 for the unsealed type.
    pub fn otype(&self) -> ObjType
        ensures { result ≡ self.now.otype }
    {
        self.otype
    }

    /// Returns whether the capability is sealed.
    ///
    /// Instruction: CGetSealed.
    pub fn is_sealed(&self) -> bool
        ensures sealed { IsTrue result ↔ IsSealed self.now }
        ensures unsealed { (result ≡ false) ↔ IsUnsealed self.now }
    {
        ObjType::is_sealed(self.otype)
    }

    fn fields(&self) -> Fields
        ensures permissions { result.perms ≡ self.now.permissions }
        ensures reserved { result.reserved ≡ 0 }
        ensures flag { result.flag ≡ self.now.flag }
        ensures otype { result.otype ≡ self.now.otype }
        ensures ie { result.ie ≡ ie_of self.now.span }
        ensures t { result.t ≡ t_of self.now.span }
        ensures b { result.b ≡ b_of self.now.span }
        ensures address { result.address ≡ self.now.address }
        ensures is_capability { IsCapability self.now }
    {
        Fields {
            perms: self.perms.bits(),
            reserved: 0,
            flag: self.flag,
            otype: self.otype.bits(),
            ie: self.set.ie(),
            t: self.set.t(),
            b: self.set.b(),
            address: self.address,
        }
    }

    // Returns this unsealed capability with the bounds of `len` bytes from its address, exactly these
    // if `exact`, or `OutOfBounds`, or `Inexact`.
    #[inline(always)]
    pub(crate) fn bounded(&self, len: u128, exact: bool) -> Result<Cap, Refusal>
        requires { IsUnsealed self.now }
        ensures made { SetsBoundsBy exact self.now len result }
        ensures monotonic { IfOk result (λ cap. GrantsNoMore cap self.now) }
    {
        let span = self.span();
        let Some(room) = span.top.checked_sub(u128::from(self.address)) else {
            return Err(Refusal::OutOfBounds);
        };
        if self.address < span.base || len > room {
            return Err(Refusal::OutOfBounds);
        }
        let set = cc_bounds::set_bounds(self.address, len);
        if exact && !set.exact() {
            return Err(Refusal::Inexact);
        }
        // the word stores the granted bounds exactly, also those that are wider than the requested ones
        Ok(Cap {
            set: set.as_exact(),
            ..*self
        })
    }

    // Checks the permission, and then that the address is in the bounds: `MissingPermission`,
    // `OutOfBounds`.
    fn check_authority(&self, permission: Perms) -> Result<(), Refusal>
        ensures { ChecksAuthority self.now (bits_of permission) result }
    {
        if !self.perms.contains(permission) {
            return Err(Refusal::MissingPermission);
        }
        let span = self.span();
        if !span.contains(self.address) {
            return Err(Refusal::OutOfBounds);
        }
        Ok(())
    }

    // Returns whether the authority may rebuild this capability: it is unsealed, and grants no
    // more.
    fn is_allowed_by(&self, authority: &Cap) -> bool
        ensures allowed { IsTrue result ↔ (IsUnsealed self.now × GrantsNoMore self.now authority.now) }
        ensures authority { IsCapability authority.now }
    {
        self.span().is_within(&authority.span())
            && authority.perms.contains(self.perms)
            && !self.is_sealed()
    }

    // Returns the capability of the word of an unsealed one, or the refusal of another word:
    // `NotCanonical`, or `Sealed`. It is `of_word` in fewer steps, for the words of most calls.
    #[inline(always)]
    pub(crate) fn of_unsealed_word(word: u128) -> Result<Cap, Refusal>
        ensures { IsUnsealedFrom word result }
    {
        if !is_plain(word) {
            return Err(refusal_of(word));
        }
        let fields = unpack(word);
        let Some(set) = Set::of_fields(&fields) else {
            return Err(Refusal::NotCanonical);
        };
        Ok(Cap {
            set,
            address: fields.address,
            perms: Perms::from_bits_retain(fields.perms),
            flag: fields.flag,
            otype: ObjType::UNSEALED,
        })
    }

    // Returns the capability of a word, or `None` for a word that is not canonical.
    #[inline(always)]
    pub(crate) fn of_word(word: u128) -> Option<Cap>
        ensures { MatchOption result (¬ IsCanonical word) (λ cap. IsWordOf cap word) }
    {
        let fields = unpack(word);
        if fields.reserved != 0 {
            return None;
        }
        let otype = ObjType::from_bits(fields.otype)?;
        let set = Set::of_fields(&fields)?;
        Some(Cap {
            set,
            address: fields.address,
            perms: Perms::from_bits_retain(fields.perms),
            flag: fields.flag,
            otype,
        })
    }
}

/// Returns whether no reserved bit of the word is set, and its type is unsealed.
///
/// A word has its type inverted, so the bits of both are then zero. The flag is between them.
fn is_plain(word: u128) -> bool
    ensures { (fields : FieldsSpec) → word_of fields ≡ word
        → (IsTrue result ↔ ((fields.reserved ≡ 0) × (fields.otype ≡ unsealed_type))) }
{
    let flag_between = (word >> 91) & 0x1f_ffff;
    flag_between == 0 || flag_between == 0x4_0000
}

/// Returns the refusal of a word with a reserved bit or a type other than unsealed: `Sealed` if it is
/// canonical, otherwise `NotCanonical`.
#[cold]
#[inline(never)]
fn refusal_of(word: u128) -> Refusal
    requires { (fields : FieldsSpec) → word_of fields ≡ word
        → ¬ ((fields.reserved ≡ 0) × (fields.otype ≡ unsealed_type)) }
    ensures { IsRefusedWord word result }
{
    if Cap::of_word(word).is_some() {
        Refusal::Sealed
    } else {
        Refusal::NotCanonical
    }
}

/// Returns the permissions that unsealing by an authority leaves: GLOBAL stays only if the
/// authority has it too.
fn unsealed_perms(perms: Perms, authority: Perms) -> Perms
    ensures { bits_of result ≡ unsealed_permissions (bits_of perms) (bits_of authority) }
{
    let kept = if authority.contains(Perms::GLOBAL) {
        Perms::all()
    } else {
        Perms::all().difference(Perms::GLOBAL)
    };
    perms.intersection(kept)
}
