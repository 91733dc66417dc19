//! The rules of derivation on words, for callers that keep words and tags and do not need a
//! [`Cap`].
//!
//! Each rule accepts any words. It returns the word that the function of the same name of [`Cap`]
//! derives from their capabilities, or a refusal: first `NotCanonical`, for a word that no
//! capability has, and then the refusals of that function. [`rebuild`] checks its authority before
//! its word. [`is_subset`] refuses nothing. Tags are up to the caller: each word is treated as
//! tagged, and no [`Cap`] is returned.
//!
//! Each word that a rule returns is canonical, and a subset of the word that it is made of, as
//! [`is_subset`] compares words. This is the law
//! `rules_on_words_are_monotonic` of `cc_laws`.
ghost use Rattle.std.specs.Prelude.{◌≡◌, ◌+◌, ◌-◌, ◌*◌, ◌^◌, ◌↔◌, IsTrue, IfOk};
ghost use Rattle.cc_word.specs.Word.{bit_of, word_of};
ghost use Rattle.cc_word.specs.declared.fields.Fields.{Fields as FieldsSpec};
ghost use Rattle.cc_word.specs.Permissions.{bits_of};
ghost use Rattle.cc_cap.specs.Capability.{Capability, GrantsNoMore};
ghost use Rattle.cc_cap.specs.Canonical.{IsWordOf, IsCanonical};
ghost use Rattle.cc_cap.specs.Cap.{IsReadFrom};
ghost use Rattle.cc_cap.specs.Derivation.{SetsAddress, Increments, SetsBounds, SetsExactBounds, MasksPermissions};
ghost use Rattle.cc_cap.specs.Derivation.{SetsFlag, Seals, Unseals, Rebuilds};
ghost use Rattle.cc_cap.specs.WordRules.{InWords, OnWord, OnWords, IsSubset};

use crate::cap::Cap;
use bitflags::Flags;
use cc_bounds::decode;
use cc_word::{Fields, Perms, Refusal, unpack};

/// Returns the word at another address, with the same bounds.
///
/// Errors, in order: `NotCanonical`; `Sealed`; `Unrepresentable`.
/// Instruction: CSetAddr.
pub fn set_address(word: u128, address: u64) -> Result<u128, Refusal>
    ensures made { OnWord (λ cap. SetsAddress cap address) word result }
{
    let cap = Cap::of_unsealed_word(word)?;
    own_word(cap.set_address(address), with_address(word, address))
}

/// Returns the word with `amount` added to its address, modulo 2^64.
///
/// Errors, in order: `NotCanonical`; `Sealed`; `Unrepresentable`.
/// Instruction: CIncOffset.
pub fn increment(word: u128, amount: u64) -> Result<u128, Refusal>
    ensures made { OnWord (λ cap. Increments cap amount) word result }
{
    let cap = Cap::of_unsealed_word(word)?;
    let address = cap.address().wrapping_add(amount);
    own_word(cap.increment(amount), with_address(word, address))
}

/// Returns the word with the bounds of `len` bytes from its address, rounded if they cannot be
/// stored exactly.
///
/// Every `len` is accepted: above 2^64 it is out of bounds.
///
/// Errors, in order: `NotCanonical`; `Sealed`; `OutOfBounds`.
/// Instruction: CSetBounds.
#[inline(always)]
pub fn set_bounds(word: u128, len: u128) -> Result<u128, Refusal>
    ensures made { OnWord (λ cap. SetsBounds cap len) word result }
{
    let cap = Cap::of_unsealed_word(word)?;
    in_words(cap.bounded(len, false))
}

/// Returns the word with exactly the bounds of `len` bytes from its address.
///
/// Every `len` is accepted: above 2^64 it is out of bounds.
///
/// Errors, in order: `NotCanonical`; `Sealed`; `OutOfBounds`; `Inexact`.
/// Instruction: CSetBoundsExact.
#[inline(always)]
pub fn set_bounds_exact(word: u128, len: u128) -> Result<u128, Refusal>
    ensures made { OnWord (λ cap. SetsExactBounds cap len) word result }
{
    let cap = Cap::of_unsealed_word(word)?;
    in_words(cap.bounded(len, true))
}

/// Returns the word with the permissions that are also in the mask.
///
/// Errors, in order: `NotCanonical`; `Sealed`.
/// Instruction: CAndPerm.
pub fn and_perms(word: u128, mask: Perms) -> Result<u128, Refusal>
    ensures made { OnWord (λ cap. MasksPermissions cap (bits_of mask)) word result }
{
    let cap = Cap::of_unsealed_word(word)?;
    own_word(
        cap.and_perms(mask),
        with_perms(word, cap.perms().intersection(mask)),
    )
}

/// Returns the word with its flag set to `flag`.
///
/// Errors, in order: `NotCanonical`; `Sealed`.
/// Instruction: CSetFlags.
pub fn set_flag(word: u128, flag: bool) -> Result<u128, Refusal>
    ensures made { OnWord (λ cap. SetsFlag cap flag) word result }
{
    let cap = Cap::of_unsealed_word(word)?;
    own_word(cap.set_flag(flag), with_flag(word, flag))
}

/// Returns the word sealed with the authority's address as its type.
///
/// Errors, in order: `NotCanonical`, for the word or the authority; then those of [`Cap::seal`]:
/// `Sealed`; `MissingPermission`; `OutOfBounds`; `ReservedType`.
/// Instruction: CSeal.
pub fn seal(word: u128, authority: u128) -> Result<u128, Refusal>
    ensures made { OnWords Seals word authority result }
{
    let cap = read(word)?;
    let authority = read(authority)?;
    in_words(cap.seal(&authority))
}

/// Returns the sealed word unsealed.
///
/// It keeps GLOBAL only if the authority has it too.
///
/// Errors, in order: `NotCanonical`, for the word or the authority; then those of [`Cap::unseal`]:
/// `Unsealed`; `Sealed`; `MissingPermission`; `OutOfBounds`; `TypeMismatch`.
/// Instruction: CUnseal.
pub fn unseal(word: u128, authority: u128) -> Result<u128, Refusal>
    ensures made { OnWords Unseals word authority result }
{
    let cap = read(word)?;
    let authority = read(authority)?;
    in_words(cap.unseal(&authority))
}

/// Returns the word itself, if its capability grants no more than the authority.
///
/// Errors, in order: `NotCanonical`, for the authority; then those of [`Cap::rebuild`]: `Sealed`,
/// for the authority; `NotCanonical`, for the word; `ExceedsAuthority`.
/// Instruction: CBuildCap.
pub fn rebuild(authority: u128, word: u128) -> Result<u128, Refusal>
    ensures made { OnWord (λ cap. Rebuilds cap word) authority result }
{
    let authority = read(authority)?;
    own_word(Cap::rebuild(&authority, word), word)
}

/// Returns whether the inner word begins and ends within the outer, and the outer has all its
/// permissions.
///
/// It accepts any two words, and compares the bounds that they decode to. Their types, flags and
/// reserved bits are not examined.
///
/// Instruction: CTestSubset, for words with equal tags.
pub fn is_subset(inner: u128, outer: u128) -> bool
    ensures words { (one other : FieldsSpec) → word_of one ≡ inner → word_of other ≡ outer
        → (IsTrue result ↔ IsSubset one other) }
    // For words of capabilities: true if and only if the inner capability grants no more than the
    // outer one.
    ensures capabilities { (one other : Capability) → IsWordOf one inner → IsWordOf other outer
        → (IsTrue result ↔ GrantsNoMore one other) }
{
    is_subset_of(&unpack(inner), &unpack(outer))
}

// Returns whether the bounds and the permissions of these fields are within the others'.
fn is_subset_of(inner: &Fields, outer: &Fields) -> bool
    ensures { IsTrue result ↔ IsSubset inner.now outer.now }
{
    let bytes = decode(inner).is_within(&decode(outer));
    bytes && outer.perms & inner.perms == inner.perms
}

// Returns the capability of a word, or `NotCanonical` if no capability has it.
#[inline(always)]
fn read(word: u128) -> Result<Cap, Refusal>
    ensures { IsReadFrom word result }
{
    match Cap::of_word(word) {
        Some(cap) => Ok(cap),
        None => Err(Refusal::NotCanonical),
    }
}

// Returns the word of the capability that was made, or the same refusal.
fn in_words(made: Result<Cap, Refusal>) -> Result<u128, Refusal>
    ensures { InWords made result }
{
    match made {
        Ok(cap) => Ok(cap.word()),
        Err(refusal) => Err(refusal),
    }
}

// Returns the word at another address.
fn with_address(word: u128, address: u64) -> u128
    ensures { (fields : FieldsSpec) → word_of fields ≡ word → result ≡ word - fields.address + address }
{
    (word >> 64 << 64) + u128::from(address)
}

// Returns the word with another flag.
fn with_flag(word: u128, flag: bool) -> u128
    ensures { (fields : FieldsSpec) → word_of fields ≡ word
        → result ≡ word - bit_of fields.flag * 2 ^ 109 + bit_of flag * 2 ^ 109 }
{
    word - (u128::from(unpack(word).flag) << 109) + (u128::from(flag) << 109)
}

// Returns the word with other permissions.
fn with_perms(word: u128, perms: Perms) -> u128
    ensures { (fields : FieldsSpec) → word_of fields ≡ word
        → result ≡ word - fields.perms * 2 ^ 112 + bits_of perms * 2 ^ 112 }
{
    word - (u128::from(unpack(word).perms) << 112) + (u128::from(perms.bits()) << 112)
}

// Returns `word` if its capability was made, without packing it again, or the same refusal.
fn own_word(made: Result<Cap, Refusal>, word: u128) -> Result<u128, Refusal>
    requires { IfOk made (λ cap. IsWordOf cap word) }
    ensures { InWords made result }
{
    match made {
        Ok(_) => Ok(word),
        Err(refusal) => Err(refusal),
    }
}
