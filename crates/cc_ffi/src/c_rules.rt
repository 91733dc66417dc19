//! The rules of derivation on words. Each function forwards to one of `cc_cap::words`, and has its
//! errors in the same order. The word that it returns is canonical, and a subset of the word that it
//! is made of: for `cheri_cap_rebuild`, of the authority's.
ghost use Rattle.std.specs.Prelude.{◌≡◌, ◌↔◌, IsTrue};
ghost use Rattle.cc_word.specs.declared.fields.Fields.{Fields as FieldsSpec};
ghost use Rattle.cc_cap.specs.Capability.{Capability, GrantsNoMore};
ghost use Rattle.cc_cap.specs.Canonical.{IsWordOf};
ghost use Rattle.cc_cap.specs.Derivation.{SetsAddress, Increments, SetsBounds, SetsExactBounds, MasksPermissions};
ghost use Rattle.cc_cap.specs.Derivation.{SetsFlag, Seals, Unseals, Rebuilds};
ghost use Rattle.cc_cap.specs.WordRules.{OnWord, OnWords, IsSubset, IsCanonicalSubset};
ghost use Rattle.cc_ffi.specs.Numbers.{number_of_halves};
ghost use Rattle.cc_ffi.specs.Words.{OfFields};
ghost use Rattle.cc_ffi.specs.Rules.{IsMadeWord, GivesResult, StoresRequest};

use crate::halves::{halves, number};
use crate::structs::MadeWord;
use cc_cap::{Flags, Perms, words};
use cc_word::Refusal;

/// Returns a result as C has it: the word with refusal 0, or zero halves with the refusal's code.
fn made_word(answer: Result<u128, Refusal>) -> MadeWord
    ensures { IsMadeWord answer result }
{
    let (word, refusal) = match answer {
        Ok(word) => (word, 0),
        Err(refusal) => (0, refusal.code()),
    };
    let word = halves(word);
    MadeWord {
        high: word.high,
        low: word.low,
        refusal,
    }
}

/// Returns the word at another address, with the same bounds.
///
/// Errors, in order: `NotCanonical`; `Sealed`; `Unrepresentable`.
/// Instruction: CSetAddr.
#[unsafe(no_mangle)]
pub extern "C" fn cheri_cap_set_address(high: u64, low: u64, address: u64) -> MadeWord
    ensures made { GivesResult (OnWord (λ cap. SetsAddress cap address) (number_of_halves high low)) result }
    ensures monotonic { result.refusal ≡ 0 → IsCanonicalSubset (number_of_halves result.high result.low)
        (number_of_halves high low) }
{
    made_word(words::set_address(number(high, low), address))
}

/// Returns the word with `amount` bytes added to its address, modulo 2^64.
///
/// Errors, in order: `NotCanonical`; `Sealed`; `Unrepresentable`.
/// Instruction: CIncOffset.
#[unsafe(no_mangle)]
pub extern "C" fn cheri_cap_increment(high: u64, low: u64, amount: u64) -> MadeWord
    ensures made { GivesResult (OnWord (λ cap. Increments cap amount) (number_of_halves high low)) result }
    ensures monotonic { result.refusal ≡ 0 → IsCanonicalSubset (number_of_halves result.high result.low)
        (number_of_halves high low) }
{
    made_word(words::increment(number(high, low), amount))
}

/// Returns the word with the bounds of `length` bytes from its address, rounded if they cannot be
/// stored exactly.
///
/// Bounds are rounded outward, but never beyond the word's own. The address, the permissions, the
/// reserved bits, the flag and the type do not change.
///
/// Errors, in order: `NotCanonical`; `Sealed`; `OutOfBounds`.
/// Instruction: CSetBounds.
// C has one namespace, and the name without `_on` belongs to `set_bounds` of cc_bounds, the request alone.
// inlined, since the loop of c_memory calls it for each word
#[inline(always)]
#[unsafe(no_mangle)]
pub extern "C" fn cheri_cap_set_bounds_on(
    high: u64,
    low: u64,
    length_high: u64,
    length_low: u64,
) -> MadeWord
    ensures made { GivesResult (OnWord (λ cap. SetsBounds cap (number_of_halves length_high length_low))
        (number_of_halves high low)) result }
    ensures monotonic { result.refusal ≡ 0 → IsCanonicalSubset (number_of_halves result.high result.low)
        (number_of_halves high low) }
    // The word stores the granted span of the request from its address, which covers the request
    // and is within the word's own bounds. Everything else stays.
    ensures stores { result.refusal ≡ 0 → OfFields (number_of_halves high low)
        (λ fields. OfFields (number_of_halves result.high result.low) (λ made.
        StoresRequest fields (number_of_halves length_high length_low) made)) }
{
    made_word(words::set_bounds(number(high, low), number(length_high, length_low)))
}

/// Returns the word with exactly the bounds of `length` bytes from its address.
///
/// Errors, in order: `NotCanonical`; `Sealed`; `OutOfBounds`; `Inexact`.
/// Instruction: CSetBoundsExact.
#[inline(always)]
#[unsafe(no_mangle)]
pub extern "C" fn cheri_cap_set_bounds_exact_on(
    high: u64,
    low: u64,
    length_high: u64,
    length_low: u64,
) -> MadeWord
    ensures made { GivesResult (OnWord (λ cap. SetsExactBounds cap (number_of_halves length_high length_low))
        (number_of_halves high low)) result }
    ensures monotonic { result.refusal ≡ 0 → IsCanonicalSubset (number_of_halves result.high result.low)
        (number_of_halves high low) }
{
    made_word(words::set_bounds_exact(number(high, low), number(length_high, length_low)))
}

/// Returns the word with the permissions that are also in the mask.
///
/// Errors, in order: `NotCanonical`; `Sealed`.
/// Instruction: CAndPerm.
#[unsafe(no_mangle)]
pub extern "C" fn cheri_cap_and_perms(high: u64, low: u64, mask: u16) -> MadeWord
    ensures made { GivesResult (OnWord (λ cap. MasksPermissions cap mask) (number_of_halves high low)) result }
    ensures monotonic { result.refusal ≡ 0 → IsCanonicalSubset (number_of_halves result.high result.low)
        (number_of_halves high low) }
{
    made_word(words::and_perms(number(high, low), Perms::from_bits_retain(mask)))
}

/// Returns the word with its flag set to `flag`.
///
/// Errors, in order: `NotCanonical`; `Sealed`.
/// Instruction: CSetFlags.
#[unsafe(no_mangle)]
pub extern "C" fn cheri_cap_set_flag(high: u64, low: u64, flag: bool) -> MadeWord
    ensures made { GivesResult (OnWord (λ cap. SetsFlag cap flag) (number_of_halves high low)) result }
    ensures monotonic { result.refusal ≡ 0 → IsCanonicalSubset (number_of_halves result.high result.low)
        (number_of_halves high low) }
{
    made_word(words::set_flag(number(high, low), flag))
}

/// Returns the word sealed with the authority's address as its type.
///
/// Errors, in order: `NotCanonical` and `Sealed`, each for either word; `MissingPermission`;
/// `OutOfBounds`; `ReservedType`.
/// Instruction: CSeal.
#[unsafe(no_mangle)]
pub extern "C" fn cheri_cap_seal(
    high: u64,
    low: u64,
    authority_high: u64,
    authority_low: u64,
) -> MadeWord
    ensures made { GivesResult (OnWords Seals (number_of_halves high low)
        (number_of_halves authority_high authority_low)) result }
    ensures monotonic { result.refusal ≡ 0 → IsCanonicalSubset (number_of_halves result.high result.low)
        (number_of_halves high low) }
{
    made_word(words::seal(number(high, low), number(authority_high, authority_low)))
}

/// Returns the sealed word unsealed. It keeps GLOBAL only if the authority has it too.
///
/// Errors, in order: `NotCanonical` for either word; `Unsealed`; `Sealed`; `MissingPermission`;
/// `OutOfBounds`; `TypeMismatch`.
/// Instruction: CUnseal.
#[unsafe(no_mangle)]
pub extern "C" fn cheri_cap_unseal(
    high: u64,
    low: u64,
    authority_high: u64,
    authority_low: u64,
) -> MadeWord
    ensures made { GivesResult (OnWords Unseals (number_of_halves high low)
        (number_of_halves authority_high authority_low)) result }
    ensures monotonic { result.refusal ≡ 0 → IsCanonicalSubset (number_of_halves result.high result.low)
        (number_of_halves high low) }
{
    made_word(words::unseal(number(high, low), number(authority_high, authority_low)))
}

/// Returns the word again, if its capability grants no more than the authority does.
///
/// Errors, in order: `NotCanonical` and `Sealed` for the authority; `NotCanonical` for the word;
/// `ExceedsAuthority`.
/// Instruction: CBuildCap.
#[unsafe(no_mangle)]
pub extern "C" fn cheri_cap_rebuild(
    authority_high: u64,
    authority_low: u64,
    high: u64,
    low: u64,
) -> MadeWord
    ensures made { GivesResult (OnWord (λ cap. Rebuilds cap (number_of_halves high low))
        (number_of_halves authority_high authority_low)) result }
    ensures monotonic { result.refusal ≡ 0 → IsCanonicalSubset (number_of_halves result.high result.low)
        (number_of_halves authority_high authority_low) }
{
    made_word(words::rebuild(number(authority_high, authority_low), number(high, low)))
}

/// Returns whether the word begins and ends within the other, and the other has all its
/// permissions, for any two words, by the bounds that they decode to.
///
/// Instruction: CTestSubset.
#[unsafe(no_mangle)]
pub extern "C" fn cheri_cap_is_subset(high: u64, low: u64, outer_high: u64, outer_low: u64) -> bool
    ensures words { OfFields (number_of_halves high low)
        (λ inner. OfFields (number_of_halves outer_high outer_low) (λ outer.
        IsTrue result ↔ IsSubset inner outer)) }
    // For words of capabilities: true if and only if the inner capability grants no more than the
    // outer one.
    ensures capabilities { (one other : Capability) → IsWordOf one (number_of_halves high low)
        → IsWordOf other (number_of_halves outer_high outer_low)
        → (IsTrue result ↔ GrantsNoMore one other) }
{
    words::is_subset(number(high, low), number(outer_high, outer_low))
}
