//! Words: their fields, and whether a capability has them.
ghost use Rattle.std.specs.Prelude.{ℕ, ◌≡◌, ◌<◌, ◌^◌, ◌↔◌, IsTrue};
ghost use Rattle.cc_ffi.specs.Numbers.{number_of_halves, number_in};
ghost use Rattle.cc_ffi.specs.Words.{OfFields, IsSame, IsCut};
ghost use Rattle.cc_word.specs.Word.{word_of};
ghost use Rattle.cc_word.specs.declared.fields.Fields.{Fields as FieldsSpec};
ghost use Rattle.cc_cap.specs.Canonical.{IsCanonical};

use crate::halves::{halves, number};
use crate::structs::{Halves, WordFields};
use cc_word::{Fields, pack, unpack};

/// Returns the fields of a word. Every word has fields.
#[unsafe(no_mangle)]
pub extern "C" fn cheri_cap_unpack(high: u64, low: u64) -> WordFields
    ensures { OfFields (number_of_halves high low) (λ fields. IsSame result fields) }
{
    let fields = unpack(number(high, low));
    WordFields {
        address: fields.address,
        otype: fields.otype,
        perms: fields.perms,
        t: fields.t,
        b: fields.b,
        reserved: fields.reserved,
        flag: fields.flag,
        ie: fields.ie,
    }
}

/// Returns the permissions of a word, with GLOBAL as the lowest bit.
#[unsafe(no_mangle)]
pub extern "C" fn cheri_cap_perms(high: u64, low: u64) -> u16
    ensures { OfFields (number_of_halves high low) (λ fields. result ≡ fields.perms) }
{
    unpack(number(high, low)).perms
}

/// Returns the object type of a word, 18 bits.
#[unsafe(no_mangle)]
pub extern "C" fn cheri_cap_otype(high: u64, low: u64) -> u32
    ensures { OfFields (number_of_halves high low) (λ fields. result ≡ fields.otype) }
{
    unpack(number(high, low)).otype
}

/// Returns the flag of a word: whether code runs in capability mode.
#[unsafe(no_mangle)]
pub extern "C" fn cheri_cap_flag(high: u64, low: u64) -> bool
    ensures { OfFields (number_of_halves high low) (λ fields. result ≡ fields.flag) }
{
    unpack(number(high, low)).flag
}

/// Returns the fields with each number cut to its width. The lowest bits are kept.
fn cut(given: WordFields) -> Fields
    ensures { IsCut given result }
{
    Fields {
        perms: given.perms,
        reserved: given.reserved & 0x3,
        flag: given.flag,
        otype: given.otype & 0x3ffff,
        ie: given.ie,
        t: given.t & 0xfff,
        b: given.b & 0x3fff,
        address: given.address,
    }
}

/// Returns the word of fields. Bits beyond the width of a field are ignored.
///
/// For the fields that `cheri_cap_unpack` returned for a word, that is this word again.
#[unsafe(no_mangle)]
pub extern "C" fn cheri_cap_pack(given: WordFields) -> Halves
    ensures cut { (fields : FieldsSpec) → IsCut given fields → word_of fields ≡ number_in result }
    ensures unpacked { (high low : ℕ) → high < 2 ^ 64 → low < 2 ^ 64
        → OfFields (number_of_halves high low) (λ fields. IsSame given fields)
        → number_in result ≡ number_of_halves high low }
{
    halves(pack(&cut(given)))
}

/// Returns whether the word is canonical: the word of some capability, sealed or not.
#[inline(always)]
#[unsafe(no_mangle)]
pub extern "C" fn cheri_cap_is_canonical(high: u64, low: u64) -> bool
    ensures { IsTrue result ↔ IsCanonical (number_of_halves high low) }
{
    cc_cap::is_canonical(number(high, low))
}
