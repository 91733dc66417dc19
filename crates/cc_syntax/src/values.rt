//! The values of commands.
ghost use Rattle.std.specs.Prelude.{◌≡◌, ℕ, List, Result, Err};
ghost use Rattle.cc_word.specs.declared.refusal.Refusal.{Refusal as RefusalSpec};
ghost use Rattle.cc_word.specs.declared.refusal.Refusal.TheVariants.{OutOfRange};
ghost use Rattle.cc_values.specs.Values.{address_in, both, flag_in, index_in, length_in, permissions_in, single};
ghost use Rattle.cc_values.specs.Values.{word_in, words_of};
ghost use Rattle.cc_syntax.specs.Commands.{align_in, slot_and, slot_and_perhaps};

use crate::numbers::{split_number, split_slot};
use cc_bounds::{Align, Len};
use cc_values::{both, read_address, read_index, read_length, read_permissions};
use cc_word::{Perms, Refusal};

/// A kind of value. Slots and objects are `u32`, addresses and increments `u64`, words `u128`, flags
/// `bool`.
pub(crate) trait Value: Copy {
    // the value that a string parses as, or its error
    ghost value_in: { List ℕ → Result Self RefusalSpec };

    /// Parses a value: the string is one token.
    fn read(text: &[u8]) -> Result<Self, Refusal>
        ensures { result ≡ single value_in (words_of text.now) };
}

impl Value for u32 {
    ghost value_in = { index_in };

    #[inline(always)]
    #[tactic(auto, using(cc_values::proofs::SpaceLemmas::index_in_single))]
    fn read(text: &[u8]) -> Result<u32, Refusal> {
        read_index(text)
    }
}

impl Value for u64 {
    ghost value_in = { address_in };

    #[inline(always)]
    #[tactic(auto, using(cc_values::proofs::SpaceLemmas::address_in_single))]
    fn read(text: &[u8]) -> Result<u64, Refusal> {
        read_address(text)
    }
}

impl Value for Len {
    ghost value_in = { length_in };

    #[inline(always)]
    #[tactic(auto, using(cc_values::proofs::SpaceLemmas::length_in_single))]
    fn read(text: &[u8]) -> Result<Len, Refusal> {
        read_length(text)
    }
}

impl Value for bool {
    ghost value_in = { flag_in };

    #[inline(always)]
    #[tactic(auto, using(cc_values::proofs::SpaceLemmas::flag_in_single))]
    fn read(text: &[u8]) -> Result<bool, Refusal> {
        read_flag(text)
    }
}

impl Value for Perms {
    ghost value_in = { permissions_in };

    #[inline(always)]
    #[tactic(auto, using(cc_values::proofs::SpaceLemmas::permissions_in_single))]
    fn read(text: &[u8]) -> Result<Perms, Refusal> {
        read_permissions(text)
    }
}

impl Value for u128 {
    ghost value_in = { word_in };

    #[inline(always)]
    #[tactic(auto, using(cc_values::proofs::SpaceLemmas::word_in_single))]
    fn read(text: &[u8]) -> Result<u128, Refusal> {
        read_word_value(text)
    }
}

impl Value for Align {
    ghost value_in = { align_in };

    #[inline(always)]
    #[tactic(auto, using(crate::proofs::SlotLemmas::align_in_single))]
    fn read(text: &[u8]) -> Result<Align, Refusal> {
        read_align(text)
    }
}

/// Parses two tokens: the number of a slot, and a value.
#[inline(always)]
pub(crate) fn slot_and<V: Value>(text: &[u8]) -> Result<(u32, V), Refusal>
    ensures { result ≡ slot_and V.value_in (words_of text.now) }
{
    match split_number(text) {
        Some((number, rest)) if number <= u64::from(u32::MAX) => match V::read(rest) {
            Ok(value) => Ok((number as u32, value)),
            Err(refusal) => Err(refusal),
        },
        Some((_, rest)) => Err(over_limit::<V>(rest)),
        // taken apart, so that the values of the first arm stay in registers
        None => match slot_and_any(text) {
            Ok((slot, value)) => Ok((slot, value)),
            Err(refusal) => Err(refusal),
        },
    }
}

/// Returns the refusal of a number of a slot that is over its limit, and of the value after it.
#[inline(never)]
fn over_limit<V: Value>(text: &[u8]) -> Refusal
    ensures { (slot : Result ℕ RefusalSpec) → slot ≡ Err OutOfRange
        → Err result ≡ both slot (single V.value_in (words_of text.now)) }
{
    match V::read(text) {
        Ok(_) => Refusal::OutOfRange,
        Err(refusal) => refusal,
    }
}

/// Parses the number of a slot, of any length, and a value.
#[inline(never)]
fn slot_and_any<V: Value>(text: &[u8]) -> Result<(u32, V), Refusal>
    ensures { result ≡ slot_and V.value_in (words_of text.now) }
{
    match split_slot(text) {
        Some((slot, rest)) => both(slot, V::read(rest)),
        None => Err(Refusal::Syntax),
    }
}

/// Parses the number of a slot and a value, which is `usual` if there is one token.
#[inline(always)]
pub(crate) fn slot_and_perhaps<V: Value>(usual: V, text: &[u8]) -> Result<(u32, V), Refusal>
    ensures { result ≡ slot_and_perhaps usual V.value_in (words_of text.now) }
{
    match split_slot(text) {
        Some((slot, rest)) => both(slot, V::read(rest)),
        None => both(read_index(text), Ok(usual)),
    }
}

/// Parses a flag: `0` or `1`, and nothing else.
#[inline(always)]
pub fn read_flag(text: &[u8]) -> Result<bool, Refusal>
    ensures { result ≡ flag_in text.now }
{
    if text == b"0".as_slice() {
        Ok(false)
    } else if text == b"1".as_slice() {
        Ok(true)
    } else {
        Err(Refusal::Syntax)
    }
}

/// Parses an alignment: `1` or `16`, and nothing else.
pub fn read_align(text: &[u8]) -> Result<Align, Refusal>
    ensures { result ≡ align_in text.now }
{
    if text == b"1".as_slice() {
        Ok(Align::One)
    } else if text == b"16".as_slice() {
        Ok(Align::Sixteen)
    } else {
        Err(Refusal::Syntax)
    }
}

/// Parses a capability word: 32 hexadecimal digits of either case.
pub fn read_word_value(text: &[u8]) -> Result<u128, Refusal>
    ensures { result ≡ word_in text.now }
{
    match cc_word::read_word_fast(text) {
        Some(word) => Ok(word),
        None => Err(Refusal::Syntax),
    }
}
