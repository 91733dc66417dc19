//! Batch functions on words in memory: a result for each 16 bytes, at their position.
//!
//! A slice crosses as a pointer and a count, so each array has a separate count, and the count of
//! the memory is the number of words. If they differ, the smallest counts: that number of results
//! is written, and returned.
ghost use Rattle.std.specs.Prelude.{◌≡◌, length, min, slice_index};
ghost use Rattle.std.specs.List.{SameFrom};
ghost use Rattle.cc_cap.specs.Canonical.{IsCanonical};
ghost use Rattle.cc_cap.specs.Many.{AnswersEach};
ghost use Rattle.cc_cap.specs.WordRules.{OnWord};
ghost use Rattle.cc_ffi.specs.Numbers.{number_in, number_of_halves};
ghost use Rattle.cc_ffi.specs.Words.{OfFields};
ghost use Rattle.cc_ffi.specs.Bounds.{AreDecoded};
ghost use Rattle.cc_ffi.specs.Many.{IsOneIf, IsOneIfRepresentable, word_at};
ghost use Rattle.cc_cap.specs.Derivation.{SetsBoundsBy};
ghost use Rattle.cc_ffi.specs.Memory.{GivesInMemory, word_in_memory, word_of_bytes};
ghost use Rattle.cc_ffi.specs.Rules.{GivesResult};

use crate::c_rules::{cheri_cap_set_bounds_exact_on, cheri_cap_set_bounds_on};
use crate::halves::{halves, number};
use crate::many::{canonical, decoded, represented};
use crate::structs::{Bounds, Halves, MadeWord};

/// Writes the base, the top and the exponent of each word of memory, and returns the number of
/// results.
#[unsafe(no_mangle)]
pub extern "C" fn cheri_cap_decode_memory(
    memory: &[[u8; 16]],
    big_endian: bool,
    bounds: &mut [Bounds],
) -> usize
    ensures count { result ≡ min (length memory.now) (length bounds.old) }
    ensures decoded { AnswersEach (λ i told. OfFields (word_in_memory big_endian memory.now i)
        (λ fields. AreDecoded fields told)) bounds.new result }
    ensures rest { SameFrom bounds.old bounds.new result }
{
    let count = memory.len().min(bounds.len());
    for i in 0..count {
        bounds[i] = decoded(word_of(memory[i], big_endian));
    }
    count
}

/// Writes 1 for each canonical word of memory and 0 for each other, and returns the number of
/// results.
#[unsafe(no_mangle)]
pub extern "C" fn cheri_cap_is_canonical_memory(
    memory: &[[u8; 16]],
    big_endian: bool,
    answers: &mut [u8],
) -> usize
    ensures count { result ≡ min (length memory.now) (length answers.old) }
    ensures told { AnswersEach (λ i answer. IsOneIf (IsCanonical (word_in_memory big_endian memory.now i)) answer)
        answers.new result }
    ensures rest { SameFrom answers.old answers.new result }
{
    let count = memory.len().min(answers.len());
    for i in 0..count {
        answers[i] = canonical(word_of(memory[i], big_endian));
    }
    count
}

/// Writes 1 for each word of memory that stores its bounds as setting bounds stores them and for
/// which the address at its position is representable, and 0 for each other. Returns the number of
/// results.
#[unsafe(no_mangle)]
pub extern "C" fn cheri_cap_represents_memory(
    memory: &[[u8; 16]],
    big_endian: bool,
    addresses: &[u64],
    answers: &mut [u8],
) -> usize
    ensures count { result ≡ min (length memory.now) (min (length addresses.now) (length answers.old)) }
    ensures told { AnswersEach (λ i answer. IsOneIfRepresentable (word_in_memory big_endian memory.now i)
        (slice_index addresses.now i) answer) answers.new result }
    ensures rest { SameFrom answers.old answers.new result }
{
    let count = memory.len().min(addresses.len().min(answers.len()));
    for i in 0..count {
        answers[i] = represented(word_of(memory[i], big_endian), addresses[i]);
    }
    count
}

/// Sets the bounds of each word of memory to the length at its position from its address, exactly if
/// `exact`. Writes the word that is made, and the refusal 0, or a zero word, and the code of the
/// refusal. Returns the number of results.
#[unsafe(no_mangle)]
pub extern "C" fn cheri_cap_set_bounds_memory(
    memory: &[[u8; 16]],
    big_endian: bool,
    exact: bool,
    lengths: &[Halves],
    made: &mut [[u8; 16]],
    refusals: &mut [u8],
) -> usize
    ensures count { result ≡ min (min (length memory.now) (length lengths.now))
        (min (length made.old) (length refusals.old)) }
    ensures made { AnswersEach (λ i bytes. GivesInMemory (OnWord (λ cap. SetsBoundsBy exact cap (word_at lengths.now i))
        (word_in_memory big_endian memory.now i)) big_endian bytes (slice_index refusals.new i)) made.new result }
    ensures rest { SameFrom made.old made.new result }
    ensures rest_of_refusals { SameFrom refusals.old refusals.new result }
{
    if big_endian {
        set_bounds_in(memory, true, exact, lengths, made, refusals)
    } else {
        set_bounds_in(memory, false, exact, lengths, made, refusals)
    }
}

/// Does what [`cheri_cap_set_bounds_memory`] does. The compiler makes a loop of it for each byte order.
#[inline(always)]
fn set_bounds_in(
    memory: &[[u8; 16]],
    big_endian: bool,
    exact: bool,
    lengths: &[Halves],
    made: &mut [[u8; 16]],
    refusals: &mut [u8],
) -> usize
    ensures count { result ≡ min (min (length memory.now) (length lengths.now))
        (min (length made.old) (length refusals.old)) }
    ensures made { AnswersEach (λ i bytes. GivesInMemory (OnWord (λ cap. SetsBoundsBy exact cap (word_at lengths.now i))
        (word_in_memory big_endian memory.now i)) big_endian bytes (slice_index refusals.new i)) made.new result }
    ensures rest { SameFrom made.old made.new result }
    ensures rest_of_refusals { SameFrom refusals.old refusals.new result }
{
    let words = memory.len().min(lengths.len());
    let count = words.min(made.len().min(refusals.len()));
    for i in 0..count {
        let told = with_bounds(word_of(memory[i], big_endian), exact, lengths[i]);
        made[i] = bytes_of(told, big_endian);
        refusals[i] = told.refusal;
    }
    count
}

/// Returns the word with the bounds of this length from its address, exact ones if `exact`.
fn with_bounds(word: Halves, exact: bool, length: Halves) -> MadeWord
    ensures { GivesResult (OnWord (λ cap. SetsBoundsBy exact cap (number_in length)) (number_in word)) result }
{
    if exact {
        cheri_cap_set_bounds_exact_on(word.high, word.low, length.high, length.low)
    } else {
        cheri_cap_set_bounds_on(word.high, word.low, length.high, length.low)
    }
}

/// Returns the word that was made as 16 bytes of memory.
fn bytes_of(made: MadeWord, big_endian: bool) -> [u8; 16]
    ensures { word_of_bytes big_endian result ≡ number_of_halves made.high made.low }
{
    let word = number(made.high, made.low);
    if big_endian {
        word.to_be_bytes()
    } else {
        word.to_le_bytes()
    }
}

/// Returns the word of 16 bytes of memory.
pub(crate) fn word_of(bytes: [u8; 16], big_endian: bool) -> Halves
    ensures { number_in result ≡ word_of_bytes big_endian bytes }
{
    halves(if big_endian {
        u128::from_be_bytes(bytes)
    } else {
        u128::from_le_bytes(bytes)
    })
}
