//! Batch functions: a result for each word or request, at its position.
//!
//! A slice crosses as a pointer and a count, so each array has a separate count. If they differ,
//! the smallest counts: that number of results is written, and returned.
ghost use Rattle.std.specs.Prelude.{◌≡◌, length, min, slice_index};
ghost use Rattle.std.specs.List.{SameFrom};
ghost use Rattle.cc_cap.specs.Canonical.{IsCanonical};
ghost use Rattle.cc_cap.specs.Many.{AnswersEach};
ghost use Rattle.cc_ffi.specs.Numbers.{number_in};
ghost use Rattle.cc_ffi.specs.Words.{OfFields};
ghost use Rattle.cc_ffi.specs.Bounds.{AreDecoded};
ghost use Rattle.cc_ffi.specs.Many.{IsAlignmentMask, IsGrantedIfInRange, IsOneIf, IsOneIfRepresentable};
ghost use Rattle.cc_ffi.specs.Many.{IsRoundedLength, word_at};

use crate::bounds::{cheri_cap_decode, cheri_cap_represents, cheri_cap_set_bounds};
use crate::c_words::cheri_cap_is_canonical;
use crate::lengths::{cheri_cap_alignment_mask, cheri_cap_round_length};
use crate::structs::{Bounds, GrantedBounds, Halves};

/// Writes the base, the top and the exponent of each word, and returns the number of results.
#[unsafe(no_mangle)]
pub extern "C" fn cheri_cap_decode_many(words: &[Halves], bounds: &mut [Bounds]) -> usize
    ensures count { result ≡ min (length words.now) (length bounds.old) }
    ensures decoded { AnswersEach (λ i told. OfFields (word_at words.now i) (λ fields. AreDecoded fields told))
        bounds.new result }
    ensures rest { SameFrom bounds.old bounds.new result }
{
    let count = words.len().min(bounds.len());
    for i in 0..count {
        bounds[i] = decoded(words[i]);
    }
    count
}

/// Writes 1 for each canonical word and 0 for each other, and returns the number of results.
#[unsafe(no_mangle)]
pub extern "C" fn cheri_cap_is_canonical_many(words: &[Halves], answers: &mut [u8]) -> usize
    ensures count { result ≡ min (length words.now) (length answers.old) }
    ensures told { AnswersEach (λ i answer. IsOneIf (IsCanonical (word_at words.now i)) answer) answers.new result }
    ensures rest { SameFrom answers.old answers.new result }
{
    let count = words.len().min(answers.len());
    for i in 0..count {
        answers[i] = canonical(words[i]);
    }
    count
}

/// Writes 1 for each word that stores its bounds as setting bounds stores them and for which the
/// address at its position is representable, and 0 for each other. Returns the number of results.
#[unsafe(no_mangle)]
pub extern "C" fn cheri_cap_represents_many(
    words: &[Halves],
    addresses: &[u64],
    answers: &mut [u8],
) -> usize
    ensures count { result ≡ min (length words.now) (min (length addresses.now) (length answers.old)) }
    ensures told { AnswersEach (λ i answer. IsOneIfRepresentable (word_at words.now i) (slice_index addresses.now i)
        answer) answers.new result }
    ensures rest { SameFrom answers.old answers.new result }
{
    let count = words.len().min(addresses.len().min(answers.len()));
    for i in 0..count {
        answers[i] = represented(words[i], addresses[i]);
    }
    count
}

/// Writes the bounds that a request for the length at each position from the base there is granted, or
/// zeros if the request ends above 2^64, and returns the number of results.
#[unsafe(no_mangle)]
pub extern "C" fn cheri_cap_set_bounds_many(
    bases: &[u64],
    lengths: &[Halves],
    granted: &mut [GrantedBounds],
) -> usize
    ensures count { result ≡ min (length bases.now) (min (length lengths.now) (length granted.old)) }
    ensures granted { AnswersEach (λ i told. IsGrantedIfInRange (slice_index bases.now i) (word_at lengths.now i)
        told) granted.new result }
    ensures rest { SameFrom granted.old granted.new result }
{
    let count = bases.len().min(lengths.len().min(granted.len()));
    for i in 0..count {
        granted[i] = granted_bounds(bases[i], lengths[i]);
    }
    count
}

/// Writes the representable length of each length, or all ones for a length above 2^64, and returns
/// the number of results.
#[unsafe(no_mangle)]
pub extern "C" fn cheri_cap_round_length_many(lengths: &[Halves], rounded: &mut [Halves]) -> usize
    ensures count { result ≡ min (length lengths.now) (length rounded.old) }
    ensures rounded { AnswersEach (λ i told. IsRoundedLength (word_at lengths.now i) (number_in told)) rounded.new
        result }
    ensures rest { SameFrom rounded.old rounded.new result }
{
    let count = lengths.len().min(rounded.len());
    for i in 0..count {
        rounded[i] = rounded_length(lengths[i]);
    }
    count
}

/// Writes the representable alignment mask of each length, or 0 for a length above 2^64, and returns
/// the number of results.
#[unsafe(no_mangle)]
pub extern "C" fn cheri_cap_alignment_mask_many(lengths: &[Halves], masks: &mut [u64]) -> usize
    ensures count { result ≡ min (length lengths.now) (length masks.old) }
    ensures masks { AnswersEach (λ i mask. IsAlignmentMask (word_at lengths.now i) mask) masks.new result }
    ensures rest { SameFrom masks.old masks.new result }
{
    let count = lengths.len().min(masks.len());
    for i in 0..count {
        masks[i] = alignment_mask(lengths[i]);
    }
    count
}

/// Returns the base, the top and the exponent of a word.
pub(crate) fn decoded(word: Halves) -> Bounds
    ensures { OfFields (number_in word) (λ fields. AreDecoded fields result) }
{
    cheri_cap_decode(word.high, word.low)
}

/// Returns 1 for a canonical word, and 0 for any other.
pub(crate) fn canonical(word: Halves) -> u8
    ensures { IsOneIf (IsCanonical (number_in word)) result }
{
    if cheri_cap_is_canonical(word.high, word.low) {
        1
    } else {
        0
    }
}

/// Returns 1 for a word that stores a sound span for which the address is representable, and 0 for
/// any other.
pub(crate) fn represented(word: Halves, address: u64) -> u8
    ensures { IsOneIfRepresentable (number_in word) address result }
{
    if cheri_cap_represents(word.high, word.low, address) {
        1
    } else {
        0
    }
}

/// Returns the bounds that a request is granted.
fn granted_bounds(base: u64, length: Halves) -> GrantedBounds
    ensures { IsGrantedIfInRange base (number_in length) result }
{
    cheri_cap_set_bounds(base, length.high, length.low)
}

/// Returns the representable length of a length.
fn rounded_length(length: Halves) -> Halves
    ensures { IsRoundedLength (number_in length) (number_in result) }
{
    cheri_cap_round_length(length.high, length.low)
}

/// Returns the representable alignment mask of a length.
fn alignment_mask(length: Halves) -> u64
    ensures { IsAlignmentMask (number_in length) result }
{
    cheri_cap_alignment_mask(length.high, length.low)
}
