//! Batch functions on words: a result for each word, at its index.
//!
//! Each result equals that of the function for a single word. The slice for the results has as many
//! elements as there are words.
ghost use Rattle.std.specs.Prelude.{◌≡◌, ◌↔◌, IsTrue, length, slice_index};
ghost use Rattle.cc_cap.specs.Canonical.{IsCanonical};
ghost use Rattle.cc_cap.specs.Many.{AnswersEach, IsSpanOf, TellsRepresentable};

use cc_bounds::{Set, Span};
use cc_word::unpack;

/// Writes the bounds that each word decodes to, as [`cc_bounds::decode`] returns them.
///
/// Requires: `words` and `spans` have the same length.
pub fn decode(words: &[u128], spans: &mut [Span])
    requires { length words.now ≡ length spans.old }
    ensures { AnswersEach (λ i span. IsSpanOf (slice_index words.now i) span) spans.new (length words.now) }
{
    for (i, span) in spans.iter_mut().enumerate() {
        *span = decoded(words[i]);
    }
}

/// Writes whether each word is canonical, as [`cc_cap::is_canonical`] returns it.
///
/// Requires: `words` and `answers` have the same length.
pub fn is_canonical(words: &[u128], answers: &mut [bool])
    requires { length words.now ≡ length answers.old }
    ensures { AnswersEach (λ i answer. IsTrue answer ↔ IsCanonical (slice_index words.now i)) answers.new
        (length words.now) }
{
    for (i, answer) in answers.iter_mut().enumerate() {
        *answer = cc_cap::is_canonical(words[i]);
    }
}

/// Writes whether each word stores a sound span for which the address at its index is
/// representable.
///
/// Each result equals that of [`Set::of_fields`] and [`cc_bounds::represents`].
///
/// Requires: `words`, `addresses` and `answers` have the same length.
pub fn represents(words: &[u128], addresses: &[u64], answers: &mut [bool])
    requires addresses { length words.now ≡ length addresses.now }
    requires answers { length words.now ≡ length answers.old }
    ensures { AnswersEach (λ i answer. TellsRepresentable (slice_index words.now i) (slice_index addresses.now i)
        answer) answers.new (length words.now) }
{
    for (i, answer) in answers.iter_mut().enumerate() {
        *answer = represented(words[i], addresses[i]);
    }
}

fn decoded(word: u128) -> Span
    ensures { IsSpanOf word result }
{
    cc_bounds::decode(&unpack(word))
}

// Returns whether a word stores a sound span for which the address is representable.
fn represented(word: u128, address: u64) -> bool
    ensures { TellsRepresentable word address result }
{
    match Set::of_fields(&unpack(word)) {
        Some(set) => cc_bounds::represents(&set, address),
        None => false,
    }
}
