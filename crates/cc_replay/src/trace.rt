//! The event of a line of a trace.
ghost use Rattle.std.specs.Prelude.{◌≡◌, ◌∷◌, [], ◌==◌, IfOk, IfSome, IfNone, Result, take};
ghost use Rattle.std.specs.Int.{IsPowerOfTwo};
ghost use Rattle.std.specs.List.{slice_split};
ghost use Rattle.cc_word.specs.declared.refusal.Refusal.{Refusal as RefusalSpec};
ghost use Rattle.cc_values.specs.Values.{words_of};
ghost use Rattle.cc_heap.specs.Alignment.{HasAlignment};
ghost use Rattle.cc_replay.specs.Trace.{
  alignment_in,
  allocation_in,
  as_alignment,
  as_entry,
  clearing_in,
  entry_of,
  event_in,
  pair_in,
  reallocation_in,
  single_in,
};

use cc_heap::Event;
use cc_values::{both, read_address, split_at_first};
use cc_word::Refusal;

/// The maximum number of bytes of a line that is not a comment.
const MOST_BYTES: usize = 128;

/// Parses a line of a trace, without its line feed, as an event. An empty line, and a comment,
/// which begins with `#`, is `None`.
///
/// Only the first 129 bytes of a line matter.
///
/// Errors, in order: `Syntax` if the line is not an event, or has more than 128 bytes; `OutOfRange`
/// if a number is above 2^64 - 1, or an alignment is not a power of two.
#[tactic(auto, using(crate::proofs::TraceLemmas::first_bytes), unfolding(crate::specs::Trace::entry_of))]
pub fn read_event(line: &[u8]) -> Result<Option<Event>, Refusal>
    ensures value { result ≡ entry_of line.now }
    ensures start { entry_of (take 129 line.now) ≡ entry_of line.now }
    ensures aligned { IfOk result (λ entry. IfSome entry HasAlignment) }
{
    match line {
        [] | [b'#', ..] => Ok(None),
        _ if line.len() > MOST_BYTES => Err(Refusal::Syntax),
        _ => match read_words(line) {
            Ok(event) => Ok(Some(event)),
            Err(refusal) => Err(refusal),
        },
    }
}

/// Parses a line that is not a comment.
fn read_words(line: &[u8]) -> Result<Event, Refusal>
    ensures value { result ≡ event_in (words_of line.now) }
    ensures aligned { IfOk result HasAlignment }
{
    match split_at_space(line) {
        Some((name, values)) => read_named(name, values),
        None if line == b"s".as_slice() => Ok(Event::Sweep),
        None => Err(Refusal::Syntax),
    }
}

/// Parses the values after a name.
#[tactic(auto, using(crate::proofs::TraceLemmas::single_then, crate::proofs::TraceLemmas::no_sweep))]
fn read_named(name: &[u8], values: &[u8]) -> Result<Event, Refusal>
    ensures value { result ≡ event_in (name.now ∷ words_of values.now) }
    ensures aligned { IfOk result HasAlignment }
{
    if name == b"a".as_slice() {
        read_allocation(values)
    } else if name == b"c".as_slice() {
        read_clearing(values)
    } else if name == b"r".as_slice() {
        read_reallocation(values)
    } else if name == b"f".as_slice() {
        read_address(values).map(|id| Event::Free { id })
    } else if name == b"t".as_slice() {
        read_address(values).map(Event::Clock)
    } else {
        Err(Refusal::Syntax)
    }
}

/// Parses `ID SIZE [ALIGN]`. An alignment that is omitted is 1.
#[tactic(auto, using(crate::proofs::TraceLemmas::allocation_then, crate::proofs::PowerLemmas::one_is_a_power))]
fn read_allocation(values: &[u8]) -> Result<Event, Refusal>
    ensures value { result ≡ allocation_in (words_of values.now) }
    ensures aligned { IfOk result HasAlignment }
{
    let Some((id, rest)) = split_at_space(values) else {
        return Err(Refusal::Syntax);
    };
    match split_at_space(rest) {
        None => read_pair(id, rest).map(|(id, size)| Event::Allocate { id, size, align: 1 }),
        Some((size, align)) => match both(read_pair(id, size), read_alignment(align)) {
            Ok(((id, size), align)) => Ok(Event::Allocate { id, size, align }),
            Err(refusal) => Err(refusal),
        },
    }
}

/// Parses `ID SIZE`.
#[tactic(auto, using(crate::proofs::TraceLemmas::clearing_then))]
fn read_clearing(values: &[u8]) -> Result<Event, Refusal>
    ensures value { result ≡ clearing_in (words_of values.now) }
    ensures aligned { IfOk result HasAlignment }
{
    match split_at_space(values) {
        Some((id, size)) => read_pair(id, size).map(|(id, size)| Event::Clear { id, size }),
        None => Err(Refusal::Syntax),
    }
}

/// Parses `OLD NEW SIZE`.
#[tactic(auto, using(crate::proofs::TraceLemmas::reallocation_then))]
fn read_reallocation(values: &[u8]) -> Result<Event, Refusal>
    ensures value { result ≡ reallocation_in (words_of values.now) }
    ensures aligned { IfOk result HasAlignment }
{
    let Some((old, rest)) = split_at_space(values) else {
        return Err(Refusal::Syntax);
    };
    match split_at_space(rest) {
        Some((new, size)) => match both(read_pair(old, new), read_address(size)) {
            Ok(((old, new), size)) => Ok(Event::Reallocate { old, new, size }),
            Err(refusal) => Err(refusal),
        },
        None => Err(Refusal::Syntax),
    }
}

/// Parses two numbers below 2^64.
fn read_pair(first: &[u8], second: &[u8]) -> Result<(u64, u64), Refusal>
    ensures { result ≡ pair_in first.now second.now }
{
    both(read_address(first), read_address(second))
}

/// Parses an alignment: a power of two of at most 2^63.
#[tactic(auto, using(crate::proofs::PowerLemmas::one_bit))]
fn read_alignment(text: &[u8]) -> Result<u64, Refusal>
    ensures value { result ≡ alignment_in text.now }
    ensures aligned { IfOk result IsPowerOfTwo }
{
    match read_address(text) {
        Ok(align) if align.is_power_of_two() => Ok(align),
        Ok(_) => Err(Refusal::OutOfRange),
        Err(refusal) => Err(refusal),
    }
}

/// Returns the bytes before the first space and the bytes after it, or `None` if there is none.
fn split_at_space(text: &[u8]) -> Option<(&[u8], &[u8])>
    ensures parts { IfSome result (λ parts. words_of text.now ≡ parts.0.now ∷ words_of parts.1.now) }
    ensures whole { IfNone result (words_of text.now ≡ text.now ∷ []) }
{
    split_at_first(text, b' ')
}
