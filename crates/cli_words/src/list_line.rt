//! Reads the lines of a list of lengths.
ghost use Rattle.std.specs.Prelude.{◌≡◌, option_map};
ghost use Rattle.cli_words.specs.ListLine.{line_parts};
ghost use Rattle.cli_words.specs.RoundList.{listed_in};

use cc_bounds::Len;
use cc_syntax::{both, read_address, read_length};
use cc_values::position_of;
use cc_word::Refusal;

/// Returns the length and the base of a line: its own base, or this one if it has none.
///
/// Errors, in order: `Syntax` if the line is not a number, or two with a space between; `OutOfRange` if a number is too
/// large.
pub(crate) fn read_listed(base: Option<u64>, line: &[u8]) -> Result<(Len, Option<u64>), Refusal>
    ensures { result ≡ listed_in base line.now }
{
    match parts_of(line) {
        (length, None) => match read_length(length) {
            Ok(length) => Ok((length, base)),
            Err(refusal) => Err(refusal),
        },
        (length, Some(own)) => match both(read_length(length), read_address(own)) {
            Ok((length, own)) => Ok((length, Some(own))),
            Err(refusal) => Err(refusal),
        },
    }
}

/// Returns the bytes before the first space of a line, and those after it, if it has one.
pub(crate) fn parts_of(line: &[u8]) -> (&[u8], Option<&[u8]>)
    ensures first { result.0.now ≡ (line_parts line.now).0 }
    ensures second { option_map (λ text. text.now) result.1 ≡ (line_parts line.now).1 }
{
    match position_of(line, b' ') {
        Some(at) => (&line[..at], Some(&line[at + 1..])),
        None => (line, None),
    }
}
