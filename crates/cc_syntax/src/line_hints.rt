//! Possible mistakes in a refused line.
ghost use Rattle.std.specs.Prelude.{◌≡◌};
ghost use Rattle.cc_syntax.specs.LineHints.{ends_in_return, has_marked_word};

use crate::parsing::MOST_BYTES;

/// The length of a word that is written with `0x`: the prefix and 32 digits.
const MARKED: usize = 34;

/// Returns whether a line of at most 128 bytes ends in a carriage return.
pub(crate) fn ends_in_return(line: &[u8]) -> bool
    ensures { result ≡ ends_in_return line.now }
{
    line.len() <= MOST_BYTES && line.ends_with(b"\r")
}

/// Returns whether a line of at most 128 bytes is a `rebuild` whose word is written with `0x` or a
/// colon.
pub(crate) fn has_marked_word(line: &[u8]) -> bool
    ensures { result ≡ has_marked_word line.now }
{
    let word = &line[line.len().saturating_sub(MARKED)..];
    line.len() <= MOST_BYTES
        && line.starts_with(b"rebuild ")
        && (line.contains(&b':') || word.starts_with(b"0x"))
}
