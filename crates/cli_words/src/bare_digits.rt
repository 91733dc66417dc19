//! Digits that may be meant as hexadecimal ones, without `0x`.
ghost use Rattle.std.specs.Prelude.{◌≡◌};
ghost use Rattle.cli_words.specs.BareDigits.{is_bare, is_bare_line};

use crate::list_line::parts_of;
use cc_syntax::read_length;

/// Returns whether a text is decimal digits that may be meant as hexadecimal ones: 8 or 16 of them, the first of which
/// is 0.
pub fn is_bare(text: &[u8]) -> bool
    ensures { result ≡ is_bare text.now }
{
    (text.len() == 8 || text.len() == 16)
        && text.starts_with(b"0")
        && !text.starts_with(b"0x")
        && read_length(text).is_ok()
}

/// Returns whether the length or the base of a line of a list, of at most 128 bytes, is such digits.
pub(crate) fn is_bare_line(line: &[u8]) -> bool
    ensures { result ≡ is_bare_line line.now }
{
    line.len() <= 128
        && match parts_of(line) {
            (length, None) => is_bare(length),
            (length, Some(base)) => is_bare(length) || is_bare(base),
        }
}
