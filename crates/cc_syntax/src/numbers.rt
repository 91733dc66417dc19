//! Reads the number of a slot before other values.
ghost use Rattle.std.specs.Prelude.{◌≡◌, ◌∷◌, [], IfSome, IfNone};
ghost use Rattle.cc_values.specs.Values.{words_of};
ghost use Rattle.cc_syntax.specs.Commands.{BeginsWithNumber, BeginsWithSlot};

use cc_values::{read_index, split_at_first, value_of_decimal};
use cc_word::Refusal;

/// The longest number of a slot that the fast path reads, with its space, in bytes.
const MOST_INDEX: usize = 16;

/// Returns the number of at most fifteen decimal digits before the first space, and the bytes after
/// that space. `None` means that the fast path does not apply.
#[inline(always)]
pub(crate) fn split_number(text: &[u8]) -> Option<(u64, &[u8])>
    ensures { IfSome result (λ parts. BeginsWithNumber text.now parts.0 parts.1.now) }
{
    let most = text.len().min(MOST_INDEX);
    let mut number = 0;
    let mut at = 0;
    'digits: while at < most {
        let Some(digit) = value_of_decimal(text[at]) else {
            return if at > 0 && text[at] == b' ' {
                Some((number, &text[at + 1..]))
            } else {
                None
            };
        };
        number = number * 10 + u64::from(digit);
        at += 1;
    }
    None
}

/// Returns the number of a slot and the bytes after its space, or `None` if there is no space.
#[inline(never)]
pub(crate) fn split_slot(text: &[u8]) -> Option<(Result<u32, Refusal>, &[u8])>
    ensures some { IfSome result (λ parts. BeginsWithSlot text.now parts.0 parts.1.now) }
    ensures none { IfNone result (words_of text.now ≡ text.now ∷ []) }
{
    match split_at_first(text, b' ') {
        Some((first, rest)) => Some((read_index(first), rest)),
        None => None,
    }
}
