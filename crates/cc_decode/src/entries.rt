//! The word of an entry.
ghost use Rattle.std.specs.Prelude.{◌≡◌, ◌↔◌, length, IfSome, IsSome};
ghost use Rattle.std.specs.Str.Parse.{digits_value};
ghost use Rattle.cc_word.specs.WordText.{IsWordText};
ghost use Rattle.cc_decode.specs.Input.{IsWordEntry, block_value, digits_in, word_of_entry};

use cc_io::{ByteOrder, InputForm, digits_in};
use cc_word::read_word_fast;

/// The length of a word in bytes.
const BLOCK: usize = 16;

/// Returns the word of an entry, or `None` for a line that is not 32 hexadecimal digits, with or
/// without `0x` before them.
pub(crate) fn read_entry(input: InputForm, entry: &[u8]) -> Option<u128>
    ensures found { IsSome result ↔ IsWordEntry input entry.now }
    ensures value { IfSome result (λ word. word ≡ word_of_entry input entry.now) }
{
    match input {
        InputForm::Lines => read_line(entry),
        InputForm::Bytes(order) => read_block(order, entry),
    }
}

/// Returns the word of 32 hexadecimal digits, with or without `0x` before them.
// most words have no prefix, so a line is first read as it is
#[inline(always)]
fn read_line(line: &[u8]) -> Option<u128>
    ensures found { IsSome result ↔ IsWordText (digits_in line.now) }
    ensures value { IfSome result (λ word. word ≡ digits_value 16 (digits_in line.now)) }
{
    match read_word_fast(line) {
        Some(word) => Some(word),
        None => read_word_fast(digits_in(line)),
    }
}

/// Returns the word of 16 bytes in this order, or `None` if there are more or fewer.
fn read_block(order: ByteOrder, block: &[u8]) -> Option<u128>
    ensures found { IsSome result ↔ (length block.now ≡ 16) }
    ensures value { IfSome result (λ word. word ≡ block_value order block.now) }
{
    match <[u8; BLOCK]>::try_from(block) {
        Ok(bytes) => Some(match order {
            ByteOrder::Little => u128::from_le_bytes(bytes),
            ByteOrder::Big => u128::from_be_bytes(bytes),
        }),
        Err(_) => None,
    }
}
