//! The text of words: 32 hexadecimal digits, the highest first.
ghost use Rattle.std.specs.Prelude.{◌≡◌, ◌↔◌, IsSome, IfSome};
ghost use Rattle.std.specs.Int.{w128, from_be_bytes};
ghost use Rattle.std.specs.Str.Parse.{digits_value};
ghost use Rattle.hex.specs.Hex.{encode_with, lower_digits};
ghost use Rattle.cc_word.specs.WordText.{IsWordText, digits_of};

use hex::{decode_to_slice, encode_to_slice};

/// Returns the word of 32 hexadecimal digits of either case, the highest first.
///
/// Returns `None` for any other input: fewer or more digits, a prefix, a space, or a byte that is
/// not a digit. For words by the million, [`read_word_fast`](crate::read_word_fast) takes a quarter
/// of the instructions.
pub fn read_word(text: &[u8]) -> Option<u128>
    ensures found { IsSome result ↔ IsWordText text.now }
    ensures value { IfSome result (λ word. word ≡ digits_value 16 text.now) }
{
    let bytes = bytes_of_digits(text)?;
    Some(u128::from_be_bytes(bytes))
}

/// Returns the 32 hexadecimal digits of a word, in lower case, the highest first.
///
/// For words by the million, [`write_word_fast`](crate::write_word_fast) takes fewer instructions.
pub fn write_word(word: u128) -> [u8; 32]
    ensures { result ≡ digits_of 32 word }
{
    digits_of_bytes(bytes_of_word(word))
}

/// Returns the bytes of 32 hexadecimal digits, the highest first, or `None` for any other input.
fn bytes_of_digits(text: &[u8]) -> Option<[u8; 16]>
    ensures found { IsSome result ↔ IsWordText text.now }
    ensures value { IfSome result (λ bytes. from_be_bytes w128 bytes ≡ digits_value 16 text.now) }
{
    let mut bytes = [0; 16];
    match decode_to_slice(text, &mut bytes) {
        Ok(()) => Some(bytes),
        Err(_) => None,
    }
}

/// Returns the hexadecimal digits of 16 bytes, two for each, in lower case.
fn digits_of_bytes(bytes: [u8; 16]) -> [u8; 32]
    ensures { result ≡ encode_with lower_digits bytes }
{
    let mut text = [0; 32];
    let _ = encode_to_slice(bytes, &mut text);
    text
}

/// Returns the bytes of a word, the highest first.
fn bytes_of_word(word: u128) -> [u8; 16]
    ensures { encode_with lower_digits result ≡ digits_of 32 word }
{
    word.to_be_bytes()
}
