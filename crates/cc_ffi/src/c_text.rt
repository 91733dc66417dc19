//! Words as text.
ghost use Rattle.std.specs.Prelude.{◌≡◌, ◌-◌, ◌<◌, ◌↔◌, Some, drop, length, replicate, slice_get, take, IsTrue};
ghost use Rattle.std.specs.Str.Parse.{digits_value};
ghost use Rattle.cc_word.specs.WordText.{IsWordText, digits_of};
ghost use Rattle.cc_cap.specs.LineText.{IsWordLine};
ghost use Rattle.cc_ffi.specs.Numbers.{number_of_halves};

use crate::halves::{halves, number};
use crate::structs::ReadWord;
use crate::word_line::WordLine;

/// Returns the word that 32 hexadecimal digits of either case parse as. No other bytes parse as a
/// word.
#[unsafe(no_mangle)]
pub extern "C" fn cheri_cap_read_word(text: &[u8]) -> ReadWord
    ensures found { IsTrue result.found ↔ IsWordText text.now }
    ensures value { IsTrue result.found → number_of_halves result.high result.low ≡ digits_value 16 text.now }
    ensures none { (¬ IsTrue result.found) → number_of_halves result.high result.low ≡ 0 }
{
    match cc_word::read_word_fast(text) {
        Some(word) => {
            let word = halves(word);
            ReadWord {
                high: word.high,
                low: word.low,
                found: true,
            }
        }
        None => ReadWord {
            high: 0,
            low: 0,
            found: false,
        },
    }
}

/// Writes the 32 hexadecimal digits of a word, in lower case, and no zero byte after them.
#[unsafe(no_mangle)]
pub extern "C" fn cheri_cap_write_word(high: u64, low: u64, text: &mut [u8; 32])
    ensures { text.new ≡ digits_of 32 (number_of_halves high low) }
{
    cc_word::write_word_fast_to(number(high, low), text);
}

/// Writes the line of a word and a zero byte, and returns the number of bytes before that zero
/// byte.
#[unsafe(no_mangle)]
pub extern "C" fn cheri_cap_format(high: u64, low: u64, tagged: bool, text: &mut [u8; 96]) -> usize
    ensures line { IsWordLine (number_of_halves high low) tagged (take result text.new) }
    ensures fits { result < 96 }
    ensures ended { slice_get text.new result ≡ Some 0 }
    ensures rest { drop result text.new ≡ replicate (96 - result) 0 }
{
    let line = WordLine::of_word(number(high, low), tagged);
    *text = padded(line.bytes());
    line.bytes().len()
}

/// Returns the bytes, with zero bytes after them.
#[tactic(auto, using(crate::proofs::PaddingLemmas::zeros_behind, crate::proofs::PaddingLemmas::zero_behind))]
fn padded(bytes: &[u8]) -> [u8; 96]
    requires { length bytes.now < 96 }
    ensures line { take (length bytes.now) result ≡ bytes.now }
    ensures ended { slice_get result (length bytes.now) ≡ Some 0 }
    ensures rest { drop (length bytes.now) result ≡ replicate (96 - length bytes.now) 0 }
{
    let mut room = [0; 96];
    let end = bytes.len();
    room[..end].copy_from_slice(bytes);
    room
}
