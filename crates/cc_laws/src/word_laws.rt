//! Laws of the text of words and of numbers. The contract of each function is a law, and its body
//! is empty.
ghost use Rattle.std.specs.Prelude.{ℕ, false, ◌≡◌, ◌<◌, ◌≤◌, ◌^◌};
ghost use Rattle.std.specs.Fmt.{digits};
ghost use Rattle.std.specs.Str.Parse.{digits_value};
ghost use Rattle.cc_word.specs.WordText.{IsWordText, digits_of};

/// Proves that the 32 digits that [`write_word`](cc_word::write_word) returns are the text of a word,
/// and that their value is the word that they were written for.
///
/// So [`read_word`](cc_word::read_word) finds the word in these digits.
pub fn words_are_read_back()
    ensures text { (word : ℕ) → IsWordText (digits_of 32 word) }
    ensures value { (word : ℕ) → word < 2 ^ 128 → digits_value 16 (digits_of 32 word) ≡ word }
{}

/// Proves that the value of the digits of a number is the number.
///
/// `padded` is about a given number of hexadecimal digits, and `plain` about digits without leading
/// zeros, in any base from 2 to 16. The number is below 16^count for `padded`, and below radix^64
/// for `plain`.
pub fn digits_are_read_back()
    ensures padded { (count number : ℕ) → number < 16 ^ count
        → digits_value 16 (digits_of count number) ≡ number }
    ensures plain { (radix number : ℕ) → 2 ≤ radix → radix ≤ 16 → number < radix ^ 64
        → digits_value radix (digits radix false number) ≡ number }
{}
