//! A law of the values in lines. The contract of the function is the law, and its body is empty.
ghost use Rattle.std.specs.Prelude.{◌≡◌, ◌<◌, ◌^◌, ℕ, Some, Ok, decimal};
ghost use Rattle.cc_word.specs.WordText.{digits_of, hexadecimal};
ghost use Rattle.cc_values.specs.Values.{word_in};
ghost use Rattle.cc_values.specs.Numbers.{number_of};

/// Proves that numbers printed in decimal or with `0x`, and words, parse as the same numbers and
/// words: decimal numbers below 10^64, hexadecimal numbers below 16^64, and words of 32 digits.
///
/// The permissions and the type in the reply to `show` have no `0x`, and are not meant.
pub fn printed_values_are_read_back()
    ensures decimal { (number : ℕ) → number < 10 ^ 64 → number_of (decimal number) ≡ Some number }
    ensures hexadecimal { (number : ℕ) → number < 16 ^ 64 → number_of (hexadecimal number) ≡ Some number }
    ensures word { (word : ℕ) → word < 2 ^ 128 → word_in (digits_of 32 word) ≡ Ok word }
{}
