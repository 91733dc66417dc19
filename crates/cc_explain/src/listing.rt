//! The listing of a word: thirteen lines with its fields and the values that they decode to.
ghost use Rattle.std.specs.Prelude.{
  ◌≡◌,
  ◌+◌,
  ◌≤◌,
  ◌++◌,
  [],
  codes,
  decimal,
  true,
  length,
  if◌then◌else◌,
};
ghost use Rattle.cc_word.specs.Word.{bit_of, word_of};
ghost use Rattle.cc_word.specs.WordText.{digits_of, hexadecimal};
ghost use Rattle.cc_explain.specs.Listing.{
  IsWordListing,
  bounds_lines_of,
  field_lines_of,
  line_of,
};
ghost use Rattle.cc_io.specs.Permissions.{permissions_text};

use bitflags::Flags;
use cc_cap::{Decoded, Perms};
use cc_io::{MOST_TEXT, Text, push_permissions};
use cc_word::Fields;

/// Puts the listing of a word into an empty text: the word, its eight fields, the exponent, base and
/// top that they decode to, and whether the word is canonical.
pub fn push_listing(text: &mut Text, word: u128)
    requires { text.old ≡ [] }
    ensures { IsWordListing word text.new }
{
    let decoded = Decoded::of_word(word);
    let canonical = decoded.is_canonical();
    push_field_lines(text, word, &decoded.fields);
    push_bounds_lines(text, &decoded, canonical);
}

/// Appends the lines of a word and of its fields.
fn push_field_lines(text: &mut Text, word: u128, fields: &Fields)
    requires { text.old ≡ [] }
    ensures value { text.new ≡ field_lines_of word fields.now }
    ensures fits { length text.new ≤ 382 }
{
    push_digits_line(text, b"word", word, 32);
    push_permissions_line(text, fields.perms);
    push_decimal_line(text, b"reserved", u128::from(fields.reserved));
    push_decimal_line(text, b"flag", u128::from(fields.flag));
    push_digits_line(text, b"type", u128::from(fields.otype), 5);
    push_decimal_line(text, b"ie", u128::from(fields.ie));
    push_digits_line(text, b"t", u128::from(fields.t), 3);
    push_digits_line(text, b"b", u128::from(fields.b), 4);
    push_hexadecimal_line(text, b"address", u128::from(fields.address));
}

/// Appends the lines of the exponent and the bounds of a decoded word, and of whether it is
/// canonical.
fn push_bounds_lines(text: &mut Text, decoded: &Decoded, canonical: bool)
    requires { length text.old + 143 ≤ MOST_TEXT }
    ensures { text.new ≡ text.old ++ bounds_lines_of decoded.now.fields decoded.now.bounds canonical }
{
    push_decimal_line(text, b"exponent", u128::from(decoded.exponent));
    push_hexadecimal_line(text, b"base", u128::from(decoded.bounds.base));
    push_hexadecimal_line(text, b"top", decoded.bounds.top);
    push_name(text, b"canonical");
    text.push(if canonical { b"yes\n" } else { b"no\n" });
}

/// Appends a line whose value is the last `count` hexadecimal digits of a number.
fn push_digits_line(text: &mut Text, name: &[u8], number: u128, count: usize)
    requires digits { count ≤ 32 }
    requires room { length text.old + length name.now + count + 2 ≤ MOST_TEXT }
    ensures value { text.new ≡ text.old ++ line_of name.now (digits_of count number) }
    ensures fits { length text.new ≤ length text.old + length name.now + count + 2 }
{
    push_name(text, name);
    text.push_digits(number, count);
    text.push(b"\n");
}

/// Appends a line whose value is a number in decimal.
fn push_decimal_line(text: &mut Text, name: &[u8], number: u128)
    requires { length text.old + length name.now + 42 ≤ MOST_TEXT }
    ensures value { text.new ≡ text.old ++ line_of name.now (decimal number) }
    ensures fits { length text.new ≤ length text.old + length name.now + 42 }
{
    push_name(text, name);
    text.push_decimal(number);
    text.push(b"\n");
}

/// Appends a line whose value is a number in hexadecimal, with `0x` and without leading zeros.
fn push_hexadecimal_line(text: &mut Text, name: &[u8], number: u128)
    requires { length text.old + length name.now + 36 ≤ MOST_TEXT }
    ensures value { text.new ≡ text.old ++ line_of name.now (hexadecimal number) }
    ensures fits { length text.new ≤ length text.old + length name.now + 36 }
{
    push_name(text, name);
    text.push_hexadecimal(number);
    text.push(b"\n");
}

/// Appends the line of the permissions, as digits and by name.
fn push_permissions_line(text: &mut Text, perms: u16)
    requires { length text.old + 137 ≤ MOST_TEXT }
    ensures value { text.new ≡ text.old
        ++ line_of (codes "perms") (digits_of 4 perms ++ codes " " ++ permissions_text perms) }
    ensures fits { length text.new ≤ length text.old + 137 }
{
    push_name(text, b"perms");
    text.push_digits(u128::from(perms), 4);
    text.push(b" ");
    push_permissions(text, Perms::from_bits_retain(perms));
    text.push(b"\n");
}

/// Appends the start of a line: its name and a space.
fn push_name(text: &mut Text, name: &[u8])
    requires { length text.old + length name.now + 1 ≤ MOST_TEXT }
    ensures value { text.new ≡ text.old ++ name.now ++ codes " " }
    ensures fits { length text.new ≡ length text.old + length name.now + 1 }
{
    text.push(name);
    text.push(b" ");
}
