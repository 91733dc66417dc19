//! The reply to one word, on one line.
ghost use Rattle.std.specs.List.{join_with_byte};
ghost use Rattle.std.specs.Prelude.{
  ◌≡◌,
  ◌≤◌,
  ◌<◌,
  ◌+◌,
  ◌^◌,
  ◌∷◌,
  ◌++◌,
  [],
  codes,
  decimal,
  length,
  true,
  if◌then◌else◌,
};
ghost use Rattle.cc_word.specs.Word.{bit_of};
ghost use Rattle.cc_word.specs.WordText.{digits_of, hexadecimal};
ghost use Rattle.cc_cap.specs.LineText.{letter_of, letters_of, word_line_of, marks_of};
ghost use Rattle.cc_word.specs.Permissions.{bits_of};
ghost use Rattle.cc_io.specs.Permissions.{permissions_text};
ghost use Rattle.cc_decode.specs.Decoder.{AppendsLine, AppendsRow, most_line, most_row};
ghost use Rattle.cc_decode.specs.Row.{columns_text, csv_text, fixed_text, json_bounds, json_rights, json_text, padded};
ghost use Rattle.cc_decode.specs.Row.{values_text};

use crate::places::push_place;
use crate::writers::{Batch, push_byte, push_byte_if, push_decimal, push_padded};
use bitflags::Flags;
use cc_bounds::Span;
use cc_cap::Decoded;
use cc_io::{Format, push_permissions, push_permissions_array};
use cc_word::{Fields, Perms, SENTRY_TYPE, UNSEALED_TYPE, write_half};
use std::simd::prelude::*;

/// For each exponent, the number whose two hexadecimal digits are its decimal digits, or its one
/// digit and a zero.
const SHORT_DECIMALS: [u8; 53] = [
    0x00, 0x10, 0x20, 0x30, 0x40, 0x50, 0x60, 0x70, 0x80, 0x90, 0x10, 0x11, 0x12, 0x13, 0x14, 0x15,
    0x16, 0x17, 0x18, 0x19, 0x20, 0x21, 0x22, 0x23, 0x24, 0x25, 0x26, 0x27, 0x28, 0x29, 0x30, 0x31,
    0x32, 0x33, 0x34, 0x35, 0x36, 0x37, 0x38, 0x39, 0x40, 0x41, 0x42, 0x43, 0x44, 0x45, 0x46, 0x47,
    0x48, 0x49, 0x50, 0x51, 0x52,
];

/// Appends the line of a word in this format, with its address, if there is one.
#[inline(always)]
pub(crate) fn push_row_line(batch: &mut Batch, format: Format, at: Option<u64>, word: u128)
    requires { length batch.old + most_line ≤ 32768 }
    ensures line { AppendsLine format at word batch.old batch.new }
    ensures fits { length batch.new ≤ length batch.old + most_line }
{
    push_place(batch, format, at);
    push_row(batch, format, word);
    push_byte(batch, b'\n');
}

/// Appends the reply to a word in this format, without a line feed.
#[inline(always)]
pub(crate) fn push_row(batch: &mut Batch, format: Format, word: u128)
    requires { length batch.old + most_row ≤ 32768 }
    ensures row { AppendsRow format word batch.old batch.new }
    ensures fits { length batch.new ≤ length batch.old + most_row }
{
    match format {
        Format::Columns => push_columns(batch, word),
        Format::Text => push_line(batch, word),
        Format::Fixed => push_fixed(batch, word),
        Format::Csv => push_csv(batch, word),
        Format::Json => push_json(batch, word),
    }
}

/// Appends the columns of a word.
fn push_columns(batch: &mut Batch, word: u128)
    requires { length batch.old + most_row ≤ 32768 }
    ensures row { AppendsRow Format.Columns word batch.old batch.new }
    ensures fits { length batch.new ≤ length batch.old + most_row }
{
    let decoded = Decoded::of_word(word);
    let canonical = decoded.is_canonical();
    push_values(batch, b' ', word, &decoded, canonical);
}

/// Appends the line that a tagged word has.
fn push_line(batch: &mut Batch, word: u128)
    requires { length batch.old + most_row ≤ 32768 }
    ensures row { AppendsRow Format.Text word batch.old batch.new }
    ensures fits { length batch.new ≤ length batch.old + most_row }
{
    let decoded = Decoded::of_word(word);
    push_line_of(batch, &decoded.fields, &decoded.bounds);
}

/// Appends the line of a tagged word with these fields and bounds.
fn push_line_of(batch: &mut Batch, fields: &Fields, bounds: &Span)
    requires { length batch.old + most_row ≤ 32768 }
    ensures value { batch.new ≡ batch.old ++ word_line_of fields.now bounds.now true }
    ensures fits { length batch.new ≤ length batch.old + most_row }
{
    push_address_and_letters(batch, fields);
    push_bounds_and_mark(batch, fields, bounds);
}

/// Appends the address, a bracket, and the letters of the permissions.
fn push_address_and_letters(batch: &mut Batch, fields: &Fields)
    requires { length batch.old + 41 ≤ 32768 }
    ensures value { batch.new ≡ batch.old ++ hexadecimal fields.now.address ++ codes " ["
        ++ letters_of fields.now.perms }
    ensures fits { length batch.new ≤ length batch.old + 41 }
{
    batch.push_hexadecimal(u128::from(fields.address));
    batch.push(b" [");
    push_letters(batch, Perms::from_bits_retain(fields.perms));
}

/// Appends the letters of those five permissions that have one, as far as the set has them.
fn push_letters(batch: &mut Batch, perms: Perms)
    requires { length batch.old + 5 ≤ 32768 }
    ensures value { batch.new ≡ batch.old ++ letters_of (bits_of perms) }
    ensures fits { length batch.new ≤ length batch.old + 5 }
{
    push_letter(batch, b'r', perms, Perms::LOAD);
    push_letter(batch, b'w', perms, Perms::STORE);
    push_letter(batch, b'x', perms, Perms::EXECUTE);
    push_letter(batch, b'R', perms, Perms::LOAD_CAP);
    push_letter(batch, b'W', perms, Perms::STORE_CAP);
}

/// Appends the letter of a permission, if the set has the permission.
#[inline(always)]
fn push_letter(batch: &mut Batch, letter: u8, perms: Perms, permission: Perms)
    requires { length batch.old + 1 ≤ 32768 }
    ensures value { batch.new ≡ batch.old ++ letter_of (letter ∷ []) (bits_of perms) (bits_of permission) }
    ensures fits { length batch.new ≤ length batch.old + 1 }
{
    push_byte_if(batch, letter, perms.contains(permission));
}

/// Appends a comma, the bounds, the closing bracket, and the mark of a tagged word's type.
fn push_bounds_and_mark(batch: &mut Batch, fields: &Fields, bounds: &Span)
    requires { length batch.old + 90 ≤ 32768 }
    ensures value { batch.new ≡ batch.old ++ codes "," ++ hexadecimal bounds.now.base ++ codes "-"
        ++ hexadecimal bounds.now.top
        ++ codes "]" ++ marks_of fields.now.otype true }
    ensures fits { length batch.new ≤ length batch.old + 90 }
{
    push_byte(batch, b',');
    push_span(batch, b'-', bounds);
    push_byte(batch, b']');
    push_mark(batch, fields.otype);
}

/// Appends the mark of a tagged word's type: none if it is unsealed, ` (sentry)`, or ` (sealed)`.
fn push_mark(batch: &mut Batch, otype: u32)
    requires { length batch.old + 10 ≤ 32768 }
    ensures value { batch.new ≡ batch.old ++ marks_of otype true }
    ensures fits { length batch.new ≤ length batch.old + 10 }
{
    match otype {
        UNSEALED_TYPE => batch.push(b""),
        SENTRY_TYPE => batch.push(b" (sentry)"),
        _ => batch.push(b" (sealed)"),
    }
}

/// Appends the columns of a word in one width each.
fn push_fixed(batch: &mut Batch, word: u128)
    requires { length batch.old + most_row ≤ 32768 }
    ensures row { AppendsRow Format.Fixed word batch.old batch.new }
    ensures fits { length batch.new ≤ length batch.old + most_row }
{
    let decoded = Decoded::of_word(word);
    let canonical = decoded.is_canonical();
    push_fixed_values(batch, word, &decoded, canonical);
}

/// Appends the columns in one width each of a decoded word.
fn push_fixed_values(batch: &mut Batch, word: u128, decoded: &Decoded, canonical: bool)
    requires { length batch.old + most_row ≤ 32768 }
    ensures value { batch.new ≡ batch.old ++ fixed_text word decoded.now.fields decoded.now.bounds canonical }
    ensures fits { length batch.new ≤ length batch.old + 92 }
{
    push_fixed_bounds(batch, word, &decoded.bounds);
    push_rights(batch, b' ', &decoded.fields, decoded.exponent);
    push_byte(batch, b' ');
    push_decimal(batch, u8::from(canonical));
}

/// Appends the word, its base and its top in one width each.
fn push_fixed_bounds(batch: &mut Batch, word: u128, bounds: &Span)
    requires { length batch.old + 72 ≤ 32768 }
    ensures value { batch.new ≡ batch.old ++ digits_of 32 word ++ codes " " ++ padded bounds.now.base ++ codes " "
        ++ padded bounds.now.top }
    ensures fits { length batch.new ≤ length batch.old + 72 }
{
    batch.push_word(word);
    push_byte(batch, b' ');
    push_padded(batch, u128::from(bounds.base));
    push_byte(batch, b' ');
    push_padded(batch, bounds.top);
}

/// Appends the comma-separated values of a word.
fn push_csv(batch: &mut Batch, word: u128)
    requires { length batch.old + most_row ≤ 32768 }
    ensures row { AppendsRow Format.Csv word batch.old batch.new }
    ensures fits { length batch.new ≤ length batch.old + most_row }
{
    let decoded = Decoded::of_word(word);
    let canonical = decoded.is_canonical();
    push_csv_values(batch, word, &decoded, canonical);
}

/// Appends the comma-separated values of a decoded word.
fn push_csv_values(batch: &mut Batch, word: u128, decoded: &Decoded, canonical: bool)
    requires { length batch.old + most_row ≤ 32768 }
    ensures value { batch.new ≡ batch.old ++ csv_text word decoded.now.fields decoded.now.bounds canonical }
    ensures fits { length batch.new ≤ length batch.old + most_row }
{
    push_values(batch, b',', word, decoded, canonical);
    push_address_and_names(batch, decoded.fields.address, decoded.fields.perms);
}

/// Appends the members of the object of a word, and the brace that closes it.
fn push_json(batch: &mut Batch, word: u128)
    requires { length batch.old + most_row ≤ 32768 }
    ensures row { AppendsRow Format.Json word batch.old batch.new }
    ensures fits { length batch.new ≤ length batch.old + most_row }
{
    let decoded = Decoded::of_word(word);
    let canonical = decoded.is_canonical();
    push_json_members(batch, word, &decoded, canonical);
}

/// Appends the members of the object of a decoded word, and the brace that closes it.
fn push_json_members(batch: &mut Batch, word: u128, decoded: &Decoded, canonical: bool)
    requires { length batch.old + most_row ≤ 32768 }
    ensures value { batch.new ≡ batch.old ++ json_text word decoded.now.fields decoded.now.bounds canonical }
    ensures fits { length batch.new ≤ length batch.old + most_row }
{
    push_json_rights(batch, word, &decoded.fields);
    push_json_bounds(batch, decoded);
    batch.push(b",\"canonical\":");
    if canonical {
        batch.push(b"true}");
    } else {
        batch.push(b"false}");
    }
}

/// Appends the members of the word, its permissions, its reserved bits, its flag and its type.
fn push_json_rights(batch: &mut Batch, word: u128, fields: &Fields)
    requires { length batch.old + 263 ≤ 32768 }
    ensures value { batch.new ≡ batch.old ++ join_with_byte 44 (json_rights word fields.now) }
    ensures fits { length batch.new ≤ length batch.old + 263 }
{
    cc_io::push_digits(batch, b"\"word\":\"", word, 32);
    cc_io::push_digits(batch, b"\",\"perms\":\"", u128::from(fields.perms), 4);
    batch.push(b"\",\"names\":");
    push_permissions_array(batch, Perms::from_bits_retain(fields.perms));
    batch.push(b",\"reserved\":");
    push_decimal(batch, fields.reserved);
    batch.push(b",\"flag\":");
    push_decimal(batch, u8::from(fields.flag));
    cc_io::push_digits(batch, b",\"type\":\"", u128::from(fields.otype), 5);
    push_byte(batch, b'"');
}

/// Appends the members of the address, the exponent and the bounds, after a comma.
fn push_json_bounds(batch: &mut Batch, decoded: &Decoded)
    requires { length batch.old + 148 ≤ 32768 }
    ensures value { batch.new ≡ batch.old
        ++ (codes "," ++ join_with_byte 44 (json_bounds decoded.now.fields decoded.now.bounds)) }
    ensures fits { length batch.new ≤ length batch.old + 148 }
{
    cc_io::push_hexadecimal(
        batch,
        b",\"address\":\"",
        u128::from(decoded.fields.address),
    );
    batch.push(b"\",\"exponent\":");
    push_decimal(batch, decoded.exponent);
    cc_io::push_hexadecimal(batch, b",\"base\":\"", u128::from(decoded.bounds.base));
    cc_io::push_hexadecimal(batch, b"\",\"top\":\"", decoded.bounds.top);
    push_byte(batch, b'"');
}

/// Appends the address and the names of the permissions, with a comma before each.
fn push_address_and_names(batch: &mut Batch, address: u64, perms: u16)
    requires { length batch.old + 200 ≤ 32768 }
    ensures value { batch.new ≡ batch.old ++ codes "," ++ hexadecimal address ++ codes "," ++ permissions_text perms }
    ensures fits { length batch.new ≤ length batch.old + 200 }
{
    push_byte(batch, b',');
    batch.push_hexadecimal(u128::from(address));
    push_byte(batch, b',');
    push_permissions(batch, Perms::from_bits_retain(perms));
}

/// Appends the eight values of a decoded word, and a separator between each two.
// inlined, so that the separator is known at compile time
#[inline(always)]
fn push_values(batch: &mut Batch, separator: u8, word: u128, decoded: &Decoded, canonical: bool)
    requires { length batch.old + 300 ≤ 32768 }
    ensures value { batch.new ≡ batch.old
        ++ values_text (separator ∷ []) word decoded.now.fields decoded.now.bounds canonical }
    ensures fits { length batch.new ≤ length batch.old + 150 }
{
    push_bounds(batch, separator, word, &decoded.bounds);
    let last = SHORT_DECIMALS[usize::from(decoded.exponent)];
    push_rights(batch, separator, &decoded.fields, last);
    // of the two digits of the exponent, an exponent below 10 has one
    batch.drop_last(usize::from(decoded.exponent < 10));
    push_canonical(batch, separator, canonical);
}

/// Appends the word, its base and its top, the first three values.
#[inline(always)]
fn push_bounds(batch: &mut Batch, separator: u8, word: u128, bounds: &Span)
    requires { length batch.old + 102 ≤ 32768 }
    ensures value { batch.new ≡ batch.old ++ digits_of 32 word ++ (separator ∷ []) ++ hexadecimal bounds.now.base
        ++ (separator ∷ []) ++ hexadecimal bounds.now.top }
    ensures fits { length batch.new ≤ length batch.old + 102 }
{
    batch.push_word(word);
    push_byte(batch, separator);
    push_span(batch, separator, bounds);
}

/// Appends base and top, with a separator between them.
#[inline(always)]
fn push_span(batch: &mut Batch, separator: u8, bounds: &Span)
    requires { length batch.old + 69 ≤ 32768 }
    ensures value { batch.new ≡ batch.old ++ hexadecimal bounds.now.base ++ (separator ∷ [])
        ++ hexadecimal bounds.now.top }
    ensures fits { length batch.new ≤ length batch.old + 69 }
{
    batch.push_hexadecimal(u128::from(bounds.base));
    push_byte(batch, separator);
    batch.push_hexadecimal(bounds.top);
}

/// Appends permissions, flag, type and two more hexadecimal digits, with a separator before each.
// one call gives the digits of all four, with a digit 0 in place of each separator
#[inline(always)]
fn push_rights(batch: &mut Batch, separator: u8, fields: &Fields, last: u8)
    requires { length batch.old + 16 ≤ 32768 }
    ensures value { batch.new ≡ batch.old ++ (separator ∷ []) ++ digits_of 4 fields.now.perms ++ (separator ∷ [])
        ++ decimal (bit_of fields.now.flag) ++ (separator ∷ []) ++ digits_of 5 fields.now.otype
        ++ (separator ∷ []) ++ digits_of 2 last }
    ensures fits { length batch.new ≡ length batch.old + 16 }
{
    let rights = (u64::from(fields.perms) << 44) + (u64::from(fields.flag) << 36);
    let digits = write_half(rights + (u64::from(fields.otype) << 12) + u64::from(last));
    let change = separator ^ b'0';
    let changes = u8x16::from_array([
        change, 0, 0, 0, 0, change, 0, change, 0, 0, 0, 0, 0, change, 0, 0,
    ]);
    batch.push(&(u8x16::from_array(digits) ^ changes).to_array());
}

/// Appends whether a word is canonical, with a separator before it.
#[inline(always)]
fn push_canonical(batch: &mut Batch, separator: u8, canonical: bool)
    requires { length batch.old + 4 ≤ 32768 }
    ensures value { batch.new ≡ batch.old ++ (separator ∷ []) ++ (if canonical then codes "yes" else codes "no") }
    ensures fits { length batch.new ≤ length batch.old + 4 }
{
    let text = if canonical {
        [separator, b'y', b'e', b's']
    } else {
        [separator, b'n', b'o', b' ']
    };
    batch.push(&text);
    batch.drop_last(usize::from(!canonical));
}
