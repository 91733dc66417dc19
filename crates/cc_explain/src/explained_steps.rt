//! The lines of an explanation: the fields of a word, and the steps of decoding them.
ghost use Rattle.std.specs.Prelude.{◌≡◌, ◌+◌, ◌≤◌, ◌<◌, ◌/◌, ◌^◌, ◌++◌, [], Some, codes, length};
ghost use Rattle.cc_bounds.specs.Granule.{IsSound};
ghost use Rattle.cc_bounds.specs.Span.{IsSpan};
ghost use Rattle.cc_cap.specs.declared.canonical.Defect.TheVariants.{OtherFields};
ghost use Rattle.cc_word.specs.Word.{bit_of};
ghost use Rattle.cc_explain.specs.Explanation.{
  base_mantissa_text,
  bounds_fields_text,
  bounds_line_text,
  bounds_lines,
  canonical_text,
  carry_text,
  comparison_text,
  corrected_text,
  correction_text,
  corrections_text,
  other_fields_text,
  exponent_text,
  fields_text,
  granule_text,
  high_text,
  implied_text,
  length_text,
  mantissas_text,
  rights_text,
  section_text,
  sections_text,
  stored_text,
  top_mantissa_text,
  upper_text,
  window_addresses_text,
  window_lines_text,
  window_text,
  word_text,
};
ghost use Rattle.cc_explain.specs.Steps.{address_section, carries, is_high};

use crate::steps::{Steps, section, unit};
use cc_bounds::{Set, Span};
use cc_cap::Defect;
use cc_io::{
    MOST_TEXT, Text, end_with_decimal, end_with_hexadecimal, push_decimal, push_digits,
    push_hexadecimal,
};
use cc_word::Fields;

/// Appends the lines of a word and of its fields.
///
/// Requires: `text` is empty.
pub fn push_fields(text: &mut Text, word: u128, fields: &Fields)
    requires { text.old ≡ [] }
    ensures value { text.new ≡ fields_text word fields.now }
    ensures fits { length text.new ≤ 400 }
{
    push_word(text, word);
    push_rights(text, fields);
    push_bounds_line(text, fields);
}

/// Appends the line of a word.
///
/// Requires: 43 bytes of `text` are free.
pub fn push_word(text: &mut Text, word: u128)
    requires room { length text.old + 43 ≤ MOST_TEXT }
    ensures value { text.new ≡ text.old ++ word_text word }
    ensures fits { length text.new ≤ length text.old + 43 }
{
    push_digits(text, b"word      ", word, 32);
    text.push(b"\n");
}

/// Appends the line of the fields that the bounds do not depend on: permissions, reserved bits,
/// flag and type.
fn push_rights(text: &mut Text, fields: &Fields)
    requires room { length text.old + 145 ≤ MOST_TEXT }
    ensures value { text.new ≡ text.old ++ rights_text fields.now }
    ensures fits { length text.new ≤ length text.old + 145 }
{
    push_digits(text, b"fields    permissions ", u128::from(fields.perms), 4);
    push_decimal(text, b", reserved ", u128::from(fields.reserved));
    push_decimal(text, b", flag ", bit(fields.flag));
    push_digits(text, b", type ", u128::from(fields.otype), 5);
    text.push(b"\n");
}

/// Appends the line of the fields that the bounds are decoded from: IE, T, B and the address.
fn push_bounds_line(text: &mut Text, fields: &Fields)
    requires room { length text.old + 170 ≤ MOST_TEXT }
    ensures value { text.new ≡ text.old ++ bounds_line_text fields.now }
    ensures fits { length text.new ≤ length text.old + 170 }
{
    push_bounds_fields(text, b"          IE ", fields.ie, fields.t, fields.b);
    push_hexadecimal(text, b", address ", u128::from(fields.address));
    text.push(b"\n");
}

/// Appends the given bytes, and then the values of IE and of the T and B fields.
fn push_bounds_fields(text: &mut Text, before: &[u8], ie: bool, t: u16, b: u16)
    requires before { length before.now ≤ 60 }
    requires room { length text.old + length before.now + 75 ≤ MOST_TEXT }
    ensures value { text.new ≡ text.old ++ bounds_fields_text before.now (bit_of ie) t b }
    ensures fits { length text.new ≤ length text.old + length before.now + 75 }
{
    push_decimal(text, before, bit(ie));
    push_digits(text, b", T field 0x", u128::from(t), 3);
    push_digits(text, b", B field 0x", u128::from(b), 4);
}

/// Returns the bit as a number: 1 or 0.
fn bit(is_set: bool) -> u128
    ensures { result ≡ bit_of is_set }
{
    u128::from(is_set)
}

/// Appends the lines of the exponent and of the mantissas.
///
/// Requires: `steps.exponent <= 52`; `steps.b < 2^14`; `steps.t < 2^14`; 1,200 bytes of `text`
/// are free.
pub fn push_mantissas(text: &mut Text, fields: &Fields, steps: &Steps)
    requires exponent { steps.now.exponent ≤ 52 }
    requires base_mantissa { steps.now.b < 2 ^ 14 }
    requires top_mantissa { steps.now.t < 2 ^ 14 }
    requires room { length text.old + 1200 ≤ MOST_TEXT }
    ensures value { text.new ≡ text.old ++ mantissas_text fields.now steps.now }
    ensures fits { length text.new ≤ length text.old + 1200 }
{
    push_exponent(text, fields, steps);
    push_granule(text, fields, steps);
    push_base_mantissa(text, fields, steps);
    push_top_mantissa(text, fields, steps);
    push_carry(text, steps);
    push_implied(text, fields, steps);
    push_length(text, fields, steps);
}

/// Appends the line of the exponent, with the two octal digits that store it if IE is set.
fn push_exponent(text: &mut Text, fields: &Fields, steps: &Steps)
    requires room { length text.old + 220 ≤ MOST_TEXT }
    ensures value { text.new ≡ text.old ++ exponent_text fields.now steps.now }
    ensures fits { length text.new ≤ length text.old + 220 }
{
    if fields.ie {
        push_decimal(text, b"exponent  E = ", u128::from(steps.exponent));
        push_decimal(text, b": 8 * ", u128::from(fields.t % 8));
        end_with_decimal(
            text,
            b" + ",
            u128::from(fields.b % 8),
            b", from the low 3 bits of the T field and of the B field; at most 52",
        );
    } else {
        text.push(b"exponent  E = 0, as IE is 0\n");
    }
}

/// Appends the line of the granule: 2^(E+3) bytes with IE, one byte without.
fn push_granule(text: &mut Text, fields: &Fields, steps: &Steps)
    requires exponent { steps.now.exponent ≤ 52 }
    requires room { length text.old + 70 ≤ MOST_TEXT }
    ensures value { text.new ≡ text.old ++ granule_text fields.now steps.now }
    ensures fits { length text.new ≤ length text.old + 70 }
{
    if fields.ie {
        end_with_hexadecimal(
            text,
            b"granule   ",
            8 * unit(steps.exponent),
            b" bytes, 2^(E+3)",
        );
    } else {
        text.push(b"granule   1 byte\n");
    }
}

/// Appends the line of the base mantissa B.
fn push_base_mantissa(text: &mut Text, fields: &Fields, steps: &Steps)
    requires room { length text.old + 100 ≤ MOST_TEXT }
    ensures value { text.new ≡ text.old ++ base_mantissa_text fields.now steps.now }
    ensures fits { length text.new ≤ length text.old + 100 }
{
    push_hexadecimal(text, b"B         ", u128::from(steps.b));
    text.push(b", the B");
    text.push(stored(fields));
    text.push(b"\n");
}

/// Appends the line of the top mantissa T, with its two implied bits.
fn push_top_mantissa(text: &mut Text, fields: &Fields, steps: &Steps)
    requires room { length text.old + 170 ≤ MOST_TEXT }
    ensures value { text.new ≡ text.old ++ top_mantissa_text fields.now steps.now }
    ensures fits { length text.new ≤ length text.old + 170 }
{
    push_hexadecimal(text, b"T         ", u128::from(steps.t));
    text.push(b", the T");
    text.push(stored(fields));
    let implied = u128::from(steps.t >> 12);
    end_with_decimal(text, b", and above it ", implied, b" as the 2 implied bits");
}

/// Returns the phrase for the part of its mantissa that the T or the B field is. With IE its low
/// three bits are treated as 0.
fn stored(fields: &Fields) -> &'static [u8]
    ensures value { result.now ≡ stored_text fields.now }
    ensures fits { length result.now ≤ 35 }
{
    if fields.ie {
        b" field with its low 3 bits as 0"
    } else {
        b" field"
    }
}

/// Appends the line of the carry into the implied bits, and of the two numbers that it compares.
fn push_carry(text: &mut Text, steps: &Steps)
    requires room { length text.old + 170 ≤ MOST_TEXT }
    ensures value { text.new ≡ text.old ++ carry_text steps.now }
    ensures fits { length text.new ≤ length text.old + 170 }
{
    let of_t = steps.t % 0x1000;
    let of_b = steps.b % 0x1000;
    push_decimal(text, b"carry     ", carry(steps));
    push_hexadecimal(text, b", as ", u128::from(of_t));
    end_with_hexadecimal(
        text,
        comparison(of_t < of_b),
        u128::from(of_b),
        b", the low 12 bits of T and of B",
    );
}

/// Returns the carry into the implied bits.
fn carry(steps: &Steps) -> u128
    ensures value { result ≡ bit_of (carries steps.now) }
    ensures fits { result ≤ 1 }
{
    bit(steps.t % 0x1000 < steps.b % 0x1000)
}

/// Appends the line of the two implied bits, as the sum that they are.
fn push_implied(text: &mut Text, fields: &Fields, steps: &Steps)
    requires room { length text.old + 250 ≤ MOST_TEXT }
    ensures value { text.new ≡ text.old ++ implied_text fields.now steps.now }
    ensures fits { length text.new ≤ length text.old + 250 }
{
    let upper = u128::from(steps.b / 0x1000);
    let sum = upper + carry(steps) + bit(fields.ie);
    push_decimal(text, b"implied   ", sum % 4);
    push_decimal(text, b", as ", upper);
    push_decimal(text, b" + ", carry(steps));
    end_with_decimal(
        text,
        b" + ",
        bit(fields.ie),
        b" modulo 4: the upper 2 bits of B, the carry and IE",
    );
}

/// Returns the sign between two numbers, of which the first is below the second or is not.
fn comparison(is_below: bool) -> &'static [u8]
    ensures value { result.now ≡ comparison_text is_below }
    ensures fits { length result.now ≤ 4 }
{
    if is_below { b" < " } else { b" >= " }
}

/// Appends the line of T - B modulo 2^14, and of the range that the implied bits put it in.
fn push_length(text: &mut Text, fields: &Fields, steps: &Steps)
    requires base_mantissa { steps.now.b < 2 ^ 14 }
    requires top_mantissa { steps.now.t < 2 ^ 14 }
    requires room { length text.old + 120 ≤ MOST_TEXT }
    ensures value { text.new ≡ text.old ++ length_text fields.now steps.now }
    ensures fits { length text.new ≤ length text.old + 120 }
{
    push_hexadecimal(
        text,
        b"T - B     ",
        u128::from((steps.t + 0x4000 - steps.b) % 0x4000),
    );
    text.push(if fields.ie {
        b" modulo 0x4000: the implied bits put it within 0x1000 to 0x1fff\n"
    } else {
        b" modulo 0x4000: the implied bits put it within 0x0 to 0xfff\n"
    });
}

/// Appends the lines of the window, of the bounds and of whether the word is canonical.
///
/// Requires: `steps.exponent <= 52`; `steps.start < 2^67`; bounds with the defect `OtherFields` are a
/// sound span; 1,400 bytes of `text` are free.
pub fn push_window_lines(
    text: &mut Text,
    fields: &Fields,
    steps: &Steps,
    bounds: &Span,
    defect: Option<Defect>,
)
    requires exponent { steps.now.exponent ≤ 52 }
    requires start { steps.now.start < 2 ^ 67 }
    requires other_fields { defect ≡ Some OtherFields → IsSpan bounds.now × IsSound bounds.now }
    requires room { length text.old + 1400 ≤ MOST_TEXT }
    ensures value { text.new ≡ text.old ++ window_lines_text fields.now steps.now bounds.now defect }
    ensures fits { length text.new ≤ length text.old + 1400 }
{
    push_section(text, steps);
    push_sections(text, fields, steps);
    push_window(text, steps);
    push_corrections(text, fields, steps);
    push_bounds(text, bounds);
    push_canonical(text, defect, bounds);
}

/// Appends the line of the size of a section.
fn push_section(text: &mut Text, steps: &Steps)
    requires exponent { steps.now.exponent ≤ 52 }
    requires room { length text.old + 70 ≤ MOST_TEXT }
    ensures value { text.new ≡ text.old ++ section_text steps.now }
    ensures fits { length text.new ≤ length text.old + 70 }
{
    end_with_hexadecimal(
        text,
        b"section   ",
        section(steps.exponent),
        b" bytes, 2^(E+11)",
    );
}

/// Appends the line of the sections, from 0 to 7, of B, T and the address.
fn push_sections(text: &mut Text, fields: &Fields, steps: &Steps)
    requires exponent { steps.now.exponent ≤ 52 }
    requires room { length text.old + 180 ≤ MOST_TEXT }
    ensures value { text.new ≡ text.old ++ sections_text fields.now steps.now }
    ensures fits { length text.new ≤ length text.old + 180 }
{
    push_decimal(text, b"sections  ", u128::from(steps.b / 2048));
    push_decimal(text, b" of B, ", u128::from(steps.t / 2048));
    end_with_decimal(
        text,
        b" of T, ",
        address_section(fields, steps),
        b" of the address",
    );
}

/// Returns the section, from 0 to 7, of the address.
fn address_section(fields: &Fields, steps: &Steps) -> u128
    requires { steps.now.exponent ≤ 52 }
    ensures { result ≡ address_section fields.now steps.now }
{
    u128::from(fields.address) / section(steps.exponent) % 8
}

/// Appends the line of the window.
fn push_window(text: &mut Text, steps: &Steps)
    requires exponent { steps.now.exponent ≤ 52 }
    requires start { steps.now.start < 2 ^ 67 }
    requires room { length text.old + 180 ≤ MOST_TEXT }
    ensures value { text.new ≡ text.old ++ window_text steps.now }
    ensures fits { length text.new ≤ length text.old + 180 }
{
    push_window_addresses(text, steps);
    let first = u128::from(steps.first_section);
    end_with_decimal(
        text,
        b": eight sections from ",
        first,
        b" on, one below that of B",
    );
}

/// Appends the first and the last address of the window, or `every address` for exponents of at
/// least 50.
fn push_window_addresses(text: &mut Text, steps: &Steps)
    requires exponent { steps.now.exponent ≤ 52 }
    requires start { steps.now.start < 2 ^ 67 }
    requires room { length text.old + 85 ≤ MOST_TEXT }
    ensures value { text.new ≡ text.old ++ window_addresses_text steps.now }
    ensures fits { length text.new ≤ length text.old + 85 }
{
    if steps.exponent >= 50 {
        text.push(b"window    every address");
    } else {
        let last = steps.start + (8 * section(steps.exponent) - 1);
        push_hexadecimal(text, b"window    ", steps.start % (1 << 64));
        push_hexadecimal(text, b" to ", last % (1 << 64));
    }
}

/// Appends the lines of the upper bits of the address, and of how those of B and T differ from them.
fn push_corrections(text: &mut Text, fields: &Fields, steps: &Steps)
    requires exponent { steps.now.exponent ≤ 52 }
    requires room { length text.old + 430 ≤ MOST_TEXT }
    ensures value { text.new ≡ text.old ++ corrections_text fields.now steps.now }
    ensures fits { length text.new ≤ length text.old + 430 }
{
    push_upper(text, fields, steps);
    push_high(text, fields, steps);
    push_corrected(text, fields, steps);
}

/// Appends the line of the bits of the address above the size of the window.
fn push_upper(text: &mut Text, fields: &Fields, steps: &Steps)
    requires exponent { steps.now.exponent ≤ 52 }
    requires room { length text.old + 100 ≤ MOST_TEXT }
    ensures value { text.new ≡ text.old ++ upper_text fields.now steps.now }
    ensures fits { length text.new ≤ length text.old + 100 }
{
    let size = 8 * section(steps.exponent);
    end_with_hexadecimal(
        text,
        b"upper     ",
        u128::from(fields.address) / size,
        b", the bits of the address from bit E+14 up",
    );
}

/// Appends the line that says which of B, T and the address are in high sections.
fn push_high(text: &mut Text, fields: &Fields, steps: &Steps)
    requires exponent { steps.now.exponent ≤ 52 }
    requires room { length text.old + 210 ≤ MOST_TEXT }
    ensures value { text.new ≡ text.old ++ high_text fields.now steps.now }
    ensures fits { length text.new ≤ length text.old + 210 }
{
    let of_address = is_high(steps, address_section(fields, steps));
    push_decimal(text, b"high      ", bit(is_high_mantissa(steps, steps.b)));
    push_decimal(text, b" of B, ", bit(is_high_mantissa(steps, steps.t)));
    end_with_decimal(
        text,
        b" of T, ",
        bit(of_address),
        b" of the address: 1 for a section below the window's first",
    );
}

/// Appends the line of the corrections for B and for T.
fn push_corrected(text: &mut Text, fields: &Fields, steps: &Steps)
    requires exponent { steps.now.exponent ≤ 52 }
    requires room { length text.old + 110 ≤ MOST_TEXT }
    ensures value { text.new ≡ text.old ++ corrected_text fields.now steps.now }
    ensures fits { length text.new ≤ length text.old + 110 }
{
    let of_address = is_high(steps, address_section(fields, steps));
    text.push(b"corrected ");
    text.push(correction(is_high_mantissa(steps, steps.b), of_address));
    text.push(b" for B, ");
    text.push(correction(is_high_mantissa(steps, steps.t), of_address));
    text.push(b" for T: +1 if it alone is high, -1 if the address alone is\n");
}

/// Returns whether a section is high: in the window, it is past a multiple of the window's size.
fn is_high(steps: &Steps, section: u128) -> bool
    ensures { result ≡ is_high steps.now section }
{
    section < u128::from(steps.first_section)
}

/// Returns whether the section of a mantissa is high.
fn is_high_mantissa(steps: &Steps, mantissa: u16) -> bool
    ensures { result ≡ is_high steps.now (mantissa / 2 ^ 11) }
{
    is_high(steps, u128::from(mantissa / 2048))
}

/// Returns the correction of the upper bits of the address for a mantissa, with its sign.
fn correction(of_mantissa: bool, of_address: bool) -> &'static [u8]
    ensures value { result.now ≡ correction_text of_mantissa of_address }
    ensures fits { length result.now ≤ 2 }
{
    if of_mantissa {
        if of_address { b"0" } else { b"+1" }
    } else if of_address {
        b"-1"
    } else {
        b"0"
    }
}

/// Appends the lines of the base and of the top.
fn push_bounds(text: &mut Text, bounds: &Span)
    requires room { length text.old + 180 ≤ MOST_TEXT }
    ensures value { text.new ≡ text.old ++ bounds_lines bounds.now }
    ensures fits { length text.new ≤ length text.old + 180 }
{
    let base = u128::from(bounds.base);
    end_with_hexadecimal(
        text,
        b"base      ",
        base,
        b", where B * 2^E stands in the window",
    );
    let top = bounds.top;
    end_with_hexadecimal(
        text,
        b"top       ",
        top,
        b", where T * 2^E stands in the window",
    );
}

/// Appends the line that says whether the word is canonical, or why not.
fn push_canonical(text: &mut Text, defect: Option<Defect>, bounds: &Span)
    requires other_fields { defect ≡ Some OtherFields → IsSpan bounds.now × IsSound bounds.now }
    requires room { length text.old + 135 ≤ MOST_TEXT }
    ensures value { text.new ≡ text.old ++ canonical_text defect bounds.now }
    ensures fits { length text.new ≤ length text.old + 135 }
{
    match defect {
        None => text.push(b"canonical yes\n"),
        Some(Defect::ReservedBits) => text.push(b"canonical no: a reserved bit is set\n"),
        Some(Defect::ReservedType) => text.push(b"canonical no: the type is reserved\n"),
        Some(Defect::TopBelowBase) => text.push(b"canonical no: the top is below the base\n"),
        Some(Defect::TopPastEnd) => text.push(b"canonical no: the top is above 2^64\n"),
        Some(Defect::OtherFields) => push_other_fields(text, *bounds),
    }
}

/// Appends the line of a word whose bounds fields are not those that setting its bounds stores.
fn push_other_fields(text: &mut Text, bounds: Span)
    requires is_span { IsSpan bounds }
    requires sound { IsSound bounds }
    requires room { length text.old + 135 ≤ MOST_TEXT }
    ensures value { text.new ≡ text.old ++ other_fields_text bounds }
    ensures fits { length text.new ≤ length text.old + 135 }
{
    let set = Set::of_sound(bounds);
    push_bounds_fields(
        text,
        b"canonical no: setting these bounds stores IE ",
        set.ie(),
        set.t(),
        set.b(),
    );
    text.push(b"\n");
}
