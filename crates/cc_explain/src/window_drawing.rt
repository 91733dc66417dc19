//! A drawing of the window of a word: an SVG document with its bounds and its address.
ghost use Rattle.std.specs.Prelude.{
  ◌≡◌,
  ◌+◌,
  ◌-◌,
  ◌<◌,
  ◌≤◌,
  ◌^◌,
  ◌++◌,
  ◌↔◌,
  [],
  false,
  true,
  length,
  IfOk,
  IsErr,
  IsTrue,
  OnErr,
  OnOk,
};
ghost use Rattle.cc_io.specs.CommandOutput.{IsTypedWord, WritesAnswer};
ghost use Rattle.cc_explain.specs.WindowDrawing.{
  IsWindowDrawing,
  IsWordDrawing,
  address_mark_text,
  addresses_text,
  bounds_marks_text,
  bounds_bar_text,
  ends_text,
  heading_text,
  end_mark_text,
  number_text,
  numbers_text,
  side_text,
  title_text,
  units_to,
  window_drawing_of,
  window_ground_text,
};

use crate::showing::write_answer;
use crate::steps::{LAPS, Steps, decoding_steps, section, unit};
use cc_bounds::Span;
use cc_cap::Decoded;
use cc_io::{
    IoError, MOST_TEXT, Sink, Summary, Text, digits_in, end_with_decimal, end_with_hexadecimal,
    push_decimal, push_digits, push_hexadecimal, push_markup, push_opening, push_sheet,
};
use cc_word::Fields;

/// Writes a drawing of the window of a word, and flushes the sink once after it.
///
/// The drawing is an SVG document. It shows the eight sections of the window and their numbers, the
/// bounds, the address, and the first and the last address of the window. A unit of its width is
/// 2^E bytes, so the ends of the bounds are exact. A word is 32 hexadecimal digits of either case,
/// with or without `0x` in front. For any other string, the output is the line `error 1 syntax`.
///
/// Requires: the sink has not failed.
/// Errors: `Write` if and only if the sink fails. A prefix of the output is then written.
pub fn draw_window<W: Sink>(text: &[u8], sink: &mut W) -> Result<Summary, IoError>
    requires { (W.state sink.old).has_failed ≡ false }
    ensures shown { WritesAnswer (IsWindowDrawing text.now) (W.state sink.old) (W.state sink.new) result }
    ensures any_error { IfOk result (λ summary. IsTrue summary.any_error ↔ (¬ IsTypedWord text.now)) }
{
    write_answer(digits_in(text), sink, push_window_drawing)
}

/// Puts the drawing of the window of a word into an empty text.
pub fn push_window_drawing(text: &mut Text, word: u128)
    requires { text.old ≡ [] }
    ensures { IsWordDrawing word text.new }
{
    let decoded = Decoded::of_word(word);
    let steps = decoding_steps(&decoded);
    push_parts(text, word, &decoded.fields, &steps, &decoded.bounds);
}

/// Appends all parts of the drawing.
fn push_parts(text: &mut Text, word: u128, fields: &Fields, steps: &Steps, bounds: &Span)
    requires empty { text.old ≡ [] }
    requires exponent { steps.now.exponent ≤ 52 }
    requires first { steps.now.first_section < 8 }
    requires start { steps.now.start < 2 ^ 67 }
    ensures { text.new ≡ window_drawing_of word fields.now steps.now bounds.now }
{
    push_opening(
        text,
        b"width='1216' height='197' viewBox='-1536 -1232 19456 3152' font-family='monospace' font-size='240'",
    );
    push_title(text, word, fields, bounds);
    push_sheet(text, b"x='-1536' y='-1232' width='19456' height='3152'");
    push_heading(text, word, steps);
    push_window_ground(text);
    push_bytes(text, steps);
    push_numbers(text, u128::from(steps.first_section));
    push_bounds_marks(text, steps, bounds);
    push_address_mark(text, steps, fields.address);
    push_ends(text, steps);
    push_markup(text, b"</svg>\n");
}

/// Returns the number of units from the start of the window to a place in it, rounded down.
fn units_to(steps: &Steps, place: u128) -> u128
    requires { steps.now.exponent ≤ 52 }
    ensures { result ≡ units_to steps.now place }
{
    place.saturating_sub(steps.start) / unit(steps.exponent)
}

/// Appends the document's title, and what it shows.
fn push_title(text: &mut Text, word: u128, fields: &Fields, bounds: &Span)
    requires { length text.old + 240 ≤ MOST_TEXT }
    ensures value { text.new ≡ text.old ++ title_text word fields.now bounds.now }
    ensures fits { length text.new ≤ length text.old + 240 }
{
    push_digits(text, b"<title>The window of ", word, 32);
    text.push(b"</title>\n");
    push_hexadecimal(text, b"<desc>Bounds from ", u128::from(bounds.base));
    push_hexadecimal(text, b" to ", bounds.top);
    end_with_hexadecimal(text, b", address ", u128::from(fields.address), b".</desc>");
}

/// Appends the line above the drawing: the word, its exponent, and the size of a section.
fn push_heading(text: &mut Text, word: u128, steps: &Steps)
    requires exponent { steps.now.exponent ≤ 52 }
    requires room { length text.old + 200 ≤ MOST_TEXT }
    ensures value { text.new ≡ text.old ++ heading_text word steps.now }
    ensures fits { length text.new ≤ length text.old + 200 }
{
    push_digits(text, b"<text y='-928'>", word, 32);
    push_decimal(text, b": exponent ", u128::from(steps.exponent));
    end_with_hexadecimal(
        text,
        b", eight sections of ",
        section(steps.exponent),
        b" bytes</text>",
    );
}

/// Appends the rectangle of the window, and the lines between its sections.
fn push_window_ground(text: &mut Text)
    requires { length text.old + 190 ≤ MOST_TEXT }
    ensures value { text.new ≡ text.old ++ window_ground_text }
    ensures fits { length text.new ≤ length text.old + 190 }
{
    push_markup(text, b"<rect width='16384' height='960' fill='#f2cf63'/>\n");
    push_markup(
        text,
        b"<path d='M2048,0V960M4096,0V960M6144,0V960M8192,0V960M10240,0V960M12288,0V960M14336,0V960' \
        stroke='#7c6518' stroke-width='16'/>\n",
    );
}

/// Appends the rectangle of the bounds.
fn push_bytes(text: &mut Text, steps: &Steps)
    requires exponent { steps.now.exponent ≤ 52 }
    requires room { length text.old + 180 ≤ MOST_TEXT }
    ensures value { text.new ≡ text.old ++ bounds_bar_text steps.now }
    ensures fits { length text.new ≤ length text.old + 180 }
{
    let base = units_to(steps, steps.base);
    let top = units_to(steps, steps.top);
    push_decimal(text, b"<rect y='120' height='480' x='", base);
    end_with_decimal(
        text,
        b"' width='",
        top.saturating_sub(base),
        b"' fill='#067647' stroke='#067647' stroke-width='32'/>",
    );
}

/// Appends the numbers of the eight sections, from the given one on.
fn push_numbers(text: &mut Text, first: u128)
    requires first { first < 8 }
    requires room { length text.old + 620 ≤ MOST_TEXT }
    ensures value { text.new ≡ text.old ++ numbers_text first }
    ensures fits { length text.new ≤ length text.old + 620 }
{
    text.push(b"<g text-anchor='middle'>\n");
    push_number(text, b"<text x='1024' y='880'>", first);
    push_number(text, b"<text x='3072' y='880'>", (first + 1) % 8);
    push_number(text, b"<text x='5120' y='880'>", (first + 2) % 8);
    push_number(text, b"<text x='7168' y='880'>", (first + 3) % 8);
    push_number(text, b"<text x='9216' y='880'>", (first + 4) % 8);
    push_number(text, b"<text x='11264' y='880'>", (first + 5) % 8);
    push_number(text, b"<text x='13312' y='880'>", (first + 6) % 8);
    push_number(text, b"<text x='15360' y='880'>", (first + 7) % 8);
    text.push(b"</g>\n");
}

/// Appends the number of a section.
fn push_number(text: &mut Text, before: &[u8], number: u128)
    requires before { length before.now ≤ 24 }
    requires room { length text.old + 72 ≤ MOST_TEXT }
    ensures value { text.new ≡ text.old ++ number_text before.now number }
    ensures fits { length text.new ≤ length text.old + 72 }
{
    end_with_decimal(text, before, number, b"</text>");
}

/// Appends the marks of the base and of the top, with the addresses that the word decodes to.
fn push_bounds_marks(text: &mut Text, steps: &Steps, bounds: &Span)
    requires exponent { steps.now.exponent ≤ 52 }
    requires room { length text.old + 460 ≤ MOST_TEXT }
    ensures value { text.new ≡ text.old ++ bounds_marks_text steps.now bounds.now }
    ensures fits { length text.new ≤ length text.old + 460 }
{
    let base = units_to(steps, steps.base);
    let top = units_to(steps, steps.top);
    push_mark(text, base);
    push_decimal(text, b"<text x='", base);
    end_with_hexadecimal(
        text,
        b"' dx='-96' y='-288' text-anchor='end'>base ",
        u128::from(bounds.base),
        b"</text>",
    );
    push_mark(text, top);
    push_decimal(text, b"<text x='", top);
    end_with_hexadecimal(text, b"' dx='96' y='-288'>top ", bounds.top, b"</text>");
}

/// Appends the mark of an end of the bounds.
fn push_mark(text: &mut Text, units: u128)
    requires { length text.old + 100 ≤ MOST_TEXT }
    ensures value { text.new ≡ text.old ++ end_mark_text units }
    ensures fits { length text.new ≤ length text.old + 100 }
{
    end_with_decimal(
        text,
        b"<path d='M",
        units,
        b",-480V960' stroke='#067647' stroke-width='32'/>",
    );
}

/// Appends the mark of the address, with its number.
fn push_address_mark(text: &mut Text, steps: &Steps, address: u64)
    requires exponent { steps.now.exponent ≤ 52 }
    requires room { length text.old + 280 ≤ MOST_TEXT }
    ensures value { text.new ≡ text.old ++ address_mark_text steps.now address }
    ensures fits { length text.new ≤ length text.old + 280 }
{
    let units = units_to(steps, u128::from(address) + LAPS);
    end_with_decimal(
        text,
        b"<path d='M",
        units,
        b",0V1360' stroke='#b42318' stroke-width='32'/>",
    );
    push_decimal(text, b"<text x='", units);
    text.push(side(units));
    end_with_hexadecimal(
        text,
        b" y='1320' fill='#b42318'>address ",
        u128::from(address),
        b"</text>",
    );
}

/// Returns the attributes that put the address on a side of its mark: the right one in the window's
/// first half, and otherwise the left one.
fn side(units: u128) -> &'static [u8]
    ensures value { result.now ≡ side_text units }
    ensures fits { length result.now ≤ 30 }
{
    if units < 8192 {
        b"' dx='96'"
    } else {
        b"' dx='-96' text-anchor='end'"
    }
}

/// Appends the first and the last address of the window, or `every address` for exponents of at
/// least 50.
fn push_ends(text: &mut Text, steps: &Steps)
    requires exponent { steps.now.exponent ≤ 52 }
    requires start { steps.now.start < 2 ^ 67 }
    requires room { length text.old + 180 ≤ MOST_TEXT }
    ensures value { text.new ≡ text.old ++ ends_text steps.now }
    ensures fits { length text.new ≤ length text.old + 180 }
{
    if steps.exponent >= 50 {
        text.push(b"<text y='1760'>window: every address</text>\n");
    } else {
        let last = steps.start + (8 * section(steps.exponent) - 1);
        push_addresses(text, steps.start % (1 << 64), last % (1 << 64));
    }
}

/// Appends the first and the last address of a window.
fn push_addresses(text: &mut Text, first: u128, last: u128)
    requires { length text.old + 170 ≤ MOST_TEXT }
    ensures value { text.new ≡ text.old ++ addresses_text first last }
    ensures fits { length text.new ≤ length text.old + 170 }
{
    end_with_hexadecimal(text, b"<text y='1760'>window from ", first, b"</text>");
    end_with_hexadecimal(
        text,
        b"<text x='16384' y='1760' text-anchor='end'>to ",
        last,
        b"</text>",
    );
}
