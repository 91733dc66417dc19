//! The listing and the explanation of a word, the drawing of its window, and the explanation of a
//! request, written into the bytes of the caller.
ghost use Rattle.std.specs.Prelude.{◌≡◌, ◌+◌, ◌≤◌, ◌^◌, [], drop, length, take};
ghost use Rattle.cc_bounds.specs.Span.{span_from};
ghost use Rattle.cc_io.specs.CommandOutput.{IsRefusalLine};
ghost use Rattle.cc_explain.specs.Explanation.{IsWordExplanation};
ghost use Rattle.cc_explain.specs.Listing.{IsWordListing};
ghost use Rattle.cc_explain.specs.Request.{IsRequestExplanation};
ghost use Rattle.cc_explain.specs.WindowDrawing.{IsWordDrawing};
ghost use Rattle.cc_page.specs.Texts.{Holds, number_from_halves};
ghost use Rattle.cc_word.specs.declared.refusal.Refusal.TheVariants.{OutOfBounds};

use cc_bounds::{ADDRESS_SPACE, Span};
use cc_explain::{push_explained_request, push_explained_word, push_listing, push_window_drawing};
use cc_io::{MOST_TEXT, Text, push_refusal};
use cc_word::Refusal;

/// Writes the output of `show` for a word to the start of the bytes, and returns its length. The
/// bytes after it do not change.
#[unsafe(no_mangle)]
pub extern "C" fn cheri_page_show(high: u64, low: u64, bytes: &mut [u8; MOST_TEXT]) -> usize
    ensures text { Holds (IsWordListing (number_from_halves high low)) bytes.new result }
    ensures rest { drop result bytes.new ≡ drop result bytes.old }
{
    let mut text = Text::new();
    push_listing(&mut text, number(high, low));
    put(&text, bytes)
}

/// Writes the output of `explain` for a word to the start of the bytes, and returns its length. The
/// bytes after it do not change.
#[unsafe(no_mangle)]
pub extern "C" fn cheri_page_explain(high: u64, low: u64, bytes: &mut [u8; MOST_TEXT]) -> usize
    ensures text { Holds (IsWordExplanation (number_from_halves high low)) bytes.new result }
    ensures rest { drop result bytes.new ≡ drop result bytes.old }
{
    let mut text = Text::new();
    push_explained_word(&mut text, number(high, low));
    put(&text, bytes)
}

/// Writes the output of `explain --svg` for a word to the start of the bytes, and returns its
/// length. The bytes after it do not change.
#[unsafe(no_mangle)]
pub extern "C" fn cheri_page_draw(high: u64, low: u64, bytes: &mut [u8; MOST_TEXT]) -> usize
    ensures text { Holds (IsWordDrawing (number_from_halves high low)) bytes.new result }
    ensures rest { drop result bytes.new ≡ drop result bytes.old }
{
    let mut text = Text::new();
    push_window_drawing(&mut text, number(high, low));
    put(&text, bytes)
}

/// Writes the output of `explain --length` for a request to the start of the bytes, and returns its
/// length. The bytes after it do not change.
///
/// If the request ends above 2^64, the output is the line `error 9 bounds`.
#[unsafe(no_mangle)]
pub extern "C" fn cheri_page_explain_length(
    base: u64,
    length_high: u64,
    length_low: u64,
    bytes: &mut [u8; MOST_TEXT],
) -> usize
    ensures granted { base + number_from_halves length_high length_low ≤ 2 ^ 64
        → Holds (IsRequestExplanation (span_from base (number_from_halves length_high length_low))) bytes.new result }
    ensures refused { (¬ base + number_from_halves length_high length_low ≤ 2 ^ 64)
        → Holds (IsRefusalLine OutOfBounds) bytes.new result }
    ensures rest { drop result bytes.new ≡ drop result bytes.old }
{
    let mut text = Text::new();
    push_request(&mut text, base, number(length_high, length_low));
    put(&text, bytes)
}

/// Puts the output for a request into an empty text.
fn push_request(text: &mut Text, base: u64, length: u128)
    requires empty { text.old ≡ [] }
    ensures granted { base + length ≤ 2 ^ 64 → IsRequestExplanation (span_from base length) text.new }
    ensures refused { (¬ base + length ≤ 2 ^ 64) → IsRefusalLine OutOfBounds text.new }
{
    if length > ADDRESS_SPACE - u128::from(base) {
        push_refusal(text, Refusal::OutOfBounds);
    } else {
        let top = u128::from(base) + length;
        push_explained_request(text, &Span { base, top });
    }
}

/// Returns the number of two halves.
fn number(high: u64, low: u64) -> u128
    ensures { result ≡ number_from_halves high low }
{
    (u128::from(high) << 64) + u128::from(low)
}

/// Copies a text to the start of the bytes, and returns its length. The bytes after it do not
/// change.
pub(crate) fn put(text: &Text, bytes: &mut [u8; MOST_TEXT]) -> usize
    ensures length { result ≡ length text.now }
    ensures fits { result ≤ MOST_TEXT }
    ensures text { take result bytes.new ≡ text.now }
    ensures rest { drop result bytes.new ≡ drop result bytes.old }
{
    let from = text.bytes();
    let end = from.len();
    bytes[..end].copy_from_slice(from);
    end
}
