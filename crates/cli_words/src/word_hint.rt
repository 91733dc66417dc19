//! The hint on a word after `0x`, which `show` does not accept.
ghost use Rattle.std.specs.Prelude.{◌≡◌, IsTrue, false};
ghost use Rattle.std.specs.Io.KnownBytes.{Appends};
ghost use Rattle.std.specs.Result.{result_ok};
ghost use Rattle.cc_values.specs.Values.{word_in};
ghost use Rattle.cli_words.specs.WordHint.{is_word_hinted, prefixed_word, word_hint, word_hint_text};

use cc_io::{Line, Sink, write_all};
use cc_word::{read_word, write_word};

/// Writes the hint if hints are given and the text is `0x` and a word. Errors of the sink are ignored.
pub(crate) fn hint_word<E: Sink>(hints: bool, text: &[u8], errors: &mut E)
    requires { (E.state errors.old).has_failed ≡ false }
    ensures hinted { (E.state errors.new).has_failed ≡ false
        → Appends (E.state errors.old).taken (E.state errors.new).taken (word_hint hints text.now) }
    ensures silent { ¬ IsTrue (is_word_hinted hints text.now) → errors.new ≡ errors.old }
{
    if hints {
        if let Some(word) = prefixed_word(text) {
            write_word_hint(word, errors);
        }
    }
}

/// Writes the hint that names a word. Errors of the sink are ignored.
fn write_word_hint<E: Sink>(word: u128, errors: &mut E)
    requires { (E.state errors.old).has_failed ≡ false }
    ensures { (E.state errors.new).has_failed ≡ false
        → Appends (E.state errors.old).taken (E.state errors.new).taken (word_hint_text word) }
{
    let hint = hint_line(word);
    let _ = write_all(errors, hint.bytes());
}

/// Returns the line of the hint that names a word, with its line feed.
fn hint_line(word: u128) -> Line
    ensures { result ≡ word_hint_text word }
{
    let mut hint = Line::new();
    hint.push(b"hint: show takes a word without 0x: cheri-cap show ");
    hint.push(&write_word(word));
    hint.push(b"\n");
    hint
}

/// Returns the word after `0x`, if the text is `0x` and a word.
fn prefixed_word(text: &[u8]) -> Option<u128>
    ensures { result ≡ prefixed_word text.now }
{
    match text.strip_prefix(b"0x") {
        Some(digits) => word_of(digits),
        None => None,
    }
}

/// Returns the word that a text is, if it is one.
fn word_of(text: &[u8]) -> Option<u128>
    ensures { result ≡ result_ok (word_in text.now) }
{
    read_word(text)
}
