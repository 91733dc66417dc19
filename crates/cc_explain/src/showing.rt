//! The output of `show`, the listing of a word, and the function that writes it, an explanation or a drawing.
ghost use Rattle.std.specs.Prelude.{◌≡◌, ◌↔◌, [], false, IfOk, IsTrue};
ghost use Rattle.cc_word.specs.WordText.{IsWordText};
ghost use Rattle.cc_io.specs.CommandOutput.{AnswersText, WritesAnswer};
ghost use Rattle.cc_explain.specs.Listing.{IsListing};

use crate::listing::push_listing;
use cc_io::{IoError, Sink, Summary, Text, push_refusal, write_and_flush};
use cc_word::{Refusal, read_word};

/// Writes the listing of a word, and flushes the sink once after the last line.
///
/// The listing has thirteen lines: the word, its eight fields, the exponent, base and top that they
/// decode to, and whether the word is canonical. A word is 32 hexadecimal digits of either case,
/// without `0x` in front. For any other string, the output is the line `error 1 syntax`.
///
/// Requires: the sink has not failed.
/// Errors: `Write` if and only if the sink fails. A prefix of the output is then written.
pub fn show_word<W: Sink>(text: &[u8], sink: &mut W) -> Result<Summary, IoError>
    requires { (W.state sink.old).has_failed ≡ false }
    ensures shown { WritesAnswer (IsListing text.now) (W.state sink.old) (W.state sink.new) result }
    ensures any_error { IfOk result (λ summary. IsTrue summary.any_error ↔ (¬ IsWordText text.now)) }
{
    // without `0x`, which a row accepts: the output of `show` without a format is fixed
    write_answer(text, sink, push_listing)
}

/// Writes the lines that `push` puts into an empty text for the word of a string, or the refusal of a string that is
/// not a word, and flushes the sink.
pub(crate) fn write_answer<W: Sink, F: FnOnce(&mut Text, u128)>(
    text: &[u8],
    sink: &mut W,
    push: F,
) -> Result<Summary, IoError>
    requires sink { (W.state sink.old).has_failed ≡ false }
    requires pushes { (old : _) (word : _) → old.now ≡ [] → F.pre push old word }
    ensures shown { WritesAnswer (AnswersText (λ word lines. (old : _) × (new : _) × (old.now ≡ [])
        × F.post push old word tt new × (new.now ≡ lines)) text.now) (W.state sink.old) (W.state sink.new) result }
    ensures any_error { IfOk result (λ summary. IsTrue summary.any_error ↔ (¬ IsWordText text.now)) }
{
    let mut answer = Text::new();
    let summary = push_answer(&mut answer, text, push);
    match write_and_flush(&answer, sink) {
        Ok(()) => Ok(summary),
        Err(error) => Err(error),
    }
}

/// Puts the output of [`write_answer`] into an empty text. The summary reports an error if and only if the string is
/// not a word.
fn push_answer<F: FnOnce(&mut Text, u128)>(answer: &mut Text, text: &[u8], push: F) -> Summary
    requires empty { answer.old ≡ [] }
    requires pushes { (old : _) (word : _) → old.now ≡ [] → F.pre push old word }
    ensures answer { AnswersText (λ word lines. (old : _) × (new : _) × (old.now ≡ []) × F.post push old word tt new
        × (new.now ≡ lines)) text.now answer.new }
    ensures any_error { IsTrue result.any_error ↔ (¬ IsWordText text.now) }
{
    match read_word(text) {
        Some(word) => {
            push(answer, word);
            Summary { any_error: false }
        }
        None => {
            push_refusal(answer, Refusal::Syntax);
            Summary { any_error: true }
        }
    }
}
