//! `show`, `round` and `explain`: the call for each question, and its hint.
ghost use Rattle.std.specs.Io.KnownBytes.{Appends};
ghost use Rattle.std.specs.Prelude.{◌≡◌, ◌≢◌, ◌↔◌, [], Err, false, true, IfOk, IsTrue, OnErr, OnOk};
ghost use Rattle.cc_io.specs.CommandOutput.{WritesAnswer};
ghost use Rattle.cli.specs.Devices.{OnDevices};
ghost use Rattle.cli.specs.declared.question.Question.TheVariants as question;
ghost use Rattle.cli_words.specs.Questions.{address_of, IsAnswerTo, IsUnanswerable, has_hint, question_hint};
ghost use Rattle.cli_words.specs.Tasks.{AnswersQuestion};

use crate::bare_digits::is_bare;
use crate::explaining_bounds::explain_length;
use crate::number_hint::hint_numbers;
use crate::rounding::show_round_from;
use crate::word_hint::hint_word;
use cc_decode::show_row;
use cc_explain::{draw_window, explain_word, show_word};
use cc_io::{Format, IoError, Sink, Summary};
use cli::{Base, Fault, Question};

/// Writes the listing, line, rounding, explanation or drawing that a question requests. Then writes the hint on it to
/// `errors`, if hints are given: on the word of `show`, and on the numbers of `round` and `explain --length`.
///
/// The output is an error, and the summary says so, if a text is not a word or a number, if a number is too large, or
/// if the requested bytes end past 2^64.
///
/// Requires: neither sink has failed.
/// Errors: `Write` if and only if the sink failed. No hint is written then.
pub fn ask<W: Sink, E: Sink>(
    question: Question<'_>,
    hints: bool,
    sink: &mut W,
    errors: &mut E,
) -> Result<Summary, Fault>
    requires sink { (W.state sink.old).has_failed ≡ false }
    requires errors { (E.state errors.old).has_failed ≡ false }
    ensures answers { OnDevices (AnswersQuestion question.entry hints
        (W.state sink.old) (W.state sink.new) (E.state errors.old) (E.state errors.new)) result }
    ensures silent { ¬ IsTrue (has_hint hints question.entry) → errors.new ≡ errors.old }
    ensures unreported { OnErr result (errors.new ≡ errors.old) }
    ensures open { result ≢ Err Fault.Open }
    ensures memory { result ≢ Err Fault.Memory }
    ensures read { result ≢ Err Fault.Read }
    ensures write { (result ≡ Err Fault.Write) ↔ ((W.state sink.new).has_failed ≡ true) }
    ensures flushed { OnOk result ((W.state sink.new).is_flushed ≡ true) }
{
    Ok(answer(question, hints, sink, errors)?)
}

/// Writes the output that a question requests, and then its hint.
fn answer<W: Sink, E: Sink>(
    question: Question<'_>,
    hints: bool,
    sink: &mut W,
    errors: &mut E,
) -> Result<Summary, IoError>
    requires sink { (W.state sink.old).has_failed ≡ false }
    requires errors { (E.state errors.old).has_failed ≡ false }
    ensures answered { WritesAnswer (IsAnswerTo question.entry) (W.state sink.old) (W.state sink.new) result }
    ensures any_error { IfOk result (λ summary. IsTrue summary.any_error ↔ IsUnanswerable question.entry) }
    ensures hinted { OnOk result ((E.state errors.new).has_failed ≡ false
        → Appends (E.state errors.old).taken (E.state errors.new).taken (question_hint hints question.entry)) }
    ensures silent { ¬ IsTrue (has_hint hints question.entry) → errors.new ≡ errors.old }
    ensures unreported { OnErr result (errors.new ≡ errors.old) }
{
    match question {
        Question::Show { word, format } => show(word, format, hints, sink, errors),
        Question::Round { base, length } => round(base, length, hints, sink, errors),
        Question::Explain { word } => explain_word(word.as_bytes(), sink),
        Question::DrawWindow { word } => draw_window(word.as_bytes(), sink),
        Question::ExplainLength { base, length } => explain_request(
            base, length, hints, sink, errors,
        ),
    }
}

/// Writes the listing of a word, or its row in a format. If hints are given, and the listing refuses a word for the
/// `0x` before it, then writes the hint that says so.
fn show<W: Sink, E: Sink>(
    word: &str,
    format: Option<Format>,
    hints: bool,
    sink: &mut W,
    errors: &mut E,
) -> Result<Summary, IoError>
    requires sink { (W.state sink.old).has_failed ≡ false }
    requires errors { (E.state errors.old).has_failed ≡ false }
    ensures answered { WritesAnswer (IsAnswerTo (question.Show word.entry format)) (W.state sink.old)
        (W.state sink.new) result }
    ensures any_error { IfOk result (λ summary. IsTrue summary.any_error
        ↔ IsUnanswerable (question.Show word.entry format)) }
    ensures hinted { OnOk result ((E.state errors.new).has_failed ≡ false
        → Appends (E.state errors.old).taken (E.state errors.new).taken
        (question_hint hints (question.Show word.entry format))) }
    ensures silent { ¬ IsTrue (has_hint hints (question.Show word.entry format)) → errors.new ≡ errors.old }
    ensures unreported { OnErr result (errors.new ≡ errors.old) }
{
    match show_typed(word, format, sink) {
        Ok(summary) => {
            hint_word(hints && format.is_none(), word.as_bytes(), errors);
            Ok(summary)
        }
        Err(error) => Err(error),
    }
}

/// Writes the listing of a word, or its row in a format.
fn show_typed<W: Sink>(word: &str, format: Option<Format>, sink: &mut W) -> Result<Summary, IoError>
    requires { (W.state sink.old).has_failed ≡ false }
    ensures answered { WritesAnswer (IsAnswerTo (question.Show word.entry format)) (W.state sink.old)
        (W.state sink.new) result }
    ensures any_error { IfOk result (λ summary. IsTrue summary.any_error
        ↔ IsUnanswerable (question.Show word.entry format)) }
{
    match format {
        Some(format) => show_row(format, word.as_bytes(), sink),
        None => show_word(word.as_bytes(), sink),
    }
}

/// Writes how setting bounds rounds a length, with the bounds granted from a base on if one is given. Then writes the
/// hint on the numbers.
fn round<W: Sink, E: Sink>(
    base: Option<Base<'_>>,
    length: &str,
    hints: bool,
    sink: &mut W,
    errors: &mut E,
) -> Result<Summary, IoError>
    requires sink { (W.state sink.old).has_failed ≡ false }
    requires errors { (E.state errors.old).has_failed ≡ false }
    ensures answered { WritesAnswer (IsAnswerTo (question.Round base.entry length.entry)) (W.state sink.old)
        (W.state sink.new) result }
    ensures any_error { IfOk result (λ summary. IsTrue summary.any_error
        ↔ IsUnanswerable (question.Round base.entry length.entry)) }
    ensures hinted { OnOk result ((E.state errors.new).has_failed ≡ false
        → Appends (E.state errors.old).taken (E.state errors.new).taken
        (question_hint hints (question.Round base.entry length.entry))) }
    ensures silent { ¬ IsTrue (has_hint hints (question.Round base.entry length.entry)) → errors.new ≡ errors.old }
    ensures unreported { OnErr result (errors.new ≡ errors.old) }
{
    match show_rounding(base, length, sink) {
        Ok(summary) => {
            hint_numbers(hints, base, is_bare(length.as_bytes()), errors);
            Ok(summary)
        }
        Err(error) => Err(error),
    }
}

/// Writes how setting bounds rounds a length, with the bounds granted from a base on if one is given.
fn show_rounding<W: Sink>(
    base: Option<Base<'_>>,
    length: &str,
    sink: &mut W,
) -> Result<Summary, IoError>
    requires { (W.state sink.old).has_failed ≡ false }
    ensures answered { WritesAnswer (IsAnswerTo (question.Round base.entry length.entry)) (W.state sink.old)
        (W.state sink.new) result }
    ensures any_error { IfOk result (λ summary. IsTrue summary.any_error
        ↔ IsUnanswerable (question.Round base.entry length.entry)) }
{
    show_round_from(address_of(base), length.as_bytes(), sink)
}

/// Returns the address of a base, if one is given.
pub(crate) fn address_of(base: Option<Base<'_>>) -> Option<u64>
    ensures { result ≡ address_of base.entry }
{
    match base {
        Some(base) => Some(base.address),
        None => None,
    }
}

/// Writes how bounds are granted to a request. Then writes the hint on its numbers.
fn explain_request<W: Sink, E: Sink>(
    base: Base<'_>,
    length: &str,
    hints: bool,
    sink: &mut W,
    errors: &mut E,
) -> Result<Summary, IoError>
    requires sink { (W.state sink.old).has_failed ≡ false }
    requires errors { (E.state errors.old).has_failed ≡ false }
    ensures answered { WritesAnswer (IsAnswerTo (question.ExplainLength base.entry length.entry)) (W.state sink.old)
        (W.state sink.new) result }
    ensures any_error { IfOk result (λ summary. IsTrue summary.any_error
        ↔ IsUnanswerable (question.ExplainLength base.entry length.entry)) }
    ensures hinted { OnOk result ((E.state errors.new).has_failed ≡ false
        → Appends (E.state errors.old).taken (E.state errors.new).taken
        (question_hint hints (question.ExplainLength base.entry length.entry))) }
    ensures silent { ¬ IsTrue (has_hint hints (question.ExplainLength base.entry length.entry))
        → errors.new ≡ errors.old }
    ensures unreported { OnErr result (errors.new ≡ errors.old) }
{
    match explain_length(base.address, length, sink) {
        Ok(summary) => {
            hint_numbers(hints, Some(base), is_bare(length.as_bytes()), errors);
            Ok(summary)
        }
        Err(error) => Err(error),
    }
}
