//! The explanation of a word: each step of decoding it, with its numbers, and a picture of its
//! window.
ghost use Rattle.std.specs.Prelude.{◌≡◌, ◌↔◌, [], false, true, IfOk, IsErr, IsTrue, OnErr, OnOk};
ghost use Rattle.cc_io.specs.CommandOutput.{IsTypedWord, WritesAnswer};
ghost use Rattle.cc_explain.specs.Explanation.{IsExplanation, IsWordExplanation};

use crate::explained_steps::{push_fields, push_mantissas, push_window_lines};
use crate::picture::{push_picture, rows_of};
use crate::showing::write_answer;
use crate::steps::decoding_steps;
use cc_cap::Decoded;
use cc_io::{IoError, Sink, Summary, Text, digits_in};

/// Writes how a word is decoded: its fields, each step with its numbers, the bounds, whether the
/// word is canonical and if not why, and a picture of its window. Flushes the sink once after the
/// last line.
///
/// A word is 32 hexadecimal digits of either case, with or without `0x` in front. For any other
/// string, the output is the line `error 1 syntax`. No line has more than 100 bytes.
///
/// Requires: the sink has not failed.
/// Errors: `Write` if and only if the sink fails. A prefix of the output is then written.
pub fn explain_word<W: Sink>(text: &[u8], sink: &mut W) -> Result<Summary, IoError>
    requires { (W.state sink.old).has_failed ≡ false }
    ensures shown { WritesAnswer (IsExplanation text.now) (W.state sink.old) (W.state sink.new) result }
    ensures any_error { IfOk result (λ summary. IsTrue summary.any_error ↔ (¬ IsTypedWord text.now)) }
{
    write_answer(digits_in(text), sink, push_explained_word)
}

/// Puts the explanation of a word into an empty text: its fields, the steps of decoding it, its bounds, whether it is
/// canonical, and a picture of its window.
pub fn push_explained_word(text: &mut Text, word: u128)
    requires { text.old ≡ [] }
    ensures { IsWordExplanation word text.new }
{
    let decoded = Decoded::of_word(word);
    let steps = decoding_steps(&decoded);
    let rows = rows_of(&decoded.fields, &steps);
    push_fields(text, word, &decoded.fields);
    push_mantissas(text, &decoded.fields, &steps);
    push_window_lines(
        text,
        &decoded.fields,
        &steps,
        &decoded.bounds,
        decoded.defect(),
    );
    push_picture(text, &steps, &rows);
}
