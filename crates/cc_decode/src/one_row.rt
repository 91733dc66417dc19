//! The output of `show` in a format of `decode`: the row of one word.
ghost use Rattle.std.specs.Prelude.{◌≡◌, ◌↔◌, [], false, IfOk, IsTrue};
ghost use Rattle.cc_io.specs.CommandOutput.{IsTypedWord, WritesAnswer};
ghost use Rattle.cc_decode.specs.Output.{IsShown};

use crate::decoder::PlainDecoder;
use crate::decoding::header;
use crate::writers::Batch;
use cc_io::{Answerer, Format, InputForm, IoError, Sink, Summary, write_and_flush};

/// Writes the header of a format, and then the reply of [`decode_words`](crate::decode_words) to a
/// line that is this string: the row of its word, or the refusal `syntax` in this format. Flushes
/// the sink once after it.
///
/// A word is 32 hexadecimal digits of either case, with or without `0x` in front.
///
/// Requires: the sink has not failed.
/// Errors: `Write` if and only if the sink fails. A prefix of the output is then written.
// not inlined, so that other commands do not touch the page on the stack
#[inline(never)]
pub fn show_row<W: Sink>(format: Format, text: &[u8], sink: &mut W) -> Result<Summary, IoError>
    requires { (W.state sink.old).has_failed ≡ false }
    ensures shown { WritesAnswer (IsShown format text.now) (W.state sink.old) (W.state sink.new) result }
    ensures any_error { IfOk result (λ summary. IsTrue summary.any_error ↔ (¬ IsTypedWord text.now)) }
{
    let mut page = Batch::new();
    let any_error = push_shown(&mut page, format, text);
    match write_and_flush(&page, sink) {
        Ok(()) => Ok(Summary { any_error }),
        Err(error) => Err(error),
    }
}

/// Puts the header of a format and the reply to a string on an empty page, and returns whether the reply is an
/// error.
fn push_shown(page: &mut Batch, format: Format, text: &[u8]) -> bool
    requires { page.old ≡ [] }
    ensures shown { IsShown format text.now page.new }
    ensures any_error { IsTrue result ↔ (¬ IsTypedWord text.now) }
{
    page.push(header(format));
    let mut decoder = PlainDecoder {
        input: InputForm::Lines,
        format,
    };
    decoder.answer(text, page)
}
