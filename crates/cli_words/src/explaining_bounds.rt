//! The explanation of a length: the bounds that are granted to a request of that length, and why.
ghost use Rattle.std.specs.Prelude.{◌≡◌, ◌↔◌, [], false, true, IfOk, IsErr, IsTrue};
ghost use Rattle.cc_io.specs.CommandOutput.{WritesAnswer};
ghost use Rattle.cc_bounds.specs.Span.{IsSpan};
ghost use Rattle.cli_words.specs.LengthExplanation.{IsLengthExplanation, request_at};

use cc_bounds::Span;
use cc_explain::push_explained_request;
use cc_io::{IoError, Sink, Summary, Text, push_refusal, write_and_flush};
use cc_syntax::{read_length, request_from};
use cc_word::Refusal;

/// Writes the bounds that are granted to a request with this base and length, and why. Flushes the
/// sink once after the last line.
///
/// The lines have, in this order:
///
/// - the granule, and why half of it is not enough
/// - the granted bounds, and the number of their bytes before and after the request
/// - the length that has exact bounds, and the bases at which it has them
/// - the word of the root capability with the granted bounds
///
/// No line has more than 100 bytes. If there is no request, the output is the first of these refusals
/// that applies:
///
/// - `error 1 syntax`: the length is not a number
/// - `error 4 range`: the length is above 2^64
/// - `error 9 bounds`: the request ends past 2^64
///
/// Requires: the sink has not failed.
/// Errors: `Write` if and only if the sink fails. A prefix of the output is then written.
pub fn explain_length<W: Sink>(base: u64, length: &str, sink: &mut W) -> Result<Summary, IoError>
    requires { (W.state sink.old).has_failed ≡ false }
    ensures shown { WritesAnswer (IsLengthExplanation base length.now) (W.state sink.old) (W.state sink.new)
        result }
    ensures any_error { IfOk result (λ summary. IsTrue summary.any_error ↔ IsErr (request_at base length.now)) }
{
    let mut answer = Text::new();
    let summary = push_request(&mut answer, base, length);
    match write_and_flush(&answer, sink) {
        Ok(()) => Ok(summary),
        Err(error) => Err(error),
    }
}

/// Appends the explanation of the request, or the refusal of arguments that are not a request.
fn push_request(answer: &mut Text, base: u64, length: &str) -> Summary
    requires { answer.old ≡ [] }
    ensures explanation { IsLengthExplanation base length.now answer.new }
    ensures any_error { IsTrue result.any_error ↔ IsErr (request_at base length.now) }
{
    match request_of(base, length) {
        Ok(request) => {
            push_explained_request(answer, &request);
            Summary { any_error: false }
        }
        Err(refusal) => {
            push_refusal(answer, refusal);
            Summary { any_error: true }
        }
    }
}

/// Returns the request of a base for a length.
fn request_of(base: u64, length: &str) -> Result<Span, Refusal>
    ensures request { result ≡ request_at base length.now }
    ensures is_span { IfOk result IsSpan }
{
    match read_length(length.as_bytes()) {
        Ok(length) => request_from(base, length.get()),
        Err(refusal) => Err(refusal),
    }
}
