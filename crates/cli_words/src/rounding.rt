//! The output of `round` for a length: how setting bounds rounds it, and with a base the bounds that the request is
//! granted.
ghost use Rattle.std.specs.Prelude.{◌≡◌, ◌↔◌, ◌≤◌, ◌+◌, ◌++◌, ℕ, IfOk, IsErr, IsTrue, List, None, Ok, codes, false};
ghost use Rattle.std.specs.Prelude.{length, true};
ghost use Rattle.cc_bounds.specs.Granule.{IsGranted};
ghost use Rattle.cc_bounds.specs.Span.{IsSpan};
ghost use Rattle.cc_bounds.specs.declared.span.Span.{Span as SpanSpec};
ghost use Rattle.cc_syntax.specs.Replies.{bounds_text};
ghost use Rattle.cc_values.specs.Values.{length_in};
ghost use Rattle.cc_io.specs.CommandOutput.{WritesAnswer};
ghost use Rattle.cli_words.specs.Rounding.{IsRounding, IsRoundingFrom, IsUnroundable};

use cc_bounds::{Len, Span, set_bounds};
use cc_io::{IoError, Page, Sink, Summary, push_hexadecimal, push_refusal, write_and_flush};
use cc_syntax::{read_length, reply_line, request_from};
use cc_values::Reply;

/// The maximum length of the output for a length in bytes, including its line feed.
const MOST: usize = 264;

/// Writes the line `round LENGTH GRANULE MASK` for a length, and flushes the sink once after it, as [`show_round_from`]
/// does without a base.
///
/// Requires: the sink has not failed.
/// Errors: `Write` if and only if the sink fails. A prefix of the output is then written.
/// Instruction: CRRL, CRAM.
pub fn show_round<W: Sink>(text: &[u8], sink: &mut W) -> Result<Summary, IoError>
    requires { (W.state sink.old).has_failed ≡ false }
    ensures shown { WritesAnswer (IsRounding None text.now) (W.state sink.old) (W.state sink.new) result }
    ensures any_error { IfOk result (λ summary. IsTrue summary.any_error ↔ IsUnroundable None (length_in text.now)) }
{
    show_round_from(None, text, sink)
}

/// Writes the line `round LENGTH GRANULE MASK` for a length, or with a base the line
/// `round LENGTH GRANULE MASK BASE TOP`, and flushes the sink once after it.
///
/// LENGTH is the number of bytes that bounds of this length take. Their base must be a multiple of
/// GRANULE. MASK rounds an address down to such a multiple. BASE and TOP are the bounds that the request
/// of this length from the base is granted. The number has any number of digits. Otherwise, the output is
/// the first of these refusals that applies:
///
/// - `error 1 syntax`: the string is not a number
/// - `error 4 range`: the number is above 2^64
/// - `error 9 bounds`: the request from the base ends past 2^64
///
/// Requires: the sink has not failed.
/// Errors: `Write` if and only if the sink fails. A prefix of the output is then written.
/// Instruction: CRRL, CRAM.
pub fn show_round_from<W: Sink>(
    base: Option<u64>,
    text: &[u8],
    sink: &mut W,
) -> Result<Summary, IoError>
    requires { (W.state sink.old).has_failed ≡ false }
    ensures shown { WritesAnswer (IsRounding base text.now) (W.state sink.old) (W.state sink.new) result }
    ensures any_error { IfOk result (λ summary. IsTrue summary.any_error ↔ IsUnroundable base (length_in text.now)) }
{
    let mut line = Page::<MOST>::new();
    let any_error = push_round(base, text, &mut line);
    write_and_flush(&line, sink)?;
    Ok(Summary { any_error })
}

/// Appends the output for a length, and returns whether it is an error.
pub(crate) fn push_round<const N: usize>(base: Option<u64>, text: &[u8], out: &mut Page<N>) -> bool
    requires { length out.old + 264 ≤ N }
    ensures { (answer : List ℕ) × (out.new ≡ out.old ++ answer) × IsRounding base text.now answer
        × (IsTrue result ↔ IsUnroundable base (length_in text.now)) }
{
    match read_length(text) {
        Ok(length) => push_rounding(base, length, out),
        Err(refusal) => {
            push_refusal(out, refusal);
            true
        }
    }
}

/// Appends the reply to a length, and returns whether it is an error.
pub(crate) fn push_rounding<const N: usize>(base: Option<u64>, size: Len, out: &mut Page<N>) -> bool
    requires { length out.old + 264 ≤ N }
    ensures { (text : List ℕ) × (out.new ≡ out.old ++ text) × IsRoundingFrom base size text
        × (IsTrue result ↔ IsUnroundable base (Ok size)) }
{
    match base {
        None => {
            out.push(reply_line(&Reply::rounded(size)).bytes());
            out.push(b"\n");
            false
        }
        Some(base) => match request_from(base, size.get()) {
            Ok(request) => {
                out.push(reply_line(&Reply::rounded(size)).bytes());
                push_granted(&request, out);
                out.push(b"\n");
                false
            }
            Err(refusal) => {
                push_refusal(out, refusal);
                true
            }
        },
    }
}

/// Appends the base and the top that a request is granted.
#[tactic(auto, unfolding(cc_io::specs::Numbered::with_hexadecimal))]
fn push_granted<const N: usize>(request: &Span, out: &mut Page<N>)
    requires is_span { IsSpan request.now }
    requires room { length out.old + 70 ≤ N }
    ensures value { (granted : SpanSpec) × IsGranted request.now granted
        × (out.new ≡ out.old ++ codes " " ++ bounds_text granted) }
    ensures fits { length out.new ≤ length out.old + 70 }
{
    let granted = granted_to(request);
    push_hexadecimal(out, b" ", u128::from(granted.base));
    push_hexadecimal(out, b" ", granted.top);
}

/// Returns the span that a request is granted.
fn granted_to(request: &Span) -> Span
    requires { IsSpan request.now }
    ensures { IsGranted request.now result }
{
    set_bounds(request.base, request.top - u128::from(request.base)).granted()
}
