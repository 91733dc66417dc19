//! The lines that `mtrace` of the GNU C library writes.
ghost use Rattle.std.specs.Prelude.{◌≡◌, ◌==◌, if◌then◌else◌, take};
ghost use Rattle.cc_replay.specs.Mtrace.{after_caller, called_in, mtrace_in, mtrace_operation, signed_in, spaced_in};
ghost use Rattle.cc_replay.specs.Reports.{allocation, free, object_in, pointer_in};
ghost use Rattle.cc_replay.specs.declared.report.LineReport.TheVariants.{Failure, From, To};

use crate::cutting::cut;
use crate::report::{LineReport, allocation, free};
use cc_values::{both, read_address};
use cc_word::Refusal;

/// The maximum number of bytes of a line that reports something.
const MOST_BYTES: usize = 128;

/// Parses a line of a trace of `mtrace`, without its line feed.
///
/// Only the first 129 bytes of a line matter.
///
/// Errors, in order: `Syntax` if the line has another shape than those of `mtrace`, or more than 128
/// bytes; `OutOfRange` if a number is above 2^64 - 1.
#[tactic(auto, using(crate::proofs::StartLemmas::mtrace_start), unfolding(crate::specs::Mtrace::mtrace_in))]
pub fn read_mtrace(line: &[u8]) -> Result<LineReport, Refusal>
    ensures value { result ≡ mtrace_in line.now }
    ensures start { mtrace_in (take 129 line.now) ≡ mtrace_in line.now }
{
    match line {
        [] | [b'=', ..] => Ok(LineReport::Nothing),
        _ if line.len() > MOST_BYTES => Err(Refusal::Syntax),
        [b'@', caller @ ..] => read_called(caller),
        _ => read_operation(line),
    }
}

/// Parses a space, a caller and an operation.
fn read_called(text: &[u8]) -> Result<LineReport, Refusal>
    ensures { result ≡ called_in text.now }
{
    match text {
        [b' ', caller @ ..] => read_after_caller(caller),
        _ => Err(Refusal::Syntax),
    }
}

/// Parses a caller and an operation.
fn read_after_caller(text: &[u8]) -> Result<LineReport, Refusal>
    ensures { result ≡ after_caller text.now }
{
    let (_, rest) = cut(text, b']');
    read_spaced(rest)
}

/// Parses a space and an operation.
fn read_spaced(text: &[u8]) -> Result<LineReport, Refusal>
    ensures { result ≡ spaced_in text.now }
{
    match text {
        [b' ', operation @ ..] => read_operation(operation),
        _ => Err(Refusal::Syntax),
    }
}

/// Parses an operation: a sign, a space and its values.
fn read_operation(text: &[u8]) -> Result<LineReport, Refusal>
    ensures { result ≡ mtrace_operation text.now }
{
    match text {
        [sign, b' ', values @ ..] => read_signed(*sign, values),
        _ => Err(Refusal::Syntax),
    }
}

/// Parses the values after a sign.
fn read_signed(sign: u8, values: &[u8]) -> Result<LineReport, Refusal>
    ensures { result ≡ signed_in sign values.now }
{
    match sign {
        b'+' | b'>' | b'!' => {
            let (pointer, size) = read_object(values)?;
            Ok(object_report(sign, pointer, size))
        }
        b'-' | b'<' => {
            let pointer = read_pointer(values)?;
            Ok(pointer_report(sign, pointer))
        }
        _ => Err(Refusal::Syntax),
    }
}

/// Returns the report of `+`, `>` or `!` and an object.
fn object_report(sign: u8, pointer: u64, size: u64) -> LineReport
    ensures { result ≡ (if sign == 43 then allocation pointer size
        else if sign == 62 then To pointer size
        else Failure) }
{
    match sign {
        b'+' => allocation(pointer, size),
        b'>' => LineReport::To { pointer, size },
        _ => LineReport::Failure,
    }
}

/// Returns the report of `-` or `<` and a pointer.
fn pointer_report(sign: u8, pointer: u64) -> LineReport
    ensures { result ≡ if sign == 45 then free pointer else From pointer }
{
    match sign {
        b'-' => free(pointer),
        _ => LineReport::From { pointer },
    }
}

/// Parses `PTR SIZE`.
fn read_object(values: &[u8]) -> Result<(u64, u64), Refusal>
    ensures { result ≡ object_in values.now }
{
    let (pointer, size) = cut(values, b' ');
    both(read_pointer(pointer), read_address(size))
}

/// Parses a pointer: a number below 2^64, or `(nil)`.
fn read_pointer(text: &[u8]) -> Result<u64, Refusal>
    ensures { result ≡ pointer_in text.now }
{
    if text == b"(nil)".as_slice() {
        Ok(0)
    } else {
        read_address(text)
    }
}
