//! The lines of raw files of heaptrack.
ghost use Rattle.std.specs.Prelude.{◌≡◌, ◌≤◌, length, take};
ghost use Rattle.cc_replay.specs.Heaptrack.{
  heaptrack_in,
  hexadecimal_in,
  is_told,
  heaptrack_object,
  heaptrack_place,
  second_of,
  told_in,
  values_in,
};

use crate::cutting::cut;
use crate::report::{LineReport, allocation, free};
use cc_io::Line;
use cc_values::{both, read_address};
use cc_word::Refusal;

/// The maximum number of bytes of a line that reports something.
const MOST_BYTES: usize = 128;

/// Parses a line of a raw file of heaptrack, without its line feed.
///
/// Only the first 129 bytes of a line matter.
///
/// Errors, in order: `Syntax` if the line is one of an object or of the time and has another shape or
/// more than 128 bytes, or if it begins with `a`, `i` or `s`, as lines of an interpreted file do;
/// `OutOfRange` if a number is above 2^64 - 1.
#[tactic(auto, using(crate::proofs::StartLemmas::heaptrack_start), unfolding(crate::specs::Heaptrack::heaptrack_in))]
pub fn read_heaptrack(line: &[u8]) -> Result<LineReport, Refusal>
    ensures value { result ≡ heaptrack_in line.now }
    ensures start { heaptrack_in (take 129 line.now) ≡ heaptrack_in line.now }
{
    match line {
        [] => Ok(LineReport::Nothing),
        [sign, ..] if !is_told(*sign) => Ok(LineReport::Nothing),
        _ if line.len() > MOST_BYTES => Err(Refusal::Syntax),
        [sign, rest @ ..] => read_told(*sign, rest),
    }
}

/// Returns whether a line that begins with this byte reports something in a file of heaptrack, raw or
/// interpreted.
fn is_told(sign: u8) -> bool
    ensures { result ≡ is_told sign }
{
    sign == b'+' || sign == b'-' || sign == b'c' || sign == b'a' || sign == b'i' || sign == b's'
}

/// Parses the rest of a line after its first byte.
fn read_told(sign: u8, rest: &[u8]) -> Result<LineReport, Refusal>
    requires { length rest.now ≤ 128 }
    ensures { result ≡ told_in sign rest.now }
{
    match rest {
        [b' ', values @ ..] => read_values(sign, values),
        _ => Err(Refusal::Syntax),
    }
}

/// Parses the values of a line that begins with this byte.
fn read_values(sign: u8, values: &[u8]) -> Result<LineReport, Refusal>
    requires { length values.now ≤ 128 }
    ensures { result ≡ values_in sign values.now }
{
    if sign == b'+' {
        read_object(values).map(|(size, pointer)| allocation(pointer, size))
    } else if sign == b'-' {
        read_hexadecimal(values).map(free)
    } else if sign == b'c' {
        read_hexadecimal(values).map(LineReport::Clock)
    } else {
        Err(Refusal::Syntax)
    }
}

/// Parses `SIZE TRACE PTR`, and returns the size and the pointer.
fn read_object(values: &[u8]) -> Result<(u64, u64), Refusal>
    requires { length values.now ≤ 128 }
    ensures { result ≡ heaptrack_object values.now }
{
    let (size, rest) = cut(values, b' ');
    both(read_hexadecimal(size), read_place(rest))
}

/// Parses `TRACE PTR`, and returns the pointer.
fn read_place(values: &[u8]) -> Result<u64, Refusal>
    requires { length values.now ≤ 128 }
    ensures { result ≡ heaptrack_place values.now }
{
    let (trace, pointer) = cut(values, b' ');
    second_of(both(read_hexadecimal(trace), read_hexadecimal(pointer)))
}

/// Returns the second of two values.
fn second_of(values: Result<(u64, u64), Refusal>) -> Result<u64, Refusal>
    ensures { result ≡ second_of values }
{
    match values {
        Ok((_, second)) => Ok(second),
        Err(refusal) => Err(refusal),
    }
}

/// Parses a number below 2^64 in hexadecimal digits.
fn read_hexadecimal(digits: &[u8]) -> Result<u64, Refusal>
    requires { length digits.now ≤ 128 }
    ensures { result ≡ hexadecimal_in digits.now }
{
    let mut number = Line::new();
    number.push(b"0x");
    number.push(digits);
    read_address(number.bytes())
}
