//! The lines that ltrace writes.
ghost use Rattle.std.specs.Prelude.{◌≡◌, take};
ghost use Rattle.cc_replay.specs.Ltrace.{
  address_or_nil,
  assigned_in,
  called_in,
  calloc_in,
  free_in,
  ltrace_in,
  malloc_in,
  ltrace_name,
  product_in,
  product_of,
  realloc_in,
  reallocated,
  resized_in,
  result_in,
  spaced_address,
  spaced_number,
};

use crate::cutting::{after_or_all, cut, has_byte};
use crate::report::{LineReport, allocation, clearing, free, reallocation};
use cc_values::{both, read_address};
use cc_word::Refusal;

/// The maximum number of bytes of a line.
const MOST_BYTES: usize = 128;

/// Parses a line of ltrace, without its line feed: a call of `malloc`, `calloc`, `realloc` or `free`.
/// Other lines of at most 128 bytes report nothing.
///
/// Only the first 129 bytes of a line matter.
///
/// Errors, in order: `Syntax` if the line has such a call and another shape, as one that another thread
/// interrupts, or if it has more than 128 bytes; `OutOfRange` if a number or the product of `calloc` is
/// above 2^64 - 1.
#[tactic(auto, using(crate::proofs::StartLemmas::ltrace_start), unfolding(crate::specs::Ltrace::ltrace_in))]
pub fn read_ltrace(line: &[u8]) -> Result<LineReport, Refusal>
    ensures value { result ≡ ltrace_in line.now }
    ensures start { ltrace_in (take 129 line.now) ≡ ltrace_in line.now }
{
    if line.len() > MOST_BYTES {
        return Err(Refusal::Syntax);
    }
    let (head, call) = cut(line, b'(');
    read_call(name_of(head), call)
}

/// Returns the name of a function in the bytes before its arguments.
fn name_of(head: &[u8]) -> &[u8]
    ensures { result.now ≡ ltrace_name head.now }
{
    after_or_all(after_or_all(head, b'>'), b' ')
}

/// Parses a call of the function of this name.
fn read_call(name: &[u8], call: &[u8]) -> Result<LineReport, Refusal>
    ensures { result ≡ called_in name.now call.now }
{
    if name == b"malloc".as_slice() {
        read_malloc(call)
    } else if name == b"calloc".as_slice() {
        read_calloc(call)
    } else if name == b"realloc".as_slice() {
        read_realloc(call)
    } else if name == b"free".as_slice() {
        read_free(call)
    } else {
        Ok(LineReport::Nothing)
    }
}

/// Parses `SIZE) = PTR`.
fn read_malloc(call: &[u8]) -> Result<LineReport, Refusal>
    ensures { result ≡ malloc_in call.now }
{
    let (arguments, _) = cut(call, b')');
    both(read_address(arguments), read_result(call)).map(|(size, pointer)| allocation(
        pointer, size,
    ))
}

/// Parses `NUMBER, SIZE) = PTR`.
fn read_calloc(call: &[u8]) -> Result<LineReport, Refusal>
    ensures { result ≡ calloc_in call.now }
{
    let (arguments, _) = cut(call, b')');
    both(read_product(arguments), read_result(call)).map(|(size, pointer)| clearing(pointer, size))
}

/// Parses `OLD, SIZE) = PTR`.
fn read_realloc(call: &[u8]) -> Result<LineReport, Refusal>
    ensures { result ≡ realloc_in call.now }
{
    let (arguments, _) = cut(call, b')');
    reallocated(both(read_resized(arguments), read_result(call)))
}

/// Returns the report of the old pointer and the size, and the new pointer.
fn reallocated(values: Result<((u64, u64), u64), Refusal>) -> Result<LineReport, Refusal>
    ensures { result ≡ reallocated values }
{
    match values {
        Ok(((old, size), new)) => Ok(reallocation(old, new, size)),
        Err(refusal) => Err(refusal),
    }
}

/// Parses `PTR)`.
fn read_free(call: &[u8]) -> Result<LineReport, Refusal>
    ensures { result ≡ free_in call.now }
{
    if !has_byte(call, b')') {
        return Err(Refusal::Syntax);
    }
    let (arguments, _) = cut(call, b')');
    read_pointer(arguments).map(free)
}

/// Parses the result of a call, a pointer.
fn read_result(call: &[u8]) -> Result<u64, Refusal>
    ensures { result ≡ result_in call.now }
{
    let (_, rest) = cut(call, b')');
    read_assigned(rest)
}

/// Parses the pointer after the first `=` and a space.
fn read_assigned(text: &[u8]) -> Result<u64, Refusal>
    ensures { result ≡ assigned_in text.now }
{
    let (_, pointer) = cut(text, b'=');
    read_spaced_pointer(pointer)
}

/// Parses `NUMBER, SIZE`, and returns the product.
fn read_product(arguments: &[u8]) -> Result<u64, Refusal>
    ensures { result ≡ product_in arguments.now }
{
    let (number, size) = cut(arguments, b',');
    product_of(both(read_address(number), read_spaced_number(size)))
}

/// Parses `OLD, SIZE`.
fn read_resized(arguments: &[u8]) -> Result<(u64, u64), Refusal>
    ensures { result ≡ resized_in arguments.now }
{
    let (old, size) = cut(arguments, b',');
    both(read_pointer(old), read_spaced_number(size))
}

/// Returns the product of two numbers, or `OutOfRange` if it is above 2^64 - 1.
fn product_of(numbers: Result<(u64, u64), Refusal>) -> Result<u64, Refusal>
    ensures { result ≡ product_of numbers }
{
    match numbers {
        Ok((number, size)) => match number.checked_mul(size) {
            Some(product) => Ok(product),
            None => Err(Refusal::OutOfRange),
        },
        Err(refusal) => Err(refusal),
    }
}

/// Parses a space and a pointer.
fn read_spaced_pointer(text: &[u8]) -> Result<u64, Refusal>
    ensures { result ≡ spaced_address text.now }
{
    match text {
        [b' ', pointer @ ..] => read_pointer(pointer),
        _ => Err(Refusal::Syntax),
    }
}

/// Parses a space and a number.
fn read_spaced_number(text: &[u8]) -> Result<u64, Refusal>
    ensures { result ≡ spaced_number text.now }
{
    match text {
        [b' ', number @ ..] => read_address(number),
        _ => Err(Refusal::Syntax),
    }
}

/// Parses a pointer: a number below 2^64, or `nil`.
fn read_pointer(text: &[u8]) -> Result<u64, Refusal>
    ensures { result ≡ address_or_nil text.now }
{
    if text == b"nil".as_slice() {
        Ok(0)
    } else {
        read_address(text)
    }
}
