//! A request for bounds, as its base and its length are typed.
ghost use Rattle.std.specs.Prelude.{◌≡◌, ◌≤◌, ◌^◌, IfOk, Ok};
ghost use Rattle.cc_bounds.specs.Span.{IsSpan};
ghost use Rattle.cc_syntax.specs.Request.{request_from, request_in};

use crate::planning::plan_numbers;
use cc_bounds::Span;
use cc_word::Refusal;

/// Returns the request whose base and length two strings parse as.
///
/// Errors, in order: `Syntax` if a string is not a number; `OutOfRange` if the base is at least
/// 2^64 or the length above 2^64; `OutOfBounds` if the request ends past 2^64.
pub fn read_request(base: &str, length: &str) -> Result<Span, Refusal>
    ensures request { result ≡ request_in base.now length.now }
    ensures is_span { IfOk result IsSpan }
{
    match plan_numbers(base.as_bytes(), length.as_bytes()) {
        Ok((base, length)) => request_from(base, length.get()),
        Err(refusal) => Err(refusal),
    }
}

/// Returns the request for `length` bytes from `base`.
///
/// Requires: `length <= 2^64`.
/// Errors: `OutOfBounds` if it ends past 2^64.
pub fn request_from(base: u64, length: u128) -> Result<Span, Refusal>
    requires { length ≤ 2 ^ 64 }
    ensures request { result ≡ request_from (Ok (base, length)) }
    ensures is_span { IfOk result IsSpan }
{
    let top = u128::from(base) + length;
    if top <= 1 << 64 {
        Ok(Span { base, top })
    } else {
        Err(Refusal::OutOfBounds)
    }
}
