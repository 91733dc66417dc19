//! Bytes with a number after them, on a page.
ghost use Rattle.std.specs.Prelude.{◌≡◌, ◌+◌, ◌≤◌, ◌++◌, length};
ghost use Rattle.cc_io.specs.Numbered.{line_with_decimal, line_with_hexadecimal, with_decimal, with_digits};
ghost use Rattle.cc_io.specs.Numbered.{with_hexadecimal};

use crate::page::Page;

/// Appends bytes, and then the last `count` hexadecimal digits of a number.
///
/// Requires: `count <= 32`; all fits on the page.
#[tactic(auto, unfolding(crate::specs::Numbered::with_digits))]
pub fn push_digits<const N: usize>(page: &mut Page<N>, before: &[u8], number: u128, count: usize)
    requires digits { count ≤ 32 }
    requires room { length page.old + length before.now + count ≤ N }
    ensures value { page.new ≡ page.old ++ with_digits before.now count number }
    ensures fits { length page.new ≡ length page.old + length before.now + count }
{
    page.push(before);
    page.push_digits(number, count);
}

/// Appends bytes, and then a number in decimal.
///
/// Requires: all fits on the page, with 40 bytes for the number.
#[tactic(auto, unfolding(crate::specs::Numbered::with_decimal))]
pub fn push_decimal<const N: usize>(page: &mut Page<N>, before: &[u8], number: u128)
    requires { length page.old + length before.now + 40 ≤ N }
    ensures value { page.new ≡ page.old ++ with_decimal before.now number }
    ensures fits { length page.new ≤ length page.old + length before.now + 40 }
{
    page.push(before);
    page.push_decimal(number);
}

/// Appends bytes, and then a number in hexadecimal, with `0x` and without leading zeros.
///
/// Requires: all fits on the page, with 34 bytes for the number.
#[tactic(auto, unfolding(crate::specs::Numbered::with_hexadecimal))]
pub fn push_hexadecimal<const N: usize>(page: &mut Page<N>, before: &[u8], number: u128)
    requires { length page.old + length before.now + 34 ≤ N }
    ensures value { page.new ≡ page.old ++ with_hexadecimal before.now number }
    ensures fits { length page.new ≤ length page.old + length before.now + 34 }
{
    page.push(before);
    page.push_hexadecimal(number);
}

/// Appends the end of a line: bytes, a number in decimal, bytes and the line feed.
///
/// Requires: all fits on the page, with 40 bytes for the number.
#[tactic(auto, unfolding(crate::specs::Numbered::line_with_decimal))]
pub fn end_with_decimal<const N: usize>(
    page: &mut Page<N>,
    before: &[u8],
    number: u128,
    after: &[u8],
)
    requires { length page.old + length before.now + length after.now + 41 ≤ N }
    ensures value { page.new ≡ page.old ++ line_with_decimal before.now number after.now }
    ensures fits { length page.new ≤ length page.old + length before.now + length after.now + 41 }
{
    page.push(before);
    page.push_decimal(number);
    page.push(after);
    page.push(b"\n");
}

/// Appends the end of a line: bytes, a number in hexadecimal with `0x`, bytes and the line feed.
///
/// Requires: all fits on the page, with 34 bytes for the number.
#[tactic(auto, unfolding(crate::specs::Numbered::line_with_hexadecimal))]
pub fn end_with_hexadecimal<const N: usize>(
    page: &mut Page<N>,
    before: &[u8],
    number: u128,
    after: &[u8],
)
    requires { length page.old + length before.now + length after.now + 35 ≤ N }
    ensures value { page.new ≡ page.old ++ line_with_hexadecimal before.now number after.now }
    ensures fits { length page.new ≤ length page.old + length before.now + length after.now + 35 }
{
    page.push(before);
    page.push_hexadecimal(number);
    page.push(after);
    page.push(b"\n");
}
