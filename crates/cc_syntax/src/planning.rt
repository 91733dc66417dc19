//! The pool of a plan: its base and its length, and the operations that make it.
ghost use Rattle.std.specs.Prelude.{◌≡◌};
ghost use Rattle.cc_syntax.specs.Planning.{plan_opening, pool_of};

use cc_bounds::{Align, Len};
use cc_values::{Op, both, read_address, read_length};
use cc_word::Refusal;

/// Returns the base and the length in bytes of the pool that two strings parse as.
///
/// Errors, in order: `Syntax` if a string is not a number; `OutOfRange` if the base is at least
/// 2^64 or the length above 2^64.
pub fn plan_numbers(base: &[u8], length: &[u8]) -> Result<(u64, Len), Refusal>
    ensures { result ≡ pool_of base.now length.now }
{
    both(read_address(base), read_length(length))
}

/// Returns the operations that make a pool of `length` bytes from `base`, with this alignment.
///
/// They are the operations of `addr 0 BASE`, `exact 1 LENGTH` and `pool 2` (`pool 2 16` if the
/// alignment is 16), which number the slots as in a new machine.
pub fn plan_opening(base: u64, length: Len, align: Align) -> [Op; 3]
    ensures { result ≡ plan_opening base length align }
{
    [Op::Addr(0, base), Op::Exact(1, length), Op::Pool(2, align)]
}
