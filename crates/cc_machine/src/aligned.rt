//! Rounding up to a multiple, without a division if it can be.
ghost use Rattle.std.specs.Prelude.{◌≡◌, ◌+◌, ◌%◌, ◌<◌};

/// Returns the number of bytes from `n` to the smallest multiple of `align` that is at least `n`,
/// without a division if `align` is a power of two.
// not by `cc_placer::round_up`, which divides numbers of 128 bits: a search calls this for each gap that
// is long enough
#[inline(always)]
pub(crate) fn padding(n: u64, align: u64) -> u64
    requires { 0 < align }
    ensures multiple { (n + result) % align ≡ 0 }
    ensures near { result < align }
{
    let lowest_bit = 1 << align.trailing_zeros();
    if align == lowest_bit {
        return 0u64.wrapping_sub(n) & (lowest_bit - 1);
    }
    let over = n % align;
    if over == 0 { 0 } else { align - over }
}
