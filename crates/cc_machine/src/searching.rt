//! Steps of binary searches.
ghost use Rattle.std.specs.Prelude.{◌≡◌, ◌<◌, ◌≤◌};

/// Returns `step` if `value` is below `limit`, and 0 otherwise.
///
/// It takes no branch. Which half a search goes on in is as good as random, so that a branch would
/// be guessed wrong half of the time.
#[inline(always)]
pub(crate) fn step_if_below(value: u64, limit: u64, step: usize) -> usize
    ensures below { value < limit → result ≡ step }
    ensures above { limit ≤ value → result ≡ 0 }
{
    let borrow = (u128::from(value).wrapping_sub(u128::from(limit)) >> 64) as u64;
    step & borrow as usize
}
