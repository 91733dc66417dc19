//! Bytes of a source that are read and dropped.
ghost use Rattle.std.specs.Prelude.{◌≡◌, false};
ghost use Rattle.cc_decode.specs.Skip.{Skips};

use cc_io::{Failed, Source};

/// The maximum number of bytes in one read.
const PIECE: usize = 65536;

/// Reads and drops `count` bytes of a source, or all if there are fewer.
///
/// Requires: the source has not failed.
/// Errors: `Failed` if and only if the source failed. It has then given fewer than `count` bytes.
pub(crate) fn skip<R: Source>(count: u64, source: &mut R) -> Result<(), Failed>
    requires { (R.state source.old).has_failed ≡ false }
    ensures { Skips count (R.state source.old) (R.state source.new) result }
{
    if count == 0 {
        return Ok(());
    }
    skip_some(count, source)
}

/// Reads and drops `count` bytes of a source, or all if there are fewer.
#[cold]
#[inline(never)]
fn skip_some<R: Source>(count: u64, source: &mut R) -> Result<(), Failed>
    requires { (R.state source.old).has_failed ≡ false }
    ensures { Skips count (R.state source.old) (R.state source.new) result }
{
    let mut piece = [0u8; PIECE];
    let mut rest = count;
    'pieces: while rest > 0 {
        let most = rest.min(PIECE as u64) as usize;
        let given = match source.read(&mut piece[..most]) {
            Ok(given) => given,
            Err(Failed) => return Err(Failed),
        };
        if given == 0 {
            break;
        }
        rest -= given as u64;
    }
    Ok(())
}
