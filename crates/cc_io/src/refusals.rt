//! The lines of refusals.
ghost use Rattle.std.specs.Prelude.{◌≡◌, ◌≤◌, ◌+◌, ◌++◌, false, true, length, take, IfOk};
ghost use Rattle.cc_io.specs.CommandOutput.{IsRefusalLine, WritesAnswer};
ghost use Rattle.cc_io.specs.Text.{refusal_text, with_line_feed};

use crate::devices::Sink;
use crate::page::{Page, Text};
use crate::pumping::write_and_flush;
use crate::summary::{IoError, Summary};
use cc_word::Refusal;

/// Writes the line of a refusal, `error CODE NAME`, and flushes the sink once after it. The summary
/// reports an error.
///
/// Requires: the sink has not failed.
/// Errors: `Write` if and only if the sink fails. A prefix of the line is then written.
pub fn write_refusal<W: Sink>(refusal: Refusal, sink: &mut W) -> Result<Summary, IoError>
    requires { (W.state sink.old).has_failed ≡ false }
    ensures shown { WritesAnswer (IsRefusalLine refusal) (W.state sink.old) (W.state sink.new) result }
    ensures any_error { IfOk result (λ summary. summary.any_error ≡ true) }
{
    let mut answer = Text::new();
    push_refusal(&mut answer, refusal);
    write_and_flush(&answer, sink)?;
    Ok(Summary { any_error: true })
}

/// Appends the line of a refusal and its line feed.
///
/// Requires: 32 bytes fit on the page.
#[inline(always)]
pub fn push_refusal<const N: usize>(page: &mut Page<N>, refusal: Refusal)
    requires { length page.old + 32 ≤ N }
    ensures value { page.new ≡ page.old ++ with_line_feed (refusal_text refusal) }
    ensures fits { length page.new ≤ length page.old + 32 }
{
    let (row, len) = row_of(refusal);
    // all of the row is copied, so that no branch depends on the length
    page.push(row);
    page.drop_last(row.len() - len);
}

/// Returns the line of a refusal and its line feed, at most 32 bytes.
pub fn refusal_bytes(refusal: Refusal) -> &'static [u8]
    ensures value { result.now ≡ with_line_feed (refusal_text refusal) }
    ensures fits { length result.now ≤ 32 }
{
    let (row, len) = row_of(refusal);
    &row[..len]
}

/// Returns 32 bytes that begin with the line of a refusal and its line feed, and the length of these.
fn row_of(refusal: Refusal) -> (&'static [u8; 32], usize)
    ensures value { take result.1 result.0.now ≡ with_line_feed (refusal_text refusal) }
    ensures fits { result.1 ≤ 32 }
{
    match refusal {
        Refusal::Syntax => (b"error 1 syntax\n                 ", 15),
        Refusal::Unfinished => (b"error 2 unfinished\n             ", 19),
        Refusal::TooLong => (b"error 3 long\n                   ", 13),
        Refusal::OutOfRange => (b"error 4 range\n                  ", 14),
        Refusal::NoSlot => (b"error 5 slot\n                   ", 13),
        Refusal::Revoked => (b"error 6 revoked\n                ", 16),
        Refusal::Sealed => (b"error 7 sealed\n                 ", 15),
        Refusal::Unsealed => (b"error 8 unsealed\n               ", 17),
        Refusal::OutOfBounds => (b"error 9 bounds\n                 ", 15),
        Refusal::Inexact => (b"error 10 inexact\n               ", 17),
        Refusal::Unrepresentable => (b"error 11 unrepresentable\n       ", 25),
        Refusal::MissingPermission => (b"error 12 permission\n            ", 20),
        Refusal::ReservedType => (b"error 13 type\n                  ", 14),
        Refusal::TypeMismatch => (b"error 14 mismatch\n              ", 18),
        Refusal::NotCanonical => (b"error 15 canonical\n             ", 19),
        Refusal::ExceedsAuthority => (b"error 16 exceeds\n               ", 17),
        Refusal::NoPool => (b"error 17 nopool\n                ", 16),
        Refusal::PoolAlreadySet => (b"error 18 poolset\n               ", 17),
        Refusal::ZeroSize => (b"error 19 zero\n                  ", 14),
        Refusal::NoRoom => (b"error 20 noroom\n                ", 16),
        Refusal::NoObject => (b"error 21 object\n                ", 16),
        Refusal::Full => (b"error 22 full\n                  ", 14),
    }
}
