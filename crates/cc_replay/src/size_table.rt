//! The table of the objects that were made, by the powers of two of their sizes.
ghost use Rattle.std.specs.Prelude.{◌≡◌, ◌≤◌, ◌<◌, ◌+◌, ◌^◌, ◌++◌, length, false, Err, OnErr};
ghost use Rattle.cc_io.specs.Devices.{SendsBytes};
ghost use Rattle.cc_replay.specs.Rows.{table_rows};
ghost use Rattle.cc_replay.specs.SizeTable.{all_sizes, size_rows, sizes_text};

use crate::row;
use crate::rows::{between_rows, end_of, push_heading, push_row};
use crate::table::{Format, Row, Value};
use cc_heap::{NO_OBJECTS, SizeTotals};
use cc_io::{IoError, Page, Sink, write_and_flush};

/// The maximum number of bytes of a table.
const MOST_SIZES: usize = 40960;

/// Writes the table of the objects that were made, by the powers of two of their sizes, in a format,
/// and flushes the sink. A power without an object has no row.
///
/// Requires: the sink has not failed.
/// Errors: `Write` if the sink fails. A prefix of the table is then written.
pub fn write_sizes<W: Sink>(
    sizes: &[SizeTotals; 64],
    format: Format,
    sink: &mut W,
) -> Result<(), IoError>
    requires { (W.state sink.old).has_failed ≡ false }
    ensures sends { SendsBytes (W.state sink.old) (W.state sink.new) (sizes_text format sizes.now) result }
    ensures write { OnErr result (result ≡ Err IoError.Write) }
{
    let mut page: Page<MOST_SIZES> = Page::new();
    push_sizes(&mut page, format, sizes);
    write_and_flush(&page, sink)
}

/// Appends the table in a format.
fn push_sizes<const N: usize>(page: &mut Page<N>, format: Format, sizes: &[SizeTotals; 64])
    requires { length page.old + 40000 ≤ N }
    ensures { page.new ≡ page.old ++ sizes_text format sizes.now }
{
    push_heading(page, format, &size_rows(0, &NO_OBJECTS));
    push_rows(page, format, sizes);
    page.push(end_of(format));
}

/// Appends the rows that have an object, with the separator between.
fn push_rows<const N: usize>(page: &mut Page<N>, format: Format, sizes: &[SizeTotals; 64])
    requires { length page.old + 39000 ≤ N }
    ensures value { page.new ≡ page.old ++ all_sizes format sizes.now }
    ensures fits { length page.new ≤ length page.old + 39000 }
{
    let mut before: &[u8] = b"";
    let mut rest: &[SizeTotals] = sizes;
    let mut power: u32 = 0;
    'rows: while let Some((totals, after)) = rest.split_first() {
        if totals.made != 0 {
            page.push(before);
            push_row(page, format, &size_rows(power, totals));
            before = between_rows(format);
        }
        power += 1;
        rest = after;
    }
}

/// Returns the names and values of the row of a power of two.
fn size_rows(power: u32, totals: &SizeTotals) -> [Row; 6]
    requires { power < 64 }
    ensures { table_rows result ≡ size_rows power totals.now }
{
    let from = power_of_two(power);
    [
        row!(b"from", from),
        row!(b"to", 2 * from - 1),
        row!(b"made", totals.made),
        row!(b"made.asked", totals.asked),
        row!(b"made.padded", totals.padded),
        row!(b"inexact", totals.inexact),
    ]
}

/// Returns a power of two.
fn power_of_two(power: u32) -> u128
    requires { power < 64 }
    ensures value { result ≡ 2 ^ power }
    ensures some { 0 < result }
    ensures fits { result ≤ 2 ^ 64 }
{
    1 << power
}
