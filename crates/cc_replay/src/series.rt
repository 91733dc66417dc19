//! The samples of a series.
ghost use Rattle.std.specs.Prelude.{◌≡◌, ◌≤◌, ◌+◌, ◌*◌, ◌^◌, ◌++◌, length};
ghost use Rattle.cc_replay.specs.declared.reading.SampleReason.TheVariants.{Last};
ghost use Rattle.cc_replay.specs.Replay.{most_sample};
ghost use Rattle.cc_replay.specs.Rows.{names_line, table_rows, values_line};
ghost use Rattle.cc_replay.specs.Summary.{sample_rows};

use crate::rows::{push_names, push_values};
use crate::summary::Figures;
use crate::table::{Row, Value};
use crate::{SampleReason, row};
use cc_io::Page;

/// The maximum number of bytes of a line of a series.
pub const MOST_SAMPLE: usize = 1401;

/// Appends the header of a series: the names of the columns, with commas between. They do not
/// depend on the figures.
///
/// Requires: `MOST_SAMPLE` bytes of the page are free.
pub fn push_series_header<const N: usize>(page: &mut Page<N>, figures: &Figures)
    requires { length page.old + most_sample ≤ N }
    ensures value { page.new ≡ page.old ++ names_line (sample_rows Last 0 figures.now) }
    ensures fits { length page.new ≤ length page.old + most_sample }
{
    push_names(page, &sample_rows(SampleReason::Last, 0, figures));
}

/// Appends a sample: the numbers of a replay after a line, with the time that the trace gave last, and the
/// reason of the sample.
///
/// Requires: `MOST_SAMPLE` bytes of the page are free.
pub fn push_sample<const N: usize>(
    page: &mut Page<N>,
    reason: SampleReason,
    time: u64,
    figures: &Figures,
)
    requires { length page.old + most_sample ≤ N }
    ensures value { page.new ≡ page.old ++ values_line (sample_rows reason time figures.now) }
    ensures fits { length page.new ≤ length page.old + most_sample }
{
    push_values(page, &sample_rows(reason, time, figures));
}

/// Returns the rows of a sample.
fn sample_rows(reason: SampleReason, time: u64, figures: &Figures) -> [Row; 14]
    ensures { table_rows result ≡ sample_rows reason time figures.now }
{
    let Figures {
        counts,
        totals,
        usage,
        ..
    } = figures;
    [
        row!(b"line", counts.lines),
        row!(b"event", counts.events),
        row!(b"time", time),
        row!(b"made.asked", totals.made_asked),
        row!(b"objects", usage.objects),
        row!(b"asked", usage.asked),
        row!(b"live", usage.live),
        row!(b"quarantine", usage.quarantine),
        row!(b"held", usage.live.saturating_add(usage.quarantine)),
        row!(b"peak.quarantine", totals.peak_quarantine),
        row!(b"peak.held", totals.peak_held),
        row!(b"high", totals.high),
        row!(b"sweeps", totals.sweeps),
        Row {
            name: b"why",
            value: Value::Reason(reason),
        },
    ]
}
