//! The summary of a replay.
ghost use Rattle.std.specs.Prelude.{◌≡◌, ◌≤◌, ◌<◌, ◌+◌, ◌-◌, ◌∷◌, ◌++◌, codes, length, false, true, Err, OnErr};
ghost use Rattle.arrayvec.specs.ArrayVec.{array_vec_len};
ghost use Rattle.cc_io.specs.Devices.{SendsBytes};
ghost use Rattle.cc_replay.specs.Rows.{table_rows, table_text};
ghost use Rattle.cc_replay.specs.Summary.{end_rows, failure_rows, line_rows, made_rows, peak_rows, refusal_rows};
ghost use Rattle.cc_replay.specs.Summary.{summary_rows};
ghost use Rattle.cc_replay.specs.declared.table.Value.TheVariants.{Sweeping};

use crate::counts::Counts;
use crate::row;
use crate::rows::{parts_of, push_table};
use crate::table::{Format, Row, Value};
use arrayvec::ArrayVec;
use cc_heap::{Policy, Totals, Usage};
use cc_io::{IoError, Page, Sink, write_and_flush};

/// The maximum number of bytes of a summary.
const MOST_SUMMARY: usize = 16384;

/// The maximum number of rows of a summary, with that of a policy before them.
pub(crate) const MOST_ROWS: usize = 44;

/// The numbers of a replay.
#[derive(Clone, Copy)]
pub struct Figures {
    /// The counts of the lines of the trace.
    pub counts: Counts,
    /// The numbers of all states of the heap.
    pub totals: Totals,
    /// The number of objects and of bytes that the heap holds.
    pub usage: Usage,
    /// Whether the trace names objects by pointers.
    pub has_pointers: bool,
}

/// Writes the summary of a replay in a format, and flushes the sink.
///
/// Requires: the sink has not failed.
/// Errors: `Write` if the sink fails. A prefix of the summary is then written.
pub fn write_summary<W: Sink>(
    figures: &Figures,
    format: Format,
    sink: &mut W,
) -> Result<(), IoError>
    requires sink { (W.state sink.old).has_failed ≡ false }
    ensures sends { SendsBytes (W.state sink.old) (W.state sink.new) (table_text format (summary_rows figures.now))
        result }
    ensures write { OnErr result (result ≡ Err IoError.Write) }
{
    let mut page: Page<MOST_SUMMARY> = Page::new();
    push_summary(&mut page, figures, format);
    write_and_flush(&page, sink)
}

/// Appends the summary of a replay in a format.
fn push_summary<const N: usize>(page: &mut Page<N>, figures: &Figures, format: Format)
    requires { length page.old + 16384 ≤ N }
    ensures { page.new ≡ page.old ++ table_text format (summary_rows figures.now) }
{
    let rows = summary_rows(figures);
    push_table(page, format, rows.as_slice());
}

/// Returns the row of a policy, and the rows of a summary.
pub(crate) fn policy_rows(policy: Policy, figures: &Figures) -> ArrayVec<Row, MOST_ROWS>
    ensures value { table_rows result.items
        ≡ record { name = codes "policy"; value = Sweeping policy } ∷ summary_rows figures.now }
    ensures few { array_vec_len result ≤ 44 }
{
    let mut rows = ArrayVec::new();
    let row = Row {
        name: b"policy",
        value: Value::Sweeping(policy),
    };
    append_rows(&mut rows, &[row]);
    append_rows(&mut rows, summary_rows(figures).as_slice());
    rows
}

/// Returns the rows of a summary.
fn summary_rows(figures: &Figures) -> ArrayVec<Row, MOST_ROWS>
    ensures value { table_rows result.items ≡ summary_rows figures.now }
    ensures few { array_vec_len result ≤ 43 }
{
    let mut rows = ArrayVec::new();
    append_rows(&mut rows, &line_rows(&figures.counts));
    append_rows(&mut rows, &refusal_rows(&figures.counts));
    append_rows(&mut rows, &made_rows(&figures.totals));
    append_rows(&mut rows, &peak_rows(&figures.totals));
    append_rows(&mut rows, &end_rows(&figures.usage));
    if figures.has_pointers {
        append_rows(&mut rows, &failure_rows(&figures.counts));
    }
    rows
}

/// Appends rows to the rows of a summary.
#[tactic(auto, using(crate::proofs::RowLemmas::rows_after))]
fn append_rows(rows: &mut ArrayVec<Row, MOST_ROWS>, more: &[Row])
    requires { array_vec_len rows.old + length more.now ≤ 44 }
    ensures value { table_rows rows.new.items ≡ table_rows rows.old.items ++ table_rows more.now }
    ensures len { array_vec_len rows.new ≡ array_vec_len rows.old + length more.now }
{
    let _ = rows.try_extend_from_slice(more);
}

/// Returns the rows of the lines of a trace, by kind.
fn line_rows(counts: &Counts) -> [Row; 8]
    ensures { table_rows result ≡ line_rows counts.now }
{
    [
        row!(b"lines", counts.lines),
        row!(b"events", counts.events),
        row!(b"allocs", counts.allocs),
        row!(b"callocs", counts.callocs),
        row!(b"reallocs", counts.reallocs),
        row!(b"frees", counts.frees),
        row!(b"aligned", counts.aligned),
        row!(b"zero", counts.zero),
    ]
}

/// Returns the rows of the lines that are not events, and of the events that are refused.
fn refusal_rows(counts: &Counts) -> [Row; 16]
    ensures { table_rows result ≡ refusal_rows counts.now }
{
    [
        row!(b"refused.syntax", counts.syntax.times),
        row!(b"first.syntax", counts.syntax.first),
        row!(b"refused.range", counts.range.times),
        row!(b"first.range", counts.range.first),
        row!(b"refused.unfinished", counts.unfinished.times),
        row!(b"first.unfinished", counts.unfinished.first),
        row!(b"refused.unknown", counts.unknown.times),
        row!(b"first.unknown", counts.unknown.first),
        row!(b"refused.live", counts.live.times),
        row!(b"first.live", counts.live.first),
        row!(b"refused.noroom", counts.no_room.times),
        row!(b"first.noroom", counts.no_room.first),
        row!(b"refused.full", counts.full.times),
        row!(b"first.full", counts.full.first),
        row!(b"refused.lost", counts.lost.times),
        row!(b"first.lost", counts.lost.first),
    ]
}

/// Returns the rows of all objects that were made.
fn made_rows(totals: &Totals) -> [Row; 5]
    ensures { table_rows result ≡ made_rows totals.now }
{
    let padding = parts_of(
        totals.made_padded.saturating_sub(totals.made_asked),
        totals.made_asked,
    );
    [
        row!(b"made", totals.made),
        row!(b"made.asked", totals.made_asked),
        row!(b"made.padded", totals.made_padded),
        row!(b"inexact", totals.inexact),
        Row {
            name: b"padding.made.percent",
            value: Value::Percent(padding),
        },
    ]
}

/// Returns the rows of the peaks and of the sweeps.
fn peak_rows(totals: &Totals) -> [Row; 9]
    ensures { table_rows result ≡ peak_rows totals.now }
{
    [
        row!(b"peak.objects", totals.peak_objects),
        row!(b"peak.asked", totals.peak_asked),
        row!(b"peak.live", totals.peak_live),
        row!(b"peak.quarantine", totals.peak_quarantine),
        row!(b"peak.held", totals.peak_held),
        row!(b"sweeps", totals.sweeps),
        row!(b"swept.bytes", totals.swept),
        row!(b"swept.over", totals.swept_over),
        row!(b"high", totals.high),
    ]
}

/// Returns the row of the objects that the program could not make.
fn failure_rows(counts: &Counts) -> [Row; 1]
    ensures { table_rows result ≡ failure_rows true counts.now }
{
    [row!(b"failed", counts.failed)]
}

/// Returns the rows of the heap at the end.
fn end_rows(usage: &Usage) -> [Row; 4]
    ensures { table_rows result ≡ end_rows usage.now }
{
    [
        row!(b"end.objects", usage.objects),
        row!(b"end.asked", usage.asked),
        row!(b"end.live", usage.live),
        row!(b"end.quarantine", usage.quarantine),
    ]
}
