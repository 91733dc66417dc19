//! The event of a line of a trace in each format.
ghost use Rattle.std.specs.Prelude.{◌≡◌, take, IfOk, IfSome};
ghost use Rattle.cc_heap.specs.Alignment.{HasAlignment};
ghost use Rattle.cc_replay.specs.Formats.{
  entry_from,
  entry_in,
  entry_with,
  event_of,
  has_pointers,
  joined_entry,
  reported_entry,
};

use crate::heaptrack::read_heaptrack;
use crate::ltrace::read_ltrace;
use crate::mtrace::read_mtrace;
use crate::report::LineReport;
use crate::trace::read_event;
use cc_heap::Event;
use cc_word::Refusal;

/// The format of a trace.
#[derive(Clone, Copy)]
pub enum TraceFormat {
    /// The format of [`read_event`].
    Own,
    /// The format of `mtrace` of the GNU C library.
    Mtrace,
    /// The format of raw files of heaptrack.
    Heaptrack,
    /// The format of ltrace.
    Ltrace,
}

/// The meaning of a line of a trace after the lines before it.
#[derive(Clone, Copy)]
pub struct Entry {
    /// The event of the line, or `None`, or the refusal of the line.
    pub event: Result<Option<Event>, Refusal>,
    /// The pointer of the first half of a reallocation whose second half has not come.
    pub pending: Option<u64>,
    /// Whether the line reports that an object could not be made.
    pub is_failure: bool,
}

impl TraceFormat {
    /// Returns whether objects are named by pointers.
    pub fn has_pointers(self) -> bool
        ensures { result ≡ has_pointers self }
    {
        match self {
            TraceFormat::Own => false,
            TraceFormat::Mtrace | TraceFormat::Heaptrack | TraceFormat::Ltrace => true,
        }
    }
}

/// Parses a line of a trace in a format, without its line feed. `pending` is the half that was
/// pending after the line before.
///
/// Only the first 129 bytes of a line matter.
///
/// Errors, in the event: those of [`read_event`], [`read_mtrace`], [`read_heaptrack`] or
/// [`read_ltrace`]; `Syntax` for the second half of a reallocation without the first, and for a
/// first half if another is pending.
#[tactic(auto, using(crate::proofs::FormatLemmas::entry_start))]
pub fn read_entry(format: TraceFormat, pending: Option<u64>, line: &[u8]) -> Entry
    ensures value { result ≡ entry_in format pending line.now }
    ensures start { entry_in format pending (take 129 line.now) ≡ entry_in format pending line.now }
    ensures aligned { IfOk result.event (λ event. IfSome event HasAlignment) }
{
    match format {
        TraceFormat::Own => entry_with(pending, read_event(line)),
        TraceFormat::Mtrace => entry_from(pending, read_mtrace(line)),
        TraceFormat::Heaptrack => entry_from(pending, read_heaptrack(line)),
        TraceFormat::Ltrace => entry_from(pending, read_ltrace(line)),
    }
}

/// Returns the entry of a report, or of the refusal of a line.
fn entry_from(pending: Option<u64>, found: Result<LineReport, Refusal>) -> Entry
    ensures value { result ≡ entry_from pending found }
    ensures aligned { IfOk result.event (λ event. IfSome event HasAlignment) }
{
    match found {
        Ok(report) => reported_entry(pending, report),
        Err(refusal) => entry_with(pending, Err(refusal)),
    }
}

/// Returns the entry of a report.
fn reported_entry(pending: Option<u64>, report: LineReport) -> Entry
    ensures value { result ≡ reported_entry pending report }
    ensures aligned { IfOk result.event (λ event. IfSome event HasAlignment) }
{
    match report {
        LineReport::Failure => Entry {
            event: Ok(None),
            pending,
            is_failure: true,
        },
        LineReport::From { pointer } => match pending {
            Some(_) => entry_with(Some(pointer), Err(Refusal::Syntax)),
            None => entry_with(Some(pointer), Ok(None)),
        },
        LineReport::To { pointer, size } => joined_entry(pending, pointer, size),
        _ => entry_with(pending, Ok(event_of(report))),
    }
}

/// Returns the entry of the second half of a reallocation.
fn joined_entry(pending: Option<u64>, new: u64, size: u64) -> Entry
    ensures value { result ≡ joined_entry pending new size }
    ensures aligned { IfOk result.event (λ event. IfSome event HasAlignment) }
{
    match pending {
        Some(old) => entry_with(None, Ok(Some(Event::Reallocate { old, new, size }))),
        None => entry_with(None, Err(Refusal::Syntax)),
    }
}

/// Returns the event of a report that is one alone.
#[tactic(auto, using(crate::proofs::PowerLemmas::one_is_a_power))]
fn event_of(report: LineReport) -> Option<Event>
    ensures value { result ≡ event_of report }
    ensures aligned { IfSome result HasAlignment }
{
    match report {
        LineReport::Allocation { pointer, size } => Some(Event::Allocate {
            id: pointer,
            size,
            align: 1,
        }),
        LineReport::Clearing { pointer, size } => Some(Event::Clear { id: pointer, size }),
        LineReport::Reallocation { old, new, size } => Some(Event::Reallocate { old, new, size }),
        LineReport::Free { pointer } => Some(Event::Free { id: pointer }),
        LineReport::Clock(now) => Some(Event::Clock(now)),
        LineReport::Nothing
        | LineReport::Failure
        | LineReport::From { .. }
        | LineReport::To { .. } => None,
    }
}

/// Returns the entry of a line that reports no failure.
fn entry_with(pending: Option<u64>, event: Result<Option<Event>, Refusal>) -> Entry
    ensures { result ≡ entry_with pending event }
{
    Entry {
        event,
        pending,
        is_failure: false,
    }
}
