//! The counts of the lines of a trace, and of what comes of its events.
ghost use Rattle.std.specs.Prelude.{◌≡◌};
ghost use Rattle.cc_heap.specs.Outcomes.{is_full, is_no_room};
ghost use Rattle.cc_replay.specs.Counts.{counted_events, counted_if, with_counted_event};
ghost use Rattle.cc_replay.specs.Counts.{with_failure, with_line, with_outcome};
ghost use Rattle.cc_replay.specs.Counts.{with_refusal};

use cc_heap::{Event, Making, Outcome};
use cc_word::Refusal;

/// The number of lines of one kind, and the first of them.
#[derive(Clone, Copy, Default)]
pub struct Count {
    /// The number of lines, at most 2^64 - 1.
    pub times: u64,
    /// The number of the first line, from 1, or 0 if there is none.
    pub first: u64,
}

/// The counts of the lines of a trace. Each number stays at 2^64 - 1 once it reaches it.
#[derive(Clone, Copy, Default)]
pub struct Counts {
    /// The number of lines, including empty ones and comments. Trailing bytes count as a line.
    pub lines: u64,
    /// The number of lines that are events.
    pub events: u64,
    /// The number of events that make an object, as `malloc` does.
    pub allocs: u64,
    /// The number of events that make an object and clear it, as `calloc` does.
    pub callocs: u64,
    /// The number of events that make an object in place of another, as `realloc` does.
    pub reallocs: u64,
    /// The number of events that free an object.
    pub frees: u64,
    /// The number of events that request an alignment above 1.
    pub aligned: u64,
    /// The number of events that request no bytes.
    pub zero: u64,
    /// The number of lines that report that the program could not make an object.
    pub failed: u64,
    /// The lines that are not events.
    pub syntax: Count,
    /// The lines with a number out of range.
    pub range: Count,
    /// The trailing bytes without a line feed.
    pub unfinished: Count,
    /// The events on an object that is not live.
    pub unknown: Count,
    /// The events that make an object under an id that is live.
    pub live: Count,
    /// The events whose object has no place in the pool.
    pub no_room: Count,
    /// The events whose object is one more than the heap can hold.
    pub full: Count,
    /// The events on an object that was not made.
    pub lost: Count,
}

impl Count {
    /// Returns the count with this line, if it is one of the kind.
    fn counted_if(self, is_one: bool, line: u64) -> Count
        ensures { result ≡ counted_if is_one line self }
    {
        if is_one { self.counted(line) } else { self }
    }

    /// Returns the count with this line.
    fn counted(self, line: u64) -> Count
        ensures { result ≡ counted_events line self }
    {
        Count {
            times: self.times.saturating_add(1),
            first: if self.times == 0 { line } else { self.first },
        }
    }
}

impl Counts {
    /// Returns the counts with one more line.
    pub(crate) fn with_line(self) -> Counts
        ensures { result ≡ with_line self }
    {
        Counts {
            lines: self.lines.saturating_add(1),
            ..self
        }
    }

    /// Returns the counts with one more object that the program could not make, if the last line
    /// reports one.
    pub(crate) fn with_failure(self, is_failure: bool) -> Counts
        ensures { result ≡ with_failure is_failure self }
    {
        Counts {
            failed: self.failed.saturating_add(u64::from(is_failure)),
            ..self
        }
    }

    /// Returns the counts with the last line as a line that is refused.
    pub(crate) fn with_refusal(self, refusal: Refusal) -> Counts
        ensures { result ≡ with_refusal refusal self }
    {
        let line = self.lines;
        match refusal {
            Refusal::OutOfRange => Counts {
                range: self.range.counted(line),
                ..self
            },
            Refusal::Unfinished => Counts {
                unfinished: self.unfinished.counted(line),
                ..self
            },
            _ => Counts {
                syntax: self.syntax.counted(line),
                ..self
            },
        }
    }

    /// Returns the counts with the last line as this event.
    pub(crate) fn with_event(self, event: Event) -> Counts
        ensures { result ≡ with_counted_event event self }
    {
        let counts = Counts {
            events: self.events.saturating_add(1),
            ..self
        };
        match event {
            Event::Allocate { size, align, .. } => Counts {
                allocs: counts.allocs.saturating_add(1),
                aligned: counts.aligned.saturating_add(u64::from(align > 1)),
                zero: counts.zero.saturating_add(u64::from(size == 0)),
                ..counts
            },
            Event::Clear { size, .. } => Counts {
                callocs: counts.callocs.saturating_add(1),
                zero: counts.zero.saturating_add(u64::from(size == 0)),
                ..counts
            },
            Event::Reallocate { size, .. } => Counts {
                reallocs: counts.reallocs.saturating_add(1),
                zero: counts.zero.saturating_add(u64::from(size == 0)),
                ..counts
            },
            Event::Free { .. } => Counts {
                frees: counts.frees.saturating_add(1),
                ..counts
            },
            Event::Sweep | Event::Clock(_) => counts,
        }
    }

    /// Returns the counts with what came of the event of the last line.
    pub(crate) fn with_outcome(self, outcome: Outcome) -> Counts
        ensures { result ≡ with_outcome outcome self }
    {
        let line = self.lines;
        Counts {
            unknown: self.unknown.counted_if(outcome.unknown, line),
            live: self.live.counted_if(outcome.was_live, line),
            no_room: self.no_room.counted_if(is_no_room(outcome.making), line),
            full: self.full.counted_if(is_full(outcome.making), line),
            lost: self.lost.counted_if(outcome.lost, line),
            ..self
        }
    }
}

/// Returns whether there was no place for an object.
fn is_no_room(making: Option<Making>) -> bool
    ensures { result ≡ is_no_room making }
{
    matches!(making, Some(Making::NoRoom))
}

/// Returns whether an object was one more than the heap can hold.
fn is_full(making: Option<Making>) -> bool
    ensures { result ≡ is_full making }
{
    matches!(making, Some(Making::Full))
}
