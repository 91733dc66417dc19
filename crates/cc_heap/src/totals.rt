//! The numbers of all that a heap was.
ghost use Rattle.std.specs.Prelude.{◌≡◌, ◌≤◌, ◌+◌, ◌^◌};
ghost use Rattle.cc_bounds.specs.Span.{length_of};
ghost use Rattle.cc_heap.specs.Peaks.{totals_without_peaks};
ghost use Rattle.cc_heap.specs.Totals.{with_made, with_sweep, with_usage};

use crate::object::Object;
use crate::usage::Usage;

/// The numbers of all states that a heap has had, and of all objects that were made in it. For those of one event, a
/// caller has the heap forget its peaks first.
///
/// A state is what the heap holds after an object is made, after one is freed, after a sweep, and
/// after a `realloc` that keeps its object. One that moves it has a state with both objects. Numbers of objects and of
/// sweeps stay at 2^64 - 1 once they reach it, and sums of bytes at 2^128 - 1.
#[derive(Clone, Copy, Default)]
pub struct Totals {
    /// The number of objects that were made.
    pub made: u64,
    /// The number of them that take more bytes than were requested.
    pub inexact: u64,
    /// The sum of the requested sizes of the objects that were made, in bytes.
    pub made_asked: u128,
    /// The sum of their padded sizes, in bytes.
    pub made_padded: u128,
    /// The number of sweeps.
    pub sweeps: u64,
    /// The sum of the quarantined bytes at each sweep.
    pub swept: u128,
    /// The sum of the held bytes at each sweep.
    pub swept_over: u128,
    /// The largest number of live objects in a state.
    pub peak_objects: u64,
    /// The largest sum of the requested sizes of live objects, in bytes.
    pub peak_asked: u128,
    /// The largest sum of the padded sizes of live objects, in bytes.
    pub peak_live: u128,
    /// The largest number of quarantined bytes.
    pub peak_quarantine: u128,
    /// The largest number of held bytes: those of live objects and quarantined ones.
    pub peak_held: u128,
    /// The number of bytes from the pool's base to the highest end of an object that was made.
    pub high: u128,
}

impl Totals {
    /// Returns the totals with no peaks of bytes.
    pub(crate) fn without_peaks(self) -> Totals
        ensures { result ≡ totals_without_peaks self }
    {
        Totals {
            peak_live: 0,
            peak_quarantine: 0,
            peak_held: 0,
            ..self
        }
    }

    /// Returns the totals with one more state, of this usage.
    pub(crate) fn with_usage(self, usage: Usage) -> Totals
        requires { usage.live + usage.quarantine ≤ 2 ^ 127 }
        ensures { result ≡ with_usage self usage }
    {
        Totals {
            peak_objects: self.peak_objects.max(usage.objects),
            peak_asked: self.peak_asked.max(usage.asked),
            peak_live: self.peak_live.max(usage.live),
            peak_quarantine: self.peak_quarantine.max(usage.quarantine),
            peak_held: self.peak_held.max(usage.held()),
            ..self
        }
    }

    /// Returns the totals with one more object, that ends this number of bytes above the pool's
    /// base, and the state in which it was made.
    pub(crate) fn with_made(self, object: Object, end: u128, usage: Usage) -> Totals
        requires in_order { object.span.base ≤ object.span.top }
        requires fits { usage.live + usage.quarantine ≤ 2 ^ 127 }
        ensures { result ≡ with_made self object end usage }
    {
        let padded = object.span.len();
        let asked = u128::from(object.size);
        Totals {
            made: self.made.saturating_add(1),
            inexact: self.inexact.saturating_add(u64::from(padded != asked)),
            made_asked: self.made_asked.saturating_add(asked),
            made_padded: self.made_padded.saturating_add(padded),
            high: self.high.max(end),
            ..self.with_usage(usage)
        }
    }

    /// Returns the totals with one more sweep, of this number of bytes, and the state after it.
    pub(crate) fn with_sweep(self, bytes: u128, usage: Usage) -> Totals
        requires fits { usage.live + usage.quarantine ≤ 2 ^ 127 }
        requires over_fits { usage.live + bytes ≤ 2 ^ 127 }
        ensures { result ≡ with_sweep self bytes usage }
    {
        Totals {
            sweeps: self.sweeps.saturating_add(1),
            swept: self.swept.saturating_add(bytes),
            swept_over: self.swept_over.saturating_add(usage.live + bytes),
            ..self.with_usage(usage)
        }
    }
}
