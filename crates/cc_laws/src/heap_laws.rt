//! Laws of the runs of a heap.
ghost use Rattle.std.specs.Prelude.{List, ◌≡◌};
ghost use Rattle.cc_heap.specs.declared.event.Event.{Event};
ghost use Rattle.cc_heap.specs.declared.outcome.Outcome.{Outcome};
ghost use Rattle.cc_heap.specs.declared.settings.Settings.{Settings};
ghost use Rattle.cc_heap.specs.Events.{IsEvent};
ghost use Rattle.cc_heap.specs.Heap.{Heap, empty_heap};
ghost use Rattle.cc_heap.specs.Lost.{HasSizes, IsRunEvent, RunState, RunsNoting, empty_run};
ghost use Rattle.cc_heap.specs.Peaks.{HasPeaks, without_peaks};
ghost use Rattle.cc_heap.specs.Run.{HasTotals, Runs};
ghost use Rattle.cc_laws.specs.IgnoresPeaks.{IgnoresPeaks};
ghost use Rattle.cc_laws.specs.OneOutcome.{AreAlike, AreAlikeRuns};

/// Proves that the totals of a heap are numbers of all states that it has passed, for every list of
/// events from a heap that held nothing.
///
/// Each peak is the largest value over these states, and each count and sum of objects or sweeps is
/// one over all of them, up to the largest number that is kept.
pub fn totals_are_of_all_states()
    ensures { (settings : Settings) (events : List Event) (heap : Heap)
        → Runs (empty_heap settings) events heap → HasTotals events heap }
{}

/// Proves that the rows of the sizes of a run are numbers of all states that its heap has passed, for
/// every list of events from a heap that held nothing.
///
/// The row of a power of two has the counts and sums over the objects that were made whose sizes are at
/// least the power, and below the next, up to the largest number that is kept.
pub fn sizes_are_of_all_objects()
    ensures { (settings : Settings) (events : List Event) (run : RunState)
        → RunsNoting (empty_run settings) events run → HasSizes events run }
{}

/// Proves that the peaks of a heap after an event, if they were forgotten before it, are the largest
/// values over the states of that event.
pub fn peaks_are_of_an_event()
    ensures { (old : Heap) (event : Event) (outcome : Outcome) (new : Heap)
        → IsEvent (without_peaks old) event outcome new → HasPeaks old new }
{}

/// Proves that no event depends on the peaks of bytes before it: if they are forgotten, the event has the
/// same outcome, and the heap after it differs by its peaks of bytes alone.
pub fn events_ignore_peaks()
    ensures { (old : Heap) (event : Event) (outcome : Outcome) (new : Heap)
        → IsEvent old event outcome new → IgnoresPeaks old event outcome new }
{}

/// Proves that every event of a trace has an outcome, and so every trace has a summary: from a heap
/// that held nothing, every list of events leads to a heap, and from that heap every event to another.
///
/// By [`one_summary`] it leads to no other heap than that one.
pub fn every_trace_has_a_summary()
    ensures event { (settings : Settings) (events : List Event) (old : Heap) (event : Event)
        → Runs (empty_heap settings) events old → (outcome : Outcome) × (new : Heap) × IsEvent old event outcome new }
    ensures trace { (settings : Settings) (events : List Event)
        → (run : RunState) × RunsNoting (empty_run settings) events run }
{}

/// Proves that a trace has one outcome for each event, and one summary. From a heap that held nothing,
/// the same events lead to heaps that differ at most in the order of their live objects: with the same
/// settings, the same quarantine and the same totals.
///
/// A run that notes lost ids has the same outcome for each event too, the same lost ids, and the same
/// numbers of objects by their sizes.
pub fn one_summary()
    ensures outcome { (settings : Settings) (events : List Event) (old other new another : Heap) (event : Event)
        (outcome told : Outcome)
        → Runs (empty_heap settings) events old → Runs (empty_heap settings) events other
        → IsEvent old event outcome new → IsEvent other event told another → (told ≡ outcome) × AreAlike new another }
    ensures heap { (settings : Settings) (events : List Event) (one other : Heap)
        → Runs (empty_heap settings) events one → Runs (empty_heap settings) events other → AreAlike one other }
    ensures noting { (settings : Settings) (events : List Event) (old other new another : RunState) (event : Event)
        (outcome told : Outcome)
        → RunsNoting (empty_run settings) events old → RunsNoting (empty_run settings) events other
        → IsRunEvent old event outcome new → IsRunEvent other event told another → (told ≡ outcome)
        × AreAlikeRuns new another }
    ensures run { (settings : Settings) (events : List Event) (one other : RunState)
        → RunsNoting (empty_run settings) events one → RunsNoting (empty_run settings) events other
        → AreAlikeRuns one other }
{}
