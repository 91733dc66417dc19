//! Proves that no claim of the laws of heaps holds for everything: heaps, or runs, break it. Each
//! function here does nothing, and its contract is the claim.
ghost use Rattle.std.specs.Prelude.{ℕ, true, false, [], ◌∷◌, None};
ghost use Rattle.cc_heap.specs.declared.event.Event.TheVariants.{Clock};
ghost use Rattle.cc_heap.specs.declared.object.Object.{Object};
ghost use Rattle.cc_heap.specs.declared.outcome.Outcome.{Outcome};
ghost use Rattle.cc_heap.specs.declared.settings.Settings.{Settings};
ghost use Rattle.cc_heap.specs.Events.{outcome_of};
ghost use Rattle.cc_heap.specs.Heap.{Heap, empty_heap, no_totals, swept_heap};
ghost use Rattle.cc_heap.specs.Lost.{HasSizes, RunsNoting, empty_run};
ghost use Rattle.cc_heap.specs.Peaks.{HasPeaks};
ghost use Rattle.cc_heap.specs.Run.{HasTotals};
ghost use Rattle.cc_heap.specs.Sizes.{no_objects};
ghost use Rattle.cc_laws.specs.IgnoresPeaks.{IgnoresPeaks};
ghost use Rattle.cc_laws.specs.OneOutcome.{AreAlike, AreAlikeRuns};

/// A sweep that no event did, an object that none made, and live bytes above the held ones.
fn numbers_of_other_states()
    ensures totals { (settings : Settings)
        → ¬ HasTotals (Clock 0 ∷ []) (record (empty_heap settings) { totals = record no_totals { sweeps = 1 } }) }
    ensures sizes { (settings : Settings)
        → ¬ HasSizes [] (record (empty_run settings) { sizes = record no_objects { made = 1 } ∷ [] }) }
    ensures peaks { (settings : Settings) (old : Heap)
        → ¬ HasPeaks old (record (empty_heap settings) { totals = record no_totals { peak_live = 1 } }) }
{}

/// A sweep, and an id that was live, which the event does not report, and an id that no event lost.
fn outcomes_of_another_event()
    ensures heap { (settings : Settings) (time : ℕ) (outcome : Outcome)
        → ¬ IgnoresPeaks (empty_heap settings) (Clock time) outcome
        (record (empty_heap settings) { totals = record no_totals { sweeps = 1 } }) }
    ensures outcome { (old new : Heap) (time : ℕ) → ¬ IgnoresPeaks old (Clock time) (outcome_of true false None) new }
    ensures run { (settings : Settings) → ¬ RunsNoting (empty_run settings) []
        (record (empty_run settings) { lost = 1 ∷ [] }) }
{}

/// Two live objects in either order, a live object too many, a sweep too many, and an id that is lost
/// in one run alone.
fn heaps_that_are_not_alike()
    ensures order { (settings : Settings) (one other : Object) → AreAlike
        (record (empty_heap settings) { memory = record { live = (1, one) ∷ (2, other) ∷ []; quarantined = [] } })
        (record (empty_heap settings) { memory = record { live = (2, other) ∷ (1, one) ∷ []; quarantined = [] } }) }
    ensures live { (settings : Settings) (one : Object) → ¬ AreAlike (empty_heap settings)
        (record (empty_heap settings) { memory = record { live = (1, one) ∷ []; quarantined = [] } }) }
    ensures totals { (settings : Settings) → ¬ AreAlike (empty_heap settings) (swept_heap (empty_heap settings)) }
    ensures lost { (settings : Settings) → ¬ AreAlikeRuns (empty_run settings)
        (record (empty_run settings) { lost = 1 ∷ [] }) }
{}
