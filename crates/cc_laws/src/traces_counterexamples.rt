//! Proves that no claim of the laws of charts and of scripts of traces holds for everything. Each
//! function here does nothing, and its contract is the claim.
ghost use Rattle.std.specs.Prelude.{ℕ, ◌≡◌, ◌<◌, [], ◌∷◌};
ghost use Rattle.cc_word.specs.declared.refusal.Refusal.{Refusal};
ghost use Rattle.cc_bounds.specs.Span.{span_from};
ghost use Rattle.cc_values.specs.declared.reply.Reply.TheVariants.{Allocated, Refused};
ghost use Rattle.cc_machine.specs.State.{State};
ghost use Rattle.cc_heap.specs.declared.event.Event.TheVariants.{Clock};
ghost use Rattle.cc_heap.specs.declared.levels.Levels.{Levels};
ghost use Rattle.cc_heap.specs.Chart.{IsChartOf, no_chart};
ghost use Rattle.cc_heap.specs.Levels.{no_levels};
ghost use Rattle.cc_replay.specs.declared.reading.Progress.TheVariants.{Running};
ghost use Rattle.cc_replay.specs.declared.reading.Reading.{Reading};
ghost use Rattle.cc_heap.specs.declared.settings.Settings.{Settings};
ghost use Rattle.cc_heap.specs.Heap.{Heap, empty_heap, no_totals};
ghost use Rattle.cc_heap.specs.Lost.{empty_run};
ghost use Rattle.cc_replay.specs.Replay.{begun};
ghost use Rattle.cc_replay.specs.Changes.{AreChangesOf};
ghost use Rattle.cc_replay.specs.Changes.Change.{Sweep};
ghost use Rattle.cli_replay.specs.Charting.{begun_chart};
ghost use Rattle.cc_laws.specs.ChartedRun.{HasLevels, RunsWithLevels, ShowsRun};
ghost use Rattle.cc_laws.specs.OneOutcome.{AreAlikeReplays};
ghost use Rattle.cc_laws.specs.Translation.{HasScript, IsFollowed, IsReadAs, IsTranslated, PlacesAlike};
ghost use Rattle.cc_laws.specs.Witnesses.{with_first_object};

/// An event that is in no column, and a column that has other levels than its event.
fn charts_of_other_events()
    ensures event { (levels : Levels) → ¬ IsChartOf (levels ∷ []) no_chart }
    ensures levels { (levels : Levels) → 0 < levels.live
        → ¬ IsChartOf (levels ∷ []) (record no_chart { columns = no_levels ∷ [] }) }
    ensures run { (settings : Settings) (reading : Reading) (time : ℕ)
        → ¬ ShowsRun (empty_heap settings) (Clock time ∷ []) (begun_chart settings reading) }
{}

/// A high-water mark above that of the heap, quarantined bytes that the levels lack, and levels of no
/// event.
fn levels_of_other_events()
    ensures high { (settings : Settings) (levels : Levels) → 0 < levels.high
        → ¬ HasLevels (empty_heap settings) (empty_heap settings) levels }
    ensures quarantine { (settings : Settings) (old : Heap) (levels : Levels) → levels.quarantine ≡ 0 → ¬ HasLevels old
        (record (empty_heap settings) { memory = record { live = []; quarantined = span_from 0 16 ∷ [] } }) levels }
    ensures event { (old new : Heap) (levels : Levels) → ¬ RunsWithLevels old [] (levels ∷ []) new }
{}

/// Replays that differ in their time.
fn replays_that_are_not_alike()
    ensures { (settings : Settings) (reading : Reading) → ¬ AreAlikeReplays (begun (empty_run settings) reading)
        (record (begun (empty_run settings) reading) { time = 1 }) }
{}

/// Sweeps that no event did, and a machine that holds an object already.
fn changes_of_other_events()
    ensures changes { (settings : Settings) → ¬ AreChangesOf (empty_heap settings) [] (Sweep ∷ [])
        (empty_heap settings) }
    ensures heap { (settings : Settings) (opened : State) → ¬ IsTranslated settings []
        (record (empty_heap settings) { totals = record no_totals { sweeps = 1 } }) opened }
    ensures machine { (settings : Settings) → ¬ IsTranslated settings [] (empty_heap settings) with_first_object }
{}

/// A line that no event has, a line and a byte that no operation has, and a script of no line for a machine that
/// holds an object already.
fn scripts_of_other_events()
    ensures line { (settings : Settings) → ¬ HasScript settings [] Running (10 ∷ []) (empty_heap settings) }
    ensures read { ¬ IsReadAs (10 ∷ []) [] }
    ensures rest { ¬ IsReadAs (120 ∷ []) [] }
    ensures machine { (settings : Settings) → ¬ IsFollowed settings [] Running [] (empty_heap settings)
        with_first_object }
{}

/// A reply that refuses, an object that the heap does not make, and an object that it does not hold.
fn machines_that_place_otherwise()
    ensures accepted { (heap : Heap) (state : State) (refusal : Refusal)
        → ¬ PlacesAlike [] heap (Refused refusal ∷ []) state }
    ensures spans { (heap : Heap) (state : State) → ¬ PlacesAlike [] heap (Allocated 1 1 0 (span_from 0 16) 16 ∷ [])
        state }
    ensures held { (settings : Settings) → ¬ PlacesAlike [] (empty_heap settings) [] with_first_object }
{}
