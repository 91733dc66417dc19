//! The laws of replays.
ghost use Rattle.std.specs.Prelude.{◌≡◌, ◌≢◌, ℕ, Bool, false, List, Ok, Some};
ghost use Rattle.cc_io.specs.Answers.{Output};
ghost use Rattle.cc_io.specs.Frames.{lines};
ghost use Rattle.cc_io.specs.Lines.{lines_of};
ghost use Rattle.cc_heap.specs.declared.event.Event.{Event};
ghost use Rattle.cc_heap.specs.Alignment.{HasAlignment};
ghost use Rattle.cc_heap.specs.Lost.{RunsNoting, empty_run};
ghost use Rattle.cc_heap.specs.declared.settings.Settings.{Settings};
ghost use Rattle.cc_replay.specs.declared.reading.Reading.{Reading};
ghost use Rattle.cc_replay.specs.Replay.{ReplayState, TakesLine, TakesRest, begun, events_in};
ghost use Rattle.cc_replay.specs.Trace.{HasNumbersInRange, entry_of, event_text};
ghost use Rattle.cc_heap.specs.Run.{Runs};
ghost use Rattle.cc_replay.specs.declared.reading.Progress.TheVariants.{Running, OutOfMemory};
ghost use Rattle.cc_laws.specs.OneOutcome.{AreAlikeReplays};

/// Proves that a replay has the events of the trace's lines happen to its heap, in order, and nothing
/// else, if lines are still taken at its end. The ids that are lost are noted after each event.
///
/// `Output` is the relation between an input and its output that [`replay_trace`](cc_replay::replay_trace) states by
/// `Pumps`. So the totals of a whole replay are numbers of all states that the heap has passed.
pub fn replays_are_runs()
    ensures heap { (old new : ReplayState) (text output : List ℕ) (any_error : Bool)
        → Output TakesLine TakesRest lines old text output any_error new → new.progress ≡ Running
        → Runs old.run.heap (events_in old.reading.format old.pending (lines_of text)) new.run.heap }
    ensures lost { (old new : ReplayState) (text output : List ℕ) (any_error : Bool)
        → Output TakesLine TakesRest lines old text output any_error new → new.progress ≡ Running
        → RunsNoting old.run (events_in old.reading.format old.pending (lines_of text)) new.run }
{}

/// Proves that a trace has one replay. Two replays of it from a heap that held nothing, neither of which
/// ran out of memory, have the same series, and the same figures, of which a summary consists. Every
/// trace has such a replay; unless it is strict, lines are still taken at its end.
///
/// `Output` is the relation between an input and its output that [`replay_trace`](cc_replay::replay_trace)
/// states by `Pumps`. The output is the series. Only the order of live objects can differ.
pub fn one_replay()
    ensures same { (settings : Settings) (reading : Reading) (text output told : List ℕ) (any_error is_told : Bool)
        (new another : ReplayState)
        → Output TakesLine TakesRest lines (begun (empty_run settings) reading) text output any_error new
        → Output TakesLine TakesRest lines (begun (empty_run settings) reading) text told is_told another
        → new.progress ≢ OutOfMemory → another.progress ≢ OutOfMemory
        → (told ≡ output) × (is_told ≡ any_error) × AreAlikeReplays new another }
    ensures some { (settings : Settings) (reading : Reading) (text : List ℕ)
        → (output : List ℕ) × (any_error : Bool) × (new : ReplayState)
        × Output TakesLine TakesRest lines (begun (empty_run settings) reading) text output any_error new
        × (new.progress ≢ OutOfMemory) × (reading.is_strict ≡ false → new.progress ≡ Running) }
{}

/// Proves that every event is the event of its line in the own format: its name and its numbers in
/// decimal, with a space between.
///
/// So no two events have one line, and the format can give each event. Its numbers are below 2^64,
/// and its alignment is a power of two.
pub fn events_are_read_back()
    ensures { (event : Event) → HasAlignment event → HasNumbersInRange event
        → entry_of (event_text event) ≡ Ok (Some event) }
{}
