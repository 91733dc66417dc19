//! The law of the charts of traces.
ghost use Rattle.std.specs.Prelude.{◌≢◌, ◌<◌, ◌^◌, ℕ, Bool, List, None, length};
ghost use Rattle.cc_io.specs.Answers.{Output};
ghost use Rattle.cc_io.specs.Frames.{lines};
ghost use Rattle.cc_io.specs.Lines.{lines_of};
ghost use Rattle.cc_heap.specs.Heap.{empty_heap};
ghost use Rattle.cc_heap.specs.declared.settings.Settings.{Settings};
ghost use Rattle.cc_replay.specs.Replay.{events_in};
ghost use Rattle.cc_replay.specs.declared.reading.Progress.TheVariants.{OutOfMemory};
ghost use Rattle.cc_replay.specs.declared.reading.Reading.{Reading};
ghost use Rattle.cc_laws.specs.ChartedRun.{ShowsRun};
ghost use Rattle.cli_replay.specs.Charting.{Charted, ChartsLine, ChartsRest, begun_chart};

/// Proves that the chart of a replay shows the trace's own events, in order, if memory did not run out.
///
/// These are the first events of the trace's lines, and all of them if lines are still taken at the end.
/// The levels of an event are the largest over its states and the heap after it. The trace has fewer than
/// 2^64 events. `Output` is the relation between an input and its output that `Charts` states by `Pumps`.
pub fn charts_are_of_all_events()
    ensures { (settings : Settings) (reading : Reading) (text output : List ℕ) (any_error : Bool) (new : Charted)
        → Output ChartsLine ChartsRest lines (begun_chart settings reading) text output any_error new
        → new.replay.progress ≢ OutOfMemory → length (events_in reading.format None (lines_of text)) < 2 ^ 64
        → ShowsRun (empty_heap settings) (events_in reading.format None (lines_of text)) new }
{}

/// Proves that every trace has a chart: from a heap that held nothing, its lines can be taken without
/// running out of memory.
pub fn every_trace_has_a_chart()
    ensures { (settings : Settings) (reading : Reading) (text : List ℕ)
        → (output : List ℕ) × (any_error : Bool) × (new : Charted)
        × Output ChartsLine ChartsRest lines (begun_chart settings reading) text output any_error new
        × (new.replay.progress ≢ OutOfMemory) }
{}
