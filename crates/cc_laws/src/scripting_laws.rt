//! The law of scripts.
ghost use Rattle.std.specs.Prelude.{◌≢◌, ℕ, Bool, List, None};
ghost use Rattle.cc_io.specs.Answers.{Output};
ghost use Rattle.cc_io.specs.Frames.{lines};
ghost use Rattle.cc_io.specs.Lines.{lines_of};
ghost use Rattle.cc_heap.specs.declared.settings.Settings.{Settings};
ghost use Rattle.cc_replay.specs.Replay.{events_in};
ghost use Rattle.cc_replay.specs.declared.reading.Progress.TheVariants.{OutOfMemory};
ghost use Rattle.cc_replay.specs.declared.reading.Reading.{Reading};
ghost use Rattle.cc_replay.specs.Script.{ScriptState, ScriptsLine, ScriptsRest, script_begun};
ghost use Rattle.cc_laws.specs.Translation.{HasScript};

/// Proves that the output for a trace is the script of the trace's own events, if memory did not run out.
///
/// These are the first events of the trace's lines, and all of them if lines are still taken at the end.
/// Each has changes that lead from the heap before it to the heap after it, and the output is the lines of
/// the operations of all these changes, in order. It holds whatever the trace is and wherever it ends.
/// `Output` is the relation between an input and its output that
/// [`script_trace`](cc_replay::script_trace) states by `Pumps`.
pub fn outputs_are_scripts()
    ensures { (settings : Settings) (reading : Reading) (new : ScriptState) (text output : List ℕ) (any_error : Bool)
        → Output ScriptsLine ScriptsRest lines (script_begun settings reading) text output any_error new
        → new.progress ≢ OutOfMemory
        → HasScript settings (events_in reading.format None (lines_of text)) new.progress output new.heap }
{}
