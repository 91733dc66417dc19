//! `replay`: the call for the trace of an allocator.
ghost use Rattle.std.specs.Prelude.{◌≡◌, ◌↔◌, ◌∷◌, Some, false, true, Err, IsOk};
ghost use Rattle.cc_heap.specs.declared.reallocation.Reallocation.TheVariants.{Move};
ghost use Rattle.cli.specs.Devices.{FromInput, IsEnd, OnOutput};
ghost use Rattle.cli.specs.Input.{IsFile, file_input, trace_content};
ghost use Rattle.cli.specs.declared.invocation.ReplayOutput.TheVariants.{Script as ScriptOutput};
ghost use Rattle.cli_replay.specs.Outputs.{OnStreams, Samples, Scripts, SumsUp};
ghost use Rattle.cli_replay.specs.ReplayValues.{replay_in};
ghost use Rattle.cli_replay.specs.Replaying.{IsStreaming, ReplaysTrace, WithReplay};
ghost use Rattle.cli_replay.specs.Settings.{IsForHeap};

use crate::charting::Charting;
use crate::memory::TraceMemory;
use crate::replay_values::{ReplayRequest, replay_of};
use crate::takers::{TracePrinter, TraceTaker};
use cc_io::{Sink, Source, Summary, write_refusal};
use cc_machine::GapPlacer;
use cc_replay::{Replay, ReplayGroup, Script};
use cli::{Content, Discard, Fault, Inputs, ReplayOutput, ReplayValues, file_input};

/// Replays the trace that FILE names on a heap with exact bounds, and writes its output: the summary, or in
/// place of it the table of sizes (`--sizes`), the chart (`--svg`), the script (`--script`) or the series
/// (`--each`). Two of these together are refused. With several policies the output is the table of their
/// summaries, from one reading of the trace.
///
/// The values are read first. If one is refused, the output is that refusal, and nothing is read. The program has
/// checked them before, and does not keep what it read, which only this crate has a type for.
///
/// The summary of the result has an error if a line of the trace is refused. With `--strict`, nothing is read
/// after the chunk of the first refused line, and in any case nothing after the chunk in which a script ends or
/// an allocation fails: no clause says so, and `tests/program` shows it.
///
/// Requires: no device has failed.
/// Errors: `Memory` if an allocation fails, and without `--each` and `--script` nothing was written then;
/// `Open` if the input cannot be opened, and nothing was written then; `Read` if a read fails; `Write` if and
/// only if the sink failed.
pub fn replay_file<M: TraceMemory, I: Inputs, W: Sink>(
    memory: &mut M,
    values: ReplayValues<'_>,
    inputs: &mut I,
    source: &mut I::Opened,
    file: Option<&str>,
    sink: &mut W,
) -> Result<Summary, Fault>
    requires memory { M.has_failed memory.old ≡ false }
    requires source { (I.Opened.state source.old).has_failed ≡ false }
    requires inputs { I.has_refused inputs.old ≡ false }
    requires sink { (W.state sink.old).has_failed ≡ false }
    ensures replays { OnOutput (I.bytes_of inputs.old) (I.Opened.state source.new) (W.state sink.old) (W.state sink.new)
        (λ console. WithReplay values.entry console
        (λ request. FromInput (file_input file.entry) console (ReplaysTrace request))) result }
    ensures memory { result ≡ Err Fault.Memory → IsOk (replay_in values.entry) }
    ensures open { result ≡ Err Fault.Open → IsFile (file_input file.entry) }
    ensures starved { ¬ IsStreaming values.entry.output → result ≡ Err Fault.Memory
        → (W.state sink.new).taken ≡ (W.state sink.old).taken }
    ensures asked { (before : _) → I.requested inputs.old before ≡ true
        → I.requested inputs.new ((file_input file.entry, trace_content values.entry.output) ∷ before) ≡ false
        → (inputs.new ≡ inputs.old) × (source.new ≡ source.old) }
    ensures unused { ¬ IsOk (replay_in values.entry) → (inputs.new ≡ inputs.old)
        × (source.new ≡ source.old) }
    ensures allocates { (result ≡ Err Fault.Memory) ↔ (M.has_failed memory.new ≡ true) }
    ensures end { IsEnd (I.has_refused inputs.new) (I.Opened.state source.new) (W.state sink.old) (W.state sink.new)
        result }
{
    match replay_of(values) {
        Ok(request) => {
            inputs.open(file_input(file), content_of(request.output), source)?;
            replay_source(memory, &request, source, sink)
        }
        Err(refusal) => Ok(write_refusal(refusal, sink)?),
    }
}

/// Returns the content of a trace, by its output.
fn content_of(output: ReplayOutput<'_>) -> Content
    ensures { result ≡ trace_content (Some output.entry) }
{
    match output {
        ReplayOutput::Script => Content::TraceForScript,
        _ => Content::Trace,
    }
}

/// Replays the trace of a source, and writes its output.
// not inlined, so that other commands do not touch the pages of its buffers on the stack
#[inline(never)]
fn replay_source<M: TraceMemory, S: Source, W: Sink>(
    memory: &mut M,
    request: &ReplayRequest<'_>,
    source: &mut S,
    sink: &mut W,
) -> Result<Summary, Fault>
    requires settings { IsForHeap request.now.settings }
    requires moves { request.now.output ≡ ScriptOutput → request.now.settings.realloc ≡ Move }
    requires memory { M.has_failed memory.old ≡ false }
    requires source { (S.state source.old).has_failed ≡ false }
    requires sink { (W.state sink.old).has_failed ≡ false }
    ensures replays { OnStreams (S.state source.old) (S.state source.new) (W.state sink.old) (W.state sink.new)
        (ReplaysTrace request.now) result }
    ensures starved { ¬ IsStreaming (Some request.now.output) → result ≡ Err Fault.Memory
        → (W.state sink.new).taken ≡ (W.state sink.old).taken }
    ensures allocates { (result ≡ Err Fault.Memory) ↔ (M.has_failed memory.new ≡ true) }
    ensures end { IsEnd false (S.state source.new) (W.state sink.old) (W.state sink.new) result }
{
    match request.output {
        ReplayOutput::Chart => {
            write_at_end::<Charting<GapPlacer>, M, S, W>(memory, request, source, sink)
        }
        ReplayOutput::Script => {
            write_script::<Script<GapPlacer>, M, S, W>(memory, request, source, sink)
        }
        ReplayOutput::Series(_) => {
            write_series::<Replay<GapPlacer>, M, S, W>(memory, request, source, sink)
        }
        ReplayOutput::Sizes(_) => {
            write_at_end::<Replay<GapPlacer>, M, S, W>(memory, request, source, sink)
        }
        ReplayOutput::Summary(_) => {
            if request.others.as_slice().is_empty() {
                return write_at_end::<Replay<GapPlacer>, M, S, W>(memory, request, source, sink);
            }
            write_at_end::<ReplayGroup<GapPlacer>, M, S, W>(memory, request, source, sink)
        }
    }
}

/// Takes a trace, and writes its output at the end.
fn write_at_end<T: TracePrinter, M: TraceMemory, S: Source, W: Sink>(
    memory: &mut M,
    request: &ReplayRequest<'_>,
    source: &mut S,
    sink: &mut W,
) -> Result<Summary, Fault>
    requires settings { T.IsFor request.now.settings }
    requires memory { M.has_failed memory.old ≡ false }
    requires source { (S.state source.old).has_failed ≡ false }
    requires sink { (W.state sink.old).has_failed ≡ false }
    ensures sums_up { OnStreams (S.state source.old) (S.state source.new) (W.state sink.old) (W.state sink.new)
        (SumsUp (T.Takes (T.begun request.now)) T.ran_out (T.text request.now)) result }
    ensures starved { result ≡ Err Fault.Memory → (W.state sink.new).taken ≡ (W.state sink.old).taken }
    ensures allocates { (result ≡ Err Fault.Memory) ↔ (M.has_failed memory.new ≡ true) }
    ensures end { IsEnd false (S.state source.new) (W.state sink.old) (W.state sink.new) result }
{
    let mut taker: T = memory.begin(request)?;
    // without a series, a taker writes nothing before the end of the trace
    let summary = taker.take(source, &mut Discard)?;
    memory.fail_if(taker.has_run_out())?;
    taker.write_end(request, sink)?;
    Ok(summary)
}

/// Takes a trace, and writes its series.
fn write_series<T: TracePrinter, M: TraceMemory, S: Source, W: Sink>(
    memory: &mut M,
    request: &ReplayRequest<'_>,
    source: &mut S,
    sink: &mut W,
) -> Result<Summary, Fault>
    requires settings { T.IsFor request.now.settings }
    requires memory { M.has_failed memory.old ≡ false }
    requires source { (S.state source.old).has_failed ≡ false }
    requires sink { (W.state sink.old).has_failed ≡ false }
    ensures samples { OnStreams (S.state source.old) (S.state source.new) (W.state sink.old) (W.state sink.new)
        (Samples (T.Takes (T.begun request.now)) T.ran_out (T.text request.now)) result }
    ensures allocates { (result ≡ Err Fault.Memory) ↔ (M.has_failed memory.new ≡ true) }
    ensures end { IsEnd false (S.state source.new) (W.state sink.old) (W.state sink.new) result }
{
    let mut taker: T = memory.begin(request)?;
    let summary = taker.take(source, sink)?;
    memory.fail_if(taker.has_run_out())?;
    taker.write_end(request, sink)?;
    Ok(summary)
}

/// Takes a trace, and writes its script.
fn write_script<T: TraceTaker, M: TraceMemory, S: Source, W: Sink>(
    memory: &mut M,
    request: &ReplayRequest<'_>,
    source: &mut S,
    sink: &mut W,
) -> Result<Summary, Fault>
    requires settings { T.IsFor request.now.settings }
    requires memory { M.has_failed memory.old ≡ false }
    requires source { (S.state source.old).has_failed ≡ false }
    requires sink { (W.state sink.old).has_failed ≡ false }
    ensures scripts { OnStreams (S.state source.old) (S.state source.new) (W.state sink.old) (W.state sink.new)
        (Scripts (T.Takes (T.begun request.now)) T.ran_out) result }
    ensures allocates { (result ≡ Err Fault.Memory) ↔ (M.has_failed memory.new ≡ true) }
    ensures end { IsEnd false (S.state source.new) (W.state sink.old) (W.state sink.new) result }
{
    let mut taker: T = memory.begin(request)?;
    let summary = taker.take(source, sink)?;
    memory.fail_if(taker.has_run_out())?;
    Ok(summary)
}
