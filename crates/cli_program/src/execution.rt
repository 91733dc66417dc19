//! Executes a command on given devices.
ghost use Rattle.std.specs.Prelude.{◌≡◌, ◌↔◌, [], false, true, Err, IfSome, Option, List, OnErr};
ghost use Rattle.clap.specs.Words.{Row, Text};
ghost use Rattle.cli.specs.Invocation.{IsInvocation};
ghost use Rattle.cli.specs.Devices.{IsEnd, OnDevices, console_of};
ghost use Rattle.cli.specs.Input.{OpensFile};
ghost use Rattle.cli_program.specs.Execution.{IsUnasked, effect_of};

use crate::maps::map_file;
use crate::memory::RunMemory;
use crate::replay_support::ReplaySupport;
use crate::report::Report;
use crate::runs::{plan_file, run_file};
use crate::terminals::Terminals;
use cc_io::{Sink, Summary};
use cli::{Fault, Inputs, Invocation};
use cli_words::{annotate_file, ask, decode_core_file, decode_file, round_file};

/// Executes a command: reads its input, writes its output to `sink`, and reports a run on `errors`. If standard error
/// is a terminal, each command writes its hints there too.
///
/// BASE and LENGTH of `plan` and `map` and the values of `replay` are read first. If one is refused, the output is that
/// refusal, and nothing is read. The program has refused such values of `replay` before. The machine or the heap is
/// created next, and then the input is opened.
///
/// Requires: the invocation is one that a command line has, no device has failed, and no input was requested.
/// Errors: `Memory`, `Open`, `Read` and `Write`, each if and only if an allocation, the opening of the command's input,
/// a read of it, or the sink failed. Memory is allocated by commands that create a machine or a heap, and for the tags
/// and the core file of `decode`. Nothing is reported then. If the error is `Open`, or if it is `Memory` in `decode`,
/// `map`, or `replay` without `--each` and `--script`, nothing was written to `sink` either.
pub fn execute<M: RunMemory + ReplaySupport, I: Inputs, W: Sink, E: Sink>(
    memory: &mut M,
    invocation: Invocation<'_>,
    terminals: Terminals,
    inputs: &mut I,
    source: &mut I::Opened,
    sink: &mut W,
    errors: &mut E,
) -> Result<Summary, Fault>
    requires invocation { (found : Option (Text × List Row)) × IsInvocation found invocation }
    requires memory { M.has_failed memory.old ≡ false }
    requires source { (I.Opened.state source.old).has_failed ≡ false }
    requires inputs { I.has_refused inputs.old ≡ false }
    requires unasked { I.requested inputs.old [] ≡ true }
    requires sink { (W.state sink.old).has_failed ≡ false }
    requires errors { (E.state errors.old).has_failed ≡ false }
    // The command's bytes are written, and the summary says whether there is an error. At `Ok`, so is
    // the hint of `show`, `round` or `explain`, if there is one and standard error does not fail.
    ensures executes { OnDevices ((effect_of M.replay terminals invocation.entry).Does
        (console_of (I.bytes_of inputs.old) (I.Opened.state source.new) (W.state sink.old) (W.state sink.new)
        (E.state errors.old) (E.state errors.new))) result }
    // If memory runs out in `run` or `plan`, nothing was written, or, with `--stats`, the whole
    // output; in `decode`, in `map`, and in `replay` without `--each` and `--script`, nothing. Only a
    // command that creates a machine or a heap, or reads a file of tags or a core file first, runs
    // out of memory.
    ensures starved { result ≡ Err Fault.Memory → (effect_of M.replay terminals invocation.entry).Starves
        (console_of (I.bytes_of inputs.old) (I.Opened.state source.new) (W.state sink.old) (W.state sink.new)
        (E.state errors.old) (E.state errors.new)) }
    ensures allocates { (result ≡ Err Fault.Memory) ↔ (M.has_failed memory.new ≡ true) }
    // Opening fails only for a FILE that is given and is not `-`, and for a file of tags.
    ensures open { result ≡ Err Fault.Open → IfSome (effect_of M.replay terminals invocation.entry).input
        (λ asked. OpensFile asked.tags asked.input) }
    // The requests are exactly the command's input; with a file of tags, that file and then the input, or that file
    // alone. If they are not, neither inputs nor source changed. A command with refused arguments has no input.
    ensures asked { IsUnasked (effect_of M.replay terminals invocation.entry).input (I.requested inputs.new)
        → (inputs.new ≡ inputs.old) × (source.new ≡ source.old) }
    ensures unreported { OnErr result ((E.state errors.new).taken ≡ (E.state errors.old).taken) }
    // Other commands than those that can report write nothing to standard error.
    ensures silent { ¬ (effect_of M.replay terminals invocation.entry).Reports → errors.new ≡ errors.old }
    ensures end { IsEnd (I.has_refused inputs.new) (I.Opened.state source.new) (W.state sink.old) (W.state sink.new)
        result }
{
    match invocation {
        Invocation::Ask(question) => ask(question, terminals.errors, sink, errors),
        Invocation::Run { limit, stats, file } => {
            let report = Report::new(stats, terminals);
            run_file(memory, limit, report, inputs, source, file, sink, errors)
        }
        Invocation::Plan {
            limit,
            pool,
            align,
            stats,
            file,
        } => {
            let report = Report::new(stats, terminals);
            plan_file(
                memory, limit, pool, align, report, inputs, source, file, sink, errors,
            )
        }
        Invocation::Map {
            limit,
            pool,
            align,
            svg,
            file,
        } => map_file(memory, limit, pool, align, svg, inputs, source, file, sink),
        // in the program `cheri_cap`, this is `cli_replay::replay_file`
        Invocation::Replay { values, file } => {
            memory.replay_file(values, inputs, source, file, sink)
        }
        Invocation::Decode {
            input,
            format,
            values,
            file,
        } => {
            decode_file(
                memory,
                input,
                format,
                values,
                terminals.errors,
                inputs,
                source,
                file,
                sink,
                errors,
            )
        }
        Invocation::DecodeCore {
            format,
            search,
            file,
        } => decode_core_file(memory, format, search, inputs, source, file, sink),
        Invocation::Annotate { file } => annotate_file(inputs, source, file, sink),
        Invocation::RoundList { base, file } => {
            round_file(
                base,
                terminals.errors,
                inputs,
                source,
                Some(file),
                sink,
                errors,
            )
        }
    }
}
