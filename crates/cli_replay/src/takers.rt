//! Takers of the lines of a trace.
ghost use Rattle.std.specs.Prelude.{◌≡◌, ℕ, Bool, List, Option, Result, IfOk, Err, OnErr, false};
ghost use Rattle.cc_io.specs.Devices.{IsOutcome, SendsBytes};
ghost use Rattle.cc_io.specs.declared.summary.IoError.{IoError as IoErrorSpec};
ghost use Rattle.cc_io.specs.declared.summary.Summary.{Summary as SummarySpec};
ghost use Rattle.cc_replay.specs.Reading.{is_over, ran_out};
ghost use Rattle.cc_heap.specs.declared.settings.Settings.{Settings as SettingsSpec};
ghost use Rattle.cc_heap.specs.Lost.{empty_run};
ghost use Rattle.cc_replay.specs.Group.{any_ran_out, are_over, begun_group};
ghost use Rattle.cc_replay.specs.Replay.{begun};
ghost use Rattle.cc_replay.specs.Script.{script_begun};
ghost use Rattle.cli_replay.specs.Replaying.{GroupReplays, Replays, Writes};
ghost use Rattle.cli_replay.specs.Replaying.{format_of, group_text, replay_text, table_format};
ghost use Rattle.cli_replay.specs.Settings.{IsForHeap, IsForScript};
ghost use Rattle.cli_replay.specs.declared.replay_values.ReplayRequest.{ReplayRequest as RequestSpec};

use crate::replay_values::ReplayRequest;
use cc_io::{IoError, Lines, Pending, Sink, Source, Summary, pump};
use cc_placer::Placer;
use cc_replay::{
    Format, Replay, ReplayGroup, Script, replay_trace, script_trace, write_sizes, write_summary,
};
use cli::{ReplayOutput, SummaryFormat};
use std::alloc::{AllocError, Global};

/// A taker of the lines of a trace, on one heap or on several.
pub trait TraceTaker: Drop {
    // A heap can have these settings.
    ghost IsFor: { SettingsSpec → Type 0 };

    // The taker before the first line of a trace, with the requested heap or heaps.
    ghost begun: { RequestSpec → Self };

    // The taker took the lines that a source gave, as `Taking` says.
    ghost Takes: { Self → Option (List ℕ) → Option (List ℕ) → Option (List ℕ) → Option (List ℕ)
        → Result SummarySpec IoErrorSpec → Self → Type 0 };

    // No further line is taken.
    ghost is_over: { Self → Bool };

    // Memory ran out in an event.
    ghost ran_out: { Self → Bool };

    /// Creates a taker before the first line of a trace.
    ///
    /// Errors: `AllocError` if an allocation fails.
    fn begin(alloc: Global, request: &ReplayRequest<'_>) -> Result<Self, AllocError>
        requires settings { IsFor request.now.settings }
        ensures begins { IfOk result (λ taker. taker ≡ begun request.now) }
        ensures goes_on { IfOk result (λ taker. is_over taker ≡ false) };

    /// Takes the lines that the source gives, and writes to the sink what it writes while lines are taken.
    ///
    /// Requires: neither the source nor the sink has failed, and lines are taken.
    /// Errors: `Read` if and only if the source failed, and `Write` if and only if the sink failed.
    fn take<S: Source, W: Sink>(&mut self, source: &mut S, sink: &mut W) -> Result<Summary, IoError>
        requires source { (S.state source.old).has_failed ≡ false }
        requires sink { (W.state sink.old).has_failed ≡ false }
        requires goes_on { is_over self.old ≡ false }
        ensures takes { Takes self.old (S.state source.old).unread (S.state source.new).unread
            (W.state sink.old).taken (W.state sink.new).taken result self.new }
        ensures outcome { IsOutcome (S.state source.new) (W.state sink.new) result };

    /// Returns whether memory ran out in an event.
    fn has_run_out(&self) -> bool
        ensures { result ≡ ran_out self.now };
}

/// A taker of a trace that has a text at the end.
pub trait TracePrinter: TraceTaker {
    // The text at the end.
    ghost text: { RequestSpec → Self → List ℕ };

    /// Writes the text at the end, and flushes the sink.
    ///
    /// Requires: the sink has not failed.
    /// Errors: `Write` if the sink fails. A prefix of the text is then written.
    fn write_end<W: Sink>(&self, request: &ReplayRequest<'_>, sink: &mut W) -> Result<(), IoError>
        requires { (W.state sink.old).has_failed ≡ false }
        ensures sends { SendsBytes (W.state sink.old) (W.state sink.new) (text request.now self.now) result }
        ensures write { OnErr result (result ≡ Err IoError.Write) };
}

impl<P: Placer> TraceTaker for Replay<P> {
    ghost IsFor = { IsForHeap };

    ghost begun = { λ request. begun (empty_run request.settings) request.reading };

    ghost Takes = { Replays };

    ghost is_over = { λ replay. is_over replay.progress };

    ghost ran_out = { λ replay. ran_out replay.progress };

    fn begin(alloc: Global, request: &ReplayRequest<'_>) -> Result<Self, AllocError> {
        Replay::with_settings(alloc, request.settings, request.reading)
    }

    fn take<S: Source, W: Sink>(
        &mut self,
        source: &mut S,
        sink: &mut W,
    ) -> Result<Summary, IoError> {
        replay_trace(self, source, sink)
    }

    fn has_run_out(&self) -> bool {
        self.progress().is_out_of_memory()
    }
}

impl<P: Placer> TracePrinter for Replay<P> {
    ghost text = { λ request. replay_text request.output };

    fn write_end<W: Sink>(&self, request: &ReplayRequest<'_>, sink: &mut W) -> Result<(), IoError> {
        match request.output {
            ReplayOutput::Summary(format) => {
                write_summary(&self.figures(), table_format(format), sink)
            }
            ReplayOutput::Sizes(format) => {
                write_sizes(self.run().sizes(), table_format(format), sink)
            }
            _ => self.end_series(sink),
        }
    }
}

impl<P: Placer> TraceTaker for ReplayGroup<P> {
    ghost IsFor = { IsForHeap };

    ghost begun = { λ request. begun_group request.settings request.others request.reading };

    ghost Takes = { GroupReplays };

    ghost is_over = { are_over };

    ghost ran_out = { any_ran_out };

    fn begin(alloc: Global, request: &ReplayRequest<'_>) -> Result<Self, AllocError> {
        let others = request.others.as_slice();
        ReplayGroup::with_settings(alloc, request.settings, others, request.reading)
    }

    fn take<S: Source, W: Sink>(
        &mut self,
        source: &mut S,
        sink: &mut W,
    ) -> Result<Summary, IoError> {
        let mut page = Pending::new();
        pump(&Lines, self, source, sink, &mut page)
    }

    fn has_run_out(&self) -> bool {
        self.is_out_of_memory()
    }
}

impl<P: Placer> TracePrinter for ReplayGroup<P> {
    ghost text = { λ request. group_text request.output };

    fn write_end<W: Sink>(&self, request: &ReplayRequest<'_>, sink: &mut W) -> Result<(), IoError> {
        self.write(table_format(format_of(request.output)), sink)
    }
}

impl<P: Placer> TraceTaker for Script<P> {
    ghost IsFor = { IsForScript };

    ghost begun = { λ request. script_begun request.settings request.reading };

    ghost Takes = { Writes };

    ghost is_over = { λ script. is_over script.progress };

    ghost ran_out = { λ script. ran_out script.progress };

    fn begin(alloc: Global, request: &ReplayRequest<'_>) -> Result<Self, AllocError> {
        Script::with_settings(alloc, request.settings, request.reading)
    }

    fn take<S: Source, W: Sink>(
        &mut self,
        source: &mut S,
        sink: &mut W,
    ) -> Result<Summary, IoError> {
        script_trace(self, source, sink)
    }

    fn has_run_out(&self) -> bool {
        self.progress().is_out_of_memory()
    }
}

/// Returns the format of the tables of an output, or text.
fn format_of(output: ReplayOutput<'_>) -> SummaryFormat
    ensures { result ≡ format_of output.entry }
{
    match output {
        ReplayOutput::Summary(format) | ReplayOutput::Sizes(format) => format,
        _ => SummaryFormat::Text,
    }
}

/// Returns the format of a table.
fn table_format(format: SummaryFormat) -> Format
    ensures { result ≡ table_format format }
{
    match format {
        SummaryFormat::Text => Format::Text,
        SummaryFormat::Csv => Format::Csv,
        SummaryFormat::Json => Format::Json,
    }
}
