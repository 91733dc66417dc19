//! How a program executes the command `replay`, if it has it.
ghost use Rattle.std.specs.Prelude.{◌≡◌, ◌↔◌, [], Err, IfOk, IfSome, MatchResult, false, true};
ghost use Rattle.clap.specs.Words.{FailsBy, kind_of};
ghost use Rattle.cc_io.specs.Devices.{OutputState};
ghost use Rattle.cli.specs.Devices.{IsEnd, OnOutput, console_of};
ghost use Rattle.cli.specs.Input.{OpensFile};
ghost use Rattle.cli.specs.Invocation.{kinds_in, value_mistake};
ghost use Rattle.cli_program.specs.Execution.{IsUnasked, ReplayCommand, no_replay};

use crate::refusals::refuse;
use cc_io::{Sink, Summary};
use cc_word::Refusal;
use clap::error::ErrorKind;
use clap::{Command, Error};
use cli::{Fault, GlobalMemory, Inputs, Memory, ReplayValues};
use std::alloc::{AllocError, Global};

/// How a program executes `replay`: as the command says, or by refusing it. Its memory decides, since `replay`
/// allocates all the time, and what allocates is a method of the memory.
///
/// `cheri_cap` has the command: its `MemoryWithReplay` calls `cli_replay::replay_file`. A program over `GlobalMemory`,
/// as `cheri_cap_first` is, refuses it.
pub trait ReplaySupport: Memory {
    // The command: whether its values are accepted, and its effect.
    ghost replay: { ReplayCommand };

    /// Checks the values of `replay`, before its trace is read.
    ///
    /// Requires: no call of this memory has failed.
    /// Errors: `ValueValidation` if a text is refused, or the program is one without `replay`; an allocation fails.
    fn check_replay(&mut self, values: ReplayValues<'_>) -> Result<(), Error>
        requires { Self.has_failed self.old ≡ false }
        ensures kinds { FailsBy (kinds_in (value_mistake (replay.accepts values.entry))) result }
        ensures fails { MatchResult result (λ checked. Self.has_failed self.new ≡ false)
            (λ error. (kind_of error ≡ ErrorKind.OutOfMemory) ↔ (Self.has_failed self.new ≡ true)) };

    /// Replays the trace that FILE names, and writes its output.
    ///
    /// Requires: no device has failed, and no input was requested.
    /// Errors: as the command's effect says.
    fn replay_file<I: Inputs, W: Sink>(
        &mut self,
        values: ReplayValues<'_>,
        inputs: &mut I,
        source: &mut I::Opened,
        file: Option<&str>,
        sink: &mut W,
    ) -> Result<Summary, Fault>
        requires memory { Self.has_failed self.old ≡ false }
        requires source { (I.Opened.state source.old).has_failed ≡ false }
        requires inputs { I.has_refused inputs.old ≡ false }
        requires unasked { I.requested inputs.old [] ≡ true }
        requires sink { (W.state sink.old).has_failed ≡ false }
        ensures executes { OnOutput (I.bytes_of inputs.old) (I.Opened.state source.new) (W.state sink.old)
            (W.state sink.new) (replay.effect values.entry file.entry).Does result }
        ensures starved { result ≡ Err Fault.Memory → (errors errors_now : OutputState)
            → (replay.effect values.entry file.entry).Starves
            (console_of (I.bytes_of inputs.old) (I.Opened.state source.new) (W.state sink.old) (W.state sink.new)
            errors errors_now) }
        ensures allocates { (result ≡ Err Fault.Memory) ↔ (Self.has_failed self.new ≡ true) }
        ensures open { result ≡ Err Fault.Open
            → IfSome (replay.effect values.entry file.entry).input
            (λ asked. OpensFile asked.tags asked.input) }
        ensures asked { IsUnasked (replay.effect values.entry file.entry).input (I.requested inputs.new)
            → (inputs.new ≡ inputs.old) × (source.new ≡ source.old) }
        ensures end { IsEnd (I.has_refused inputs.new) (I.Opened.state source.new) (W.state sink.old)
            (W.state sink.new) result };
}

/// The program without `replay`, which proves and builds in less time.
impl ReplaySupport for GlobalMemory {
    ghost replay = { no_replay };

    fn check_replay(&mut self, _values: ReplayValues<'_>) -> Result<(), Error> {
        let error = match without_replay(self.alloc) {
            Ok(error) => error,
            Err(error) => Error::from(error),
        };
        self.has_failed = matches!(error.kind(), ErrorKind::OutOfMemory);
        Err(error)
    }

    fn replay_file<I: Inputs, W: Sink>(
        &mut self,
        _values: ReplayValues<'_>,
        _inputs: &mut I,
        _source: &mut I::Opened,
        _file: Option<&str>,
        sink: &mut W,
    ) -> Result<Summary, Fault> {
        refuse(Refusal::Syntax, sink)
    }
}

/// Returns the error for `replay` in a program without it.
fn without_replay(alloc: Global) -> Result<Error, AllocError>
    ensures { IfOk result (λ error. kind_of error ≡ ErrorKind.ValueValidation) }
{
    let message = "this program has no `replay`: `./cheri-cap replay` builds the one that has it";
    Command::new(alloc, "cheri-cap").error(ErrorKind::ValueValidation, message)
}
