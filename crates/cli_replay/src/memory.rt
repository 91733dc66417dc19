//! The memory of a trace that is replayed.
ghost use Rattle.std.specs.Prelude.{◌≡◌, ◌↔◌, IfOk, MatchResult, false, is_err, is_ok, true};
ghost use Rattle.clap.specs.Words.{FailsBy, kind_of};
ghost use Rattle.cli.specs.Invocation.{kinds_in, value_mistake};
ghost use Rattle.cli_replay.specs.ReplayValues.{replay_in};

use crate::mistakes::check_values;
use crate::replay_values::ReplayRequest;
use crate::takers::TraceTaker;
use clap::Error;
use clap::error::ErrorKind;
use cli::{GlobalMemory, Memory, ReplayValues};
use std::alloc::AllocError;

/// The memory for the heap of a trace, which grows while lines are taken.
///
/// A taker allocates by itself, and reports that memory ran out: [`TraceMemory::fail_if`] makes that a failure of the
/// memory, of which the contracts speak. This trait has no type parameter for the heap, so that no caller can bring a
/// heap whose allocations always fail.
pub trait TraceMemory: Memory {
    /// Checks the values of `replay`, before its trace is read.
    ///
    /// Requires: no call of this memory has failed.
    /// Errors: `ValueValidation` if a text is refused, with a message that names the option and its forms; an
    /// allocation fails.
    fn check_values(&mut self, values: ReplayValues<'_>) -> Result<(), Error>
        requires { Self.has_failed self.old ≡ false }
        ensures kinds { FailsBy (kinds_in (value_mistake (is_ok (replay_in values.entry)))) result }
        ensures fails { MatchResult result (λ checked. Self.has_failed self.new ≡ false)
            (λ error. (kind_of error ≡ ErrorKind.OutOfMemory) ↔ (Self.has_failed self.new ≡ true)) };

    /// Creates a taker of a trace before its first line, as [`TraceTaker::begin`] does.
    ///
    /// Requires: no call of this memory has failed.
    /// Errors: an allocation fails.
    fn begin<T: TraceTaker>(&mut self, request: &ReplayRequest<'_>) -> Result<T, AllocError>
        requires settings { T.IsFor request.now.settings }
        requires memory { Self.has_failed self.old ≡ false }
        ensures begins { IfOk result (λ taker. taker ≡ T.begun request.now) }
        ensures goes_on { IfOk result (λ taker. T.is_over taker ≡ false) }
        ensures fails { Self.has_failed self.new ≡ is_err result };

    /// Fails if memory ran out in an event.
    ///
    /// Requires: no call of this memory has failed.
    /// Errors: `AllocError` if `has_run_out`.
    fn fail_if(&mut self, has_run_out: bool) -> Result<(), AllocError>
        requires { Self.has_failed self.old ≡ false }
        ensures runs_out { is_err result ≡ has_run_out }
        ensures fails { Self.has_failed self.new ≡ has_run_out };
}

impl TraceMemory for GlobalMemory {
    fn check_values(&mut self, values: ReplayValues<'_>) -> Result<(), Error> {
        let checked = check_values(self.alloc, values);
        self.has_failed = match &checked {
            Ok(()) => false,
            Err(error) => matches!(error.kind(), ErrorKind::OutOfMemory),
        };
        checked
    }

    fn begin<T: TraceTaker>(&mut self, request: &ReplayRequest<'_>) -> Result<T, AllocError> {
        let taker = T::begin(self.alloc, request);
        self.has_failed = taker.is_err();
        taker
    }

    fn fail_if(&mut self, has_run_out: bool) -> Result<(), AllocError> {
        self.has_failed = has_run_out;
        if has_run_out { Err(AllocError) } else { Ok(()) }
    }
}
