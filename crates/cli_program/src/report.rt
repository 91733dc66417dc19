//! Reports on standard error: the statistics of a run, and hints.
ghost use Rattle.std.specs.Prelude.{◌≡◌, ◌≤◌, ◌^◌, List, ℕ, ◌↔◌, IfOk, IsErr, OnErr, OnOk, false, true};
ghost use Rattle.std.specs.Io.KnownBytes.{Appends};
ghost use Rattle.cc_values.specs.declared.reply.Reply.{Reply};
ghost use Rattle.cc_syntax.specs.Tally.{Exchange, IsTally};
ghost use Rattle.cli_program.specs.Report.{IsMachineUsage, WritesReport, report_of};

use crate::memory::RunMemory;
use crate::terminals::Terminals;
use cc_draw::usage_of;
use cc_io::Sink;
use cc_machine::{Len, Machine};
use cc_script::Session;
use cc_syntax::{Hints, show_hints, show_statistics};
use cc_values::Usage;
use std::alloc::{AllocError, Global};

/// The parts of the report of a run on standard error.
#[derive(Clone, Copy)]
pub struct Report {
    /// Whether the statistics are written.
    pub stats: bool,
    /// Whether hints are written.
    pub hints: bool,
}

impl Report {
    /// Creates the report of a run with or without `--stats`. Hints are also written if standard error is a terminal.
    pub fn new(stats: bool, terminals: Terminals) -> Self
        ensures { result ≡ report_of stats terminals }
    {
        Report {
            stats,
            hints: stats || terminals.errors,
        }
    }
}

/// Writes the statistics of a run and hints, if the report has them. `pool` is the length of the pool that the opening
/// requests, if any. Errors of the sink are ignored, and nothing is written after one.
///
/// Errors: `AllocError` if the statistics are requested and an allocation fails; nothing is written then.
pub fn write_report<M: RunMemory, E: Sink>(
    memory: &mut M,
    session: &Session<'_>,
    pool: Option<Len>,
    report: Report,
    errors: &mut E,
) -> Result<(), AllocError>
    requires memory { M.has_failed memory.old ≡ false }
    requires errors { (E.state errors.old).has_failed ≡ false }
    ensures written { OnOk result ((E.state errors.new).has_failed ≡ false
        → (opening : List Reply) (exchanges : List Exchange) → IsTally opening exchanges session.now.tally
        → WritesReport report session.now opening exchanges pool (E.state errors.old).taken
        (E.state errors.new).taken) }
    ensures unwritten { OnErr result ((E.state errors.new).taken ≡ (E.state errors.old).taken) }
    ensures allocates { IsErr result ↔ (M.has_failed memory.new ≡ true) }
    ensures wanted { OnErr result (report.stats ≡ true) }
{
    if report.stats {
        let usage = memory.usage(session.machine)?;
        if show_statistics(&usage, &session.tally, errors).is_err() {
            return Ok(());
        }
    }
    if report.hints {
        let _ = show_hints(&Hints::of(&session.tally, pool), errors);
    }
    Ok(())
}

/// Returns the use of a machine's slots, objects and pool. At most 2^80 bytes are held.
///
/// Errors: `AllocError` if an allocation fails.
pub(crate) fn machine_usage(alloc: Global, machine: &Machine) -> Result<Usage, AllocError>
    ensures usage { IfOk result (IsMachineUsage machine.now) }
    ensures fits { IfOk result (λ usage. usage.held ≤ 2 ^ 80) }
{
    usage_of(alloc, machine.planner(), machine.slots())
}
