//! The memory of a run.
ghost use Rattle.std.specs.Prelude.{◌≡◌, ◌≤◌, ◌^◌, ◌↔◌, IfOk, IsErr, false, true};
ghost use Rattle.cc_machine.specs.State.{initial_state};
ghost use Rattle.cli_program.specs.Report.{IsMachineUsage};

use crate::report::machine_usage;
use cc_machine::Machine;
use cc_values::Usage;
use cli::{GlobalMemory, Memory};
use std::alloc::AllocError;

/// The memory for the machine of a script, and for the statistics of its run.
pub trait RunMemory: Memory {
    /// Creates a machine with at most `limit` slots and objects.
    ///
    /// Requires: `1 <= limit <= 65536`, and no call of this memory has failed.
    /// Errors: an allocation fails.
    fn machine(&mut self, limit: u32) -> Result<Machine, AllocError>
        requires from_one { 1 ≤ limit }
        requires at_most { limit ≤ 65536 }
        requires memory { Self.has_failed self.old ≡ false }
        ensures machine { IfOk result (λ machine. machine ≡ initial_state limit) }
        ensures fails { IsErr result ↔ (Self.has_failed self.new ≡ true) };

    /// Returns the use of a machine's slots, objects and pool. At most 2^80 bytes are held.
    ///
    /// Requires: no call of this memory has failed.
    /// Errors: an allocation fails.
    fn usage(&mut self, machine: &Machine) -> Result<Usage, AllocError>
        requires { Self.has_failed self.old ≡ false }
        ensures usage { IfOk result (IsMachineUsage machine.now) }
        ensures fits { IfOk result (λ usage. usage.held ≤ 2 ^ 80) }
        ensures fails { IsErr result ↔ (Self.has_failed self.new ≡ true) };
}

impl RunMemory for GlobalMemory {
    fn machine(&mut self, limit: u32) -> Result<Machine, AllocError> {
        let machine = Machine::with_limit(self.alloc, limit);
        self.has_failed = machine.is_err();
        machine
    }

    fn usage(&mut self, machine: &Machine) -> Result<Usage, AllocError> {
        let usage = machine_usage(self.alloc, machine);
        self.has_failed = usage.is_err();
        usage
    }
}
