//! The memory of the program that has `replay`, and the way from this command to cli_replay.
ghost use Rattle.std.specs.Prelude.{◌≡◌, false};
ghost use Rattle.cheri_cap.specs.Replaying.{IsReplay, with_replay};

use cc_io::{Sink, Source, Summary};
use cc_machine::Machine;
use cc_values::Usage;
use clap::Error;
use cli::{Fault, GlobalMemory, Inputs, Invocation, Memory, ReplayValues};
use cli_program::{ReplaySupport, RunMemory};
use cli_replay::{TraceMemory, replay_file};
use std::alloc::{AllocError, Global};

/// The memory of the process, in the program that has `replay`.
#[derive(Drop)]
pub struct MemoryWithReplay {
    memory: GlobalMemory,
}

impl MemoryWithReplay {
    /// Creates the memory of the process.
    pub fn new(alloc: Global) -> Self
        ensures works { ⟦<MemoryWithReplay as Memory>⟧.has_failed result ≡ false }
        // A program over this memory has the command `replay`.
        ensures replays { IsReplay ⟦<MemoryWithReplay as ReplaySupport>⟧.replay }
    {
        MemoryWithReplay {
            memory: GlobalMemory::new(alloc),
        }
    }
}

impl Memory for MemoryWithReplay {
    ghost has_failed = { λ full. ⟦<GlobalMemory as Memory>⟧.has_failed full.memory };

    fn read_words<'a>(&mut self, words: &'a [&'a str]) -> Result<Invocation<'a>, Error> {
        self.memory.read_words(words)
    }

    fn read_all<S: Source>(&mut self, source: &mut S) -> Result<Vec<u8>, Fault> {
        self.memory.read_all(source)
    }
}

impl RunMemory for MemoryWithReplay {
    fn machine(&mut self, limit: u32) -> Result<Machine, AllocError> {
        self.memory.machine(limit)
    }

    fn usage(&mut self, machine: &Machine) -> Result<Usage, AllocError> {
        self.memory.usage(machine)
    }
}

impl ReplaySupport for MemoryWithReplay {
    ghost replay = { with_replay };

    fn check_replay(&mut self, values: ReplayValues<'_>) -> Result<(), Error> {
        self.memory.check_values(values)
    }

    fn replay_file<I: Inputs, W: Sink>(
        &mut self,
        values: ReplayValues<'_>,
        inputs: &mut I,
        source: &mut I::Opened,
        file: Option<&str>,
        sink: &mut W,
    ) -> Result<Summary, Fault> {
        replay_file(&mut self.memory, values, inputs, source, file, sink)
    }
}
