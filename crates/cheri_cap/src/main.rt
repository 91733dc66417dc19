//! The program `cheri-cap`: shows and explains CHERI Concentrate capability words, rounds lengths,
//! runs scripts on a machine of capabilities, and replays the traces of allocators.
#![tactic(auto)]

mod memory_with_replay;

use crate::memory_with_replay::MemoryWithReplay;
use cli_program::{Terminals, run_program};
use std::io::IsTerminal;
use std::process::ExitCode;

fn main(rt: HostRuntime) -> ExitCode {
    let terminals = Terminals {
        input: rt.stdin().is_terminal(),
        errors: rt.stderr().is_terminal(),
    };
    let mut memory = MemoryWithReplay::new(rt.alloc());
    ExitCode::from(run_program(&rt, &mut memory, terminals))
}
