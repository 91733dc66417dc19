//! The program of a first start: all commands of `cheri-cap` but `replay`, whose crates take a quarter of the time.
#![tactic(auto)]

use cli::GlobalMemory;
use cli_program::{Terminals, run_program};
use std::io::IsTerminal;
use std::process::ExitCode;

fn main(rt: HostRuntime) -> ExitCode {
    let terminals = Terminals {
        input: rt.stdin().is_terminal(),
        errors: rt.stderr().is_terminal(),
    };
    let mut memory = GlobalMemory::new(rt.alloc());
    ExitCode::from(run_program(&rt, &mut memory, terminals))
}
