//! The program: its arguments, the choice of the command, the commands that run a script, the devices of the process,
//! and the end. It is generic over the memory, so that a program has the command `replay`, or is proved without it.
#![tactic(auto)]

mod execution;
mod maps;
mod memory;
mod program;
mod refusals;
mod replay_support;
mod report;
mod runs;
mod terminals;

pub use execution::execute;
pub use maps::map_file;
pub use memory::RunMemory;
pub use program::{answer_on_process, answer_words, run_program};
pub use replay_support::ReplaySupport;
pub use report::Report;
pub use runs::{plan_file, run_file};
pub use terminals::Terminals;
