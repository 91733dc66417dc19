//! The command `replay` of the program: the trace of an input, replayed on a heap with exact bounds.
#![tactic(auto)]

mod charting;
mod memory;
mod mistakes;
mod replay_values;
mod replaying;
mod takers;

pub use memory::TraceMemory;
pub use replay_values::{Policies, ReplayRequest};
pub use replaying::replay_file;
pub use takers::{TracePrinter, TraceTaker};
