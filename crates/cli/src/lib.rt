//! The command line of the process, parsed as a command and its values, and the devices of a command: its inputs and
//! its output, those of the process, and the reason that it stopped before its end.
#![tactic(auto)]

mod arguments;
mod commands;
mod discard;
mod error_writer;
mod fault;
mod help;
mod input;
mod invocation;
mod last_error;
mod memory;
mod mistakes;
mod notices;
mod outcome;
mod process_inputs;
mod question;
mod reading;
mod table;
mod values;
mod watched;

pub use discard::Discard;
pub use error_writer::ErrorWriter;
pub use fault::Fault;
pub use input::{Content, InputName, Inputs, file_input};
pub use invocation::{
    DecodeValues, Invocation, PoolTexts, ReplayOutput, ReplayValues, SearchValues, SummaryFormat,
};
pub use last_error::{LastError, Noting};
pub use memory::{GlobalMemory, Memory};
pub use mistakes::error_with_usage;
pub use outcome::{Ending, ending_of, ending_status, finish, status, tell};
pub use process_inputs::{ProcessInputs, no_input};
pub use question::{Base, Question};
pub use reading::read_words;
