//! The text of scripts: the commands, the replies to them, and the counts of these, with the statistics and the hints
//! that follow a run.
#![tactic(auto)]

mod hints;
mod line_hints;
mod numbers;
mod parsing;
mod planning;
mod printing;
mod request;
mod statistics;
mod tally;
mod values;
mod words;

pub use cc_values::{both, read_address, read_length, read_permissions};
pub use hints::{Hints, show_hints};
pub use parsing::{MOST_BYTES, Taker, parse_line, take_command};
pub use planning::{plan_numbers, plan_opening};
pub use printing::{push_reply, reply_line};
pub use request::{read_request, request_from};
pub use statistics::show_statistics;
pub use tally::{Count, Tally};
