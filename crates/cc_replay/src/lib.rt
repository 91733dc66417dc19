//! Replays a trace of allocations: reads its lines, in the own format and in those of other programs, as the events of
//! a heap, counts them, and writes the numbers of the heap as a summary and as a series, or its changes as a script for
//! a machine.
#![tactic(auto)]

mod counts;
mod cutting;
mod deeds;
mod doing;
mod formats;
mod group;
mod heaptrack;
mod ltrace;
mod mtrace;
mod numbering;
mod policy_text;
mod reading;
mod replay;
mod report;
mod rows;
mod script;
mod script_lines;
mod series;
mod size_table;
mod summary;
mod table;
mod trace;

pub use cc_heap::{
    Event, Heap, Making, Object, Outcome, Policy, Reallocation, Run, Settings, Share, Totals, Usage,
};
pub use counts::{Count, Counts};
pub use formats::{Entry, TraceFormat, read_entry};
pub use group::{MOST_REPLAYS, ReplayGroup};
pub use heaptrack::read_heaptrack;
pub use ltrace::read_ltrace;
pub use mtrace::read_mtrace;
pub use policy_text::{push_policy, read_policy};
pub use reading::{Progress, Reading, SampleReason};
pub use replay::{Replay, replay_trace};
pub use report::LineReport;
pub use script::{Script, script_trace};
pub use series::{MOST_SAMPLE, push_sample, push_series_header};
pub use size_table::write_sizes;
pub use summary::{Figures, write_summary};
pub use table::Format;
pub use trace::read_event;
