//! Two simple placers, which keep the spans that are held, and the run of a planner over a list of calls.
#![tactic(auto)]

mod plan_calls;
mod position;
mod scan;
mod sorted;

pub use plan_calls::{PlanCall, PlanReply, plan_run};
pub use scan::ScanPlacer;
pub use sorted::SortedPlacer;
