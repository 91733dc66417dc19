//! Laws: what the contracts of all other crates mean together. Each function here is a law: it does
//! nothing, and its contract is the claim. No other crate depends on this one.
#![tactic(auto)]

mod bounds_counterexamples;
pub mod bounds_laws;
mod capabilities_counterexamples;
pub mod capability_laws;
pub mod chart_laws;
pub mod charting_laws;
pub mod decoding_laws;
pub mod drawing_laws;
mod drawings_counterexamples;
pub mod format_laws;
pub mod frame_laws;
mod frames_counterexamples;
mod frames_witnesses;
pub mod heap_laws;
mod heaps_counterexamples;
mod machine_counterexamples;
pub mod machine_laws;
mod machine_witnesses;
pub mod placing_laws;
pub mod planner_laws;
mod planner_witnesses;
pub mod programs;
pub mod replaying_laws;
pub mod run_laws;
pub mod script_laws;
pub mod scripting_laws;
mod scripts_counterexamples;
mod scripts_witnesses;
mod texts_witnesses;
mod traces_counterexamples;
mod traces_witnesses;
pub mod value_laws;
pub mod word_laws;
pub mod worked_laws;
