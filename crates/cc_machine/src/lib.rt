//! Slots of capabilities, the operations on them, the tree of their derivations, and the objects of a pool; and the
//! placer that keeps the gaps between the spans that it holds.
#![tactic(auto)]

mod aligned;
mod derivations;
mod gap_block;
mod gap_blocks;
mod gap_heads;
mod gap_row;
mod gaps;
mod machine;
mod object;
mod owners;
mod searching;
mod slot;

pub use cc_bounds::{Align, Len};
pub use cc_plan::{ObjectState, PlannedObject};
pub use cc_values::{Op, Reply};
pub use gaps::GapPlacer;
pub use machine::Machine;
pub use object::Object;
