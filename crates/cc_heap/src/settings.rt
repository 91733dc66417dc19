//! The settings of a heap.
use crate::policy::Policy;
use crate::reallocation::Reallocation;
use cc_bounds::{Align, Span};

/// The settings of a heap, which no event changes.
#[derive(Clone, Copy)]
pub struct Settings {
    /// The maximum number of held spans, from 1 to 2^24.
    pub limit: u32,
    /// The bytes in which objects are placed.
    pub pool: Span,
    /// The alignment of each object, if its event does not request a larger one.
    pub align: Align,
    /// When the quarantine is swept.
    pub policy: Policy,
    /// The number of quarantined bytes below which the policy does not sweep.
    pub least_quarantine: u64,
    /// The effect of a reallocation on an object that can stay.
    pub realloc: Reallocation,
}
