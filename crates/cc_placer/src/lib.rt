//! Places spans in a pool. A placer is a free-space index: it holds spans, and finds free space next
//! to them.
#![tactic(auto)]

mod hint;
mod placer;
mod units;

pub use hint::Hint;
pub use placer::Placer;
pub use units::{padded_size, round_up, unit};
