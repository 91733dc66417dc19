//! Models the heap of an allocator over the events of a trace: the objects that are live, the
//! quarantine, and the numbers of both. A chart of the heap: its levels in a bounded number of
//! columns, and an SVG document of them.
//!
//! All of the heap is proved from the contract of `Placer` alone, for traces of any length.
#![tactic(auto)]

mod axes;
mod chart;
mod chart_drawing;
mod curves;
mod entries;
mod event;
mod heap;
mod levels;
mod making;
mod object;
mod outcome;
mod placing;
mod policy;
mod reallocation;
mod run;
mod scale;
mod settings;
mod sizes;
mod totals;
mod usage;

pub use chart::Chart;
pub use chart_drawing::write_chart;
pub use curves::Curve;
pub use event::Event;
pub use heap::Heap;
pub use levels::Levels;
pub use making::Making;
pub use object::Object;
pub use outcome::Outcome;
pub use policy::{Policy, Share};
pub use reallocation::Reallocation;
pub use run::Run;
pub use settings::Settings;
pub use sizes::{NO_OBJECTS, SizeTotals};
pub use totals::Totals;
pub use usage::Usage;
