//! Drawings: the use of a planner's pool by its objects, and the bytes that are left, as numbers, as a map in text, and
//! as an SVG document.
#![tactic(auto)]

mod drawing;
mod layout;
mod map;
mod usage;

pub use cc_values::Usage;
pub use drawing::show_drawing;
pub use layout::{Layout, cells_of};
pub use map::{map_row, show_map};
pub use usage::usage_of;
