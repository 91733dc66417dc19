//! The commands of the program on words and lengths: each as a function over inputs and an output.
#![tactic(auto)]

mod bare_digits;
mod decode_options;
mod explaining_bounds;
mod file_hint;
mod length_list;
mod list_line;
mod number_hint;
mod questions;
mod rounding;
mod word_hint;
mod words;

pub use bare_digits::is_bare;
pub use explaining_bounds::explain_length;
pub use length_list::round_list;
pub use questions::ask;
pub use rounding::{show_round, show_round_from};
pub use words::{annotate_file, decode_core_file, decode_file, round_file};
