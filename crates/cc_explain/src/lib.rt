//! Shows one word: its listing, and its explanation with the steps of decoding its bounds and a picture of its window;
//! also the explanation of a request for bounds.
#![tactic(auto)]

mod explained_request;
mod explained_steps;
mod explaining;
mod listing;
mod picture;
mod request;
mod showing;
mod steps;
mod window_drawing;

pub use explained_request::push_explained_request;
pub use explained_steps::{push_fields, push_mantissas, push_window_lines, push_word};
pub use explaining::{explain_word, push_explained_word};
pub use listing::push_listing;
pub use picture::{Rows, push_picture, rows_of};
pub use showing::show_word;
pub use steps::{Steps, decoding_steps};
pub use window_drawing::{draw_window, push_window_drawing};
