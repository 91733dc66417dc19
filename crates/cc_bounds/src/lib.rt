//! The bounds of a 128-bit CHERI Concentrate capability word: decoding them, setting them, and the
//! addresses at which they are representable.
#![tactic(auto)]

mod align;
mod decoding;
mod encoding;
mod len;
mod rounding;
mod span;
mod window;

pub use align::Align;
pub use decoding::{MAX_EXPONENT, decode, decode_with, exponent, exponent_field};
pub use encoding::{Set, set_bounds, stores, stores_with};
pub use len::Len;
pub use rounding::{alignment_mask, granule, round_length};
pub use span::{ADDRESS_SPACE, Span};
pub use window::{keeps_bounds, represents};
