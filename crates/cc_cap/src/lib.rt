//! Capabilities of the 128-bit CHERI Concentrate format, and the derivation of one from another.
#![tactic(auto)]

mod canonical;
mod cap;
mod decoded;
pub mod words;

pub use bitflags::Flags;
pub use canonical::{Defect, is_canonical};
pub use cap::Cap;
pub use cc_word::{ObjType, Perms};
pub use decoded::Decoded;
