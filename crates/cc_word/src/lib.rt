//! The layout of a 128-bit CHERI Concentrate capability word, its text, the permissions and object
//! types that it holds, and the refusals of every crate of the library.
#![tactic(auto)]

mod fields;
mod kernels;
mod layout;
mod obj_type;
mod perms;
mod refusal;
mod word_text;

pub use bitflags::Flags;
pub use fields::Fields;
pub use kernels::{read_quarter, read_word_fast, write_half, write_word_fast, write_word_fast_to};
pub use layout::{pack, unpack};
pub use obj_type::{ObjType, SENTRY_TYPE, UNSEALED_TYPE};
pub use perms::Perms;
pub use refusal::Refusal;
pub use word_text::{read_word, write_word};
