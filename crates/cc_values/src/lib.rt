//! The values of lines and of arguments: numbers and sets of permissions; the operations of a machine, its replies, and
//! its use.
#![tactic(auto)]

mod digits;
mod numbers;
mod op;
mod permissions;
mod reply;
mod split;
mod usage;

pub use digits::{Spelled, value_of_decimal};
pub use numbers::{read_address, read_index, read_length, read_number};
pub use op::Op;
pub use permissions::{both, read_permissions};
pub use reply::Reply;
pub use split::{position_of, split_at_first};
pub use usage::Usage;
