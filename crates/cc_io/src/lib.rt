//! Reads entries from a source, has an answerer reply to them, and writes the replies to a sink.
#![tactic(auto)]

mod answerer;
mod devices;
mod format;
mod framing;
mod input_form;
mod line_start;
mod numbered;
mod page;
mod permissions;
mod pumping;
mod refusals;
mod slice_devices;
mod std_devices;
mod summary;
mod svg;

pub use answerer::Answerer;
pub use devices::{Failed, Sink, Source, write_all};
pub use format::Format;
pub use framing::{Blocks, Framing, Lines};
pub use input_form::{ByteOrder, InputForm, digits_in};
pub use line_start::{LineStart, split_at_line_feed};
pub use numbered::{
    end_with_decimal, end_with_hexadecimal, push_decimal, push_digits, push_hexadecimal,
};
pub use page::{
    Line, MOST_LINE, MOST_PENDING, MOST_REPLY, MOST_TEXT, Page, Pending, Text, WholeLine,
};
pub use permissions::{push_permissions, push_permissions_array};
pub use pumping::{make_room, pump, write_and_flush};
pub use refusals::{push_refusal, refusal_bytes, write_refusal};
pub use slice_devices::{SliceSink, SliceSource};
pub use std_devices::{FromReader, FromWriter};
pub use summary::{IoError, Summary};
pub use svg::{push_markup, push_opening, push_sheet};
