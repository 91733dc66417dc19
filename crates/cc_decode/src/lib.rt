//! Decodes many words, of text, of raw bytes or of a core file: the row of each. Also the row of one word, a copy
//! of a text with the line of each word after the word, and the batch functions on words of a slice.
#![tactic(auto)]

mod annotating;
mod annotator;
mod cores;
mod decoder;
mod decoding;
mod elf;
mod entries;
pub mod many;
mod one_row;
mod options;
mod places;
mod rows;
mod runs;
mod search;
mod skipping;
mod tags;
mod writers;

pub use annotating::annotate;
pub use cc_io::{ByteOrder, Format, InputForm};
pub use cores::decode_core;
pub use decoding::decode_words;
pub use one_row::show_row;
pub use options::{Options, Part, Search, Tags};
