//! A question about one word or one length.
use cc_io::Format;

/// The value of `--base`.
#[derive(Clone, Copy)]
pub struct Base<'a> {
    /// The value as it was typed.
    pub text: &'a str,
    /// The address.
    pub address: u64,
}

/// A question of `show`, `round` or `explain`, with words and lengths as they were typed: any text is possible in place
/// of a word or a length.
#[derive(Clone, Copy)]
pub enum Question<'a> {
    /// `show [--line] [--format FORMAT] WORD`: the listing of a word, or its row in a format.
    Show {
        /// The word.
        word: &'a str,
        /// The format of the row: the line with `--line`. `None` for the listing.
        format: Option<Format>,
    },
    /// `round [--base B] N`: how setting bounds rounds a length.
    Round {
        /// The base of the request, if the bounds that it is granted are shown.
        base: Option<Base<'a>>,
        /// The length.
        length: &'a str,
    },
    /// `explain WORD`: how a word is decoded.
    Explain {
        /// The word.
        word: &'a str,
    },
    /// `explain --svg WORD`: a drawing of its window.
    DrawWindow {
        /// The word.
        word: &'a str,
    },
    /// `explain --length N [--base B]`: the bounds that setting bounds grants.
    ExplainLength {
        /// The first of the requested bytes; 0 if `--base` was not given.
        base: Base<'a>,
        /// The number of requested bytes.
        length: &'a str,
    },
}
