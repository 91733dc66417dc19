//! The formats of words in an output.

/// The format of the reply to a word. Each reply is one line.
#[derive(Clone, Copy)]
pub enum Format {
    /// The word and the values that `show` prints, with one space between.
    Columns,
    /// The line of a tagged word, as debuggers show it: `0x10070 [rwxRW,0x10070-0x12070]`.
    Text,
    /// The columns in one width each, so that `sort` and `awk` compare them as strings.
    Fixed,
    /// A header, and then the values of the columns, the address and the names of the permissions,
    /// with commas between.
    Csv,
    /// One object of JSON.
    Json,
}
