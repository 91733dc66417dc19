//! The choices of a caller of [`decode_words`](crate::decode_words).
use cc_io::{Format, InputForm};
use cc_word::Perms;

/// The part of an input that is decoded.
#[derive(Clone, Copy)]
pub struct Part {
    /// The number of bytes before the first entry.
    pub skipped: u64,
    /// The maximum number of entries; all of the rest is decoded if there is none.
    pub count: Option<u64>,
}

/// The tags of the words of an input.
#[derive(Clone, Copy)]
pub struct Tags<'a> {
    /// A bit for each word, the lowest of a byte first.
    pub bits: &'a [u8],
    /// The place of the bit of the next word.
    pub place: u64,
}

/// The form of the input, the format of the replies, and the words that get a reply.
#[derive(Clone, Copy)]
pub struct Options<'a> {
    /// The form of words in the input.
    pub input: InputForm,
    /// The format of the reply to a word.
    pub format: Format,
    /// The address of the first entry, if rows begin with the address of their word. Each further
    /// entry is 16 bytes above the one before, modulo 2^64.
    pub at: Option<u64>,
    /// The tags of the words, if they are known: then only tagged words are listed.
    pub tags: Option<Tags<'a>>,
    /// The search whose words are listed; all words are if there is none.
    pub search: Option<Search>,
}

/// A search for words that could be capabilities: they are canonical, or a sentry that is canonical
/// once it is unsealed.
#[derive(Clone, Copy)]
pub struct Search {
    /// The address of a byte that the bounds contain, if one is searched for.
    pub holds: Option<u64>,
    /// The permissions that the words have at least.
    pub perms: Perms,
    /// Whether the words have some permission.
    pub needs_permission: bool,
    /// Whether only unsealed words are found: neither sealed ones nor sentries.
    pub unsealed: bool,
}
