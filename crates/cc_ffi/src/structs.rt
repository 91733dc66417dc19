//! The structs that cross to C, with the fields in the order of the header.

/// A number of 128 bits: a word or a length.
#[derive(Clone, Copy)]
#[repr(C)]
pub struct Halves {
    /// The upper 64 bits.
    pub high: u64,
    /// The lower 64 bits.
    pub low: u64,
}

/// The fields of a word, in C's types. Nothing keeps them within their widths.
#[derive(Clone, Copy)]
#[repr(C)]
pub struct WordFields {
    /// The capability's own address.
    pub address: u64,
    /// The object type, 18 bits.
    pub otype: u32,
    /// The permissions, 16 bits, with GLOBAL as the lowest.
    pub perms: u16,
    /// The T field as stored, 12 bits.
    pub t: u16,
    /// The B field as stored, 14 bits.
    pub b: u16,
    /// The two reserved bits, zero in every capability.
    pub reserved: u8,
    /// The flag: whether code runs in capability mode.
    pub flag: bool,
    /// The internal exponent bit.
    pub ie: bool,
}

/// The bounds that a word decodes to, and its exponent.
#[derive(Clone, Copy)]
#[repr(C)]
pub struct Bounds {
    /// The first byte's address.
    pub base: u64,
    /// The top's bits above bit 63: 0 or 1.
    pub top_high: u64,
    /// The top's lower 64 bits.
    pub top_low: u64,
    /// The exponent, from 0 to 52.
    pub exponent: u8,
}

/// The bounds that a request is granted, and the fields that store them.
#[derive(Clone, Copy)]
#[repr(C)]
pub struct GrantedBounds {
    /// The granted base.
    pub base: u64,
    /// The granted top's bits above bit 63: 0 or 1.
    pub top_high: u64,
    /// The granted top's lower 64 bits.
    pub top_low: u64,
    /// The T field that stores them, 12 bits.
    pub t: u16,
    /// The B field that stores them, 14 bits.
    pub b: u16,
    /// The exponent, from 0 to 52.
    pub exponent: u8,
    /// The internal exponent bit.
    pub ie: bool,
    /// Whether the request is granted as it is.
    pub exact: bool,
    /// Whether the request ends at or below 2^64. If not, nothing is granted and every other field
    /// is zero.
    pub in_range: bool,
}

/// The word that the bytes parse as, if they parse as one.
#[derive(Clone, Copy)]
#[repr(C)]
pub struct ReadWord {
    /// The word's upper 64 bits, or 0.
    pub high: u64,
    /// The word's lower 64 bits, or 0.
    pub low: u64,
    /// Whether the bytes parse as a word.
    pub found: bool,
}

/// The word that a rule makes, or the reason why it makes none.
#[derive(Clone, Copy)]
#[repr(C)]
pub struct MadeWord {
    /// The word's upper 64 bits, or 0.
    pub high: u64,
    /// The word's lower 64 bits, or 0.
    pub low: u64,
    /// 0 if a word was made, and otherwise the code of the refusal, from 7 to 16.
    pub refusal: u8,
}

/// The window of a word: the addresses from `first` to `last`, through 2^64 - 1 to 0 if `last` is
/// below `first`.
#[derive(Clone, Copy)]
#[repr(C)]
pub struct Window {
    /// The first address of the window.
    pub first: u64,
    /// The last address of the window.
    pub last: u64,
}

/// The granted bytes before and after a request.
#[derive(Clone, Copy)]
#[repr(C)]
pub struct Excess {
    /// The number of granted bytes before the request.
    pub before: u64,
    /// The number of granted bytes after the request.
    pub after: u64,
    /// Whether the request ends at or below 2^64. If not, nothing is granted and the numbers are
    /// zero.
    pub in_range: bool,
}

/// The words that a search finds.
#[derive(Clone, Copy)]
#[repr(C)]
pub struct Query {
    /// The address that the bounds must contain, if `needs_address`.
    pub address: u64,
    /// The permissions that a word must have, all of them.
    pub perms: u16,
    /// Whether a word must have some permission.
    pub needs_permission: bool,
    /// Whether the bounds must contain the byte at `address`.
    pub needs_address: bool,
    /// Whether a word must have a tag.
    pub needs_tag: bool,
    /// Whether sealed words are found, except sentries.
    pub sealed: bool,
    /// Whether sentries are found.
    pub sentries: bool,
}
