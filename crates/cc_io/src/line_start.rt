//! The first bytes of an entry that is not yet complete, and the search for the end of a line.
ghost use Rattle.std.specs.Prelude.{◌≡◌, ℕ, ◌<◌, ◌≤◌, ◌↔◌, List, [], ◌∷◌, ◌++◌, length, map, ◌==◌, take, IfSome};
ghost use Rattle.std.specs.Prelude.{IfNone, IsTrue};
ghost use Rattle.std.specs.Simd.Lanes.{chunk, mask_l};
ghost use Rattle.memchr.specs.Find.{IsFirstByte, is_byte};
ghost use Rattle.cc_io.specs.Lines.{IsLine};

use memchr::memchr;
use std::marker::Model;
use std::simd::prelude::*;

/// The number of bytes of an entry that an answerer sees, one more than a line may have, so that a
/// line that is too long is distinguished. The further bytes of a longer entry are dropped.
pub(crate) const SEEN: usize = 129;

/// The number of bytes that are searched together for a line feed, since most lines are short.
const NEAR: usize = 32;

/// The first 129 bytes of an entry. The further bytes of a longer entry are not kept.
#[derive(Drop)]
pub struct LineStart {
    bytes: [u8; SEEN],
    len: usize,
}

impl Model for LineStart {
    ghost Value = { List ℕ };

    ghost view = { λ s. take s.len s.bytes };

    ghost invariant = { λ s. s.len ≤ 129 };
}

impl LineStart {
    /// Creates the start of an entry with no bytes.
    pub fn new() -> Self
        ensures { result ≡ [] }
    {
        LineStart {
            bytes: [0; SEEN],
            len: 0,
        }
    }

    /// Returns whether no byte has been added.
    pub fn is_empty(&self) -> bool
        ensures { IsTrue result ↔ (self.now ≡ []) }
    {
        self.len == 0
    }

    /// Appends bytes of the entry and keeps only the first 129 of all.
    pub fn extend(&mut self, bytes: &[u8])
        ensures { self.new ≡ take 129 (self.old ++ bytes.now) }
    {
        let count = bytes.len().min(SEEN - self.len);
        let end = self.len + count;
        self.bytes[self.len..end].copy_from_slice(&bytes[..count]);
        self.len = end;
    }

    /// Removes all the bytes, for the next entry.
    pub fn clear(&mut self)
        ensures { self.new ≡ [] }
    {
        self.len = 0;
    }

    /// Returns the bytes that are kept.
    pub fn as_slice(&self) -> &[u8]
        ensures { result.now ≡ self.now }
    {
        &self.bytes[..self.len]
    }
}

/// Returns the bytes before the first line feed and the bytes after it, or `None` if there is no
/// line feed.
#[inline(always)]
pub fn split_at_line_feed(text: &[u8]) -> Option<(&[u8], &[u8])>
    ensures whole { IfSome result (λ parts. text.now ≡ parts.0.now ++ 10 ∷ parts.1.now) }
    ensures line { IfSome result (λ parts. IsLine parts.0.now) }
    ensures shorter { IfSome result (λ parts. length parts.1.now < length text.now) }
    ensures none { IfNone result (IsLine text.now) }
{
    match first_line_feed(text) {
        Some(at) => Some((&text[..at], &text[at + 1..])),
        None => None,
    }
}

/// Returns the position of the first line feed.
#[inline(always)]
fn first_line_feed(text: &[u8]) -> Option<usize>
    ensures { IsFirstByte (is_byte 10) text.now result }
{
    if text.len() > NEAR {
        let near = line_feeds_near(text).trailing_zeros() as usize;
        if near < NEAR {
            return Some(near);
        }
        // the line feed of a line that is a word
        if text[NEAR] == b'\n' {
            return Some(NEAR);
        }
    }
    first_line_feed_of_any(text)
}

/// Returns the position of the first line feed, wherever it is.
#[inline(never)]
fn first_line_feed_of_any(text: &[u8]) -> Option<usize>
    ensures { IsFirstByte (is_byte 10) text.now result }
{
    memchr(b'\n', text)
}

/// Returns which of the first 32 bytes are line feeds, one bit for each byte, the lowest for the
/// first.
#[inline(always)]
fn line_feeds_near(text: &[u8]) -> u64
    requires { NEAR ≤ length text.now }
    ensures { result ≡ mask_l (map (λ byte. byte == 10) (chunk 0 32 text.now)) }
{
    u8x32::from_slice(text)
        .simd_eq(u8x32::splat(b'\n'))
        .to_bitmask()
}
