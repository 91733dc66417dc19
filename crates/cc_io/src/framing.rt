//! The two ways to cut the input into entries: lines, and blocks of 16 bytes.
ghost use Rattle.std.specs.Prelude.{◌≡◌, ◌+◌, ◌<◌, ℕ, ⊤, List, [], ◌++◌, length, take, IfSome, IfNone};
ghost use Rattle.cc_io.specs.Frames.{Frame, IsFrame, EndsEntry, EndsNone, lines, blocks};
ghost use Rattle.std.proofs.Common.{rules};
ghost use Rattle.cc_io.specs.FrameLaws.{lines_frame, blocks_frame};

use crate::line_start::split_at_line_feed;

/// A way to cut the input into entries.
pub trait Framing {
    // the entries of an input, and its trailing bytes
    ghost frame: { Self → Frame };

    // an entry may have begun with these bytes
    ghost IsBegun: { Self → (begun : List ℕ) → Type 0 };

    /// Splits `text` at the end of the entry that has begun with `start`.
    ///
    /// Returns the entry's last bytes and the bytes after the entry, or `None` if the entry does
    /// not end in `text`. `start` is the first 129 bytes of those that came before `text`.
    ///
    /// Requires: an entry may have begun with `start`.
    fn split<'a>(&self, start: &[u8], text: &'a [u8]) -> Option<(&'a [u8], &'a [u8])>
        requires { IsBegun self.now start.now }
        ensures ends { (begun : List ℕ) → start.now ≡ take 129 begun → IfSome result (λ parts.
            EndsEntry (frame self.now) begun text.now parts.0.now parts.1.now) }
        ensures shorter { IfSome result (λ parts. length parts.1.now < length text.now) }
        ensures none { (begun : List ℕ) → start.now ≡ take 129 begun
            → IfNone result (EndsNone (frame self.now) begun text.now) }
        ensures begun { IfNone result (IsBegun self.now (take 129 (start.now ++ text.now))) };

    ghost is_frame: { (s : Self) → IsFrame (frame s) };

    ghost begins: { (s : Self) → IsBegun s [] };
}

/// Entries that are lines, each ended by a line feed (LF).
#[derive(Clone, Copy)]
pub struct Lines;

impl Framing for Lines {
    ghost frame = { λ _. lines };

    ghost IsBegun = { λ _ _. ⊤ };

    #[inline(always)]
    fn split<'a>(&self, _start: &[u8], text: &'a [u8]) -> Option<(&'a [u8], &'a [u8])> {
        split_at_line_feed(text)
    }

    ghost is_frame = { λ _. lines_frame };

    ghost begins = { λ _. tt };
}

/// The length of a block in bytes.
const BLOCK: usize = 16;

/// Entries that are blocks of 16 bytes.
#[derive(Clone, Copy)]
pub struct Blocks;

impl Framing for Blocks {
    ghost frame = { λ _. blocks };

    ghost IsBegun = { λ _ begun. length begun < 16 };

    #[inline(always)]
    fn split<'a>(&self, start: &[u8], text: &'a [u8]) -> Option<(&'a [u8], &'a [u8])> {
        split_block(start.len(), text)
    }

    ghost is_frame = { λ _. blocks_frame };

    ghost begins = { Prim.search rules };
}

/// Splits `text` at the end of the block whose first `begun` bytes came earlier, or returns `None`
/// if `text` is too short.
fn split_block(begun: usize, text: &[u8]) -> Option<(&[u8], &[u8])>
    requires { begun < 16 }
    ensures whole { IfSome result (λ parts. text.now ≡ parts.0.now ++ parts.1.now) }
    ensures block { IfSome result (λ parts. begun + length parts.0.now ≡ 16) }
    ensures shorter { IfSome result (λ parts. length parts.1.now < length text.now) }
    ensures none { IfNone result (begun + length text.now < 16) }
{
    let count = BLOCK - begun;
    if text.len() < count {
        return None;
    }
    Some((&text[..count], &text[count..]))
}
