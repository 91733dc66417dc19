//! The way to cut a text at its word characters, so that a word ends in one entry.
ghost use Rattle.std.specs.Prelude.{◌≡◌, ◌<◌, ◌+◌, ⊤, ℕ, List, [], length, take, true, IfSome, IfNone, ◌++◌};
ghost use Rattle.std.proofs.Common.{rules};
ghost use Rattle.cc_io.specs.Frames.{Frame, IsFrame, EndsEntry, EndsNone};
ghost use Rattle.cc_decode.specs.Annotate.{is_word_byte, IsRun};
ghost use Rattle.cc_decode.specs.Runs.{EndsRun, runs, runs_frame};

use cc_io::Framing;

/// The maximum length of an entry in bytes.
pub(crate) const MOST_RUN: usize = 64;

/// Entries that are a run of word characters and the byte after it, or 64 word characters.
#[derive(Clone, Copy)]
pub(crate) struct Runs;

impl Framing for Runs {
    ghost frame = { λ _. runs };

    ghost IsBegun = { λ _ begun. length begun < 64 };

    #[inline(always)]
    fn split<'a>(&self, start: &[u8], text: &'a [u8]) -> Option<(&'a [u8], &'a [u8])> {
        split_run(start.len(), text)
    }

    ghost is_frame = { λ _. runs_frame };

    ghost begins = { Prim.search rules };
}

/// Returns whether a byte is a word character: a letter or a digit of ASCII, or an underscore.
#[inline(always)]
pub(crate) fn is_word_character(byte: u8) -> bool
    ensures { result ≡ is_word_byte byte }
{
    byte.is_ascii_alphanumeric() || byte == b'_'
}

/// Splits `text` at the end of the entry whose first `begun` bytes came earlier, or returns `None`
/// if the entry does not end in `text`.
#[inline(always)]
fn split_run(begun: usize, text: &[u8]) -> Option<(&[u8], &[u8])>
    requires { begun < 64 }
    ensures whole { IfSome result (λ parts. text.now ≡ parts.0.now ++ parts.1.now) }
    ensures entry { IfSome result (λ parts. EndsRun begun parts.0.now) }
    ensures shorter { IfSome result (λ parts. length parts.1.now < length text.now) }
    ensures none { IfNone result (IsRun text.now × (begun + length text.now < 64)) }
{
    let mut at = 0;
    while at < text.len() {
        if !is_word_character(text[at]) || begun + at == MOST_RUN - 1 {
            return Some((&text[..at + 1], &text[at + 1..]));
        }
        at += 1;
    }
    None
}
