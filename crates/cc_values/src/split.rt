//! The parts of a string between bytes of a value.
ghost use Rattle.std.specs.Prelude.{◌≡◌, ◌<◌, ◌∷◌, [], ◌==◌, IfSome, IfNone, length};
ghost use Rattle.std.specs.List.{slice_split, position};

/// Returns the bytes before the first byte of this value and the bytes after it, or `None` if there
/// is no such byte.
pub fn split_at_first(text: &[u8], separator: u8) -> Option<(&[u8], &[u8])>
    ensures parts { IfSome result (λ parts. slice_split (λ byte. byte == separator) text.now
        ≡ parts.0.now ∷ slice_split (λ byte. byte == separator) parts.1.now) }
    ensures shorter { IfSome result (λ parts. length parts.1.now < length text.now) }
    ensures whole { IfNone result (slice_split (λ byte. byte == separator) text.now ≡ text.now ∷ []) }
{
    match position_of(text, separator) {
        Some(at) => Some((&text[..at], &text[at + 1..])),
        None => None,
    }
}

/// Returns the position of the first byte of this value.
pub fn position_of(text: &[u8], byte: u8) -> Option<usize>
    ensures { result ≡ position (λ other. other == byte) text.now }
{
    text.iter().position(|other| *other == byte)
}
