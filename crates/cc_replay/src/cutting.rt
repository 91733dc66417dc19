//! Values that are separated by one byte.
ghost use Rattle.std.specs.Prelude.{◌≡◌, ◌≤◌, ◌==◌, length};
ghost use Rattle.std.specs.List.{after_first, before_first};
ghost use Rattle.cc_replay.specs.Ltrace.{after_or_all, has_byte};

use cc_values::position_of;

/// Returns the bytes before the first byte of this value, and those after it. If there is none,
/// these are all bytes and no bytes.
pub(crate) fn cut(text: &[u8], at: u8) -> (&[u8], &[u8])
    ensures before { result.0.now ≡ before_first (λ byte. byte == at) text.now }
    ensures after { result.1.now ≡ after_first (λ byte. byte == at) text.now }
    ensures before_fits { length result.0.now ≤ length text.now }
    ensures after_fits { length result.1.now ≤ length text.now }
{
    match position_of(text, at) {
        Some(count) => (&text[..count], &text[count + 1..]),
        None => (text, &[]),
    }
}

/// Returns the bytes after the first byte of this value, or all bytes if there is none.
pub(crate) fn after_or_all(text: &[u8], at: u8) -> &[u8]
    ensures { result.now ≡ after_or_all at text.now }
{
    match position_of(text, at) {
        Some(count) => &text[count + 1..],
        None => text,
    }
}

/// Returns whether a byte of this value is among the bytes.
pub(crate) fn has_byte(text: &[u8], at: u8) -> bool
    ensures { result ≡ has_byte at text.now }
{
    position_of(text, at).is_some()
}
