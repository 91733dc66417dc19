//! Two values, and sets of permissions.
ghost use Rattle.std.specs.Prelude.{◌≡◌, ◌==◌};
ghost use Rattle.std.specs.List.{slice_split};
ghost use Rattle.bitflags.specs.Sets.{find_name};
ghost use Rattle.cc_word.specs.Permissions.{permission_table};
ghost use Rattle.cc_values.specs.Values.{both, permissions_in, with_names};

use crate::split::split_at_first;
use cc_word::{Perms, Refusal};
use std::str;

/// Returns both values, or the error. Of two errors it is `Syntax` if the first is, otherwise the second.
pub fn both<A: Copy, B: Copy>(
    first: Result<A, Refusal>,
    second: Result<B, Refusal>,
) -> Result<(A, B), Refusal>
    ensures { result ≡ both first second }
{
    match first {
        Ok(first) => second.map(|second| (first, second)),
        Err(Refusal::Syntax) => Err(Refusal::Syntax),
        Err(refusal) => match second {
            Ok(_) => Err(refusal),
            Err(other) => Err(other),
        },
    }
}

/// Parses a set of permissions: names in upper case, joined by `+`, in any order and repeated or
/// not, or `-` for none.
///
/// Errors: `Syntax` for any other string.
#[inline(always)]
pub fn read_permissions(text: &[u8]) -> Result<Perms, Refusal>
    ensures { result ≡ permissions_in text.now }
{
    if text == b"-".as_slice() {
        return Perms::from_bits(0).ok_or(Refusal::Syntax);
    }
    match read_names(text) {
        Some(bits) => Perms::from_bits(bits).ok_or(Refusal::Syntax),
        None => Err(Refusal::Syntax),
    }
}

/// Returns the bits of the permissions whose names are joined by `+`.
#[inline(always)]
fn read_names(text: &[u8]) -> Option<u16>
    ensures { result ≡ with_names 0 (slice_split (λ byte. byte == 43) text.now) }
{
    let mut bits = 0;
    let mut rest = text;
    'names: while let Some((name, after)) = split_at_first(rest, b'+') {
        bits |= read_name(name)?;
        rest = after;
    }
    Some(bits | read_name(rest)?)
}

/// Returns the bit of the permission of this name.
fn read_name(name: &[u8]) -> Option<u16>
    ensures { result ≡ find_name permission_table name.now }
{
    match str::from_utf8(name) {
        Ok(name) => Perms::from_name(name).map(Perms::bits),
        Err(_) => None,
    }
}
