//! The words that a search finds.
ghost use Rattle.std.specs.Prelude.{◌≡◌, ◌↔◌, IfSome, IsTrue};
ghost use Rattle.cc_bounds.specs.Span.{HasByte};
ghost use Rattle.cc_word.specs.Word.{word_of};
ghost use Rattle.cc_decode.specs.Search.{
  GrantsSearch,
  IsFound,
  IsListedWord,
  IsSentry,
  IsTaggable,
  unsealed_word,
};

use crate::options::Search;
use bitflags::Flags;
use cc_bounds::Span;
use cc_cap::{Decoded, is_canonical};
use cc_word::{Fields, Perms, SENTRY_TYPE, UNSEALED_TYPE, pack};

/// Returns whether a word is listed: every word is without a search.
pub(crate) fn is_listed(search: Option<Search>, word: u128) -> bool
    ensures { IsTrue result ↔ IsListedWord search word }
{
    match search {
        Some(search) => is_found(search, word),
        None => true,
    }
}

/// Returns whether a search finds a word.
fn is_found(search: Search, word: u128) -> bool
    ensures { IsTrue result ↔ IsFound search word }
{
    let decoded = Decoded::of_word(word);
    is_taggable(&decoded) && grants(search, &decoded.fields, &decoded.bounds)
}

/// Returns whether a word can have a tag.
fn is_taggable(decoded: &Decoded) -> bool
    ensures { IsTrue result ↔ IsTaggable decoded.now.fields }
{
    decoded.is_canonical() || is_sentry(&decoded.fields)
}

/// Returns whether a word with these fields is a sentry that is canonical once it is unsealed.
fn is_sentry(fields: &Fields) -> bool
    ensures { IsTrue result ↔ IsSentry fields.now }
{
    fields.otype == SENTRY_TYPE && is_canonical(pack(&unsealed(fields)))
}

/// Returns the fields with the type of an unsealed capability.
fn unsealed(fields: &Fields) -> Fields
    ensures { word_of result ≡ unsealed_word fields.now }
{
    Fields {
        perms: fields.perms,
        reserved: fields.reserved,
        flag: fields.flag,
        otype: UNSEALED_TYPE,
        ie: fields.ie,
        t: fields.t,
        b: fields.b,
        address: fields.address,
    }
}

/// Returns whether these fields and bounds have the permissions, the type and the address of a search.
fn grants(search: Search, fields: &Fields, bounds: &Span) -> bool
    ensures { IsTrue result ↔ GrantsSearch search fields.now bounds.now }
{
    (fields.perms != 0 || !search.needs_permission)
        && Perms::from_bits_retain(fields.perms).contains(search.perms)
        && (!search.unsealed || fields.otype == UNSEALED_TYPE)
        && has_byte(bounds, search.holds)
}

/// Returns whether the bounds contain the byte at this address, if there is one.
fn has_byte(bounds: &Span, address: Option<u64>) -> bool
    ensures { IsTrue result ↔ IfSome address (λ at. HasByte bounds.now at) }
{
    match address {
        Some(address) => bounds.contains(address),
        None => true,
    }
}
