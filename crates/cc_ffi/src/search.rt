//! The search of memory for words that can be capabilities.
ghost use Rattle.std.specs.Prelude.{◌≡◌, ◌≢◌, ◌*◌, ◌<◌, ◌↔◌, IsTrue, if◌then◌else◌, length, min};
ghost use Rattle.std.specs.List.{SameFrom};
ghost use Rattle.cc_word.specs.Word.{word_of};
ghost use Rattle.cc_word.specs.Permissions.{HasAll};
ghost use Rattle.cc_bounds.specs.Decoding.{DecodesTo};
ghost use Rattle.cc_bounds.specs.Span.{HasByte};
ghost use Rattle.cc_bounds.specs.declared.span.Span.{Span as SpanSpec};
ghost use Rattle.cc_cap.specs.Capability.{Capability};
ghost use Rattle.cc_ffi.specs.Numbers.{number_in};
ghost use Rattle.cc_ffi.specs.Search.{EndsSearch, HasTag, IsListed, IsWordFor, IsWanted, IsWantedAt};
ghost use Rattle.cc_ffi.specs.Search.{searchable};

use crate::c_memory::word_of;
use crate::halves::number;
use crate::structs::{Halves, Query};
use cc_bounds::decode;
use cc_cap::is_canonical;
use cc_word::{Fields, SENTRY_TYPE, UNSEALED_TYPE, pack, unpack};

/// Writes the positions of the words of memory that the query wants, in increasing order, until
/// `positions` is full, and the position of the first word that it did not examine. Returns the
/// number of positions.
///
/// If the query needs a tag, a word has its bit in `tag_bits`, the lowest of a byte first, and the
/// words past the last bit are not examined. If it does not, `tag_bits` does not matter.
#[unsafe(no_mangle)]
pub extern "C" fn cheri_cap_search_memory(
    memory: &[[u8; 16]],
    big_endian: bool,
    tag_bits: &[u8],
    query: &Query,
    positions: &mut [u64],
    next: &mut usize,
) -> usize
    ensures listed { IsListed (IsWantedAt query.now big_endian memory.now tag_bits.now) positions.new result next.new }
    ensures ends { EndsSearch positions.new (length positions.old) (searchable query.now memory.now tag_bits.now)
        result next.new }
    ensures rest { SameFrom positions.old positions.new result }
{
    let end = end_of(memory.len(), tag_bits.len(), query.needs_tag);
    let mut count = 0;
    let mut i = 0;
    'words: while i < end && count < positions.len() {
        if is_wanted_at(query, memory, big_endian, tag_bits, i) {
            positions[count] = i as u64;
            count += 1;
        }
        i += 1;
    }
    *next = i;
    count
}

/// Returns the number of words that a search can examine: all, or if it needs a tag those that have
/// a bit for it.
fn end_of(words: usize, tag_bytes: usize, needs_tag: bool) -> usize
    ensures { result ≡ if needs_tag then min words (8 * tag_bytes) else words }
{
    if needs_tag && tag_bytes <= words / 8 {
        8 * tag_bytes
    } else {
        words
    }
}

/// Returns whether the query wants the word at a position of memory.
#[inline(always)]
fn is_wanted_at(
    query: &Query,
    memory: &[[u8; 16]],
    big_endian: bool,
    tag_bits: &[u8],
    i: usize,
) -> bool
    requires { i < searchable query.now memory.now tag_bits.now }
    ensures { IsTrue result ↔ IsWantedAt query.now big_endian memory.now tag_bits.now i }
{
    (!query.needs_tag || has_tag(tag_bits, i)) && is_wanted(query, word_of(memory[i], big_endian))
}

/// Returns whether the bit at a position is set.
fn has_tag(tag_bits: &[u8], i: usize) -> bool
    requires { i < 8 * length tag_bits.now }
    ensures { IsTrue result ↔ HasTag tag_bits.now i }
{
    (tag_bits[i / 8] >> (i % 8)) % 2 == 1
}

/// Returns whether the query wants the word.
#[inline(always)]
fn is_wanted(query: &Query, word: Halves) -> bool
    ensures { IsTrue result ↔ IsWanted query.now (number_in word) }
{
    let word = number(word.high, word.low);
    let fields = unpack(word);
    if !has_wanted_perms(query, fields.perms) {
        return false;
    }
    if !is_taggable(query, word, &fields) {
        return false;
    }
    contains_wanted(query, &fields)
}

/// Returns whether the permissions are those that the query wants.
fn has_wanted_perms(query: &Query, perms: u16) -> bool
    ensures { IsTrue result ↔ (HasAll perms query.now.perms × (IsTrue query.now.needs_permission → perms ≢ 0)) }
{
    perms & query.perms == query.perms && (!query.needs_permission || perms != 0)
}

/// Returns whether the bounds of the fields contain the byte that the query wants.
#[inline(always)]
fn contains_wanted(query: &Query, fields: &Fields) -> bool
    ensures { (span : SpanSpec) → DecodesTo fields.now span
        → (IsTrue result ↔ (IsTrue query.now.needs_address → HasByte span query.now.address)) }
{
    !query.needs_address || decode(fields).contains(query.address)
}

/// Returns whether the word of these fields can have a tag, and the query wants its type.
#[inline(always)]
fn is_taggable(query: &Query, word: u128, fields: &Fields) -> bool
    requires { word_of fields.now ≡ word }
    ensures { IsTrue result ↔ ((cap : Capability) × IsWordFor query.now cap word) }
{
    match fields.otype {
        SENTRY_TYPE => query.sentries
            && is_canonical(pack(&Fields {
                perms: fields.perms,
                reserved: fields.reserved,
                flag: fields.flag,
                otype: UNSEALED_TYPE,
                ie: fields.ie,
                t: fields.t,
                b: fields.b,
                address: fields.address,
            })),
        UNSEALED_TYPE => is_canonical(word),
        _ => query.sealed && is_canonical(word),
    }
}
