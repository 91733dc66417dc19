//! The tags of words.
ghost use Rattle.std.specs.Prelude.{◌≡◌, ◌↔◌, IsTrue, Some, option_map};
ghost use Rattle.cc_decode.specs.Tags.{IsTagged, after_tag, lacks_bit};

use crate::options::Tags;

/// Returns whether there are tags, but no bit for the next word.
pub(crate) fn lacks_bit(tags: Option<Tags<'_>>) -> bool
    ensures { result ≡ lacks_bit tags.entry }
{
    match tags {
        Some(tags) => tags.place / 8 >= tags.bits.len() as u64,
        None => false,
    }
}

/// Returns whether the bit of the next word is set, or its tag is not known.
pub(crate) fn is_tagged(tags: Option<Tags<'_>>) -> bool
    ensures { IsTrue result ↔ IsTagged tags.entry }
{
    match tags {
        Some(tags) => has_tag(tags),
        None => true,
    }
}

/// Returns whether the bit of the next word is set.
fn has_tag(tags: Tags<'_>) -> bool
    ensures { IsTrue result ↔ IsTagged (Some tags.entry) }
{
    let index = tags.place / 8;
    index < tags.bits.len() as u64 && (tags.bits[index as usize] >> (tags.place % 8)) % 2 == 1
}

/// Returns the tags for the rest of an input after its first entry.
pub(crate) fn next_tags(tags: Option<Tags<'_>>) -> Option<Tags<'_>>
    ensures { result ≡ option_map after_tag tags.entry }
{
    match tags {
        Some(tags) => Some(Tags {
            bits: tags.bits,
            place: tags.place.wrapping_add(1),
        }),
        None => None,
    }
}
