//! The options of a listing that the values of `decode` request.
ghost use Rattle.std.specs.Prelude.{◌≡◌, option_map, unwrap_or};
ghost use Rattle.cli_words.specs.DecodeOptions.{options_of, part_of, search_of, tags_after};

use bitflags::Flags;
use cc_decode::{Options, Part, Search, Tags};
use cc_io::{Format, InputForm};
use cc_word::Perms;
use cli::{DecodeValues, SearchValues};

/// Returns the part of the input that is listed.
pub(crate) fn part_of(values: &DecodeValues<'_>) -> Part
    ensures { result ≡ part_of values.now }
{
    Part {
        skipped: values.skip.unwrap_or(0),
        count: values.count,
    }
}

/// Returns the options of the listing. `bits` are the bytes of the file of the tags, if there is one.
pub(crate) fn options_of<'a>(
    input: InputForm,
    format: Format,
    values: &DecodeValues<'_>,
    bits: Option<&'a [u8]>,
) -> Options<'a>
    ensures { result ≡ options_of input format values.now bits.entry }
{
    Options {
        input,
        format,
        at: values.at,
        tags: tags_after(values.skip, bits),
        search: search_of(bits.is_some(), values.search),
    }
}

/// Returns the tags of the words after the skipped bytes, if there are tags.
fn tags_after<'a>(skipped: Option<u64>, bits: Option<&'a [u8]>) -> Option<Tags<'a>>
    ensures { result ≡ option_map (tags_after (unwrap_or skipped 0)) bits.entry }
{
    match bits {
        Some(bits) => Some(Tags {
            bits,
            place: skipped.unwrap_or(0) / 16,
        }),
        None => None,
    }
}

/// Returns the search of `--holds`, `--perms` and `--unsealed`, or `None` if none is given.
pub(crate) fn search_of(tagged: bool, values: SearchValues) -> Option<Search>
    ensures { result ≡ search_of tagged values }
{
    if values.holds.is_some() || values.perms.is_some() || values.unsealed {
        Some(Search {
            holds: values.holds,
            perms: values.perms.unwrap_or(Perms::empty()),
            needs_permission: !tagged,
            unsealed: values.unsealed,
        })
    } else {
        None
    }
}
