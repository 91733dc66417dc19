//! The layout of words: fields from words, and words from fields.
ghost use Rattle.std.specs.Prelude.{◌≡◌, ◌+◌, ◌*◌, ◌/◌, ◌%◌, ◌^◌, ◌<◌, ◌≤◌};
ghost use Rattle.std.specs.Int.RustNames.{bit_xor};
ghost use Rattle.cc_word.specs.Word.{bit_of, word_of};
ghost use Rattle.cc_word.specs.Layout.{plain_layout_of, null_layout};
ghost use Rattle.cc_word.specs.declared.fields.Fields.{Fields as FieldsSpec};

use crate::fields::Fields;

/// The layout of the null capability: type 0x3ffff, IE, T field 6, B field 4. A word in memory is
/// the layout of its fields with these bits inverted, so that null is all zeros.
const NULL_LAYOUT: u128 = 0x0000_1fff_fc01_8004_0000_0000_0000_0000;

/// Returns the layout of a word, or the word of a layout: both invert the bits of null's layout.
#[tactic(auto, using(crate::proofs::WordLemmas::turned_twice))]
fn turned(number: u128) -> u128
    ensures turned { result ≡ bit_xor number null_layout }
    ensures back { bit_xor result null_layout ≡ number }
{
    number ^ NULL_LAYOUT
}

/// Returns the `width` bits of a layout from bit `low` up.
#[tactic(auto, using(crate::proofs::WordLemmas::masked))]
fn bits(layout: u128, low: u32, width: u32) -> u128
    requires low_fits { low < 128 }
    requires width_fits { width < 128 }
    ensures { result ≡ layout / 2 ^ low % 2 ^ width }
{
    (layout >> low) & ((1 << width) - 1)
}

/// Returns the bit of a layout at `low`.
fn bit(layout: u128, low: u32) -> bool
    requires { low < 128 }
    ensures { bit_of result ≡ layout / 2 ^ low % 2 }
{
    bits(layout, low, 1) == 1
}

/// Returns the fields of a layout, each from its own bits.
#[tactic(auto, unfolding(crate::specs::Layout::plain_layout_of))]
fn fields_of_layout(layout: u128) -> Fields
    ensures { plain_layout_of result ≡ layout }
{
    Fields {
        perms: bits(layout, 112, 16) as u16,
        reserved: bits(layout, 110, 2) as u8,
        flag: bit(layout, 109),
        otype: bits(layout, 91, 18) as u32,
        ie: bit(layout, 90),
        t: bits(layout, 78, 12) as u16,
        b: bits(layout, 64, 14) as u16,
        address: bits(layout, 0, 64) as u64,
    }
}

/// Returns the bits of `high`, followed by `width` bits of `low`.
#[tactic(auto, using(crate::proofs::WordLemmas::or_below))]
fn followed(high: u128, low: u128, width: u32) -> u128
    requires low_fits { low < 2 ^ width }
    requires width_fits { width < 128 }
    requires all_fit { high * 2 ^ width + low < 2 ^ 128 }
    ensures { result ≡ high * 2 ^ width + low }
{
    (high << width) | low
}

/// Returns the layout of fields: each at its own bits, before the bits of null are inverted.
#[tactic(auto, unfolding(crate::specs::Layout::plain_layout_of))]
fn layout(fields: &Fields) -> u128
    ensures { result ≡ plain_layout_of fields.now }
{
    let layout = u128::from(fields.perms);
    let layout = followed(layout, u128::from(fields.reserved), 2);
    let layout = followed(layout, u128::from(fields.flag), 1);
    let layout = followed(layout, u128::from(fields.otype), 18);
    let layout = followed(layout, u128::from(fields.ie), 1);
    let layout = followed(layout, u128::from(fields.t), 12);
    let layout = followed(layout, u128::from(fields.b), 14);
    followed(layout, u128::from(fields.address), 64)
}

/// Returns the fields of a word.
///
/// Every one of the 2^128 words has fields, canonical or not, and no other fields have this word.
///
/// Source: UCAM-CL-TR-987, the compressed capability encoding.
#[tactic(auto, using(crate::proofs::WordLemmas::layout_turned))]
pub fn unpack(word: u128) -> Fields
    ensures word { word_of result ≡ word }
    ensures only { (fields : FieldsSpec) → word_of fields ≡ word → fields ≡ result }
{
    fields_of_layout(turned(word))
}

/// Returns the word of fields. This is the inverse of [`unpack`].
///
/// Source: UCAM-CL-TR-987, the compressed capability encoding.
#[tactic(auto, using(crate::proofs::WordLemmas::layout_turned))]
pub fn pack(fields: &Fields) -> u128
    ensures { result ≡ word_of fields.now }
{
    turned(layout(fields))
}
