//! The column of addresses.
ghost use Rattle.std.specs.Prelude.{◌≡◌, ◌≤◌, ◌+◌, ◌++◌, length, option_map};
ghost use Rattle.cc_decode.specs.Place.{next_address, opening_text, place_of, place_text};

use crate::writers::{Batch, push_byte, push_padded};
use cc_io::Format;

/// The number of bytes of an entry in memory.
const WORD_BYTES: u64 = 16;

/// Returns the address of the entry after the one at this address, if there is one.
pub(crate) fn next_place(at: Option<u64>) -> Option<u64>
    ensures { result ≡ option_map next_address at }
{
    match at {
        Some(address) => Some(address.wrapping_add(WORD_BYTES)),
        None => None,
    }
}

/// Appends the start of a line, and the column of an address, if there is one.
#[inline(always)]
pub(crate) fn push_place(batch: &mut Batch, format: Format, at: Option<u64>)
    requires { length batch.old + 43 ≤ 32768 }
    ensures value { batch.new ≡ batch.old ++ place_text format at }
    ensures fits { length batch.new ≤ length batch.old + 43 }
{
    push_opening(batch, format);
    match at {
        Some(address) => push_place_of(batch, format, address),
        None => batch.push(b""),
    }
}

/// Appends the brace that opens an object, or nothing in a format without objects.
#[inline(always)]
fn push_opening(batch: &mut Batch, format: Format)
    requires { length batch.old + 1 ≤ 32768 }
    ensures value { batch.new ≡ batch.old ++ opening_text format }
    ensures fits { length batch.new ≤ length batch.old + 1 }
{
    match format {
        Format::Columns | Format::Text | Format::Fixed | Format::Csv => batch.push(b""),
        Format::Json => batch.push(b"{"),
    }
}

/// Appends the column of an address.
fn push_place_of(batch: &mut Batch, format: Format, address: u64)
    requires { length batch.old + 42 ≤ 32768 }
    ensures value { batch.new ≡ batch.old ++ place_of format address }
    ensures fits { length batch.new ≤ length batch.old + 42 }
{
    let address = u128::from(address);
    match format {
        Format::Columns => {
            batch.push_hexadecimal(address);
            push_byte(batch, b' ');
        }
        Format::Text => {
            batch.push_hexadecimal(address);
            batch.push(b": ");
        }
        Format::Fixed => {
            push_padded(batch, address);
            push_byte(batch, b' ');
        }
        Format::Csv => {
            batch.push_hexadecimal(address);
            push_byte(batch, b',');
        }
        Format::Json => {
            batch.push(b"\"at\":\"");
            batch.push_hexadecimal(address);
            batch.push(b"\",");
        }
    }
}
