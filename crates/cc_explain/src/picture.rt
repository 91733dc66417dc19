//! Rows of cells that show the positions of bytes in a window.
ghost use Rattle.std.specs.Prelude.{◌≡◌, ◌*◌, ◌+◌, ◌<◌, ◌≤◌, ◌^◌, ◌++◌, ◌↔◌, IsTrue, codes, length};
ghost use Rattle.cc_bounds.specs.Span.{SharesByte};
ghost use Rattle.cc_explain.specs.Explanation.{AreRows, cell_size, picture_text, row_text, ruler_text};
ghost use Rattle.cc_explain.specs.Picture.{IsPictureRow};

use crate::steps::{LAPS, Steps, section};
use cc_io::{MOST_TEXT, Text, end_with_hexadecimal, push_decimal};
use cc_word::Fields;

/// The number of cells in a row: eight for each section of the window.
const CELLS: usize = 64;

/// Consecutive bytes, at any position: from `first` to before `end`.
#[derive(Clone, Copy)]
struct Stretch {
    /// The first byte.
    first: u128,
    /// The byte after the last.
    end: u128,
}

/// The rows of a picture. A cell that nothing marks is a point.
#[derive(Clone, Copy)]
pub struct Rows {
    /// The cells that hold a byte of the bounds, marked `#`.
    pub bytes: [u8; CELLS],
    /// The cell of the base, marked `B`.
    pub base: [u8; CELLS],
    /// The cell of the byte at the top, marked `T`.
    pub top: [u8; CELLS],
    /// The cell of the address, marked `A`.
    pub address: [u8; CELLS],
}

/// Returns the rows of a word with these fields.
///
/// Requires: `steps.exponent <= 52`; `steps.start < 2^67`; `steps.base < 2^68`; `steps.top < 2^68`.
pub fn rows_of(fields: &Fields, steps: &Steps) -> Rows
    requires exponent { steps.now.exponent ≤ 52 }
    requires start { steps.now.start < 2 ^ 67 }
    requires base { steps.now.base < 2 ^ 68 }
    requires top { steps.now.top < 2 ^ 68 }
    ensures { AreRows fields.now steps.now result }
{
    let address = u128::from(fields.address) + LAPS;
    Rows {
        bytes: row_of(
            steps,
            &Stretch {
                first: steps.base,
                end: steps.top,
            },
            b'#',
        ),
        base: row_of(steps, &byte_at(steps.base), b'B'),
        top: row_of(steps, &byte_at(steps.top), b'T'),
        address: row_of(steps, &byte_at(address), b'A'),
    }
}

/// Returns the size of a cell in bytes: an eighth of a section.
fn cell_size(steps: &Steps) -> u128
    requires { steps.now.exponent ≤ 52 }
    ensures value { result ≡ cell_size steps.now }
    ensures fits { result ≤ 2 ^ 60 }
{
    section(steps.exponent) / 8
}

/// Returns the stretch of the one byte at an address.
fn byte_at(address: u128) -> Stretch
    requires { address < 2 ^ 68 }
    ensures { result ≡ record { first = address; end = address + 1 } }
{
    Stretch {
        first: address,
        end: address + 1,
    }
}

/// Returns the row of the window's 64 cells. A cell has the mark if it holds a byte of the stretch,
/// and otherwise is a point.
fn row_of(steps: &Steps, stretch: &Stretch, mark: u8) -> [u8; CELLS]
    requires exponent { steps.now.exponent ≤ 52 }
    requires start { steps.now.start < 2 ^ 67 }
    ensures { IsPictureRow steps.now.start (cell_size steps.now)
        (record { base = stretch.now.first; top = stretch.now.end }) mark result }
{
    let start = steps.start;
    let size = cell_size(steps);
    let mut row = [b'.'; CELLS];
    for index in 0..CELLS {
        let first = start + index as u128 * size;
        if shares_byte(
            &Stretch {
                first,
                end: first + size,
            },
            stretch,
        ) {
            row[index] = mark;
        }
    }
    row
}

/// Returns whether some byte is in both stretches.
fn shares_byte(one: &Stretch, other: &Stretch) -> bool
    ensures { IsTrue result ↔ SharesByte (record { base = one.now.first; top = one.now.end })
        (record { base = other.now.first; top = other.now.end }) }
{
    one.first.max(other.first) < one.end.min(other.end)
}

/// Appends the lines of the picture.
///
/// Requires: `steps.exponent <= 52`; `steps.first_section < 8`; 850 bytes of `text` are free.
pub fn push_picture(text: &mut Text, steps: &Steps, rows: &Rows)
    requires exponent { steps.now.exponent ≤ 52 }
    requires first { steps.now.first_section < 8 }
    requires room { length text.old + 850 ≤ MOST_TEXT }
    ensures { text.new ≡ text.old ++ picture_text steps.now rows.now }
{
    end_with_hexadecimal(
        text,
        b"picture   the window, in cells of ",
        cell_size(steps),
        b" bytes, 2^(E+8)",
    );
    push_ruler(text, u128::from(steps.first_section));
    push_row(text, b"bytes     ", &rows.bytes);
    push_row(text, b"base      ", &rows.base);
    push_row(text, b"top       ", &rows.top);
    push_row(text, b"address   ", &rows.address);
}

/// Appends a row and its name.
#[tactic(auto, unfolding(crate::specs::Explanation::row_text))]
fn push_row(text: &mut Text, name: &[u8], row: &[u8; CELLS])
    requires name { length name.now ≡ 10 }
    requires room { length text.old + 75 ≤ MOST_TEXT }
    ensures value { text.new ≡ text.old ++ row_text name.now row.now }
    ensures fits { length text.new ≤ length text.old + 75 }
{
    text.push(name);
    text.push(row);
    text.push(b"\n");
}

/// Appends the line with the numbers of the eight sections, each above its cells.
fn push_ruler(text: &mut Text, first: u128)
    requires first { first < 8 }
    requires room { length text.old + 400 ≤ MOST_TEXT }
    ensures value { text.new ≡ text.old ++ ruler_text first }
    ensures fits { length text.new ≤ length text.old + 400 }
{
    push_decimal(text, b"section   ", first);
    push_decimal(text, b"-------", (first + 1) % 8);
    push_decimal(text, b"-------", (first + 2) % 8);
    push_decimal(text, b"-------", (first + 3) % 8);
    push_decimal(text, b"-------", (first + 4) % 8);
    push_decimal(text, b"-------", (first + 5) % 8);
    push_decimal(text, b"-------", (first + 6) % 8);
    push_decimal(text, b"-------", (first + 7) % 8);
    text.push(b"-------\n");
}
