//! The intermediate results of decoding, from the fields of a word to its bounds.
ghost use Rattle.std.specs.Prelude.{◌≡◌, ◌*◌, ◌+◌, ◌<◌, ◌≤◌, ◌^◌};
ghost use Rattle.cc_bounds.specs.Decoding.{IsPlaced, IsTopMantissa, IsWindow};
ghost use Rattle.cc_bounds.specs.Decoding.{base_mantissa, first_section, stored_exponent};
ghost use Rattle.cc_bounds.specs.Window.{section_of};
ghost use Rattle.cc_explain.specs.Steps.{AreSteps};
ghost use Rattle.cc_explain.specs.declared.steps.TheConstants.{LAPS};

use cc_cap::Decoded;
use cc_word::Fields;

/// Four times the size of the address space: 2^66. It raises numbers that could be below zero.
pub const LAPS: u128 = 1 << 66;

/// The intermediate results of decoding: the exponent, the mantissas, and their places in the
/// window.
#[derive(Clone, Copy)]
pub struct Steps {
    /// The exponent E, from 0 to 52.
    pub exponent: u8,
    /// The base mantissa B, 14 bits.
    pub b: u16,
    /// The top mantissa T, 14 bits.
    pub t: u16,
    /// The section with which the window begins, from 0 to 7.
    pub first_section: u16,
    /// The start of the window, raised by [`LAPS`].
    pub start: u128,
    /// The place of B in the window, raised by [`LAPS`].
    pub base: u128,
    /// The place of T in the window, raised by [`LAPS`].
    pub top: u128,
}

/// Returns the steps of decoding a word. There are no other such steps.
pub fn decoding_steps(decoded: &Decoded) -> Steps
    ensures { AreSteps decoded.now.fields result }
{
    let Decoded {
        fields,
        exponent,
        ..
    } = *decoded;
    let b = base_mantissa(&fields);
    let t = top_mantissa(&fields);
    let start = window_start(&fields, exponent);
    Steps {
        exponent,
        b,
        t,
        first_section: first_section(&fields),
        start,
        base: place(&fields, exponent, start, b),
        top: place(&fields, exponent, start, t),
    }
}

/// Returns the size of a section in bytes, an eighth of the window: 2^(E+11).
///
/// Requires: `exponent <= 52`.
pub fn section(exponent: u8) -> u128
    requires { exponent ≤ 52 }
    ensures value { result ≡ section_of exponent }
    ensures some { 0 < result }
    ensures fits { result ≤ 2 ^ 63 }
{
    1 << (u32::from(exponent) + 11)
}

/// Returns the base mantissa: the B field, whose low three bits are treated as 0 with IE.
fn base_mantissa(fields: &Fields) -> u16
    ensures value { result ≡ base_mantissa fields.now }
    ensures fits { result < 2 ^ 14 }
{
    if fields.ie { fields.b & !0x7 } else { fields.b }
}

/// Returns the top mantissa: the T field, whose low three bits are treated as 0 with IE, and above
/// it the two implied bits.
fn top_mantissa(fields: &Fields) -> u16
    ensures value { IsTopMantissa fields.now result }
    ensures fits { result < 2 ^ 14 }
{
    let base = base_mantissa(fields);
    let stored = if fields.ie { fields.t & !0x7 } else { fields.t };
    let length = (u16::from(fields.ie) << 12) | (stored.wrapping_sub(base) & 0xfff);
    (base + length) & 0x3fff
}

/// Returns the section with which the window begins, from 0 to 7: the one below that of B.
fn first_section(fields: &Fields) -> u16
    ensures { result ≡ first_section fields.now }
{
    (base_mantissa(fields) / 2048 + 7) % 8
}

/// Returns the start of the window that has the address in it, raised by [`LAPS`].
fn window_start(fields: &Fields, exponent: u8) -> u128
    requires { exponent ≡ stored_exponent fields.now }
    ensures { IsWindow fields.now result }
{
    let section = section(exponent);
    let first = u128::from(first_section(fields)) * section;
    let address = u128::from(fields.address) + LAPS;
    address - (address - first) % (8 * section)
}

/// Returns the place of a mantissa in the window that begins at `start`.
fn place(fields: &Fields, exponent: u8, start: u128, mantissa: u16) -> u128
    requires is_exponent { exponent ≡ stored_exponent fields.now }
    requires window { IsWindow fields.now start }
    requires fits { mantissa < 2 ^ 14 }
    ensures { IsPlaced fields.now mantissa result }
{
    let size = 8 * section(exponent);
    let scaled = u128::from(mantissa) * unit(exponent);
    start + (scaled + size - start % size) % size
}

/// Returns the unit of a mantissa in bytes: 2^E.
///
/// Requires: `exponent <= 52`.
pub fn unit(exponent: u8) -> u128
    requires { exponent ≤ 52 }
    ensures value { result ≡ 2 ^ exponent }
    ensures fits { result ≤ 2 ^ 52 }
{
    1 << exponent
}
