//! The window of a word: the addresses at which it decodes to the same bounds.
ghost use Rattle.std.specs.Prelude.{ℕ, ◌≡◌, ◌-◌, ◌^◌, ◌<◌, ◌≤◌, ◌↔◌};
ghost use Rattle.cc_ffi.specs.Numbers.{number_of_halves};
ghost use Rattle.cc_ffi.specs.Words.{OfFields};
ghost use Rattle.cc_ffi.specs.Windows.{IsFromTo, IsEveryAddress};
ghost use Rattle.cc_bounds.specs.declared.span.Span.{Span as SpanSpec};
ghost use Rattle.cc_bounds.specs.Decoding.{stored_exponent, DecodesTo};
ghost use Rattle.cc_bounds.specs.Window.{IsRepresentable};

use crate::halves::number;
use crate::structs::Window;
use cc_cap::Decoded;

/// The smallest exponent at which every address is in the window.
const FIRST_WITHOUT_END: u8 = 50;

/// Returns the window of this base and exponent.
///
/// It has eight sections of 2^(exponent+11) bytes, and begins one section below that of the base.
fn window_of(base: u64, exponent: u8) -> Window
    requires { exponent ≤ 52 }
    ensures window { (address : ℕ) → address < 2 ^ 64
        → (IsFromTo result.first result.last address ↔ IsRepresentable base exponent address) }
    ensures large { 50 ≤ exponent → IsEveryAddress result }
{
    if exponent >= FIRST_WITHOUT_END {
        return Window {
            first: 0,
            last: u64::MAX,
        };
    }
    let section_width = exponent + 11;
    let first = ((base >> section_width) << section_width).wrapping_sub(1 << section_width);
    Window {
        first,
        last: first.wrapping_add((8 << section_width) - 1),
    }
}

/// Returns the first and the last address of the window of any word: of the addresses at which a
/// word with its bounds fields decodes to the same bounds.
///
/// The window goes up from the first address to the last. If the last is below the first, it goes
/// through 2^64 - 1 and on from 0. At exponents of at least 50, it is from 0 to 2^64 - 1.
#[unsafe(no_mangle)]
pub extern "C" fn cheri_cap_window(high: u64, low: u64) -> Window
    // Between the two are exactly the addresses at which the bounds fields decode to the same
    // bounds.
    ensures window { OfFields (number_of_halves high low) (λ fields.
        (span : SpanSpec) (address : ℕ) → DecodesTo fields span → address < 2 ^ 64
        → (IsFromTo result.first result.last address ↔ IsRepresentable span.base (stored_exponent fields) address)) }
    ensures large { OfFields (number_of_halves high low)
        (λ fields. 50 ≤ stored_exponent fields → IsEveryAddress result) }
{
    let decoded = Decoded::of_word(number(high, low));
    window_of(decoded.bounds.base, decoded.exponent)
}
