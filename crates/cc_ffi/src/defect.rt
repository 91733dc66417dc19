//! Why a word is not canonical.
ghost use Rattle.std.specs.Prelude.{◌≡◌, ◌≤◌, ◌↔◌};
ghost use Rattle.cc_ffi.specs.Numbers.{number_of_halves};
ghost use Rattle.cc_ffi.specs.Words.{OfFields};
ghost use Rattle.cc_ffi.specs.Defects.{IsFirstDefect, IsNumberOf};
ghost use Rattle.cc_bounds.specs.declared.span.Span.{Span as SpanSpec};
ghost use Rattle.cc_bounds.specs.Decoding.{DecodesTo};
ghost use Rattle.cc_cap.specs.Canonical.{IsCanonical};

use crate::halves::number;
use cc_cap::{Decoded, Defect};

/// Returns the number of a reason: 0 for none, and 1 to 5 in the order of the reasons.
fn number_of(defect: Option<Defect>) -> u8
    ensures number { IsNumberOf defect result }
    ensures fits { result ≤ 5 }
{
    match defect {
        None => 0,
        Some(Defect::ReservedBits) => 1,
        Some(Defect::ReservedType) => 2,
        Some(Defect::TopBelowBase) => 3,
        Some(Defect::TopPastEnd) => 4,
        Some(Defect::OtherFields) => 5,
    }
}

/// Returns 0 if the word is canonical, and otherwise the first of these reasons why it is not.
///
/// 1: a reserved bit is set. 2: the type is reserved. 3: the top is below the base. 4: the top is
/// above 2^64. 5: setting the bounds that the word decodes to stores other bounds fields.
#[unsafe(no_mangle)]
pub extern "C" fn cheri_cap_defect(high: u64, low: u64) -> u8
    ensures canonical { (result ≡ 0) ↔ IsCanonical (number_of_halves high low) }
    ensures first { OfFields (number_of_halves high low) (λ fields.
        (span : SpanSpec) → DecodesTo fields span → IsFirstDefect fields span result) }
    ensures fits { result ≤ 5 }
{
    number_of(Decoded::of_word(number(high, low)).defect())
}
