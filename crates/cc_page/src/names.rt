//! The names of permissions and of refusals, which the functions for C return as numbers.
ghost use Rattle.std.specs.Prelude.{◌≡◌, ◌≤◌, ◌↔◌, drop, length, IfSome, IsSome};
ghost use Rattle.cc_io.specs.Permissions.{permissions_text};
ghost use Rattle.cc_page.specs.Texts.{Holds, IsLineOfCode};
ghost use Rattle.cc_word.specs.Refusal.{code_of};

use crate::texts::put;
use bitflags::Flags;
use cc_cap::Perms;
use cc_io::{MOST_TEXT, Text, push_permissions, push_refusal};
use cc_word::Refusal;

/// Writes the names of permissions, joined by `+`, or `-` for none, to the start of the bytes, and
/// returns their length. The bytes after them do not change.
#[unsafe(no_mangle)]
pub extern "C" fn cheri_page_permissions(perms: u16, bytes: &mut [u8; MOST_TEXT]) -> usize
    ensures text { Holds (λ text. text ≡ permissions_text perms) bytes.new result }
    ensures rest { drop result bytes.new ≡ drop result bytes.old }
{
    let mut text = Text::new();
    push_permissions(&mut text, Perms::from_bits_retain(perms));
    put(&text, bytes)
}

/// Writes the line of a refusal of a rule, `error CODE NAME`, by its code from 7 to 16, to the start
/// of the bytes, and returns its length, or 0 for any other number. The bytes after it do not
/// change.
#[unsafe(no_mangle)]
pub extern "C" fn cheri_page_refusal(code: u8, bytes: &mut [u8; MOST_TEXT]) -> usize
    ensures line { 7 ≤ code → code ≤ 16 → Holds (IsLineOfCode code) bytes.new result }
    ensures none { (¬ (7 ≤ code × code ≤ 16)) → result ≡ 0 }
    ensures rest { drop result bytes.new ≡ drop result bytes.old }
{
    let mut text = Text::new();
    if let Some(refusal) = refusal_of(code) {
        push_refusal(&mut text, refusal);
    }
    put(&text, bytes)
}

/// Returns the refusal of a rule with this code, or `None` for a number that is not one from 7 to 16.
fn refusal_of(code: u8) -> Option<Refusal>
    ensures code { IfSome result (λ refusal. code_of refusal ≡ code) }
    ensures found { IsSome result ↔ (7 ≤ code × code ≤ 16) }
{
    match code {
        7 => Some(Refusal::Sealed),
        8 => Some(Refusal::Unsealed),
        9 => Some(Refusal::OutOfBounds),
        10 => Some(Refusal::Inexact),
        11 => Some(Refusal::Unrepresentable),
        12 => Some(Refusal::MissingPermission),
        13 => Some(Refusal::ReservedType),
        14 => Some(Refusal::TypeMismatch),
        15 => Some(Refusal::NotCanonical),
        16 => Some(Refusal::ExceedsAuthority),
        _ => None,
    }
}
