//! The permissions of a word by name.
ghost use Rattle.std.specs.Prelude.{◌≡◌, ◌+◌, ◌*◌, ◌≤◌, ◌++◌, length};
ghost use Rattle.std.specs.List.{join_by};
ghost use Rattle.cc_word.specs.Permissions.{bits_of};
ghost use Rattle.cc_io.specs.Permissions.{in_quotes, names_length, names_of_set, permissions_array, permissions_text};
ghost use Rattle.cc_io.specs.Permissions.{rows_of};

use crate::page::Page;
use bitflags::{Flag, Flags};
use cc_word::Perms;

/// Appends the names of the permissions from bit 0 up, joined by `+`, or `-` if there are none: at
/// most 125 bytes.
///
/// Requires: 125 bytes of the page are free.
#[tactic(auto, unfolding(crate::specs::Permissions::permissions_text))]
pub fn push_permissions<const N: usize>(page: &mut Page<N>, perms: Perms)
    requires { length page.old + 125 ≤ N }
    ensures value { page.new ≡ page.old ++ permissions_text (bits_of perms) }
    ensures fits { length page.new ≤ length page.old + 125 }
{
    if perms.bits() == 0 {
        page.push(b"-");
    } else {
        push_names(page, perms, Perms::flags(), b"", b"+");
    }
}

/// Appends the names of the permissions from bit 0 up as an array of JSON: at most 159 bytes.
///
/// Requires: 159 bytes of the page are free.
#[tactic(auto, unfolding(crate::specs::Permissions::permissions_array))]
pub fn push_permissions_array<const N: usize>(page: &mut Page<N>, perms: Perms)
    requires { length page.old + 159 ≤ N }
    ensures value { page.new ≡ page.old ++ permissions_array (bits_of perms) }
    ensures fits { length page.new ≤ length page.old + 159 }
{
    page.push(b"[");
    push_names(page, perms, Perms::flags(), b"\"", b",");
    page.push(b"]");
}

/// Appends the names of those of the flags that the set has, each in these quotation marks, joined by
/// this separator.
fn push_names<const N: usize>(
    page: &mut Page<N>,
    perms: Perms,
    flags: &[Flag<Perms>],
    quote: &[u8],
    between: &[u8],
)
    requires { length page.old + names_length (2 * length quote.now + length between.now) (rows_of flags.now) ≤ N }
    ensures value { page.new ≡ page.old
        ++ join_by (in_quotes quote.now) between.now (names_of_set (bits_of perms) (rows_of flags.now)) }
    ensures fits { length page.new
        ≤ length page.old + names_length (2 * length quote.now + length between.now) (rows_of flags.now) }
{
    let mut separator: &[u8] = b"";
    for flag in flags {
        if perms.contains(*flag.value()) {
            push_quoted(page, separator, quote, flag.name().as_bytes());
            separator = between;
        }
    }
}

/// Appends a separator, and then a name in quotation marks.
fn push_quoted<const N: usize>(page: &mut Page<N>, separator: &[u8], quote: &[u8], name: &[u8])
    requires { length page.old + length separator.now + 2 * length quote.now + length name.now ≤ N }
    ensures value { page.new ≡ page.old ++ separator.now ++ in_quotes quote.now name.now }
    ensures fits { length page.new ≡ length page.old + length separator.now + 2 * length quote.now + length name.now }
{
    page.push(separator);
    page.push(quote);
    page.push(name);
    page.push(quote);
}
