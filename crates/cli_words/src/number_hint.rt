//! The hint on a number that may be hexadecimal digits without `0x`.
ghost use Rattle.std.specs.Prelude.{◌≡◌, ◌&&◌, ◌||◌, IsTrue, false};
ghost use Rattle.std.specs.Io.KnownBytes.{Appends};
ghost use Rattle.cli_words.specs.NumberHint.{hint_if, is_bare_base};

use crate::bare_digits::is_bare;
use cc_io::{Sink, write_all};
use cli::Base;

/// Returns whether a base is given, and its text is such a number.
fn is_bare_base(base: Option<Base<'_>>) -> bool
    ensures { result ≡ is_bare_base base.entry }
{
    match base {
        Some(base) => is_bare(base.text.as_bytes()),
        None => false,
    }
}

/// Writes the hint if hints are given, and the base, if one is given, is such a number, or another number is, which
/// `bare` says. Errors of the sink are ignored.
pub(crate) fn hint_numbers<E: Sink>(hints: bool, base: Option<Base<'_>>, bare: bool, errors: &mut E)
    requires { (E.state errors.old).has_failed ≡ false }
    ensures hinted { (E.state errors.new).has_failed ≡ false
        → Appends (E.state errors.old).taken (E.state errors.new).taken
        (hint_if (hints && (is_bare_base base.entry || bare))) }
    ensures silent { ¬ IsTrue (hints && (is_bare_base base.entry || bare)) → errors.new ≡ errors.old }
{
    if hints && (is_bare_base(base) || bare) {
        let _ = write_all(
            errors,
            b"hint: a number of 8 or 16 digits that begins with 0 is read as decimal: \
              put 0x before hexadecimal digits\n",
        );
    }
}
