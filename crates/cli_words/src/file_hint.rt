//! The hints on a file of words: the segments of an ELF file are listed by `--elf`, and lines end in LF alone.
ghost use Rattle.std.specs.Prelude.{◌≡◌, IsTrue, drop, false};
ghost use Rattle.std.specs.Io.KnownBytes.{Appends};
ghost use Rattle.cli_words.specs.FileHint.{ends_in_cr, file_hint, hint_text, is_cr_lf, is_elf, is_file_hinted};
ghost use Rattle.cli_words.specs.FileHint.{whole_file};

use cc_io::{InputForm, Sink, write_all};
use cli::{InputName, Inputs};

/// Returns whether a file that begins with these bytes is an ELF file of class 64.
fn is_elf(start: &[u8]) -> bool
    ensures { result ≡ is_elf start.now }
{
    start.starts_with(b"\x7fELF\x02")
}

/// Returns whether CR LF comes at this position.
fn has_cr_lf(start: &[u8], at: usize) -> bool
    ensures { result ≡ is_cr_lf (drop at start.now) }
{
    start.len() >= at && start[at..].starts_with(b"\r\n")
}

/// Returns whether CR LF comes after the digits of a word, if a file begins with these bytes and with a word.
fn ends_in_cr(start: &[u8]) -> bool
    ensures { result ≡ ends_in_cr start.now }
{
    has_cr_lf(start, 32) || has_cr_lf(start, 34)
}

/// Returns whether there is a hint on a file that begins with these bytes.
fn is_file_hinted(form: InputForm, start: &[u8]) -> bool
    ensures { result ≡ is_file_hinted form start.now }
{
    match form {
        InputForm::Bytes(_) => is_elf(start),
        InputForm::Lines => ends_in_cr(start),
    }
}

/// Returns the hint on a file that is decoded in this form.
fn hint_text(form: InputForm) -> &'static [u8]
    ensures { result.now ≡ hint_text form }
{
    match form {
        InputForm::Bytes(_) => {
            b"hint: this is an ELF file: --elf in place of --bytes lists the words of its segments, \
              each with its address\n"
        }
        InputForm::Lines => b"hint: a line ends in CR: end lines in LF alone, as dos2unix does\n",
    }
}

/// Returns the file whose first bytes are decoded, or `None`. `skip` is the number of bytes to skip, if it is given.
fn whole_file<'a>(skip: Option<u64>, input: InputName<'a>) -> Option<&'a str>
    ensures { result ≡ whole_file skip input.entry }
{
    match (skip, input) {
        (None, InputName::File(path)) => Some(path),
        _ => None,
    }
}

/// Writes the hint on a file that begins with these bytes, if there is one. Errors of the sink are ignored.
fn hint_start<E: Sink>(form: InputForm, start: &[u8], errors: &mut E)
    requires { (E.state errors.old).has_failed ≡ false }
    ensures hinted { (E.state errors.new).has_failed ≡ false
        → Appends (E.state errors.old).taken (E.state errors.new).taken (file_hint form start.now) }
    ensures silent { ¬ IsTrue (is_file_hinted form start.now) → errors.new ≡ errors.old }
{
    if is_file_hinted(form, start) {
        let _ = write_all(errors, hint_text(form));
    }
}

/// Writes the hint on an input of `decode`, if hints are given and the first bytes of a file were decoded. Errors of
/// the sink are ignored.
///
/// Only `tests/program` shows when it writes: no clause says so.
pub(crate) fn hint_file<I: Inputs, E: Sink>(
    hints: bool,
    form: InputForm,
    skip: Option<u64>,
    inputs: &I,
    input: InputName<'_>,
    errors: &mut E,
)
    requires { (E.state errors.old).has_failed ≡ false }
    ensures { ¬ IsTrue hints → errors.new ≡ errors.old }
{
    if hints {
        if let Some(path) = whole_file(skip, input) {
            if let Some(start) = inputs.start_of(path) {
                hint_start(form, start.bytes(), errors);
            }
        }
    }
}
