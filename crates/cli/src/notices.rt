//! Notices at a terminal while a command reads: how much of a trace has been read, and that a script is awaited.
ghost use Rattle.std.specs.Prelude.{◌≡◌, false};
ghost use Rattle.std.specs.Io.KnownBytes.{Appends};
ghost use Rattle.cli.specs.Notices.{clearing_text, percent_of, progress_text, waiting_text};

use cc_io::{Page, Sink, write_all};

/// Returns the percentage of a file that has been read, rounded down, or `None` once all of it has been.
pub fn percent_of(done: u64, length: u64) -> Option<u64>
    ensures { result ≡ percent_of done length }
{
    if done < length {
        Some((u128::from(done) * 100 / u128::from(length)) as u64)
    } else {
        None
    }
}

/// Writes the percentage of the trace that has been read, over what was written before. Errors of the sink are ignored.
///
/// The cursor is at the start of the line then, so that other output takes the place of the text. Only tests show when
/// it is called.
pub fn show_progress<E: Sink>(percent: u64, errors: &mut E)
    requires { (E.state errors.old).has_failed ≡ false }
    ensures { (E.state errors.new).has_failed ≡ false
        → Appends (E.state errors.old).taken (E.state errors.new).taken (progress_text percent) }
{
    let mut page: Page<64> = Page::new();
    page.push(b"replay: ");
    page.push_decimal(u128::from(percent));
    page.push(b" %\r");
    let _ = write_all(errors, page.bytes());
}

/// Clears the line of [`show_progress`]. Errors of the sink are ignored.
pub fn clear_progress<E: Sink>(errors: &mut E)
    requires { (E.state errors.old).has_failed ≡ false }
    ensures { (E.state errors.new).has_failed ≡ false
        → Appends (E.state errors.old).taken (E.state errors.new).taken clearing_text }
{
    let _ = write_all(errors, b"            \r");
}

/// Writes that the script is read from the terminal. Errors of the sink are ignored. Only tests show when it is called.
pub fn announce<E: Sink>(errors: &mut E)
    requires { (E.state errors.old).has_failed ≡ false }
    ensures { (E.state errors.new).has_failed ≡ false
        → Appends (E.state errors.old).taken (E.state errors.new).taken waiting_text }
{
    let _ = write_all(
        errors,
        b"hint: reading a script from the terminal, a command on each line; Control-D ends it\n",
    );
}
