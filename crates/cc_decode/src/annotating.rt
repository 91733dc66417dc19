//! Copies a text, with the line of each word after the word.
ghost use Rattle.cc_io.specs.Devices.{AreReady};
ghost use Rattle.cc_decode.specs.Annotate.{AnnotatesGiven};

use crate::annotator::{Annotator, Before};
use crate::runs::Runs;
use crate::writers::Batch;
use cc_io::{IoError, Sink, Source, Summary, pump};

/// Copies the text that the source gives to the sink, and writes a space and the one-line form of
/// each word after the word.
///
/// A word is 32 hexadecimal digits of either case, or two halves of 16 with `_` or `:` between,
/// with or without `0x` before. No letter, digit or underscore comes right before or right after.
/// Lines may have any length, and bytes any value. The source is read in chunks of up to 16 KiB.
/// Before each read, all of the text is written, except word characters at its end, of which at
/// most 63 are kept. The sink is flushed once, at the end. Allocates nothing.
///
/// Requires: neither the source nor the sink has failed.
/// Errors: `Read` if and only if the source failed. The text before the failure is then written,
/// except these word characters. `Write` if and only if the sink failed. It has then taken a prefix
/// of the output.
pub fn annotate<R: Source, W: Sink>(source: &mut R, sink: &mut W) -> Result<Summary, IoError>
    requires { AreReady (R.state source.old) (W.state sink.old) }
    ensures { AnnotatesGiven (R.state source.old) (R.state source.new) (W.state sink.old) (W.state sink.new) result }
{
    let mut page = Batch::new();
    let mut annotator = Annotator {
        before: Before::Outside,
    };
    pump(&Runs, &mut annotator, source, sink, &mut page)
}
