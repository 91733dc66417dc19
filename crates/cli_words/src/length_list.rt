//! The output of `round` for a list: how setting bounds rounds each length of a list.
ghost use Rattle.std.specs.Prelude.{false};
ghost use Rattle.cc_io.specs.Devices.{AreReady};
ghost use Rattle.cli_words.specs.RoundList.{RoundsList};
ghost use Rattle.cli_words.specs.Rounder.{AnswersLength, RefusesLastBytes};

use crate::bare_digits::is_bare_line;
use crate::list_line::read_listed;
use crate::rounding::push_rounding;
use cc_io::{Answerer, IoError, Lines, Page, Sink, Source, Summary, pump, push_refusal};
use cc_word::Refusal;

/// The length of the page of output in bytes.
const ROOM: usize = 32768;

/// The maximum length of a line of a list in bytes, as of a script.
const MOST_LINE: usize = 128;

/// Replies to the lines of a list of lengths.
#[derive(Clone, Copy)]
pub(crate) struct Rounder {
    /// The base of each request, if the bounds that it is granted are shown.
    pub(crate) base: Option<u64>,
    /// Whether a line was decimal digits that may be meant as hexadecimal ones.
    pub(crate) bare: bool,
}

impl Answerer<ROOM> for Rounder {
    ghost Answered = { AnswersLength };

    ghost Ended = { RefusesLastBytes };

    ghost MOST = { 264 };

    #[inline(always)]
    fn is_done(&self) -> bool {
        false
    }

    #[inline(always)]
    fn most() -> usize {
        264
    }

    fn answer(&mut self, line: &[u8], out: &mut Page<ROOM>) -> bool {
        self.bare = self.bare || is_bare_line(line);
        if line.len() > MOST_LINE {
            push_refusal(out, Refusal::TooLong);
            return true;
        }
        match read_listed(self.base, line) {
            Ok((length, base)) => push_rounding(base, length, out),
            Err(refusal) => {
                push_refusal(out, refusal);
                true
            }
        }
    }

    fn end(&mut self, _rest: &[u8], out: &mut Page<ROOM>) -> bool {
        push_refusal(out, Refusal::Unfinished);
        true
    }
}

/// Writes the line `round LENGTH GRANULE MASK` for each line of a list of lengths, in order, or with
/// a base the line `round LENGTH GRANULE MASK BASE TOP`.
///
/// LENGTH is the number of bytes that bounds of this length take. Their base must be a multiple of
/// GRANULE. MASK rounds an address down to such a multiple. BASE and TOP are the bounds that a request of
/// this length is granted from the base after it in its line, or from `base` if there is none. For any
/// other line, the output is the first of these refusals that applies:
///
/// - `error 3 long`: the line has more than 128 bytes
/// - `error 1 syntax`: the line is not a number, or two with a space between
/// - `error 4 range`: the length is above 2^64, or its base is at least 2^64
/// - `error 9 bounds`: the request ends past 2^64
///
/// For bytes after the last line feed, unless there are none, the output is `error 2 unfinished`.
/// The source is read in chunks of up to 16 KiB. Before each read, the output for all earlier lines
/// is written. The sink is flushed once, at the end. Allocates nothing.
///
/// At `Ok`, `bare` is whether a number of a line is 8 or 16 decimal digits that begin with 0, as [`is_bare`] says.
///
/// Requires: neither the source nor the sink has failed.
/// Errors: `Read` if and only if the source failed. The output for all lines before the failure is
/// then written. `Write` if and only if the sink failed. It has then taken a prefix of the output.
pub fn round_list<R: Source, W: Sink>(
    base: Option<u64>,
    source: &mut R,
    sink: &mut W,
    bare: &mut bool,
) -> Result<Summary, IoError>
    requires { AreReady (R.state source.old) (W.state sink.old) }
    ensures { RoundsList base bare.new (R.state source.old) (R.state source.new) (W.state sink.old)
        (W.state sink.new) result }
{
    let mut page = Page::<ROOM>::new();
    let mut rounder = Rounder { base, bare: false };
    let result = pump(&Lines, &mut rounder, source, sink, &mut page);
    *bare = rounder.bare;
    result
}
