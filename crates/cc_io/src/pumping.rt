//! The engine: reads entries from a source, and writes the replies to them to a sink.
ghost use Rattle.std.specs.Prelude.{◌≡◌, ◌≤◌, ◌<◌, ◌+◌, ℕ, true, false, List, [], take, length, ◌↔◌, Err, IfOk};
ghost use Rattle.std.specs.Prelude.{OnOk, OnErr, IsErr, ◌++◌};
ghost use Rattle.cc_io.specs.Devices.{AreReady, IsOutcome, SendsBytes, TakesPrefix, WritesBytes};
ghost use Rattle.cc_io.specs.Answers.{AnswersInto, seen};
ghost use Rattle.cc_io.specs.Correct.{Pumps, StopsOnPage};
ghost use Rattle.cc_io.specs.Engine.{AnswersPiece, PassesPage, EndsPage};

use crate::Page;
use crate::answerer::Answerer;
use crate::devices::{Failed, Sink, Source, write_all};
use crate::framing::Framing;
use crate::line_start::{LineStart, SEEN};
use crate::summary::{IoError, Summary};

/// The maximum number of bytes in one read.
// on the stack: each page of a larger frame would be touched at every call
const PIECE: usize = 16384;

/// Writes the bytes on the page, and then the reply to each entry that the source gives.
///
/// The source is read in chunks of up to 16 KiB. The replies to all entries of a chunk are written
/// before the next read, and none is pending then. An entry that ends in a later chunk gets its
/// reply then. [`Answerer::end`] replies to the bytes after the last entry, unless there are none.
/// Once the answerer is done, no further entry gets a reply, and the source is read no further, which
/// no clause says.
/// The sink is flushed once, at the end. Allocates nothing.
///
/// Requires: neither the source nor the sink has failed; `A::most() <= N`; the answerer is not done.
/// Errors: `Read` if and only if the source failed. The replies to all complete entries that it
/// gave are then written, and the answerer has taken these entries alone. `Write` if and only if
/// the sink failed. It has then taken a prefix of the output. The answerer may be ahead of the sink
/// by the entries whose replies fit on one page.
///
/// The page is not cleared after the last reply.
pub fn pump<F: Framing, A: Answerer<N>, R: Source, W: Sink, const N: usize>(
    framing: &F,
    answerer: &mut A,
    source: &mut R,
    sink: &mut W,
    page: &mut Page<N>,
) -> Result<Summary, IoError>
    requires ready { AreReady (R.state source.old) (W.state sink.old) }
    requires room { A.MOST ≤ N }
    requires goes_on { A.done answerer.old ≡ false }
    ensures pumps { Pumps A.done A.Answered A.Ended (F.frame framing.now) N A.MOST answerer.old page.old
        (R.state source.old).unread (R.state source.new).unread (W.state sink.old).taken (W.state sink.new).taken
        result answerer.new }
    ensures outcome { IsOutcome (R.state source.new) (W.state sink.new) result }
{
    let mut start = LineStart::new();
    let mut piece = [0u8; PIECE];
    match write_page(page, sink) {
        Ok(()) => {}
        Err(Failed) => return Err(IoError::Write),
    }
    let mut any_error = false;
    'pieces: loop {
        let count = match source.read(&mut piece) {
            Ok(count) => count,
            Err(Failed) => return Err(IoError::Read),
        };
        if count == 0 {
            break;
        }
        match take_piece(framing, answerer, &mut start, page, &piece[..count], sink) {
            Ok(is_error) => any_error |= is_error,
            Err(Failed) => return Err(IoError::Write),
        }
        // asked again, since the result of the chunk does not say why it ended
        if answerer.is_done() {
            return match sink.flush() {
                Ok(()) => Ok(Summary { any_error }),
                Err(Failed) => Err(IoError::Write),
            };
        }
    }
    let end_error = end_rest(answerer, start.as_slice(), page);
    match write_and_flush(page, sink) {
        Ok(()) => Ok(Summary {
            any_error: any_error | end_error,
        }),
        Err(error) => Err(error),
    }
}

/// Replies to the entries that end in a chunk, keeps the start of the next entry in `start`, and
/// writes all the replies. Returns whether one of them was an error.
fn take_piece<F: Framing, A: Answerer<N>, W: Sink, const N: usize>(
    framing: &F,
    answerer: &mut A,
    start: &mut LineStart,
    page: &mut Page<N>,
    piece: &[u8],
    sink: &mut W,
) -> Result<bool, Failed>
    requires sink { (W.state sink.old).has_failed ≡ false }
    requires room { A.MOST ≤ N }
    requires start { F.IsBegun framing.now start.old }
    requires empty { page.old ≡ [] }
    requires goes_on { A.done answerer.old ≡ false }
    ensures ok { (begun : List ℕ) → start.old ≡ take 129 begun → IfOk result (λ error.
        AnswersPiece A.done A.Answered (F.frame framing.now) answerer.old begun piece.now start.new
        (W.state sink.old).taken (W.state sink.new).taken error answerer.new) }
    ensures err { (begun : List ℕ) → start.old ≡ take 129 begun → OnErr result (
        StopsOnPage A.Answered N A.MOST answerer.old [] (seen ((F.frame framing.now).entries begun piece.now))
        (W.state sink.old).taken (W.state sink.new).taken answerer.new) }
    ensures begun { OnOk result (F.IsBegun framing.now start.new) }
    ensures empty { OnOk result (page.new ≡ []) }
    ensures fails { IsErr result ↔ ((W.state sink.new).has_failed ≡ true) }
{
    let mut any_error = false;
    let mut rest = piece;
    'entries: while let Some((end, after)) = framing.split(start.as_slice(), rest) {
        match make_room(A::most(), page, sink) {
            Ok(()) => {}
            Err(Failed) => return Err(Failed),
        }
        any_error |= end_entry(answerer, start, page, end);
        if answerer.is_done() {
            return match write_page(page, sink) {
                Ok(()) => Ok(any_error),
                Err(Failed) => Err(Failed),
            };
        }
        rest = after;
    }
    start.extend(rest);
    match write_page(page, sink) {
        Ok(()) => Ok(any_error),
        Err(Failed) => Err(Failed),
    }
}

/// Replies to the entry that ends with these bytes, and returns whether the reply is an error.
#[inline(always)]
fn end_entry<A: Answerer<N>, const N: usize>(
    answerer: &mut A,
    start: &mut LineStart,
    page: &mut Page<N>,
    end: &[u8],
) -> bool
    requires room { length page.old + A.MOST ≤ N }
    requires goes_on { A.done answerer.old ≡ false }
    ensures next { start.new ≡ [] }
    ensures answers { (begun : List ℕ) → start.old ≡ take 129 begun →
        AnswersInto A.Answered answerer.old (take 129 (begun ++ end.now)) page.old page.new result answerer.new }
{
    if start.is_empty() {
        // all of the entry is in this chunk
        answerer.answer(first_bytes(end), page)
    } else {
        end_begun(answerer, start, page, end)
    }
}

/// Replies to an entry that began before the chunk, and returns whether the reply is an error.
#[cold]
#[inline(never)]
fn end_begun<A: Answerer<N>, const N: usize>(
    answerer: &mut A,
    start: &mut LineStart,
    page: &mut Page<N>,
    end: &[u8],
) -> bool
    requires room { length page.old + A.MOST ≤ N }
    requires goes_on { A.done answerer.old ≡ false }
    ensures next { start.new ≡ [] }
    ensures answers { (begun : List ℕ) → start.old ≡ take 129 begun →
        AnswersInto A.Answered answerer.old (take 129 (begun ++ end.now)) page.old page.new result answerer.new }
{
    start.extend(end);
    let is_error = answerer.answer(start.as_slice(), page);
    start.clear();
    is_error
}

/// Returns the bytes of an entry that an answerer sees.
#[inline(always)]
fn first_bytes(entry: &[u8]) -> &[u8]
    ensures { result.now ≡ take 129 entry.now }
{
    if entry.len() > SEEN {
        &entry[..SEEN]
    } else {
        entry
    }
}

/// Replies to trailing bytes, unless there are none, and returns whether the reply is an error.
fn end_rest<A: Answerer<N>, const N: usize>(
    answerer: &mut A,
    rest: &[u8],
    page: &mut Page<N>,
) -> bool
    requires empty { page.old ≡ [] }
    requires room { A.MOST ≤ N }
    requires goes_on { A.done answerer.old ≡ false }
    ensures { EndsPage A.Ended answerer.old rest.now page.new result answerer.new }
{
    if rest.is_empty() {
        return false;
    }
    answerer.end(rest, page)
}

/// Writes the page and clears it if `most` bytes do not fit on it, so that they fit.
///
/// Requires: the sink has not failed; `most <= N`.
/// Errors: `Failed` if and only if the sink fails. A prefix of the page is then written.
#[inline(always)]
pub fn make_room<W: Sink, const N: usize>(
    most: usize,
    page: &mut Page<N>,
    sink: &mut W,
) -> Result<(), Failed>
    requires sink { (W.state sink.old).has_failed ≡ false }
    requires room { most ≤ N }
    ensures ok { OnOk result (PassesPage (W.state sink.old).taken (W.state sink.new).taken page.old page.new) }
    ensures room { OnOk result (length page.new + most ≤ N) }
    ensures err { OnErr result (TakesPrefix (W.state sink.old).taken (W.state sink.new).taken page.old) }
    ensures some { OnErr result (0 < length page.old) }
    ensures within { OnErr result (length page.old ≤ N) }
    ensures fails { IsErr result ↔ ((W.state sink.new).has_failed ≡ true) }
{
    if most <= N - page.len() {
        return Ok(());
    }
    write_page(page, sink)
}

/// Writes the page and clears it.
#[inline(never)]
fn write_page<W: Sink, const N: usize>(page: &mut Page<N>, sink: &mut W) -> Result<(), Failed>
    requires { (W.state sink.old).has_failed ≡ false }
    ensures writes { WritesBytes (W.state sink.old) (W.state sink.new) page.old result }
    ensures empty { OnOk result (page.new ≡ []) }
    ensures some { OnErr result (0 < length page.old) }
    ensures within { OnErr result (length page.old ≤ N) }
{
    match write_all(sink, page.bytes()) {
        Ok(()) => {
            page.clear();
            Ok(())
        }
        Err(Failed) => Err(Failed),
    }
}

/// Writes a page, then flushes the sink.
///
/// Requires: the sink has not failed.
/// Errors: `Write` if and only if the sink fails. A prefix of the page is then written.
pub fn write_and_flush<W: Sink, const N: usize>(page: &Page<N>, sink: &mut W) -> Result<(), IoError>
    requires { (W.state sink.old).has_failed ≡ false }
    ensures sends { SendsBytes (W.state sink.old) (W.state sink.new) page.now result }
    ensures write { OnErr result (result ≡ Err IoError.Write) }
{
    match write_all(sink, page.bytes()) {
        Ok(()) => match sink.flush() {
            Ok(()) => Ok(()),
            Err(Failed) => Err(IoError::Write),
        },
        Err(Failed) => Err(IoError::Write),
    }
}
