//! The run of a script from a source to a sink.
ghost use Rattle.std.specs.Prelude.{◌≡◌, ◌+◌, ◌≤◌, ◌<◌, ◌↔◌, [], Err, IfOk, IsErr, OnErr, false, length, map, Ok, true};
ghost use Rattle.std.specs.Io.KnownBytes.{Appends};
ghost use Rattle.cc_io.specs.Answers.{AnswersInto};
ghost use Rattle.cc_io.specs.Devices.{AreReady, IsOutcome};
ghost use Rattle.cc_script.specs.Failures.{StopsInReplies};
ghost use Rattle.cc_script.specs.Main.{io_of};
ghost use Rattle.cc_script.specs.Laws.{KeepsLaws};
ghost use Rattle.cc_script.specs.Running.{Opens, RunsSession};
ghost use Rattle.cc_script.specs.Session.{AnswersLine, HasSameMachine, RefusesScriptRest};
ghost use Rattle.cc_syntax.specs.Tally.{IsTally};

use crate::answering::{answer_line, answer_op};
use crate::session::Session;
use cc_io::{
    Answerer, Failed, IoError, Lines, MOST_LINE, Page, Sink, Source, Summary, make_room, pump,
    push_refusal,
};
use cc_machine::{Machine, Op};
use cc_syntax::Tally;
use cc_word::Refusal;

impl<const N: usize> Answerer<N> for Session<'_> {
    ghost Answered = { AnswersLine };

    ghost Ended = { RefusesScriptRest };

    ghost MOST = { 193 };

    #[inline(always)]
    fn is_done(&self) -> bool {
        false
    }

    #[inline(always)]
    fn most() -> usize
        ensures { result ≡ 193 }
    {
        MOST_LINE
    }

    #[inline(always)]
    fn answer(&mut self, entry: &[u8], out: &mut Page<N>) -> bool
        requires { length out.old + 193 ≤ N }
        ensures { AnswersInto AnswersLine self.old entry.now out.old out.new result self.new }
    {
        match answer_line(self, out, entry) {
            Ok(()) => {
                self.tally.take_line();
                false
            }
            Err(refusal) => {
                push_refusal(out, refusal);
                self.tally.take_refused(entry, refusal);
                true
            }
        }
    }

    fn end(&mut self, _rest: &[u8], out: &mut Page<N>) -> bool
        requires { length out.old + 193 ≤ N }
        ensures { AnswersInto RefusesScriptRest self.old _rest.now out.old out.new result self.new }
    {
        push_refusal(out, Refusal::Unfinished);
        self.tally.take_refused(b"", Refusal::Unfinished);
        true
    }
}

/// Runs the script that begins with these setup operations and continues with the bytes that the
/// source gives.
///
/// The replies are collected on the page. It is written when one more reply might not fit, and
/// before each read of the source. So each reply is written before the next line is taken if the
/// page holds one reply, 193 bytes. The sink is flushed once, at the end. Allocates nothing.
/// Whatever the result, the machine then keeps the laws of every run.
///
/// Requires: neither the source nor the sink has failed; no reply is counted yet; the page holds at
/// least one reply.
/// Errors: `Read` if and only if the source failed. The replies to all complete lines that it gave
/// are then written, and the machine has taken these lines alone. `Write` if and only if the sink
/// failed. A prefix of the output is then written. The machine has taken the line whose reply was
/// cut, and at most the lines after it whose replies were on the same page.
pub fn run_session<R: Source, W: Sink, const N: usize>(
    opening: &[Op],
    session: &mut Session<'_>,
    source: &mut R,
    sink: &mut W,
    page: &mut Page<N>,
) -> Result<Summary, IoError>
    requires ready { AreReady (R.state source.old) (W.state sink.old) }
    requires fresh { IsTally [] [] session.old.tally }
    requires room { 193 ≤ N }
    // The main theorem (`main`), what was written before a failure (`fails`), and the counts of the
    // replies at `Ok` (`counts`).
    ensures runs { RunsSession N opening.now
        (io_of session.old.machine.now (R.state source.old) (W.state sink.old)) result session.new.tally
        (io_of session.new.machine.now (R.state source.new) (W.state sink.new)) }
    ensures outcome { IsOutcome (R.state source.new) (W.state sink.new) result }
    ensures laws { KeepsLaws session.old.machine.now session.new.machine.now }
    ensures same { HasSameMachine session.old session.new }
{
    // a contract says that a run leads to each machine's state, but only of a machine that is called
    let _ = session.machine.slots();
    page.clear();
    let opening_error = match take_opening(
        opening,
        session.machine,
        &mut session.tally,
        sink,
        page,
    ) {
        Ok(is_error) => is_error,
        Err(Failed) => return Err(IoError::Write),
    };
    match pump(&Lines, session, source, sink, page) {
        Ok(summary) => Ok(Summary {
            any_error: opening_error | summary.any_error,
        }),
        Err(error) => Err(error),
    }
}

/// Steps the machine by the setup operations. Their replies are on the empty page, which is written
/// when one more might not fit. Returns whether a reply is an error.
fn take_opening<W: Sink, const N: usize>(
    opening: &[Op],
    machine: &mut Machine,
    tally: &mut Tally,
    sink: &mut W,
    page: &mut Page<N>,
) -> Result<bool, Failed>
    requires sink { (W.state sink.old).has_failed ≡ false }
    requires room { 193 ≤ N }
    requires empty { page.old ≡ [] }
    ensures ok { IfOk result (λ error.
        Opens N machine.old tally.old opening.now page.new (W.state sink.old).taken (W.state sink.new).taken error
        machine.new tally.new) }
    ensures err { OnErr result (
        StopsInReplies N machine.old (map Ok opening.now)
        (Appends (W.state sink.old).taken (W.state sink.new).taken) machine.new) }
    ensures fails { IsErr result ↔ ((W.state sink.new).has_failed ≡ true) }
{
    let mut any_error = false;
    for op in opening {
        match make_room(MOST_LINE, page, sink) {
            Ok(()) => {}
            Err(Failed) => return Err(Failed),
        }
        if let Err(refusal) = answer_op(machine, page, op) {
            push_refusal(page, refusal);
            tally.take_refused_opening(refusal);
            any_error = true;
        }
    }
    Ok(any_error)
}
