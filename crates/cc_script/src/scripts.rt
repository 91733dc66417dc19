//! Runs of scripts, with each reply written before the next line is taken.
ghost use Rattle.std.specs.Prelude.{[]};
ghost use Rattle.cc_io.specs.Devices.{AreReady, IsOutcome};
ghost use Rattle.cc_script.specs.Main.{io_of};
ghost use Rattle.cc_script.specs.Failures.{RunsScript, StopsInReply};
ghost use Rattle.cc_script.specs.Laws.{KeepsLaws};
ghost use Rattle.cc_syntax.specs.Planning.{plan_opening};

use crate::running::run_session;
use crate::session::Session;
use cc_bounds::{Align, Len};
use cc_io::{IoError, Sink, Source, Summary, WholeLine};
use cc_machine::{Machine, Op};
use cc_syntax::{Tally, plan_opening};

/// Runs the script that the source gives: steps the machine by each line, and writes its reply
/// before the next line is taken.
///
/// The sink is flushed once, at the end of the script. Allocates nothing. Whatever the result, the
/// machine then keeps the laws of every run.
///
/// Requires: neither the source nor the sink has failed.
/// Errors: `Read` if and only if the source failed. The replies to all complete lines that it gave
/// are then written, and the machine has taken these lines alone. `Write` if and only if the sink
/// failed. A prefix of the output is then written, and the machine has taken the line whose reply
/// was cut, and none after it.
pub fn run_script<R: Source, W: Sink>(
    machine: &mut Machine,
    source: &mut R,
    sink: &mut W,
) -> Result<Summary, IoError>
    requires { AreReady (R.state source.old) (W.state sink.old) }
    // The main theorem (`main`), and what was written before a failure (`fails`).
    ensures runs { RunsScript StopsInReply []
        (io_of machine.old (R.state source.old) (W.state sink.old)) result
        (io_of machine.new (R.state source.new) (W.state sink.new)) }
    ensures outcome { IsOutcome (R.state source.new) (W.state sink.new) result }
    ensures laws { KeepsLaws machine.old machine.new }
{
    run_script_after(&[], machine, source, sink)
}

/// Makes the pool of `length` bytes from `base`, with this alignment, and runs the script that the
/// source gives.
///
/// The machine takes the operations of [`plan_opening`](cc_syntax::plan_opening) first. Their replies are written,
/// including refusals, and then the script is run whatever they are. Each reply is written before the next line is
/// taken.
///
/// Requires: neither the source nor the sink has failed.
/// Errors: those of [`run_script`]. Whatever the result, the machine then keeps the laws of every
/// run.
pub fn plan_script<R: Source, W: Sink>(
    machine: &mut Machine,
    base: u64,
    length: Len,
    align: Align,
    source: &mut R,
    sink: &mut W,
) -> Result<Summary, IoError>
    requires { AreReady (R.state source.old) (W.state sink.old) }
    ensures runs { RunsScript StopsInReply (plan_opening base length align)
        (io_of machine.old (R.state source.old) (W.state sink.old)) result
        (io_of machine.new (R.state source.new) (W.state sink.new)) }
    ensures outcome { IsOutcome (R.state source.new) (W.state sink.new) result }
    ensures laws { KeepsLaws machine.old machine.new }
{
    run_script_after(&plan_opening(base, length, align), machine, source, sink)
}

/// Runs the script that begins with these setup operations and continues with the bytes that the
/// source gives.
///
/// It runs like a script that [`run_script`] takes from the source alone. The reply to a setup
/// operation is the same as to a line with this operation.
///
/// Requires: neither the source nor the sink has failed.
/// Errors: those of [`run_script`].
pub fn run_script_after<R: Source, W: Sink>(
    opening: &[Op],
    machine: &mut Machine,
    source: &mut R,
    sink: &mut W,
) -> Result<Summary, IoError>
    requires { AreReady (R.state source.old) (W.state sink.old) }
    ensures runs { RunsScript StopsInReply opening.now
        (io_of machine.old (R.state source.old) (W.state sink.old)) result
        (io_of machine.new (R.state source.new) (W.state sink.new)) }
    ensures outcome { IsOutcome (R.state source.new) (W.state sink.new) result }
    ensures laws { KeepsLaws machine.old machine.new }
{
    let mut session = Session {
        machine,
        tally: Tally::new(),
    };
    let mut page = WholeLine::new();
    run_session(opening, &mut session, source, sink, &mut page)
}
