//! Replies to one line.
ghost use Rattle.std.specs.Prelude.{◌≡◌, ◌+◌, ◌≤◌, length, Result, Ok};
ghost use Rattle.cc_word.specs.declared.refusal.Refusal.{Refusal as RefusalSpec};
ghost use Rattle.cc_values.specs.declared.op.Op.{Op as OpSpec};
ghost use Rattle.cc_syntax.specs.Commands.{operation_of};
ghost use Rattle.cc_script.specs.Answering.{IsAnswered};
ghost use Rattle.cc_script.specs.Session.{HasSameMachine, TakesScriptLine};

use crate::session::Session;
use cc_io::Page;
use cc_machine::{Machine, Op, Reply};
use cc_syntax::{MOST_BYTES, Taker, push_reply, take_command};
use cc_word::Refusal;

/// Steps the machine of a session by a line of a script, and appends the reply and a line feed.
///
/// Requires: 193 bytes of the page `text` are free.
/// Errors: the refusal of the line or of its operation; the page is unchanged then.
#[inline(never)]
#[tactic(auto, unfolding(cc_syntax::specs::Commands::operation_of))]
pub fn answer_line<const N: usize>(
    session: &mut Session<'_>,
    text: &mut Page<N>,
    line: &[u8],
) -> Result<(), Refusal>
    requires { length text.old + 193 ≤ N }
    // The machine takes the line. At `Ok` the reply is appended, and at an error the text is
    // unchanged.
    ensures answers { IsAnswered session.old.machine.now (operation_of line.now) result text.old text.new
        session.new.machine.now }
    ensures fits { length text.new ≤ length text.old + 193 }
    ensures same { HasSameMachine session.old session.new }
    ensures tally { session.new.tally ≡ session.old.tally }
{
    if line.len() > MOST_BYTES {
        return Err(Refusal::TooLong);
    }
    take_command(session, text, line)
}

impl<const N: usize> Taker<N> for Session<'_> {
    type Out = Result<(), Refusal>;

    ghost Taken = { TakesScriptLine };

    #[inline(always)]
    fn take(&mut self, text: &mut Page<N>, parsed: Result<Op, Refusal>) -> Result<(), Refusal> {
        match parsed {
            Ok(op) => answer_op(self.machine, text, &op),
            Err(refusal) => Err(refusal),
        }
    }
}

/// Executes an operation, and appends its reply and a line feed.
///
/// Requires: 193 bytes fit the page.
/// Errors: the refusal of the operation; the text is unchanged then.
#[inline(always)]
pub(crate) fn answer_op<const N: usize>(
    machine: &mut Machine,
    text: &mut Page<N>,
    op: &Op,
) -> Result<(), Refusal>
    requires { length text.old + 193 ≤ N }
    ensures answers { (command : Result OpSpec RefusalSpec) → command ≡ Ok op.now
        → IsAnswered machine.old command result text.old text.new machine.new }
    ensures fits { length text.new ≤ length text.old + 193 }
{
    let reply = machine.step(op);
    match reply {
        Reply::Refused(refusal) => Err(refusal),
        _ => {
            push_reply(text, &reply);
            text.push_known(*b"\n");
            Ok(())
        }
    }
}
