//! The execution of the program's command line: on given devices, and on those of the process.
ghost use Rattle.std.specs.Prelude.{◌≡◌, ◌≢◌, ◌↔◌, ◌⊎◌, [], IfErr, IfOk, MatchResult, OnErr};
ghost use Rattle.std.specs.Prelude.{false, true, List, Option};
ghost use Rattle.clap.specs.Walk.{texts};
ghost use Rattle.clap.specs.Words.{App, FailsBy, Row, Text, kind_of, subcommand_of};
ghost use Rattle.cli.specs.declared.outcome.Ending.TheVariants as ending;
ghost use Rattle.cli.specs.declared.outcome.Ending.{Ending as EndingSpec};
ghost use Rattle.cli.specs.declared.invocation.Invocation.{Invocation as InvocationSpec};
ghost use Rattle.cli_program.specs.Ending.{AnswersEveryScript, ExecutesCommand, failures_of};
ghost use Rattle.cli_program.specs.Execution.{IsUnasked, effect_of};
ghost use Rattle.cli_program.specs.Refusals.{EndsByArguments, FindsReplay, FindsTexts, has_good_texts};
ghost use Rattle.cli.specs.Devices.{console_of};
ghost use Rattle.cli.specs.Invocation.{IsInvocation, IsProgram, is_taken, kinds_in, value_mistake};
ghost use Rattle.cli.specs.Outcome.{EndsOn, status_of};

use crate::execution::execute;
use crate::memory::RunMemory;
use crate::replay_support::ReplaySupport;
use crate::terminals::Terminals;
use cc_io::{FromWriter, Sink};
use clap::Error;
use clap::error::ErrorKind;
use cli::{
    Ending, ErrorWriter, Fault, Inputs, Invocation, LastError, Memory, Noting, ProcessInputs,
    ending_of, finish, no_input, tell,
};
use std::alloc::AllocError;
use std::env::{self, Env};
use std::io;
use std::rt::Files;

/// Executes the command line of the process, and returns the exit status. The arguments have to be UTF-8.
///
/// No clause says that these are the arguments of the process; `tests/program` shows it.
///
/// Requires: no call of `memory` has failed.
pub fn run_program<
    R: Env + AllocGlobal + Files + Input + Print + Eprint,
    M: RunMemory + ReplaySupport,
>(rt: &R, memory: &mut M, terminals: Terminals) -> u8
    requires { M.has_failed memory.old ≡ false }
    ensures { (end : EndingSpec) × (result ≡ status_of end) }
{
    let last_error = LastError::new(terminals.errors);
    let ending = answer_arguments(rt, memory, terminals, &last_error);
    finish(rt, ending, &last_error)
}

/// Executes the command line of the process, and returns the program's end.
fn answer_arguments<
    R: Env + AllocGlobal + Files + Input + Print + Eprint,
    M: RunMemory + ReplaySupport,
>(rt: &R, memory: &mut M, terminals: Terminals, last_error: &LastError) -> Ending
    requires { M.has_failed memory.old ≡ false }
{
    let arguments = match env::args(rt) {
        Ok(arguments) => arguments.collect::<Vec<String>>(rt.alloc()),
        Err(error) if error.kind() == io::ErrorKind::OutOfMemory => Err(AllocError),
        Err(_) => {
            let _ = eprintln!(rt; "cheri-cap: an argument is not text");
            return Ending::Refused;
        }
    };
    match arguments {
        Ok(arguments) => answer_strings(rt, memory, terminals, arguments.as_slice(), last_error),
        Err(_) => Ending::Stopped(Fault::Memory),
    }
}

/// Executes a command line, and returns the program's end. The first argument is the program's name. Only
/// `tests/program` shows that these arguments are executed: no clause says so.
fn answer_strings<R: AllocGlobal + Files + Input + Print + Eprint, M: RunMemory + ReplaySupport>(
    rt: &R,
    memory: &mut M,
    terminals: Terminals,
    arguments: &[String],
    last_error: &LastError,
) -> Ending
    requires { M.has_failed memory.old ≡ false }
{
    // borrowed, so that `ask_for_help` can put another text in place of one without an allocation
    let words: Result<Vec<&str>, AllocError> = arguments
        .iter()
        .map(|argument| argument.as_str())
        .collect(rt.alloc());
    match words {
        Ok(mut words) => {
            ask_for_help(&mut words);
            answer_on_process(rt, memory, terminals, words.as_slice(), last_error)
        }
        Err(_) => Ending::Stopped(Fault::Memory),
    }
}

/// Makes `help COMMAND` the arguments `COMMAND --help`, and `help` the argument `--help`. clap's own command `help` is
/// disabled, so that the program has the commands of the table alone.
fn ask_for_help(words: &mut [&str]) {
    let count = words.len();
    if (count == 2 || count == 3) && words[1] == "help" {
        words[1] = "--help";
        words.swap(1, count - 1);
    }
}

/// Executes the arguments of a command line on the files and the standard streams of the process, and returns the
/// program's end.
///
/// Requires: no call of `memory` has failed.
pub fn answer_on_process<
    R: AllocGlobal + Files + Input + Print + Eprint,
    M: RunMemory + ReplaySupport,
>(rt: &R, memory: &mut M, terminals: Terminals, words: &[&str], last_error: &LastError) -> Ending
    requires { M.has_failed memory.old ≡ false }
    ensures refused { result ≡ ending.Refused → (app : App) × IsProgram app
        × ((is_taken app (texts words.now) ≡ false)
        ⊎ FindsTexts M.replay false (subcommand_of app (texts words.now))) }
    ensures ends { EndsByArguments M.replay (texts words.now) (λ kinds. EndsOn kinds result) }
{
    match try_on_process(rt, memory, terminals, words, last_error) {
        Ok(ending) => ending,
        Err(error) => tell(rt, &error),
    }
}

/// Executes the arguments of a command line on the files and the standard streams of the process, as [`answer_words`]
/// does on any devices.
fn try_on_process<R: AllocGlobal + Files + Input + Print + Eprint, M: RunMemory + ReplaySupport>(
    rt: &R,
    memory: &mut M,
    terminals: Terminals,
    words: &[&str],
    last_error: &LastError,
) -> Result<Ending, Error>
    requires { M.has_failed memory.old ≡ false }
    ensures accepted { IfOk result (λ end. end ≢ ending.Refused) }
    ensures kinds { EndsByArguments M.replay (texts words.now) (λ kinds. FailsBy kinds result) }
    ensures refused { IfErr result (λ error. (app : App) × IsProgram app × (is_taken app (texts words.now) ≡ true
        → (kind_of error ≡ ErrorKind.OutOfMemory)
        ⊎ FindsTexts M.replay false (subcommand_of app (texts words.now)))) }
{
    let mut inputs = ProcessInputs::new(
        rt,
        terminals.input && terminals.errors,
        terminals.errors,
        last_error,
    );
    // until the command opens its input
    let mut source = no_input();
    let mut sink = FromWriter::new(Noting::new(io::writer(rt), last_error));
    let mut errors = FromWriter::new(ErrorWriter { to: rt });
    answer_words(
        memory,
        terminals,
        words,
        &mut inputs,
        &mut source,
        &mut sink,
        &mut errors,
    )
}

/// Executes the arguments of a command line on these devices, and returns the program's end. The first argument is the
/// program's name.
///
/// Nothing but the devices is used.
///
/// Requires: no device has failed, and no input was requested.
/// Errors: clap does not accept the arguments, a text of `replay` is refused, help or the version is requested, or
/// memory ran out before the command was known. Nothing is read or written then.
pub fn answer_words<M: RunMemory + ReplaySupport, I: Inputs, W: Sink, E: Sink>(
    memory: &mut M,
    terminals: Terminals,
    words: &[&str],
    inputs: &mut I,
    source: &mut I::Opened,
    sink: &mut W,
    errors: &mut E,
) -> Result<Ending, Error>
    requires memory { M.has_failed memory.old ≡ false }
    requires source { (I.Opened.state source.old).has_failed ≡ false }
    requires inputs { I.has_refused inputs.old ≡ false }
    requires unasked { I.requested inputs.old [] ≡ true }
    requires sink { (W.state sink.old).has_failed ≡ false }
    requires errors { (E.state errors.old).has_failed ≡ false }
    // A command line that is accepted ends as its command does on these devices.
    ensures executes { IfOk result (λ end. (app : App) × IsProgram app
        × ExecutesCommand M.replay (subcommand_of app (texts words.now)) terminals
        (console_of (I.bytes_of inputs.old) (I.Opened.state source.new) (W.state sink.old) (W.state sink.new)
        (E.state errors.old) (E.state errors.new))
        (failures_of (I.has_refused inputs.new) (I.Opened.state source.new) (W.state sink.new) (M.has_failed memory.new)
        (I.requested inputs.new)) end) }
    // The main theorem of the program: from the arguments of `run` and `plan` to the bytes written
    // and the end. If a command line that clap accepts has no result, memory ran out, or the command is `replay`.
    ensures runs_script { (app : App) × IsProgram app × MatchResult result
        (λ end. (invocation : InvocationSpec) × IsInvocation (subcommand_of app (texts words.now)) invocation
        × AnswersEveryScript invocation
        (console_of (I.bytes_of inputs.old) (I.Opened.state source.new) (W.state sink.old) (W.state sink.new)
        (E.state errors.old) (E.state errors.new))
        (failures_of (I.has_refused inputs.new) (I.Opened.state source.new) (W.state sink.new) (M.has_failed memory.new)
        (I.requested inputs.new)) end) (λ error. is_taken app (texts words.now) ≡ true
        → (M.has_failed memory.new ≡ true) ⊎ FindsReplay (subcommand_of app (texts words.now))) }
    // Only the command's input is requested, once, and before it the file of its tags, if there is one.
    ensures asked { IfOk result (λ end. (app : App) × IsProgram app × (invocation : InvocationSpec)
        × IsInvocation (subcommand_of app (texts words.now)) invocation
        × (IsUnasked (effect_of M.replay terminals invocation).input (I.requested inputs.new)
        → (inputs.new ≡ inputs.old) × (source.new ≡ source.old))) }
    ensures accepted { IfOk result (λ end. end ≢ ending.Refused) }
    ensures good_texts { IfOk result (λ end. (app : App) × IsProgram app
        × FindsTexts M.replay true (subcommand_of app (texts words.now))) }
    ensures kinds { EndsByArguments M.replay (texts words.now) (λ kinds. FailsBy kinds result) }
    ensures refused { IfErr result (λ error. (app : App) × IsProgram app × (is_taken app (texts words.now) ≡ true
        → (kind_of error ≡ ErrorKind.OutOfMemory)
        ⊎ FindsTexts M.replay false (subcommand_of app (texts words.now)))) }
    ensures no_output { OnErr result (sink.new ≡ sink.old) }
    ensures no_report { OnErr result (errors.new ≡ errors.old) }
    ensures no_input { OnErr result (inputs.new ≡ inputs.old) }
    ensures allocates { IfErr result (λ error. (kind_of error ≡ ErrorKind.OutOfMemory)
        ↔ (M.has_failed memory.new ≡ true)) }
    ensures unread { OnErr result (source.new ≡ source.old) }
{
    // by `match`, since clauses speak of the error too, and `?` would convert it
    match read_invocation(memory, words) {
        Ok(invocation) => Ok(answer_invocation(
            memory, terminals, invocation, inputs, source, sink, errors,
        )),
        Err(error) => Err(error),
    }
}

/// Reads the arguments as a command whose texts are accepted.
fn read_invocation<'a, M: ReplaySupport>(
    memory: &mut M,
    words: &'a [&'a str],
) -> Result<Invocation<'a>, Error>
    requires { M.has_failed memory.old ≡ false }
    ensures read { IfOk result (λ invocation. (app : App) × IsProgram app
        × IsInvocation (subcommand_of app (texts words.now)) invocation
        × (has_good_texts M.replay invocation ≡ true)) }
    ensures kinds { EndsByArguments M.replay (texts words.now) (λ kinds. FailsBy kinds result) }
    ensures refused { IfErr result (λ error. (app : App) × IsProgram app × (is_taken app (texts words.now) ≡ true
        → (kind_of error ≡ ErrorKind.OutOfMemory)
        ⊎ FindsTexts M.replay false (subcommand_of app (texts words.now)))) }
    ensures fails { MatchResult result (λ invocation. M.has_failed memory.new ≡ false)
        (λ error. (kind_of error ≡ ErrorKind.OutOfMemory) ↔ (M.has_failed memory.new ≡ true)) }
{
    match memory.read_words(words) {
        Ok(invocation) => match check_replay_texts(memory, invocation) {
            Ok(()) => Ok(invocation),
            Err(error) => Err(error),
        },
        Err(error) => Err(error),
    }
}

/// Checks the texts of `replay`, which only its own crate can read: a program without it refuses the command.
fn check_replay_texts<M: ReplaySupport>(
    memory: &mut M,
    invocation: Invocation<'_>,
) -> Result<(), Error>
    requires { M.has_failed memory.old ≡ false }
    ensures kinds { FailsBy (kinds_in (value_mistake (has_good_texts M.replay invocation.entry))) result }
    ensures fails { MatchResult result (λ checked. M.has_failed memory.new ≡ false)
        (λ error. (kind_of error ≡ ErrorKind.OutOfMemory) ↔ (M.has_failed memory.new ≡ true)) }
{
    match invocation {
        Invocation::Replay { values, .. } => memory.check_replay(values),
        _ => Ok(()),
    }
}

/// Executes a command on these devices, and returns the program's end.
///
/// Requires: the command is one that clap can find; no device has failed, and no input was requested.
fn answer_invocation<M: RunMemory + ReplaySupport, I: Inputs, W: Sink, E: Sink>(
    memory: &mut M,
    terminals: Terminals,
    invocation: Invocation<'_>,
    inputs: &mut I,
    source: &mut I::Opened,
    sink: &mut W,
    errors: &mut E,
) -> Ending
    requires invocation { (found : Option (Text × List Row)) × IsInvocation found invocation }
    requires memory { M.has_failed memory.old ≡ false }
    requires source { (I.Opened.state source.old).has_failed ≡ false }
    requires inputs { I.has_refused inputs.old ≡ false }
    requires unasked { I.requested inputs.old [] ≡ true }
    requires sink { (W.state sink.old).has_failed ≡ false }
    requires errors { (E.state errors.old).has_failed ≡ false }
    ensures accepted { result ≢ ending.Refused }
    ensures asked { IsUnasked (effect_of M.replay terminals invocation.entry).input (I.requested inputs.new)
        → (inputs.new ≡ inputs.old) × (source.new ≡ source.old) }
    ensures executes { (found : Option (Text × List Row)) → IsInvocation found invocation.entry
        → ExecutesCommand M.replay found terminals
        (console_of (I.bytes_of inputs.old) (I.Opened.state source.new) (W.state sink.old) (W.state sink.new)
        (E.state errors.old) (E.state errors.new))
        (failures_of (I.has_refused inputs.new) (I.Opened.state source.new) (W.state sink.new) (M.has_failed memory.new)
        (I.requested inputs.new)) result }
{
    let result = execute(memory, invocation, terminals, inputs, source, sink, errors);
    ending_of(result)
}
