//! The end of the program, its message, and its exit status.
ghost use Rattle.std.specs.Prelude.{◌≡◌};
ghost use Rattle.clap.specs.Words.{kind_of};
ghost use Rattle.cli.specs.Outcome.{EndsBy, ending_of, status_of};

use crate::fault::Fault;
use crate::last_error::LastError;
use cc_io::Summary;
use clap::Error;
use clap::error::ErrorKind;

/// The end of the program.
#[derive(Clone, Copy)]
pub enum Ending {
    /// The output was written, or the help or version that was requested.
    Answered(Summary),
    /// The command line was refused.
    Refused,
    /// The program stopped before its end.
    Stopped(Fault),
}

/// Returns the end of a program whose command had this result.
pub fn ending_of(answer: Result<Summary, Fault>) -> Ending
    ensures { result ≡ ending_of answer }
{
    match answer {
        Ok(summary) => Ending::Answered(summary),
        Err(fault) => Ending::Stopped(fault),
    }
}

/// Returns the exit status of a program whose command had this result: 0 if no reply was an error, 1 if one was, and 3
/// if the program stopped before its end.
pub fn status(answer: &Result<Summary, Fault>) -> u8
    ensures { result ≡ status_of (ending_of answer.now) }
{
    ending_status(ending_of(*answer))
}

/// Returns the exit status: 0 if no reply was an error, 1 if one was, 2 if the command line was refused, and 3 if the
/// program stopped before its end.
pub fn ending_status(ending: Ending) -> u8
    ensures { result ≡ status_of ending }
{
    match ending {
        Ending::Answered(summary) => u8::from(summary.any_error),
        Ending::Refused => 2,
        Ending::Stopped(_) => 3,
    }
}

/// Prints the reason that clap did not accept the arguments: the requested help or version on standard output, and the
/// error of a command line on standard error.
pub fn tell<R: Print + Eprint>(rt: &R, error: &Error) -> Ending
    ensures { EndsBy (kind_of error.now) result }
{
    match error.kind() {
        ErrorKind::OutOfMemory => Ending::Stopped(Fault::Memory),
        ErrorKind::DisplayHelp | ErrorKind::DisplayVersion => match error.print(rt) {
            Ok(()) => Ending::Answered(Summary { any_error: false }),
            Err(_) => Ending::Stopped(Fault::Write),
        },
        _ => {
            let _ = error.print(rt);
            Ending::Refused
        }
    }
}

/// Returns the exit status. If the program stopped before its end, prints the error on standard error first, and at a
/// terminal the file and the reason; there it prints nothing if the reader of its output is gone.
pub fn finish<R: Eprint>(rt: &R, ending: Ending, last_error: &LastError) -> u8
    ensures { result ≡ status_of ending }
{
    if let Ending::Stopped(fault) = ending {
        if !last_error.is_silent(fault) {
            let _ = eprintln!(rt; "{fault}");
            last_error.print(rt, fault);
        }
    }
    ending_status(ending)
}
