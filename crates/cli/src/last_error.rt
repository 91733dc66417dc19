//! The last error of a device of the process, for a user at a terminal.
ghost use Rattle.std.specs.Prelude.{◌≡◌};

use crate::fault::Fault;
use crate::input::InputName;
use std::alloc::Global;
use std::cell::Cell;
use std::io::{self, ErrorKind, Read, Write};

/// The code of the system for a broken pipe.
const EPIPE: i32 = 32;

/// The last error of a device of the process, and the file that is read.
///
/// A [`Fault`] has no code of the system: contracts compare it, and none says which code an error has. So the code does
/// not pass through the results of devices. No clause says what is in it. `tests/program` shows what is printed.
#[derive(Drop)]
pub struct LastError {
    is_terminal: bool,
    code: Cell<Option<i32>>,
    file: Cell<Option<String>>,
}

impl LastError {
    /// Creates a value without an error. Only if standard error is a terminal, anything is printed.
    pub fn new(is_terminal: bool) -> LastError {
        LastError {
            is_terminal,
            code: Cell::new(None),
            file: Cell::new(None),
        }
    }

    /// Keeps the name of the input that is opened.
    pub(crate) fn set_input(&self, alloc: Global, input: InputName<'_>) {
        self.file.set(match input {
            InputName::File(path) if self.is_terminal => String::from_str(alloc, path).ok(),
            _ => None,
        });
    }

    /// Keeps the code of an error. A call that was interrupted is repeated.
    pub(crate) fn set_error(&self, error: &io::Error) {
        if error.kind() != ErrorKind::Interrupted {
            self.code.set(error.raw_os_error());
        }
    }

    /// Returns whether nothing is printed: at a terminal, if the reader of the output is gone.
    pub(crate) fn is_silent(&self, fault: Fault) -> bool {
        self.is_terminal && matches!(fault, Fault::Write) && self.code.get() == Some(EPIPE)
    }

    /// Prints the file and the error on standard error, if that is a terminal.
    pub(crate) fn print<R: Eprint>(&self, rt: &R, fault: Fault) {
        let file = self.file.replace(None);
        let name = match fault {
            Fault::Memory => return,
            Fault::Write => "standard output",
            Fault::Open | Fault::Read => match &file {
                Some(file) => file.as_str(),
                None => "standard input",
            },
        };
        if let (true, Some(code)) = (self.is_terminal, self.code.get()) {
            let error = io::Error::from_raw_os_error(code);
            let _ = eprintln!(rt; "cheri-cap: {name}: {error}");
        }
    }
}

/// A reader or a writer whose errors are kept.
#[derive(Drop)]
pub struct Noting<'a, D> {
    device: D,
    last_error: &'a LastError,
}

impl<'a, D> Noting<'a, D> {
    /// Creates a device whose errors are kept in `last_error`.
    pub fn new(device: D, last_error: &'a LastError) -> Self
        ensures { result.device ≡ device }
    {
        Noting { device, last_error }
    }
}

impl<D: Read> Read for Noting<'_, D> {
    ghost remaining = { λ noting. D.remaining noting.device };

    fn read(&mut self, room: &mut [u8]) -> io::Result<usize> {
        let result = self.device.read(room);
        if let Err(error) = &result {
            self.last_error.set_error(error);
        }
        result
    }
}

impl<D: Write> Write for Noting<'_, D> {
    fn write(&mut self, piece: &[u8]) -> io::Result<usize> {
        let result = self.device.write(piece);
        if let Err(error) = &result {
            self.last_error.set_error(error);
        }
        result
    }

    fn flush(&mut self) -> io::Result<()> {
        let result = self.device.flush();
        if let Err(error) = &result {
            self.last_error.set_error(error);
        }
        result
    }
}
