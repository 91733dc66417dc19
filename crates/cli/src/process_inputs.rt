//! The files and the standard input of the process, as inputs of commands.
ghost use Rattle.std.specs.Prelude.{◌≡◌, ◌≤◌, None, IfErr, IfOk, IsTrue, false, true, ◌↔◌};
ghost use Rattle.either.specs.Either.{is_left};
ghost use Rattle.cli.specs.Input.{IsFile};

use crate::error_writer::ErrorWriter;
use crate::fault::Fault;
use crate::input::{Content, InputName, Inputs};
use crate::last_error::{LastError, Noting};
use crate::notices::announce;
use crate::watched::Watched;
use cc_io::{FromReader, FromWriter, Page, Source};
use either::{Either, Left, Right};
use std::fs::{self, OpenFile};
use std::io::{self, Empty, Read, Seek, SeekFrom};
use std::rt::Files;

/// The maximum number of bytes of the start of a file.
const START: usize = 36;

/// A file, or the standard input of the process.
type Opened<'a, R> = Either<Watched<'a, R, <R as Files>::File>, <R as Input>::Reader>;

/// The files and the standard input of the process.
#[derive(Drop)]
pub struct ProcessInputs<'a, R> {
    rt: &'a R,
    is_typed: bool,
    is_watched: bool,
    has_refused: bool,
    last_error: &'a LastError,
}

impl<'a, R: AllocGlobal + Files + Input + Eprint> ProcessInputs<'a, R> {
    /// Creates the inputs of the process. If `is_typed`, a user at the terminal types the standard input, and if
    /// `is_watched`, standard error shows how much of a file has been read. `last_error` keeps the name and the last
    /// error of the input.
    pub fn new(rt: &'a R, is_typed: bool, is_watched: bool, last_error: &'a LastError) -> Self
        ensures { ⟦<ProcessInputs<'a, R> as Inputs>⟧.has_refused result ≡ false }
    {
        ProcessInputs {
            rt,
            is_typed,
            is_watched,
            has_refused: false,
            last_error,
        }
    }

    /// Opens an input as [`Inputs::open_after`] does, and returns its source, or one of no input.
    fn source_of(
        &self,
        input: InputName<'_>,
        content: Content,
        most: u64,
    ) -> (
        FromReader<Either<Noting<'a, Opened<'a, R>>, Empty>>,
        Result<u64, Fault>,
    )
        ensures within { IfOk result.1 (λ passed. passed ≤ most) }
        ensures fails { IfErr result.1 (λ fault. (fault ≡ Fault.Open) × IsFile input.entry) }
        ensures ready { (⟦<FromReader<Either<Noting<'a, Opened<'a, R>>, Empty>> as Source>⟧.state result.0).has_failed
            ≡ false }
    {
        let is_typed = self.is_typed && matches!(content, Content::Script);
        let is_watched = self.is_watched && matches!(content, Content::Trace);
        self.last_error.set_input(self.rt.alloc(), input);
        match open_input(self.rt, is_typed, is_watched, input, most, self.last_error) {
            Ok((reader, passed)) => {
                let reader = Left(Noting::new(reader, self.last_error));
                (
                    FromReader::with_limit(reader, limit_of(content)),
                    Ok(passed),
                )
            }
            Err(fault) => (no_input(), Err(fault)),
        }
    }
}

/// Creates a source of no input.
pub fn no_input<R: Read>() -> FromReader<Either<R, Empty>>
    ensures { (⟦<FromReader<Either<R, Empty>> as Source>⟧.state result).has_failed ≡ false }
{
    FromReader::new(Right(io::empty()))
}

impl<'a, R: AllocGlobal + Files + Input + Eprint> Inputs for ProcessInputs<'a, R> {
    type Opened = FromReader<Either<Noting<'a, Opened<'a, R>>, Empty>>;

    // No contract of std says which bytes a file holds.
    ghost bytes_of = { λ _ _. None };

    // The requests are not kept, so every list fits. That a request opens the file of its name is tested, not proved.
    ghost requested = { λ _ _. true };

    ghost has_refused = { λ inputs. inputs.has_refused };

    fn open(
        &mut self,
        input: InputName<'_>,
        content: Content,
        source: &mut FromReader<Either<Noting<'a, Opened<'a, R>>, Empty>>,
    ) -> Result<(), Fault> {
        match self.open_after(input, content, 0, source) {
            Ok(_) => Ok(()),
            Err(fault) => Err(fault),
        }
    }

    fn open_after(
        &mut self,
        input: InputName<'_>,
        content: Content,
        most: u64,
        source: &mut FromReader<Either<Noting<'a, Opened<'a, R>>, Empty>>,
    ) -> Result<u64, Fault> {
        let (opened, result) = self.source_of(input, content, most);
        self.has_refused = result.is_err();
        *source = opened;
        result
    }

    // Other files are not opened: a pipe has been read to its end, and waits for another writer.
    fn start_of(&self, path: &str) -> Option<Page<START>> {
        match fs::metadata(self.rt, path) {
            Ok(metadata) if metadata.is_file() => {}
            _ => return None,
        }
        let Ok(mut file) = fs::open(self.rt, path) else {
            return None;
        };
        let mut start = [0; START];
        match file.read(&mut start) {
            Ok(count) => {
                let mut page = Page::new();
                page.push(&start[..count]);
                Some(page)
            }
            Err(_) => None,
        }
    }
}

/// Returns the number of bytes below which an input has to stay. For all but scripts it is more than any file or
/// pipe gives.
fn limit_of(content: Content) -> usize {
    match content {
        Content::Script | Content::Pool => 1 << 30,
        Content::Words | Content::Trace | Content::TraceForScript => 1 << 62,
    }
}

/// Opens an input of the process: a file of this name, or standard input. Returns the number of its first bytes that
/// are not read, at most `most`: all of them in a regular file, and none in any other input.
///
/// Errors: `Open` if a file cannot be opened.
///
/// That the file is the one of this name, and is read from there on, is tested, and not proved.
fn open_input<'a, R: Files + Input + Eprint>(
    rt: &'a R,
    is_typed: bool,
    is_watched: bool,
    input: InputName<'_>,
    most: u64,
    last_error: &LastError,
) -> Result<(Opened<'a, R>, u64), Fault>
    ensures kind { IfOk result (λ opened. IsTrue (is_left opened.0) ↔ IsFile input.entry) }
    ensures within { IfOk result (λ opened. opened.1 ≤ most) }
    ensures fails { IfErr result (λ fault. (fault ≡ Fault.Open) × IsFile input.entry) }
{
    match input {
        InputName::File(path) => match fs::open(rt, path) {
            Ok(mut file) => {
                let passed = pass(&mut file, most);
                let length = if is_watched { length_of(&file) } else { 0 };
                Ok((Left(Watched::new(rt, file, length)), passed))
            }
            Err(error) => {
                last_error.set_error(&error);
                Err(Fault::Open)
            }
        },
        InputName::Standard => {
            if is_typed {
                announce(&mut FromWriter::new(ErrorWriter { to: rt }));
            }
            Ok((Right(rt.reader()), 0))
        }
    }
}

/// Moves to the byte after the first `most` of a regular file, and returns their number, or 0 if the file stays at its
/// first byte.
fn pass<F: OpenFile + Seek>(file: &mut F, most: u64) -> u64
    ensures { result ≤ most }
{
    if most == 0 {
        return 0;
    }
    match file.metadata() {
        Ok(metadata) if metadata.is_file() => {}
        _ => return 0,
    }
    match file.seek(SeekFrom::Start(most)) {
        Ok(_) => most,
        Err(_) => 0,
    }
}

/// Returns the length of a regular file in bytes, or 0 if it is another kind of file.
fn length_of<F: OpenFile>(file: &F) -> u64 {
    match file.metadata() {
        Ok(metadata) if metadata.is_file() => metadata.len(),
        _ => 0,
    }
}
