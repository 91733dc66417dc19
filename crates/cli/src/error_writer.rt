//! Standard error, as a writer.
use std::io::{self, ErrorKind, Write};
use std::str;

/// A writer that prints on standard error. A chunk that is not UTF-8 is refused.
#[derive(Drop)]
pub struct ErrorWriter<'a, R> {
    /// The process, which prints.
    pub to: &'a R,
}

impl<R: Eprint> Write for ErrorWriter<'_, R> {
    fn write(&mut self, piece: &[u8]) -> io::Result<usize> {
        match str::from_utf8(piece) {
            Ok(text) => {
                self.to.eprint(text)?;
                Ok(piece.len())
            }
            Err(_) => Err(io::Error::from(ErrorKind::InvalidData)),
        }
    }

    fn flush(&mut self) -> io::Result<()> {
        Ok(())
    }
}
