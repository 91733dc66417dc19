//! A source over a reader of the standard library, and a sink over a writer.
ghost use Rattle.std.specs.Prelude.{◌≡◌, ◌^◌, true, false};

use crate::devices::{Failed, Sink, Source};
use std::io::{Read, Write};

/// The limit of a [`FromReader`] that is created without one, in bytes.
const MOST_BYTES: usize = 1 << 30;

/// A source over a reader.
///
/// Any error of the reader is a failure, including an interruption. The read after `limit` bytes
/// fails, even at the end of the input, so the input must be shorter than the limit. The default
/// limit is 2^30 bytes.
#[derive(Drop)]
pub struct FromReader<R> {
    reader: R,
    left: usize,
    has_failed: bool,
}

impl<R: Read> FromReader<R> {
    /// Creates a source over this reader, with a limit of 2^30 bytes.
    pub fn new(reader: R) -> Self
        ensures { ⟦<FromReader<R> as Source>⟧.state result ≡ record
            { unread = R.remaining reader; most_unread = 2 ^ 30; has_failed = false } }
    {
        FromReader::with_limit(reader, MOST_BYTES)
    }

    /// Creates a source over this reader, with a limit of `limit` bytes.
    pub fn with_limit(reader: R, limit: usize) -> Self
        ensures { ⟦<FromReader<R> as Source>⟧.state result ≡ record
            { unread = R.remaining reader; most_unread = limit; has_failed = false } }
    {
        FromReader {
            reader,
            left: limit,
            has_failed: false,
        }
    }
}

impl<R: Read> Source for FromReader<R> {
    ghost state = { λ s. record { unread = R.remaining s.reader; most_unread = s.left; has_failed = s.has_failed } };

    fn read(&mut self, room: &mut [u8]) -> Result<usize, Failed> {
        if self.has_failed || self.left == 0 && !room.is_empty() {
            self.has_failed = true;
            return Err(Failed);
        }
        let most = room.len().min(self.left);
        match self.reader.read(&mut room[..most]) {
            Ok(count) => {
                self.left -= count;
                Ok(count)
            }
            Err(_) => {
                self.has_failed = true;
                Err(Failed)
            }
        }
    }
}

/// A sink over a writer.
///
/// Any error of the writer is a failure, including an interruption. A write that takes nothing of a
/// chunk that is not empty is also a failure.
#[derive(Drop)]
pub struct FromWriter<W> {
    writer: W,
    has_failed: bool,
}

impl<W: Write> FromWriter<W> {
    /// Creates a sink over this writer.
    pub fn new(writer: W) -> Self
        ensures { ⟦<FromWriter<W> as Sink>⟧.state result ≡ record
            { taken = W.contents writer; is_flushed = true; has_failed = false } }
    {
        FromWriter {
            writer,
            has_failed: false,
        }
    }
}

impl<W: Write> Sink for FromWriter<W> {
    ghost state = { λ s. record { taken = W.contents s.writer; is_flushed = true; has_failed = s.has_failed } };

    fn write(&mut self, piece: &[u8]) -> Result<usize, Failed> {
        if self.has_failed {
            return Err(Failed);
        }
        match self.writer.write(piece) {
            Ok(count) if count > 0 || piece.is_empty() => Ok(count),
            _ => {
                self.has_failed = true;
                Err(Failed)
            }
        }
    }

    fn flush(&mut self) -> Result<(), Failed> {
        if self.has_failed {
            return Err(Failed);
        }
        match self.writer.flush() {
            Ok(()) => Ok(()),
            Err(_) => {
                self.has_failed = true;
                Err(Failed)
            }
        }
    }
}
