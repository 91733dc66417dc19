//! A file that is read, with its progress on standard error.
ghost use Rattle.std.specs.Prelude.{◌≡◌};

use crate::error_writer::ErrorWriter;
use crate::notices::{clear_progress, percent_of, show_progress};
use cc_io::FromWriter;
use std::io::{self, Read};

/// A reader of a file that shows on standard error how much of the file has been read.
///
/// The bytes of the file pass unchanged. A percentage is shown when it changes, so at most a hundred are, and none of
/// a file that one read returns whole. The line is cleared when the whole file has been read, or a read fails.
#[derive(Drop)]
pub struct Watched<'a, R, F> {
    rt: &'a R,
    file: F,
    length: u64,
    done: u64,
    shown: Option<u64>,
}

impl<'a, R: Eprint, F: Read> Watched<'a, R, F> {
    /// Creates a reader of a file of this length, which shows nothing if the length is 0.
    pub fn new(rt: &'a R, file: F, length: u64) -> Self
        ensures { ⟦<Watched<'a, R, F> as Read>⟧.remaining result ≡ F.remaining file }
    {
        Watched {
            rt,
            file,
            length,
            done: 0,
            shown: None,
        }
    }

    /// Counts bytes that were read, or the end of the file, and shows the percentage if it is another than before.
    fn count(&mut self, read: u64)
        ensures { F.remaining self.new.file ≡ F.remaining self.old.file }
    {
        self.done = self.done.saturating_add(read);
        let percent = if read == 0 {
            None
        } else {
            percent_of(self.done, self.length)
        };
        if percent == self.shown {
            return;
        }
        self.shown = percent;
        let mut errors = FromWriter::new(ErrorWriter { to: self.rt });
        match percent {
            Some(percent) => show_progress(percent, &mut errors),
            None => clear_progress(&mut errors),
        }
    }
}

impl<R: Eprint, F: Read> Read for Watched<'_, R, F> {
    ghost remaining = { λ w. F.remaining w.file };

    fn read(&mut self, room: &mut [u8]) -> io::Result<usize> {
        let result = self.file.read(room);
        match &result {
            Ok(read) => self.count(*read as u64),
            Err(_) => self.count(0),
        }
        result
    }
}
