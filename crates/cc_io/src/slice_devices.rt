//! A source and a sink over borrowed slices, with a given size of chunks and a given call that
//! fails.
ghost use Rattle.std.specs.Prelude.{◌≡◌, ◌⊎◌, ◌+◌, ◌-◌, ◌<◌, ◌↔◌, Some, length, true, false, [], min, IfOk, OnOk};
ghost use Rattle.std.specs.Prelude.{IsErr};
ghost use Rattle.std.specs.Option.{unwrap_or};
ghost use Rattle.cc_io.specs.Devices.{FailsNext, Flushes, ReadsPiece, WritesPiece, input_of, output_of};

use crate::devices::{Failed, Sink, Source};
use std::marker::Model;

/// A source that gives the bytes of a slice.
#[derive(Drop)]
pub struct SliceSource<'a> {
    rest: &'a [u8],
    piece: usize,
    // the number of the call that fails, counted from 1 at the next call; 0 if none fails
    calls_left: u32,
    has_failed: bool,
}

impl<'a> Model for SliceSource<'a> {
    ghost use Rattle.std.specs.Prelude.{◌<◌};
    ghost use Rattle.cc_io.specs.Devices.{SourceState};

    ghost Value = { SourceState };

    ghost view = { λ s. record {
      rest = s.rest.now;
      piece = s.piece;
      calls_left = s.calls_left;
      has_failed = s.has_failed;
    } };

    ghost invariant = { λ s. 0 < s.piece };
}

impl<'a> SliceSource<'a> {
    /// Creates a source of these bytes, which gives at most `piece` bytes a call.
    ///
    /// Its call number `fail_at` fails, counted from 1. With 0 or `None` no call fails.
    ///
    /// Requires: `0 < piece`.
    pub fn new(bytes: &'a [u8], piece: usize, fail_at: Option<u32>) -> Self
        requires { 0 < piece }
        ensures { result ≡ record {
          rest = bytes.now;
          piece = piece;
          calls_left = unwrap_or fail_at 0;
          has_failed = false;
        } }
    {
        SliceSource {
            rest: bytes,
            piece,
            calls_left: fail_at.unwrap_or(0),
            has_failed: false,
        }
    }
}

impl<'a> Source for SliceSource<'a> {
    ghost state = { λ s. input_of s };

    fn read(&mut self, room: &mut [u8]) -> Result<usize, Failed>
        ensures reads { ReadsPiece (input_of self.old) (input_of self.new) room.new result }
        ensures planned { IsErr result ↔ FailsNext self.old.calls_left self.old.has_failed }
        ensures pieces { IfOk result (λ count. count ≡ min (min self.old.piece (length room.old))
            (length self.old.rest)) }
        ensures counted { OnOk result ((self.new.calls_left ≡ self.old.calls_left - 1)
            × (self.new.piece ≡ self.old.piece)) }
    {
        if self.has_failed || self.calls_left == 1 {
            self.has_failed = true;
            return Err(Failed);
        }
        self.calls_left = self.calls_left.saturating_sub(1);
        let count = self.piece.min(room.len()).min(self.rest.len());
        let (given, rest) = self.rest.split_at(count);
        room[..count].copy_from_slice(given);
        self.rest = rest;
        Ok(count)
    }
}

/// A sink that writes bytes into a slice, and fails once the slice is full.
#[derive(Drop)]
pub struct SliceSink<'a> {
    room: &'a mut [u8],
    taken: usize,
    piece: usize,
    // the number of the call that fails, counted from 1 at the next call; 0 if none fails
    calls_left: u32,
    has_failed: bool,
}

impl<'a> Model for SliceSink<'a> {
    ghost use Rattle.std.specs.Prelude.{◌<◌, ◌≤◌, length, take};
    ghost use Rattle.cc_io.specs.Devices.{SinkState};

    ghost Value = { SinkState };

    ghost view = { λ s. record {
      taken = take s.taken s.room.now;
      room = length s.room.now;
      piece = s.piece;
      calls_left = s.calls_left;
      has_failed = s.has_failed;
    } };

    ghost invariant = { λ s. record { within : s.taken ≤ length s.room.now; some : 0 < s.piece } };
}

impl<'a> SliceSink<'a> {
    /// Creates a sink over this slice, which takes at most `piece` bytes a call.
    ///
    /// Its call number `fail_at` fails, counted from 1 over writes and flushes. With 0 or `None` no
    /// call fails.
    ///
    /// Requires: `0 < piece`.
    pub fn new(room: &'a mut [u8], piece: usize, fail_at: Option<u32>) -> Self
        requires { 0 < piece }
        ensures { result ≡ record {
          taken = [];
          room = length room.old;
          piece = piece;
          calls_left = unwrap_or
              fail_at 0;
          has_failed = false;
        } }
    {
        SliceSink {
            room,
            taken: 0,
            piece,
            calls_left: fail_at.unwrap_or(0),
            has_failed: false,
        }
    }

    /// Returns the number of bytes taken.
    pub fn taken(&self) -> usize
        ensures { result ≡ length self.now.taken }
    {
        self.taken
    }
}

impl<'a> Sink for SliceSink<'a> {
    ghost state = { λ s. output_of s };

    fn write(&mut self, piece: &[u8]) -> Result<usize, Failed>
        ensures writes { WritesPiece (output_of self.old) (output_of self.new) piece.now result }
        ensures planned { IsErr result ↔ (FailsNext self.old.calls_left self.old.has_failed
            ⊎ ((length self.old.taken ≡ self.old.room) × (0 < length piece.now))) }
        ensures pieces { IfOk result (λ count.
            count ≡ min (min self.old.piece (length piece.now)) (self.old.room - length self.old.taken)) }
        ensures counted { OnOk result ((self.new.calls_left ≡ self.old.calls_left - 1)
            × (self.new.piece ≡ self.old.piece) × (self.new.room ≡ self.old.room)) }
    {
        let start = self.taken;
        let is_full = start == self.room.len() && !piece.is_empty();
        if self.has_failed || is_full || self.calls_left == 1 {
            self.has_failed = true;
            return Err(Failed);
        }
        self.calls_left = self.calls_left.saturating_sub(1);
        let count = self.piece.min(piece.len()).min(self.room.len() - start);
        let end = start + count;
        self.room[start..end].copy_from_slice(&piece[..count]);
        self.taken = end;
        Ok(count)
    }

    fn flush(&mut self) -> Result<(), Failed>
        ensures flushes { Flushes (output_of self.old) (output_of self.new) result }
        ensures planned { IsErr result ↔ FailsNext self.old.calls_left self.old.has_failed }
        ensures counted { OnOk result ((self.new.calls_left ≡ self.old.calls_left - 1)
            × (self.new.piece ≡ self.old.piece) × (self.new.room ≡ self.old.room)) }
    {
        if self.has_failed || self.calls_left == 1 {
            self.has_failed = true;
            return Err(Failed);
        }
        self.calls_left = self.calls_left.saturating_sub(1);
        Ok(())
    }
}
