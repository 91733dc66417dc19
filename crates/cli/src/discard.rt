//! A sink that discards its bytes.
ghost use Rattle.std.specs.Prelude.{false, true, None};

use cc_io::{Failed, Sink};

/// A sink that takes all bytes and keeps none of them. No call of it fails.
#[derive(Drop)]
pub struct Discard;

impl Sink for Discard {
    ghost state = { λ _. record { taken = None; is_flushed = true; has_failed = false } };

    fn write(&mut self, piece: &[u8]) -> Result<usize, Failed> {
        Ok(piece.len())
    }

    fn flush(&mut self) -> Result<(), Failed> {
        Ok(())
    }
}
