//! Sources and sinks of bytes.
ghost use Rattle.std.specs.Prelude.{◌≡◌, ◌+◌, ◌<◌, false, length, OnErr};
ghost use Rattle.cc_io.specs.Devices.{Flushes, InputState, OutputState, ReadsPiece, WritesBytes, WritesPiece};

/// The failure of a call of a source or a sink.
#[derive(Clone, Copy, Debug, PartialEq, Eq)]
pub struct Failed;

/// A source of bytes, which it gives in chunks that it chooses, until it has no more or fails.
///
/// After a failure each later call fails too. A call that fails gives nothing.
pub trait Source {
    // the bytes unread, the maximum number of bytes that it can still give, and whether a call has
    // failed
    ghost state: { Self → InputState };

    /// Reads the next bytes into the start of `room` and returns their number, which is 0 only at
    /// the end of the input or if `room` is empty.
    ///
    /// Errors: `Failed`, in this call and each later one.
    fn read(&mut self, room: &mut [u8]) -> Result<usize, Failed>
        ensures { ReadsPiece (state self.old) (state self.new) room.new result };
}

/// A sink of bytes, which it takes in chunks that it chooses, until it fails.
///
/// After a failure each later call fails too. A call that fails takes nothing.
pub trait Sink {
    // the bytes taken, whether they are flushed, and whether a call has failed
    ghost state: { Self → OutputState };

    /// Takes a prefix of `piece` and returns its length, at least 1 unless `piece` is empty.
    ///
    /// Errors: `Failed`, in this call and each later one.
    fn write(&mut self, piece: &[u8]) -> Result<usize, Failed>
        ensures { WritesPiece (state self.old) (state self.new) piece.now result };

    /// Forwards all bytes taken so far to their destination.
    ///
    /// Errors: `Failed`, in this call and each later one.
    fn flush(&mut self) -> Result<(), Failed>
        ensures { Flushes (state self.old) (state self.new) result };
}

/// Writes all the bytes, in as many writes as necessary.
///
/// Only the first write is inlined, since a sink usually takes all of the bytes at once.
///
/// Requires: the sink has not failed.
/// Errors: `Failed` if the sink fails. It has then taken a prefix of the bytes.
#[inline(always)]
#[tactic(auto, using(crate::proofs::DeviceLemmas::appends_none, crate::proofs::DeviceLemmas::appends_whole, crate::proofs::DeviceLemmas::whole_after, crate::proofs::DeviceLemmas::begun_after))]
pub fn write_all<W: Sink>(sink: &mut W, bytes: &[u8]) -> Result<(), Failed>
    requires { (W.state sink.old).has_failed ≡ false }
    ensures writes { WritesBytes (W.state sink.old) (W.state sink.new) bytes.now result }
    ensures some { OnErr result (0 < length bytes.now) }
{
    if bytes.is_empty() {
        return Ok(());
    }
    match sink.write(bytes) {
        Ok(count) => {
            if count == bytes.len() {
                Ok(())
            } else {
                match write_rest(sink, &bytes[count..]) {
                    Ok(()) => Ok(()),
                    Err(Failed) => Err(Failed),
                }
            }
        }
        Err(Failed) => Err(Failed),
    }
}

/// Writes the bytes that the first write left.
#[cold]
#[inline(never)]
#[tactic(auto, using(crate::proofs::DeviceLemmas::appends_further, crate::proofs::DeviceLemmas::count_further))]
fn write_rest<W: Sink>(sink: &mut W, bytes: &[u8]) -> Result<(), Failed>
    requires { (W.state sink.old).has_failed ≡ false }
    ensures { WritesBytes (W.state sink.old) (W.state sink.new) bytes.now result }
{
    let mut at = 0;
    while at < bytes.len() {
        at += sink.write(&bytes[at..])?;
    }
    Ok(())
}
