//! The numbers of the objects that were made, by the powers of two of their sizes.
ghost use Rattle.std.specs.Prelude.{◌≡◌, ◌<◌, IfSome};
ghost use Rattle.cc_heap.specs.Sizes.{asked_size, made_size, with_sized_object, with_size};

use crate::event::Event;
use crate::making::Making;

/// The numbers of the objects that were made whose sizes are at least a power of two, and below the
/// next.
#[derive(Clone, Copy, Default)]
pub struct SizeTotals {
    /// The number of these objects, at most 2^64 - 1.
    pub made: u64,
    /// The number of them that take more bytes than were requested.
    pub inexact: u64,
    /// The sum of their requested sizes in bytes, at most 2^128 - 1.
    pub asked: u128,
    /// The sum of their padded sizes in bytes, at most 2^128 - 1.
    pub padded: u128,
}

/// The numbers of no objects.
pub const NO_OBJECTS: SizeTotals = SizeTotals {
    made: 0,
    inexact: 0,
    asked: 0,
    padded: 0,
};

impl SizeTotals {
    /// Returns the numbers with one more object of this size, which takes the padded size.
    fn with_object(self, size: u64, padded: u128) -> SizeTotals
        ensures { result ≡ with_sized_object size padded self }
    {
        let asked = u128::from(size);
        SizeTotals {
            made: self.made.saturating_add(1),
            inexact: self.inexact.saturating_add(u64::from(padded != asked)),
            asked: self.asked.saturating_add(asked),
            padded: self.padded.saturating_add(padded),
        }
    }
}

/// Counts one more object in the row of its size.
pub(crate) fn count_size(rows: &mut [SizeTotals; 64], size: u64, padded: u128)
    requires { 0 < size }
    ensures { rows.new ≡ with_size 0 size padded rows.old }
{
    let power = size.ilog2() as usize;
    rows[power] = rows[power].with_object(size, padded);
}

/// Returns the size of the object that an event makes, or `None` if it makes none.
pub(crate) fn made_size(event: Event, making: Option<Making>) -> Option<u64>
    ensures value { result ≡ made_size event making }
    ensures some { IfSome result (λ size. 0 < size) }
{
    match making {
        Some(Making::Made) => asked_size(event),
        Some(Making::NoRoom) | Some(Making::Full) | None => None,
    }
}

/// Returns the size of the object that an event requests, or `None` if it requests none.
fn asked_size(event: Event) -> Option<u64>
    ensures value { result ≡ asked_size event }
    ensures some { IfSome result (λ size. 0 < size) }
{
    match event {
        Event::Allocate { size, .. } | Event::Clear { size, .. } | Event::Reallocate { size, .. } =>
            { Some(size.max(1)) }
        Event::Free { .. } | Event::Sweep | Event::Clock(_) => None,
    }
}
