//! The outcome of an event.
ghost use Rattle.std.specs.Prelude.{◌≡◌};
ghost use Rattle.cc_heap.specs.Outcomes.{is_refused};

use crate::making::Making;

/// The outcome of an event.
#[derive(Clone, Copy)]
pub struct Outcome {
    /// Whether the id of the object that the event makes was live. The object under it was freed
    /// first.
    pub was_live: bool,
    /// Whether the event frees an id, or makes an object in place of one, that is not live. A
    /// [`Run`](crate::Run) knows the lost ids, and reports them by `lost` instead.
    pub unknown: bool,
    /// Whether the event frees an id, or makes an object in place of one, whose own object was not
    /// made: there was no place for it.
    pub lost: bool,
    /// Whether the object that the event makes is made, or `None` if it makes none.
    pub making: Option<Making>,
}

impl Outcome {
    /// Returns whether the event is refused: the id that it frees is not live or is lost, the id of
    /// a new object is live, or the object cannot be made.
    pub fn is_refused(self) -> bool
        ensures { result ≡ is_refused self }
    {
        self.unknown
            || self.was_live
            || self.lost
            || matches!(self.making, Some(Making::NoRoom))
            || matches!(self.making, Some(Making::Full))
    }
}
