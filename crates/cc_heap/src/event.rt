//! The events of a trace.
ghost use Rattle.std.specs.Prelude.{◌≡◌};
ghost use Rattle.cc_heap.specs.Ids.{freed_id, made_id};

/// An event of a trace of an allocator.
///
/// An id names an object from the event that makes it to the event that frees it, and can be used
/// again after that. A size of 0 is treated as 1.
#[derive(Clone, Copy)]
pub enum Event {
    /// An object is made, as by `malloc` and `aligned_alloc`.
    Allocate {
        /// The id of the object.
        id: u64,
        /// The requested size in bytes.
        size: u64,
        /// The requested alignment in bytes, a power of two: 1 if the event has none.
        align: u64,
    },
    /// An object is made and cleared, as by `calloc`. It is placed like an `Allocate` with
    /// alignment 1.
    Clear {
        /// The id of the object.
        id: u64,
        /// The requested size in bytes: the product of the number of elements and their size.
        size: u64,
    },
    /// An object is made in place of another, as by `realloc`. The new id may be the old one.
    Reallocate {
        /// The id of the object that is freed.
        old: u64,
        /// The id of the object that is made.
        new: u64,
        /// The requested size of the new object in bytes.
        size: u64,
    },
    /// An object is freed.
    Free {
        /// The id of the object.
        id: u64,
    },
    /// The trace requests a sweep.
    Sweep,
    /// The trace gives the time.
    Clock(u64),
}

impl Event {
    /// Returns the id that the event frees, or `None` if it frees none.
    pub fn freed_id(self) -> Option<u64>
        ensures { result ≡ freed_id self }
    {
        match self {
            Event::Reallocate { old, .. } => Some(old),
            Event::Free { id } => Some(id),
            Event::Allocate { .. } | Event::Clear { .. } | Event::Sweep | Event::Clock(_) => None,
        }
    }

    /// Returns the id under which the event makes an object, or `None` if it makes none.
    pub fn made_id(self) -> Option<u64>
        ensures { result ≡ made_id self }
    {
        match self {
            Event::Allocate { id, .. } | Event::Clear { id, .. } => Some(id),
            Event::Reallocate { new, .. } => Some(new),
            Event::Free { .. } | Event::Sweep | Event::Clock(_) => None,
        }
    }
}
