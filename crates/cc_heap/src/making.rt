//! The result of an attempt to make an object.
ghost use Rattle.std.specs.Prelude.{◌≡◌};
ghost use Rattle.cc_heap.specs.Heap.{is_made};

/// The result of an attempt to make an object.
#[derive(Clone, Copy)]
pub enum Making {
    /// The object is made.
    Made,
    /// There is no place for the object in the pool.
    NoRoom,
    /// As many spans are held as the limit allows.
    Full,
}

impl Making {
    /// Returns whether the object is made.
    pub fn is_made(self) -> bool
        ensures { result ≡ is_made self }
    {
        matches!(self, Making::Made)
    }
}
