//! The effect of a reallocation on an object that can stay.
ghost use Rattle.std.specs.Prelude.{◌≡◌};
ghost use Rattle.cc_heap.specs.Reallocation.{is_keep};

/// The effect of a reallocation on an object whose bytes the new one can take.
#[derive(Clone, Copy)]
pub enum Reallocation {
    /// The new object is made while the old one is held, and then the old one is freed.
    Move,
    /// The object keeps its bytes if the padded size of the new one is the same, and if it begins at
    /// a multiple of the new unit. Otherwise it moves.
    Keep,
}

impl Reallocation {
    /// Returns whether an object that can stay does.
    pub(crate) fn is_keep(self) -> bool
        ensures { result ≡ is_keep self }
    {
        matches!(self, Reallocation::Keep)
    }
}
