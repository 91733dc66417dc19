//! The alignment of a pool.
ghost use Rattle.std.specs.Prelude.{◌≡◌};
ghost use Rattle.cc_bounds.specs.Align.{align_bytes};

/// The alignment of a pool. The bounds of each object begin and end at multiples of it.
#[derive(Clone, Copy, PartialEq, Eq, Debug)]
pub enum Align {
    /// One byte: the unit of an object is the granule of its size.
    One,
    /// Sixteen bytes: the unit of an object is the larger of 16 and the granule of its size.
    Sixteen,
}

impl Align {
    /// Returns the alignment in bytes: 1 or 16.
    pub fn bytes(self) -> u64
        ensures { result ≡ align_bytes self }
    {
        match self {
            Align::One => 1,
            Align::Sixteen => 16,
        }
    }
}
