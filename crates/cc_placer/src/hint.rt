//! Hints of where a placer found free space.

/// A hint of where a placer found free space: a block of its data, and a position in it.
///
/// The null hint is as good as none.
#[derive(Clone, Copy, Default)]
pub struct Hint {
    /// The number of the block.
    pub block: usize,
    /// The position in the block.
    pub at: usize,
}
