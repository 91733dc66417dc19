//! The objects of a heap.
use cc_bounds::Span;

/// A live object.
#[derive(Clone, Copy)]
pub struct Object {
    /// The requested size in bytes, at least 1.
    pub size: u64,
    /// The requested alignment in bytes, a power of two. The object begins at a multiple of it.
    pub align: u64,
    /// The bytes that the object takes, including padding.
    pub span: Span,
}
