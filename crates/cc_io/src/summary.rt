//! The outcome of a pump.

/// The outcome of a pump that reached the end of its source.
#[derive(Clone, Copy, Debug, PartialEq, Eq)]
pub struct Summary {
    /// Whether a reply was an error.
    pub any_error: bool,
}

/// The end of a pump that failed: its source or its sink.
#[derive(Clone, Copy, Debug, PartialEq, Eq)]
pub enum IoError {
    /// The source.
    Read,
    /// The sink.
    Write,
}
