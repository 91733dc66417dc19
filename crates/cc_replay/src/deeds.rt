//! The effect of an event on a heap, as far as a script has it.

/// The id and the size of an object.
#[derive(Clone, Copy)]
pub struct MadeEntry {
    /// The id.
    pub id: u64,
    /// The size in bytes.
    pub size: u64,
}

/// The effect of an event on a heap, in this order.
#[derive(Clone, Copy)]
pub struct Deeds {
    /// The id of the object that is freed before one is made, if it is.
    pub cleared: Option<u64>,
    /// The number of sweeps before an object is made.
    pub sweeps: u64,
    /// The object that is made, if it is.
    pub made: Option<MadeEntry>,
    /// The id of the object that is freed last, if it is.
    pub freed: Option<u64>,
    /// Whether the quarantine is swept after that.
    pub is_swept: bool,
}
