//! The use of a machine, as numbers.

/// The use of a machine's slots, objects and pool, and the bytes that are left.
#[derive(Clone, Copy, PartialEq, Eq)]
pub struct Usage {
    /// The number of slots, including slot 0 and revoked ones: at least 1.
    pub slots: u32,
    /// The maximum number of slots, and of objects, of the machine.
    pub limit: u32,
    /// The number of objects that were made.
    pub made: usize,
    /// The number of live objects.
    pub live: usize,
    /// The number of objects that were freed and not swept so far.
    pub quarantined: usize,
    /// The number of swept objects.
    pub swept: usize,
    /// The number of bytes that were requested for all held objects, live or quarantined.
    pub asked: u128,
    /// The number of bytes that these objects hold, including padding.
    pub held: u128,
    /// The number of bytes of the pool, or 0 if there is none.
    pub pool: u128,
    /// The number of holes of the pool.
    ///
    /// A hole is the bytes between a held object and the next, or between one and an end of the
    /// pool, if there are any. A pool with bytes and no held object is one hole.
    pub holes: usize,
    /// The number of bytes of the largest hole, or 0 if there is none.
    pub largest: u128,
    /// The highest top of all objects that were made, including swept ones, or 0 if none was made.
    pub end: u128,
}
