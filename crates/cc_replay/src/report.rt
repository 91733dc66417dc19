//! The report of a line of a trace.
ghost use Rattle.std.specs.Prelude.{◌≡◌};
ghost use Rattle.cc_replay.specs.Reports.{allocation, clearing, free, reallocation};

/// The report of a line of a trace: what happened to the heap of the program.
///
/// An object is named by its pointer. It is not 0 in the reports of the readers, except in `From` and
/// `To`.
///
/// It is not an [`Event`](cc_heap::Event): an `Allocate` has an alignment, and each reader of a format would need a
/// clause that this is a power of two.
#[derive(Clone, Copy)]
pub enum LineReport {
    /// The line reports no change.
    Nothing,
    /// An object could not be made.
    Failure,
    /// An object was made, as by `malloc`.
    Allocation {
        /// The pointer to the object.
        pointer: u64,
        /// The requested size in bytes.
        size: u64,
    },
    /// An object was made and cleared, as by `calloc`.
    Clearing {
        /// The pointer to the object.
        pointer: u64,
        /// The requested size in bytes: the product of the number of elements and their size.
        size: u64,
    },
    /// An object was made in place of another, as by `realloc`.
    Reallocation {
        /// The pointer to the object that was freed.
        old: u64,
        /// The pointer to the object that was made.
        new: u64,
        /// The requested size of the new object in bytes.
        size: u64,
    },
    /// An object was freed.
    Free {
        /// The pointer to the object.
        pointer: u64,
    },
    /// The first half of a reallocation: the object that is freed.
    From {
        /// The pointer to the object.
        pointer: u64,
    },
    /// The second half of a reallocation: the object that is made.
    To {
        /// The pointer to the object.
        pointer: u64,
        /// The requested size in bytes.
        size: u64,
    },
    /// The time.
    Clock(u64),
}

/// Returns the report of an object that is made at a pointer: a failure if the pointer is 0.
pub(crate) fn allocation(pointer: u64, size: u64) -> LineReport
    ensures { result ≡ allocation pointer size }
{
    if pointer == 0 {
        LineReport::Failure
    } else {
        LineReport::Allocation { pointer, size }
    }
}

/// Returns the report of an object that is made and cleared: a failure if the pointer is 0.
pub(crate) fn clearing(pointer: u64, size: u64) -> LineReport
    ensures { result ≡ clearing pointer size }
{
    if pointer == 0 {
        LineReport::Failure
    } else {
        LineReport::Clearing { pointer, size }
    }
}

/// Returns the report of `realloc`, for which a pointer of 0 names nothing.
pub(crate) fn reallocation(old: u64, new: u64, size: u64) -> LineReport
    ensures { result ≡ reallocation old new size }
{
    if new == 0 {
        if size == 0 && old != 0 {
            LineReport::Free { pointer: old }
        } else {
            LineReport::Failure
        }
    } else if old == 0 {
        LineReport::Allocation { pointer: new, size }
    } else {
        LineReport::Reallocation { old, new, size }
    }
}

/// Returns the report of a free of a pointer: nothing if the pointer is 0.
pub(crate) fn free(pointer: u64) -> LineReport
    ensures { result ≡ free pointer }
{
    if pointer == 0 {
        LineReport::Nothing
    } else {
        LineReport::Free { pointer }
    }
}
