//! The replies of a machine.
ghost use Rattle.cc_values.specs.RoundedLength.{RoundsLength};

use cc_bounds::{Align, Len, Span, alignment_mask, granule, round_length};
use cc_word::{ObjType, Perms, Refusal};

/// The reply of a machine to an operation.
#[derive(Clone, Copy, PartialEq, Eq)]
pub enum Reply {
    /// A capability was made.
    Made {
        /// The number of its slot.
        slot: u32,
        /// Its word.
        word: u128,
        /// Its bounds.
        span: Span,
    },
    /// The contents of a slot.
    Shown {
        /// Its word.
        word: u128,
        /// Its bounds.
        span: Span,
        /// Its permissions.
        perms: Perms,
        /// Its flag.
        flag: bool,
        /// Its object type.
        otype: ObjType,
        /// The slot that it was derived from, or `None` for the root.
        parent: Option<u32>,
    },
    /// A length, rounded.
    Rounded {
        /// The length in bytes, rounded up to a multiple of its granule, at most 2^64. Instruction:
        /// CRRL.
        rounded: u128,
        /// The unit in bytes in which bounds of that length are stored: 1, or a power of two from 8
        /// to 2^55.
        granule: u64,
        /// The bits that a base has to keep for bounds of that length to be exact. Instruction:
        /// CRAM.
        mask: u64,
    },
    /// The pool was set.
    PoolSet {
        /// The number of its slot.
        slot: u32,
        /// Its bounds.
        span: Span,
        /// Its alignment. The bounds of each object begin and end at multiples of it.
        align: Align,
    },
    /// An object was made.
    Allocated {
        /// The object's number.
        object: u32,
        /// The number of its slot.
        slot: u32,
        /// The word of its capability.
        word: u128,
        /// The object's bounds.
        span: Span,
        /// The number of bytes that objects hold after it, including padding.
        held: u128,
    },
    /// An object was freed.
    Freed {
        /// The object's number.
        object: u32,
        /// The number of slots that it revoked: 0, since a freed object holds its bytes until the
        /// next sweep.
        revoked: u32,
        /// The number of bytes that objects hold after it, including padding.
        held: u128,
    },
    /// The freed objects were swept.
    Swept {
        /// The number of objects swept.
        objects: u32,
        /// The number of slots that it revoked, without those revoked before.
        revoked: u32,
        /// The number of bytes that objects hold after it, including padding.
        held: u128,
    },
    /// The refusal of the operation, which changed nothing.
    Refused(Refusal),
}

impl Reply {
    /// Returns the reply with a length rounded, which needs no machine.
    ///
    /// Instructions: CRRL and CRAM.
    #[inline(always)]
    pub fn rounded(length: Len) -> Reply
        ensures { RoundsLength length result }
    {
        let bytes = length.get();
        Reply::Rounded {
            rounded: round_length(bytes),
            granule: granule(bytes),
            mask: alignment_mask(bytes),
        }
    }
}
