//! Spans of bytes: a base and a top.
ghost use Rattle.std.specs.Prelude.{◌≡◌, ◌≤◌, ◌↔◌, IsTrue};
ghost use Rattle.cc_bounds.specs.Span.{HasByte, IsWithin, SharesByte, length_of};

/// The number of bytes of the address space: the maximum length of a request, and the maximum top
/// of a capability.
pub const ADDRESS_SPACE: u128 = 1 << 64;

/// The bytes [base, top).
///
/// A plain pair, with no order required: a word that is not canonical can decode to a top below its
/// base, or above 2^64. The span of a capability has `base <= top <= 2^64`.
#[derive(Clone, Copy, PartialEq, Eq, Debug, Default)]
pub struct Span {
    /// The address of the first byte.
    pub base: u64,
    /// The address after the last byte. That of the whole address space is 2^64.
    pub top: u128,
}

impl Span {
    /// Returns the number of bytes of the span.
    ///
    /// Requires: `base <= top`.
    #[inline(always)]
    pub fn len(&self) -> u128
        requires { self.now.base ≤ self.now.top }
        ensures { result ≡ length_of self.now }
    {
        self.top - u128::from(self.base)
    }

    /// Returns whether the byte at this address is in the span.
    #[inline(always)]
    pub fn contains(&self, address: u64) -> bool
        ensures { IsTrue result ↔ HasByte self.now address }
    {
        self.base <= address && u128::from(address) < self.top
    }

    /// Returns whether the span begins and ends within another.
    #[inline(always)]
    pub fn is_within(&self, outer: &Span) -> bool
        ensures { IsTrue result ↔ IsWithin self.now outer.now }
    {
        outer.base <= self.base && self.top <= outer.top
    }

    /// Returns whether some byte is in both spans.
    #[inline(always)]
    pub fn shares_byte(&self, other: &Span) -> bool
        ensures { IsTrue result ↔ SharesByte self.now other.now }
    {
        u128::from(self.base.max(other.base)) < self.top.min(other.top)
    }
}
