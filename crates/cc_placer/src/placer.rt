//! The interface between a planner and its placer.
ghost use Rattle.std.specs.Prelude.{◌≡◌, ℕ, ◌^◌, ◌<◌, ◌≤◌, List, [], length, Option, Some, None, IfOk, IfSome};
ghost use Rattle.std.specs.Prelude.{IsSome, IsSomeAnd, Contains, option_map};
ghost use Rattle.cc_bounds.specs.declared.span.Span.{Span as SpanSpec};
ghost use Rattle.cc_bounds.specs.Span.{IsWithin};
ghost use Rattle.cc_placer.specs.Placement.{AddsSpan, RemovesSpan, IsApartFrom, IsRoom};

use crate::hint::Hint;
use cc_bounds::Span;
use std::alloc::{AllocError, Global};

/// A free-space index: holds spans of a pool, and finds free space next to them.
///
/// Three values describe a placer to its caller: the maximum number of spans that it holds, its
/// pool or none, and the lists of spans that it may be holding.
///
/// A placer need not be able to list its spans, since several lists can leave the same free space.
/// So each function says what it does for every list that the placer may be holding.
pub trait Placer: Drop {
    /// The maximum number of spans that it holds.
    ghost limit: { Self → ℕ };

    /// The span in which it finds free space, or none before a pool is set.
    ghost pool: { Self → Option SpanSpec };

    /// The lists of spans that it may be holding.
    ghost holds: { Self → List SpanSpec → Type 0 };

    /// Creates a placer for at most `n` spans, with no pool and no span.
    ///
    /// Allocates all the memory that the placer needs.
    ///
    /// Requires: `1 <= n <= 2^24`.
    /// Errors: `AllocError` if an allocation fails.
    fn with_limit(alloc: Global, n: u32) -> Result<Self, AllocError>
        requires some { 1 ≤ n }
        requires few { n ≤ 2 ^ 24 }
        ensures limit { IfOk result (λ placer. limit placer ≡ n) }
        ensures no_pool { IfOk result (λ placer. pool placer ≡ None) }
        ensures nothing_held { IfOk result (λ placer. holds placer []) };

    /// Makes the span the pool.
    ///
    /// Requires: no pool is set yet; `span.base <= span.top <= 2^64`, so the span may be empty.
    fn set_pool(&mut self, span: Span)
        requires no_pool { pool self.old ≡ None }
        requires in_order { span.base ≤ span.top }
        requires fits { span.top ≤ 2 ^ 64 }
        ensures limit { limit self.new ≡ limit self.old }
        ensures pool { pool self.new ≡ Some span }
        // The lists that it may be holding stay.
        ensures held { (spans : List SpanSpec) → holds self.old spans → holds self.new spans };

    /// Returns the lowest place for `len` bytes at a multiple of `align`, or `None` if there is
    /// none.
    ///
    /// A place is a start: the bytes from it lie in the pool and share no byte with a held span.
    /// `align` need not be a power of two, and `len` may exceed the length of the pool.
    ///
    /// Requires: a pool is set; `len > 0`; `align > 0`.
    fn room(&self, len: u128, align: u64) -> Option<u64>
        requires pool { IsSome (pool self.now) }
        requires some { 0 < len }
        requires aligned { 0 < align }
        ensures { (spans : List SpanSpec) → holds self.now spans
            → IfSome (pool self.now) (λ pool. IsRoom pool spans len align result) };

    /// Returns the place that [`Placer::room`] returns, with a hint for [`Placer::hold_at`] of where
    /// it was found.
    ///
    /// Requires: a pool is set; `len > 0`; `align > 0`.
    fn find(&self, len: u128, align: u64) -> Option<(u64, Hint)>
        requires pool { IsSome (pool self.now) }
        requires some { 0 < len }
        requires aligned { 0 < align }
        ensures { (spans : List SpanSpec) → holds self.now spans
            → IfSome (pool self.now) (λ pool. IsRoom pool spans len align (option_map (λ found. found.0) result)) }
    {
        let start = self.room(len, align)?;
        Some((start, Hint::default()))
    }

    /// Adds a span to the held ones.
    ///
    /// Requires: the span has at least one byte, lies in the pool, and shares no byte with a held
    /// span; fewer spans than the limit are held.
    fn hold(&mut self, span: Span)
        requires not_empty { span.base < span.top }
        requires in_pool { IsSomeAnd (pool self.old) (IsWithin span) }
        requires apart { (spans : List SpanSpec) × holds self.old spans × IsApartFrom spans span
            × (length spans < limit self.old) }
        ensures limit { limit self.new ≡ limit self.old }
        ensures pool { pool self.new ≡ pool self.old }
        // Each list that it may be holding has the span in addition.
        ensures held { (spans more : List SpanSpec) → holds self.old spans → IsApartFrom spans span
            → length spans < limit self.old → AddsSpan spans span more → holds self.new more };

    /// Adds a span to the held ones, as [`Placer::hold`] does whatever the hint is. The hint of
    /// [`Placer::find`] saves a search.
    ///
    /// Requires: as `hold`.
    fn hold_at(&mut self, span: Span, hint: Hint)
        requires not_empty { span.base < span.top }
        requires in_pool { IsSomeAnd (pool self.old) (IsWithin span) }
        requires apart { (spans : List SpanSpec) × holds self.old spans × IsApartFrom spans span
            × (length spans < limit self.old) }
        ensures limit { limit self.new ≡ limit self.old }
        ensures pool { pool self.new ≡ pool self.old }
        // Each list that it may be holding has the span in addition, whatever the hint.
        ensures held { (spans more : List SpanSpec) → holds self.old spans → IsApartFrom spans span
            → length spans < limit self.old → AddsSpan spans span more → holds self.new more }
    {
        let _ = hint;
        self.hold(span);
    }

    /// Removes a span from the held ones.
    ///
    /// Requires: the span is held.
    fn give_back(&mut self, span: Span)
        requires is_held { (spans : List SpanSpec) × holds self.old spans × Contains spans span }
        ensures limit { limit self.new ≡ limit self.old }
        ensures pool { pool self.new ≡ pool self.old }
        // Each list that it may be holding has the span once less.
        ensures held { (spans fewer : List SpanSpec) → holds self.old spans → Contains spans span
            → RemovesSpan spans span fewer → holds self.new fewer };

    /// Returns the number of held spans.
    fn count(&self) -> u32
        ensures { (spans : List SpanSpec) → holds self.now spans → result ≡ length spans };
}
