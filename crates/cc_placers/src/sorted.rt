//! A placer that keeps its spans in order.
ghost use Rattle.std.specs.Prelude.{◌≡◌, ◌+◌, ◌%◌, ◌<◌, ◌≤◌, ◌^◌, ℕ, All};
ghost use Rattle.cc_bounds.specs.Span.{span_from};
ghost use Rattle.cc_placer.specs.Placement.{HaveSameSpans, IsApartFrom, IsRoom};
ghost use Rattle.cc_placer.specs.PlacerState.{AreInOrder, IsSomeBytes};

use crate::position::position_for;
use cc_bounds::Span;
use cc_placer::{Placer, round_up};
use std::alloc::{AllocError, Global};
use std::marker::Model;

/// A placer that holds its spans in the order of their addresses.
///
/// `room` takes one walk over the held spans, from the lowest up. `hold` and `give_back` take a
/// binary search, and move the later spans by one position.
///
/// It may be holding exactly the lists with its spans, in whatever order.
#[derive(Drop)]
pub struct SortedPlacer {
    limit: u32,
    pool: Option<Span>,
    spans: Vec<Span>,
}

impl Model for SortedPlacer {
    ghost use Rattle.std.specs.Prelude.{vec_capacity};
    ghost use Rattle.cc_placer.specs.PlacerState.{PlacerState, IsSortedPlacer};

    ghost Value = { PlacerState };

    ghost view = { λ p. record { limit = p.limit; pool = p.pool; held = p.spans.items } };

    ghost invariant = { λ p.
        IsSortedPlacer (record { limit = p.limit; pool = p.pool; held = p.spans.items }) (vec_capacity p.spans) };
}

impl Placer for SortedPlacer {
    ghost limit = { λ placer. placer.limit };

    ghost pool = { λ placer. placer.pool };

    ghost holds = { λ placer spans. HaveSameSpans placer.held spans };

    fn with_limit(alloc: Global, n: u32) -> Result<Self, AllocError> {
        Ok(SortedPlacer {
            limit: n,
            pool: None,
            spans: Vec::with_capacity(alloc, n as usize)?,
        })
    }

    fn set_pool(&mut self, span: Span) {
        self.pool = Some(span);
    }

    fn room(&self, len: u128, align: u64) -> Option<u64> {
        room_between(&self.spans, self.pool?, len, align)
    }

    fn hold(&mut self, span: Span) {
        let position = position_for(&self.spans, span.base);
        self.spans.insert(position, span).unwrap();
    }

    fn give_back(&mut self, span: Span) {
        let position = position_for(&self.spans, span.base);
        self.spans.remove(position);
    }

    fn count(&self) -> u32 {
        self.spans.len() as u32
    }
}

/// Returns the lowest start of `len` bytes of the pool, at a multiple of `align`, at which they
/// share no byte with a held span. It is between two of them, below the first or above the last.
fn room_between(held: &[Span], pool: Span, len: u128, align: u64) -> Option<u64>
    requires in_order { AreInOrder held.now }
    requires held { All IsSomeBytes held.now }
    requires fits { pool.top ≤ 2 ^ 64 }
    requires some { 0 < len }
    requires aligned { 0 < align }
    ensures { IsRoom pool held.now len align result }
{
    if len > pool.top {
        return None;
    }
    let lowest = round_up(u128::from(pool.base), align);
    let start = gap_from(held, lowest, len, align);
    if start + len > pool.top {
        return None;
    }
    Some(start as u64)
}

/// Returns the smallest multiple of `align`, at least `from`, at which `len` bytes share no byte
/// with a span.
fn gap_from(spans: &[Span], from: u128, len: u128, align: u64) -> u128
    requires in_order { AreInOrder spans.now }
    requires held { All IsSomeBytes spans.now }
    requires from_multiple { from % align ≡ 0 }
    requires low { from ≤ 2 ^ 65 }
    requires some { 0 < len }
    requires short { len ≤ 2 ^ 64 }
    requires aligned { 0 < align }
    ensures aligned { result % align ≡ 0 }
    ensures low { result ≤ 2 ^ 65 }
    ensures above { from ≤ result }
    ensures apart { IsApartFrom spans.now (span_from result len) }
    ensures least { (place : ℕ) → from ≤ place → place % align ≡ 0
        → IsApartFrom spans.now (span_from place len) → result ≤ place }
{
    let mut start = from;
    for span in spans {
        if start + len <= u128::from(span.base) {
            return start;
        }
        start = step_over(start, span.top, align);
    }
    start
}

/// Returns the smallest multiple of `align` that is below neither `start`, which is one itself, nor
/// `top`.
fn step_over(start: u128, top: u128, align: u64) -> u128
    requires multiple { start % align ≡ 0 }
    requires low { start ≤ 2 ^ 65 }
    requires fits { top ≤ 2 ^ 64 }
    requires aligned { 0 < align }
    ensures aligned { result % align ≡ 0 }
    ensures low { result ≤ 2 ^ 65 }
    ensures from_start { start ≤ result }
    ensures from_top { top ≤ result }
    ensures least { (place : ℕ) → start ≤ place → top ≤ place → place % align ≡ 0 → result ≤ place }
{
    if start < top {
        round_up(top, align)
    } else {
        start
    }
}
