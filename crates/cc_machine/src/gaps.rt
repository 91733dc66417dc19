//! A placer that keeps the gaps between its spans.
ghost use Rattle.std.specs.Prelude.{◌≡◌, ◌≢◌, ◌+◌, ◌<◌, ◌≤◌, ◌^◌, ℕ, List, Some, IfSome, IfNone, IsSome, length};
ghost use Rattle.std.specs.Prelude.{slice_get};
ghost use Rattle.std.specs.List.{slice_index_or};
ghost use Rattle.cc_bounds.specs.declared.span.Span.{Span as SpanSpec};
ghost use Rattle.cc_bounds.specs.Span.{IsWithin};
ghost use Rattle.cc_placer.specs.Placement.{IsApartFrom};
ghost use Rattle.cc_placer.specs.PlacerState.{IsSomeBytes};
ghost use Rattle.cc_machine.specs.Gaps.{AreGaps};
ghost use Rattle.cc_machine.specs.FreeSpace.{AddsBytes, LiesInGap};
ghost use Rattle.cc_machine.specs.GapRowState.{IsPlaceIn, gaps_in, index_of};

use crate::gap_row::{GapRow, Place};
use cc_bounds::Span;
use cc_placer::{Hint, Placer};
use std::alloc::{AllocError, Global};
use std::marker::Model;

/// A placer that keeps the gaps between its spans, and the number of the spans.
///
/// Spans that touch leave one gap, so it cannot list the spans that it holds. It may be holding each
/// list of spans that has as many as it counts, and leaves exactly its gaps free in the pool. `hold`
/// and `give_back` take two binary searches, and mostly move an edge of a gap. `room` walks over bounds
/// of groups of gaps, and over the gaps where such a span may fit.
#[derive(Drop)]
pub struct GapPlacer {
    count: u32,
    // for the contract alone: the gaps lie in it
    pool: Option<Span>,
    row: GapRow,
}

impl Model for GapPlacer {
    ghost use Rattle.std.specs.Prelude.{◌-◌};
    ghost use Rattle.cc_machine.specs.GapPlacer.{GapPlacerState, IsGapPlacer};
    ghost use Rattle.cc_machine.specs.GapRowState.{gaps_in};

    ghost Value = { GapPlacerState };

    ghost view = { λ p. record { limit = p.row.room - 1; pool = p.pool; count = p.count; gaps = gaps_in p.row } };

    ghost invariant = { λ p. IsGapPlacer p.count p.pool p.row };
}

impl Placer for GapPlacer {
    ghost use Rattle.cc_machine.specs.GapPlacer.{MayHold};

    ghost limit = { λ placer. placer.limit };

    ghost pool = { λ placer. placer.pool };

    ghost holds = { λ placer spans. MayHold placer spans };

    fn with_limit(alloc: Global, n: u32) -> Result<Self, AllocError> {
        Ok(GapPlacer {
            count: 0,
            pool: None,
            row: GapRow::with_room(alloc, n + 1)?,
        })
    }

    fn set_pool(&mut self, span: Span) {
        self.pool = Some(span);
        if u128::from(span.base) < span.top {
            give(&mut self.row, span);
        }
    }

    fn room(&self, len: u128, align: u64) -> Option<u64> {
        let (start, _) = self.row.first_fit(len, align)?;
        Some(start)
    }

    #[inline(always)]
    fn find(&self, len: u128, align: u64) -> Option<(u64, Hint)> {
        self.row.first_fit(len, align)
    }

    fn hold(&mut self, span: Span) {
        self.hold_at(span, Hint::default());
    }

    #[inline(always)]
    fn hold_at(&mut self, span: Span, hint: Hint) {
        take(&mut self.row, span, hint);
        self.count += 1;
    }

    #[inline(always)]
    fn give_back(&mut self, span: Span) {
        give(&mut self.row, span);
        self.count -= 1;
    }

    fn count(&self) -> u32 {
        self.count
    }
}

/// Takes the bytes of a span out of the gap around it, which may be the one at the place `near`.
#[inline(always)]
fn take(row: &mut GapRow, span: Span, near: Hint)
    requires gaps { AreGaps (gaps_in row.old) }
    requires some { span.base < span.top }
    requires lies { LiesInGap (gaps_in row.old) span }
    requires room { length (gaps_in row.old) < row.old.room }
    ensures gaps { AreGaps (gaps_in row.new) }
    ensures bytes { AddsBytes (gaps_in row.new) span (gaps_in row.old) }
    ensures room { row.new.room ≡ row.old.room }
{
    let (place, gap) = gap_around(row, span, near);
    let lower = Span {
        base: gap.base,
        top: u128::from(span.base),
    };
    if span.top < gap.top {
        let upper = Span {
            base: span.top as u64,
            top: gap.top,
        };
        row.set(place, upper);
        if gap.base < span.base {
            row.insert(place, lower);
        }
    } else if gap.base < span.base {
        row.set(place, lower);
    } else {
        row.remove(place);
    }
}

/// Returns the place of the gap around a span, and the gap. It is not searched for if it is at the
/// place `near`.
#[inline(always)]
fn gap_around(row: &GapRow, span: Span, near: Hint) -> (Place, Span)
    requires gaps { AreGaps (gaps_in row.now) }
    requires some { span.base < span.top }
    requires lies { LiesInGap (gaps_in row.now) span }
    ensures place { IsPlaceIn row.now result.0 }
    ensures gap { slice_get (gaps_in row.now) (index_of row.now result.0) ≡ Some result.1 }
    ensures around { IsWithin span result.1 }
{
    if let Some(gap) = gap_near(row, span, near) {
        return (near, gap);
    }
    let (place, gap) = row.locate(span.base);
    let Some(gap) = gap else { unreachable!() };
    (place, gap)
}

/// Returns the gap at a place, if there is one, and it is around the span.
#[inline(always)]
fn gap_near(row: &GapRow, span: Span, near: Hint) -> Option<Span>
    ensures place { IsSome result → IsPlaceIn row.now near }
    ensures gap { IfSome result (λ gap. slice_get (gaps_in row.now) (index_of row.now near) ≡ Some gap) }
    ensures around { IfSome result (IsWithin span) }
{
    if !row.has(near) {
        return None;
    }
    let gap = row.gap(near)?;
    if gap.base <= span.base && span.top <= gap.top {
        Some(gap)
    } else {
        None
    }
}

/// Adds the bytes of a span that shares none with a gap, and joins it with the gaps that it touches.
#[inline(always)]
fn give(row: &mut GapRow, span: Span)
    requires gaps { AreGaps (gaps_in row.old) }
    requires some { IsSomeBytes span }
    requires apart { IsApartFrom (gaps_in row.old) span }
    requires room { (more : List SpanSpec) → AreGaps more → AddsBytes (gaps_in row.old) span more
        → length more ≤ row.old.room }
    ensures gaps { AreGaps (gaps_in row.new) }
    ensures bytes { AddsBytes (gaps_in row.old) span (gaps_in row.new) }
    ensures room { row.new.room ≡ row.old.room }
{
    let (place, next) = row.locate(span.base);
    let below = gap_up_to(row, place, u128::from(span.base));
    let above = top_from(next, span.top);
    match (below, above) {
        (None, None) => row.insert(place, span),
        (None, Some(top)) => row.set(place, Span { top, ..span }),
        (Some((below, base)), None) => row.set(below, Span { base, ..span }),
        (Some((below, base)), Some(top)) => {
            row.remove(place);
            row.set(below, Span { base, top });
        }
    }
}

/// Returns the top of a gap, if there is one, and it begins at `base`.
#[inline(always)]
fn top_from(gap: Option<Span>, base: u128) -> Option<u128>
    ensures some { IfSome result (λ top. (it : SpanSpec) × (gap ≡ Some it) × (it.base ≡ base) × (it.top ≡ top)) }
    ensures none { IfNone result ((it : SpanSpec) → gap ≡ Some it → it.base ≢ base) }
{
    let gap = gap?;
    if u128::from(gap.base) == base {
        Some(gap.top)
    } else {
        None
    }
}

/// Returns the gap before a place, if it ends at `top`: its place and its base.
#[inline(always)]
fn gap_up_to(row: &GapRow, place: Place, top: u128) -> Option<(Place, u64)>
    requires { IsPlaceIn row.now place }
    ensures some { IfSome result (λ found. IsPlaceIn row.now found.0
        × (index_of row.now found.0 + 1 ≡ index_of row.now place)
        × (slice_get (gaps_in row.now) (index_of row.now found.0) ≡ Some (record { base = found.1; top = top }))) }
    ensures none { IfNone result ((k : ℕ) (gap : SpanSpec) → k + 1 ≡ index_of row.now place
        → slice_get (gaps_in row.now) k ≡ Some gap → gap.top ≢ top) }
{
    let (before, gap) = row.gap_before(place)?;
    if gap.top == top {
        Some((before, gap.base))
    } else {
        None
    }
}
