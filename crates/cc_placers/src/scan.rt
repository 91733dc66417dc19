//! A placer that searches all its spans.
ghost use Rattle.std.specs.Prelude.{◌≡◌, ◌↔◌, ◌<◌, ◌≤◌, ◌^◌, IfSome, IfNone, All, Contains, IsTrue, length};
ghost use Rattle.std.specs.Prelude.{slice_get, Some};
ghost use Rattle.cc_bounds.specs.Span.{SharesByte};
ghost use Rattle.cc_placer.specs.Placement.{HaveSameSpans, IsApartFrom, IsRoom};
ghost use Rattle.cc_placer.specs.PlacerState.{IsSomeBytes};

use cc_bounds::Span;
use cc_placer::{Placer, round_up};
use std::alloc::{AllocError, Global};
use std::marker::Model;

/// A placer that holds its spans in no order.
///
/// `hold` takes constant time, and `give_back` searches the held spans once. `room` may search all
/// of them once for each.
///
/// It may be holding exactly the lists with its spans, in whatever order.
#[derive(Drop)]
pub struct ScanPlacer {
    limit: u32,
    pool: Option<Span>,
    spans: Vec<Span>,
}

impl Model for ScanPlacer {
    ghost use Rattle.std.specs.Prelude.{vec_capacity};
    ghost use Rattle.cc_placer.specs.PlacerState.{PlacerState, IsPlacer};

    ghost Value = { PlacerState };

    ghost view = { λ p. record { limit = p.limit; pool = p.pool; held = p.spans.items } };

    ghost invariant = { λ p.
        IsPlacer (record { limit = p.limit; pool = p.pool; held = p.spans.items }) (vec_capacity p.spans) };
}

impl Placer for ScanPlacer {
    ghost limit = { λ placer. placer.limit };

    ghost pool = { λ placer. placer.pool };

    ghost holds = { λ placer spans. HaveSameSpans placer.held spans };

    fn with_limit(alloc: Global, n: u32) -> Result<Self, AllocError> {
        Ok(ScanPlacer {
            limit: n,
            pool: None,
            spans: Vec::with_capacity(alloc, n as usize)?,
        })
    }

    fn set_pool(&mut self, span: Span) {
        self.pool = Some(span);
    }

    fn room(&self, len: u128, align: u64) -> Option<u64> {
        room_beside(&self.spans, self.pool?, len, align)
    }

    fn hold(&mut self, span: Span) {
        self.spans.push_reserved(span);
    }

    fn give_back(&mut self, span: Span) {
        let at = position_of(&self.spans, span);
        self.spans.swap_remove(at);
    }

    fn count(&self) -> u32 {
        self.spans.len() as u32
    }
}

/// Returns the lowest start of `len` bytes of the pool, at a multiple of `align`, at which they
/// share no byte with a held span.
fn room_beside(held: &[Span], pool: Span, len: u128, align: u64) -> Option<u64>
    requires held { All IsSomeBytes held.now }
    requires fits { pool.top ≤ 2 ^ 64 }
    requires some { 0 < len }
    requires aligned { 0 < align }
    ensures { IsRoom pool held.now len align result }
{
    let mut start = round_up(u128::from(pool.base), align);
    while start < pool.top && len <= pool.top - start {
        let wanted = Span {
            base: start as u64,
            top: start + len,
        };
        match obstacle(held, wanted) {
            None => return Some(wanted.base),
            Some(obstacle) => start = round_up(obstacle.top, align),
        }
    }
    None
}

/// Returns one of the spans that share a byte with the wanted one.
fn obstacle(spans: &[Span], wanted: Span) -> Option<Span>
    ensures some { IfSome result (λ span. Contains spans.now span × SharesByte wanted span) }
    ensures none { IfNone result (IsApartFrom spans.now wanted) }
{
    for span in spans {
        if wanted.shares_byte(span) {
            return Some(*span);
        }
    }
    None
}

/// Returns the first position of the span.
fn position_of(spans: &[Span], span: Span) -> usize
    requires { Contains spans.now span }
    ensures within { result < length spans.now }
    ensures found { slice_get spans.now result ≡ Some span }
{
    for (position, other) in spans.iter().enumerate() {
        if *other == span {
            return position;
        }
    }
    unreachable!()
}
