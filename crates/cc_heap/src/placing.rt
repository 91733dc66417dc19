//! The place of an object.
ghost use Rattle.std.specs.Prelude.{◌≡◌, ◌<◌, ◌≤◌, List, IfSome, IsSome, option_map};
ghost use Rattle.cc_bounds.specs.declared.span.Span.{Span as SpanSpec};
ghost use Rattle.cc_heap.specs.HeapState.{IsRoomFor};
ghost use Rattle.cc_heap.specs.Reallocation.{can_take};

use cc_bounds::{Align, Span};
use cc_placer::{Hint, Placer, round_up, unit};

/// Returns the span of an object of `size` bytes at its placement, including padding, and the placer's
/// hint of it, or `None` if there is no place for it.
///
/// In a plan whose pool has this alignment, the object has the same padded size. The span also
/// begins at a multiple of the requested alignment.
pub(crate) fn place<P: Placer>(
    placer: &P,
    align: Align,
    requested: u64,
    size: u64,
) -> Option<(Span, Hint)>
    requires pool { IsSome (P.pool placer.now) }
    requires some { 0 < size }
    ensures { (spans : List SpanSpec) → P.holds placer.now spans
        → IfSome (P.pool placer.now) (λ pool. IsRoomFor align requested pool spans size
        (option_map (λ found. found.0) result)) }
{
    let size = u128::from(size);
    let unit = unit(align, size);
    let len = round_up(size, unit);
    let (start, hint) = placer.find(len, unit.max(requested))?;
    let span = Span {
        base: start,
        top: u128::from(start) + len,
    };
    Some((span, hint))
}

/// Returns whether these bytes are those that an object of `size` bytes with a requested alignment can take.
pub(crate) fn can_take(align: Align, requested: u64, size: u64, span: Span) -> bool
    requires some { 0 < size }
    requires in_order { span.base ≤ span.top }
    ensures { result ≡ can_take align requested size span }
{
    let size = u128::from(size);
    let unit = unit(align, size);
    span.len() == round_up(size, unit) && span.base % unit.max(requested) == 0
}
