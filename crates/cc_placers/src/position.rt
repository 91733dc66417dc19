//! The position of a span among spans in the order of their addresses.
ghost use Rattle.std.specs.Prelude.{◌<◌, ◌≤◌, ℕ, All, length};
ghost use Rattle.std.specs.List.{slice_index_or};
ghost use Rattle.cc_bounds.specs.declared.span.Span.{Span as SpanSpec};
ghost use Rattle.cc_placer.specs.PlacerState.{AreInOrder, IsSomeBytes};

use cc_bounds::Span;

/// Returns the number of spans that begin below this base: the position of a span with this base, or its place.
pub(crate) fn position_for(spans: &[Span], base: u64) -> usize
    requires in_order { AreInOrder spans.now }
    requires held { All IsSomeBytes spans.now }
    ensures within { result ≤ length spans.now }
    ensures below { (k : ℕ) (d : SpanSpec) → k < result → (slice_index_or spans.now k d).base < base }
    ensures above { (k : ℕ) (d : SpanSpec) → result ≤ k → k < length spans.now
        → base ≤ (slice_index_or spans.now k d).base }
{
    spans.partition_point(|span| span.base < base)
}
