//! Laws of all lists of held spans, of units and padded sizes, and of the bytes of a pool.
ghost use Rattle.std.specs.Prelude.{ℕ, ◌≡◌, ◌%◌, ◌*◌, ◌^◌, ◌≤◌, ◌↔◌, List, Some, sum_by};
ghost use Rattle.cc_bounds.specs.declared.span.Span.{Span};
ghost use Rattle.cc_bounds.specs.Granule.{IsGranule, IsSound};
ghost use Rattle.cc_bounds.specs.Decoding.{ExactlyOne};
ghost use Rattle.std.specs.Int.{div_ceil};
ghost use Rattle.cc_bounds.specs.Span.{IsSpan, IsWithin, from_zero, length_of};
ghost use Rattle.cc_bounds.specs.declared.align.Align.{Align};
ghost use Rattle.cc_bounds.specs.declared.align.Align.TheVariants.{One, Sixteen};
ghost use Rattle.cc_cap.specs.Capability.{Capability};
ghost use Rattle.cc_placer.specs.Align.{IsUnit, rounded_up, unit_of};
ghost use Rattle.cc_plan.specs.Plan.{Plan, HaveBoundsInPool, HaveDisjointBounds, plan_bytes};
ghost use Rattle.cc_placer.specs.Placement.{HasNoPlace, HaveSameSpans, IsApartFrom, IsPlace, IsPlacement};

/// Proves that two lists have the same spans, in whatever order, if and only if every weight of a
/// span adds up to the same over both. Such lists leave the same placements.
pub fn order_of_held_spans_says_nothing()
    ensures sums { (spans others : List Span)
        → HaveSameSpans spans others ↔ ((weight : Span → ℕ) → sum_by weight spans ≡ sum_by weight others) }
    ensures placement { (pool : Span) (held others : List Span) (size align start : ℕ) → HaveSameSpans held others
        → IsPlacement pool held size align start → IsPlacement pool others size align start }
    ensures no_place { (pool : Span) (held others : List Span) (size align : ℕ) → HaveSameSpans held others
        → HasNoPlace pool held size align → HasNoPlace pool others size align }
{}

/// Proves that every size has exactly one unit, which is the computed one for sizes of at most 2^64.
/// With alignment 1 the unit of an object is the granule of its size, and cc_bounds has the same
/// padded size. With alignment 16, each multiple of a unit is a multiple of 16, for sizes of at most
/// 2^64.
pub fn units_of_alignments()
    ensures exactly_one { (align : Align) (size : ℕ) → ExactlyOne (IsUnit align size) }
    ensures computed { (align : Align) (size : ℕ) → size ≤ 2 ^ 64 → IsUnit align size (unit_of align size) }
    ensures unit_of_one { (size unit : ℕ) → IsUnit One size unit ↔ IsGranule (from_zero size) unit }
    ensures padded_for_one { (size unit granule : ℕ) → IsUnit One size unit → IsGranule (from_zero size) granule
        → rounded_up size unit ≡ div_ceil size granule * granule }
    ensures multiple_of_sixteen { (size unit number : ℕ) → size ≤ 2 ^ 64 → IsUnit Sixteen size unit
        → number % unit ≡ 0 → number % 16 ≡ 0 }
{}

/// Proves that the held objects of a plan have at most as many bytes, including padding, as its
/// pool, if its objects lie within the pool and no two held objects share a byte. Every
/// [`Planner`](cc_plan::Planner) keeps both properties.
pub fn held_bytes_fit_the_pool()
    ensures { (plan : Plan) (pool : Capability) → HaveBoundsInPool plan → HaveDisjointBounds plan.objects
        → plan.pool ≡ Some pool → plan_bytes plan.objects ≤ length_of pool.span }
{}

/// Proves that a smaller object fits at every place of a larger object of at most 2^64 bytes, even
/// if their units differ.
pub fn smaller_objects_fit()
    ensures { (align : Align) (pool : Span) (held : List Span) (size larger unit coarse start : ℕ)
        → size ≤ larger → larger ≤ 2 ^ 64 → IsUnit align size unit → IsUnit align larger coarse
        → IsPlace pool held (rounded_up larger coarse) coarse start
        → IsPlace pool held (rounded_up size unit) unit start }
{}

/// Proves that, with alignment 1, no exact bounds of at least `size` bytes begin below the placement
/// of an object of `size` bytes, if they lie in the pool and share no byte with a held span. If there
/// is no place, there are no such bounds.
///
/// So first fit skips no place that exact bounds can have.
pub fn placements_are_lowest()
    ensures lowest { (pool span : Span) (held : List Span) (size unit start : ℕ) → IsUnit One size unit
        → IsPlacement pool held (rounded_up size unit) unit start → IsSpan span → IsSound span
        → size ≤ length_of span → IsWithin span pool → IsApartFrom held span → start ≤ span.base }
    ensures none { (pool span : Span) (held : List Span) (size unit : ℕ) → IsUnit One size unit
        → HasNoPlace pool held (rounded_up size unit) unit → IsSpan span → IsSound span
        → size ≤ length_of span → IsWithin span pool → ¬ IsApartFrom held span }
{}
