//! Proves that the premises of the laws of planners are met, by worked pools and objects. Each function
//! here does nothing, and its contract is the claim.
ghost use Rattle.std.specs.Prelude.{◌≡◌, ◌^◌, [], ◌∷◌, Some};
ghost use Rattle.cc_bounds.specs.Granule.{IsGranule, IsSound};
ghost use Rattle.cc_bounds.specs.Span.{IsSpan, IsWithin, from_zero, span_from};
ghost use Rattle.cc_bounds.specs.declared.align.Align.TheVariants.{One, Sixteen};
ghost use Rattle.cc_cap.specs.Capability.{root_capability};
ghost use Rattle.cc_placer.specs.Align.{IsUnit, rounded_up};
ghost use Rattle.cc_placer.specs.Placement.{HasNoPlace, HaveSameSpans, IsPlace, IsPlacement};
ghost use Rattle.cc_plan.specs.Plan.{HaveBoundsInPool, HaveDisjointBounds};
ghost use Rattle.cc_machine.specs.Planned.{plan_of};
ghost use Rattle.cc_laws.specs.Witnesses.{with_first_object};

/// Two held spans in either order, which leave a place for 16 bytes and none for 17.
fn held_spans_in_either_order()
    ensures same { HaveSameSpans (span_from 0 16 ∷ span_from 16 16 ∷ []) (span_from 16 16 ∷ span_from 0 16 ∷ []) }
    ensures placement { IsPlacement (span_from 0 48) (span_from 0 16 ∷ span_from 16 16 ∷ []) 16 1 32 }
    ensures no_place { HasNoPlace (span_from 0 48) (span_from 0 16 ∷ span_from 16 16 ∷ []) 17 1 }
{}

/// The units of 16 bytes with either alignment.
fn units_of_an_object()
    ensures one { IsUnit One 16 1 }
    ensures granule { IsGranule (from_zero 16) 1 }
    ensures sixteen { IsUnit Sixteen 16 16 }
{}

/// The plan of a worked state, which has a pool and an object.
fn a_plan_with_a_pool()
    ensures within { HaveBoundsInPool (plan_of with_first_object) }
    ensures disjoint { HaveDisjointBounds (plan_of with_first_object).objects }
    ensures pool { (plan_of with_first_object).pool ≡ Some root_capability }
{}

/// An object of 8,191 bytes at a place above a held one, and the unit of a smaller object.
fn a_place_of_a_larger_object()
    ensures smaller { IsUnit One 100 1 }
    ensures larger { IsUnit One 8191 16 }
    ensures place { IsPlace (span_from 0x10000 65536) (span_from 0x10000 100 ∷ []) (rounded_up 8191 16) 16 0x10070 }
{}

/// Exact bounds of 16 bytes, in a pool with a placement for them, and in one that they fill.
fn exact_bounds_in_a_pool()
    ensures is_span { IsSpan (span_from 0 16) }
    ensures sound { IsSound (span_from 0 16) }
    ensures within { IsWithin (span_from 0 16) (from_zero (2 ^ 64)) }
    ensures placement { IsPlacement (from_zero (2 ^ 64)) [] (rounded_up 16 1) 1 0 }
    ensures no_place { HasNoPlace (span_from 0 16) (span_from 0 16 ∷ []) (rounded_up 16 1) 1 }
{}
