//! Laws of every plan: its holes are its free bytes, and its drawing is exact.
//!
//! Each function here is a law: it does nothing, and its contract is the claim. The contracts of
//! [`usage_of`](cc_draw::usage_of) and [`show_drawing`](cc_draw::show_drawing) cite the same usage and
//! the same layout. The objects of each plan of a machine are placed as the laws want it, in every
//! state that a run leads to: the laws of the same names of the program say so.
ghost use Rattle.std.specs.Prelude.{ℕ, All};
ghost use Rattle.cc_values.specs.declared.usage.Usage.{Usage};
ghost use Rattle.cc_plan.specs.Plan.{Plan, plan_spans};
ghost use Rattle.cc_draw.specs.Usage.{IsUsage, pool_span};
ghost use Rattle.cc_draw.specs.Drawing.{layout_for};
ghost use Rattle.cc_laws.specs.DrawnObjects.{ArePlaced, CountsFreeBytes, IsDrawnExactly};

/// Proves that, in every plan whose objects are placed, a byte of the pool is in exactly one hole if
/// and only if no held object has it. The usage has the number of the holes and the largest, and the
/// held bytes and the lengths of the holes add up to the length of the pool.
///
/// The holes are as long as possible: between each and the next lies at least one held byte.
pub fn holes_are_the_free_bytes()
    ensures { (slots : ℕ) (plan : Plan) (usage : Usage) → ArePlaced (pool_span plan) plan.objects
        → IsUsage slots plan usage
        → CountsFreeBytes (pool_span plan) (plan_spans plan.objects) usage }
{}

/// Proves that, in every plan whose objects are placed, the cells from `first_cell` to `end_cell` of
/// each object are exactly those that hold a byte of it. There is at least one such cell, and all of
/// them are cells of the drawing. This includes swept objects, which are not drawn.
pub fn objects_are_drawn_exactly()
    ensures { (plan : Plan) → ArePlaced (pool_span plan) plan.objects
        → All (λ object. IsDrawnExactly (layout_for (pool_span plan)) object.span) plan.objects }
{}
