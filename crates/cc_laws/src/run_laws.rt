//! Laws of every state of a machine: its holes are its free bytes, and its drawing is exact.
//!
//! Each function here is a law: it does nothing, and its contract is the claim. It is the law of plans
//! of the same name in `cc_draw`, for the plan of each state that a run leads to. Every machine is in
//! such a state, by the clause `reached` of `Machine::slots`.
ghost use Rattle.std.specs.Prelude.{All};
ghost use Rattle.cc_values.specs.declared.usage.Usage.{Usage};
ghost use Rattle.cc_plan.specs.Plan.{plan_spans};
ghost use Rattle.cc_machine.specs.State.{State};
ghost use Rattle.cc_machine.specs.Planned.{plan_of};
ghost use Rattle.cc_machine.specs.Run.{IsReached};
ghost use Rattle.cc_draw.specs.Usage.{pool_span};
ghost use Rattle.cc_draw.specs.Drawing.{layout_for};
ghost use Rattle.cc_laws.specs.DrawnObjects.{CountsFreeBytes, IsDrawnExactly};
ghost use Rattle.cli_program.specs.Report.{IsMachineUsage};

/// Proves that, in every state that a run leads to, a byte of the pool is in exactly one hole if
/// and only if no held object has it. The usage has the number of the holes and the largest, and
/// the held bytes and the lengths of the holes add up to the length of the pool.
///
/// The holes are as long as possible: between each and the next lies at least one held byte.
pub fn holes_are_the_free_bytes()
    ensures { (state : State) (usage : Usage) → IsReached state → IsMachineUsage state usage
        → CountsFreeBytes (pool_span (plan_of state)) (plan_spans (plan_of state).objects) usage }
{}

/// Proves that, in every state that a run leads to, the cells from `first_cell` to `end_cell` of
/// each object are exactly those that hold a byte of it. There is at least one such cell, and all of
/// them are cells of the drawing. This includes swept objects, which are not drawn.
pub fn objects_are_drawn_exactly()
    ensures { (state : State) → IsReached state
        → All (λ object. IsDrawnExactly (layout_for (pool_span (plan_of state))) object.span) (plan_of state).objects }
{}
