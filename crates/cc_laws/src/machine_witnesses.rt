//! Proves that the premises of the laws of runs are met: a worked run makes an object, and another
//! one uses only the object's slot. Each function here does nothing, and its contract is the claim.
ghost use Rattle.std.specs.Prelude.{ℕ, true, ◌^◌, [], ◌∷◌};
ghost use Rattle.cc_bounds.specs.Span.{from_zero, span_from};
ghost use Rattle.cc_bounds.specs.declared.align.Align.TheVariants.{One};
ghost use Rattle.cc_values.specs.declared.op.Op.TheVariants.{Flag, Pool, Alloc};
ghost use Rattle.cc_values.specs.declared.reply.Reply.TheVariants.{Made, PoolSet, Allocated};
ghost use Rattle.cc_machine.specs.State.{SlotState, initial_state};
ghost use Rattle.cc_machine.specs.Objects.{IsHeldObject, IsPool};
ghost use Rattle.cc_machine.specs.ObjectConfinement.{AreOfObject};
ghost use Rattle.cc_machine.specs.Run.{Run, IsReached};
ghost use Rattle.cc_machine.specs.Confinement.{RunsWithin};
ghost use Rattle.cc_laws.specs.Counterexamples.{is_first};
ghost use Rattle.cc_laws.specs.Witnesses.{first_object, with_first_object, is_of_object, with_derived_slot};

/// A run from a new machine: the root's slot becomes the pool's, and an object is made.
#[tactic(auto, using(crate::proofs::WitnessLemmas::object_made))]
fn a_run_that_makes_an_object()
    ensures run { (word : ℕ) × Run (initial_state 8) (Pool 0 One ∷ Alloc 16 ∷ [])
        (PoolSet 0 (from_zero (2 ^ 64)) One ∷ Allocated 1 1 word (span_from 0 16) 16 ∷ []) with_first_object }
    ensures reached { IsReached with_first_object }
    ensures held { IsHeldObject with_first_object 1 first_object }
    ensures pool { (slot : SlotState) × IsPool with_first_object 0 slot }
{}

/// A run of a client that is given the object's slot alone.
#[tactic(auto, using(crate::proofs::WitnessLemmas::object_used))]
fn a_run_within_an_object()
    ensures given { AreOfObject is_of_object with_first_object first_object }
    ensures run { (word : ℕ) × RunsWithin is_of_object with_first_object with_first_object (Flag 1 true ∷ [])
        (Made 2 word (span_from 0 16) ∷ []) with_derived_slot }
{}

/// The slot of the pool, which is not of the object.
fn a_slot_of_no_object()
    ensures { ¬ AreOfObject is_first with_first_object first_object }
{}
