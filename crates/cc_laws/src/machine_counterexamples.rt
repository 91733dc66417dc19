//! Proves that no law holds for everything: states, or a run, break it. Each function here does
//! nothing, and its contract is the claim.
ghost use Rattle.std.specs.Prelude.{◌^◌, ◌≤◌};
ghost use Rattle.cc_cap.specs.Capability.{root_capability};
ghost use Rattle.cc_values.specs.declared.op.Op.TheVariants.{Addr};
ghost use Rattle.cc_values.specs.declared.reply.Reply.{Reply};
ghost use Rattle.cc_machine.specs.State.{State, SlotState, IsSlot, initial_state};
ghost use Rattle.cc_machine.specs.Step.{Step};
ghost use Rattle.cc_machine.specs.Laws.{HoldsCapabilities, IsMonotonicTree, HasSealingAuthority};
ghost use Rattle.cc_machine.specs.ObjectLaws.{HangsFromPool, HasExactObjects, HasDisjointObjects, IsRevokedExactly};
ghost use Rattle.cc_machine.specs.Confinement.{IsConfined};
ghost use Rattle.cc_bounds.specs.Span.{IsWithin, length_of};
ghost use Rattle.cc_plan.specs.declared.planned_object.ObjectState.TheVariants.{Live};
ghost use Rattle.cc_machine.specs.Objects.{IsPool, held_bytes_of};
ghost use Rattle.cc_machine.specs.ObjectConfinement.{ReusesAfterRevocation, IsConfinedToObject};
ghost use Rattle.cc_laws.specs.Counterexamples.{reused_before_revocation, objects_past_the_pool, counterexample_object};
ghost use Rattle.cc_laws.specs.Counterexamples.{two_objects, child_of_the_pool, child_in_another_object};
ghost use Rattle.cc_laws.specs.Counterexamples.{child_tagged_after_sweep};
ghost use Rattle.cc_machine.specs.Reach.{path_to, ReachesAll};
ghost use Rattle.cc_laws.specs.Counterexamples.{unsound_bounds, address_past_the_end, reserved_type, own_parent};
ghost use Rattle.cc_laws.specs.Counterexamples.{child_with_more_bytes, revoked_child_with_more_permissions};
ghost use Rattle.cc_laws.specs.Counterexamples.{sealed_by_none, unsealed_by_none};
ghost use Rattle.cc_laws.specs.Counterexamples.{object_without_pool, slot_of_two_objects, object_with_another_byte};
ghost use Rattle.cc_laws.specs.Counterexamples.{object_without_bytes, object_off_alignment};
ghost use Rattle.cc_laws.specs.Counterexamples.{live_in_freed, revoked_without_object, tagged_after_sweep};
ghost use Rattle.cc_laws.specs.Counterexamples.{revoked_while_live, revoked_pool};
ghost use Rattle.cc_laws.specs.Staying.{KeepsSlots};
ghost use Rattle.cc_laws.specs.ByteConfinement.{IsConfinedInBytes};
ghost use Rattle.cc_laws.specs.Counterexamples.{with_another_limit, pool_alone, live_after_sweep, grown_object};
ghost use Rattle.cc_laws.specs.Counterexamples.{child_with_more_permissions, sixteen_bytes, revoked_alone};
ghost use Rattle.cc_laws.specs.Counterexamples.{child_of_revoked};
ghost use Rattle.cc_laws.specs.Counterexamples.{is_first, two_slots, child_of_another, sealed_alone, child_unsealed};
ghost use Rattle.cc_laws.specs.Counterexamples.{unsealed_alone, child_sealed, root_alone, five_refusals};

#[tactic(auto, using(crate::proofs::StepCounterexampleLemmas::slots_break))]
fn slots_that_hold_no_capability()
    ensures bounds { ¬ HoldsCapabilities unsound_bounds }
    ensures address { ¬ HoldsCapabilities address_past_the_end }
    ensures otype { ¬ HoldsCapabilities reserved_type }
{}

#[tactic(auto, using(crate::proofs::StepCounterexampleLemmas::trees_break))]
fn trees_that_are_not_monotonic()
    ensures order { ¬ IsMonotonicTree own_parent }
    ensures bytes { ¬ IsMonotonicTree child_with_more_bytes }
    ensures permissions { ¬ IsMonotonicTree revoked_child_with_more_permissions }
{}

#[tactic(auto, using(crate::proofs::StepCounterexampleLemmas::sealing_breaks))]
fn sealing_without_authority()
    ensures sealing { ¬ HasSealingAuthority sealed_by_none }
    ensures unsealing { ¬ HasSealingAuthority unsealed_by_none }
{}

#[tactic(auto, using(crate::proofs::StepCounterexampleLemmas::hanging_breaks))]
fn objects_that_do_not_hang_from_the_pool()
    ensures child { ¬ HangsFromPool object_without_pool }
    ensures at_most_one { ¬ HangsFromPool slot_of_two_objects }
{}

#[tactic(auto, using(crate::proofs::StepCounterexampleLemmas::exactness_breaks))]
fn objects_that_are_not_exact()
    ensures some { ¬ HasExactObjects object_without_bytes }
    ensures aligned { ¬ HasExactObjects object_off_alignment }
    ensures padded { ¬ HasExactObjects object_with_another_byte }
{}

#[tactic(auto, using(crate::proofs::StepCounterexampleLemmas::disjointness_breaks))]
fn objects_that_are_not_disjoint()
    ensures { ¬ HasDisjointObjects live_in_freed }
{}

#[tactic(auto, using(crate::proofs::StepCounterexampleLemmas::revocation_breaks))]
fn revocation_that_is_not_exact()
    ensures too_much { ¬ IsRevokedExactly revoked_without_object }
    ensures too_early { ¬ IsRevokedExactly revoked_while_live }
    ensures too_little { ¬ IsRevokedExactly tagged_after_sweep }
    ensures pool { ¬ IsRevokedExactly revoked_pool }
{}

#[tactic(auto, using(crate::proofs::StepCounterexampleLemmas::confinement_breaks))]
fn runs_that_are_not_confined()
    ensures derived { ¬ IsConfined is_first two_slots child_of_another }
    ensures unsealed { ¬ IsConfined is_first sealed_alone child_unsealed }
    ensures sealed { ¬ IsConfined is_first unsealed_alone child_sealed }
{}

#[tactic(auto, using(crate::proofs::StayingCounterexampleLemmas::staying_breaks))]
fn slots_that_do_not_stay()
    ensures limit { ¬ KeepsSlots root_alone with_another_limit }
    ensures slot { ¬ KeepsSlots two_slots unsealed_alone }
    ensures capability { ¬ KeepsSlots unsealed_alone root_alone }
    ensures parent { ¬ KeepsSlots root_alone own_parent }
    ensures revoked { ¬ KeepsSlots revoked_pool pool_alone }
    ensures size { ¬ KeepsSlots tagged_after_sweep grown_object }
    ensures state { ¬ KeepsSlots tagged_after_sweep live_after_sweep }
    ensures pool { ¬ KeepsSlots pool_alone root_alone }
{}

#[tactic(auto, using(crate::proofs::StayingCounterexampleLemmas::bytes_break))]
fn runs_that_are_not_confined_in_bytes()
    ensures permissions { ¬ IsConfinedInBytes is_first unsealed_alone child_with_more_permissions }
    ensures bytes { ¬ IsConfinedInBytes is_first sixteen_bytes child_with_more_bytes }
    ensures tag { ¬ IsConfinedInBytes is_first revoked_alone child_of_revoked }
{}

#[tactic(auto, using(crate::proofs::StepCounterexampleLemmas::reuse_breaks))]
fn bytes_reused_before_revocation()
    ensures { ¬ ReusesAfterRevocation reused_before_revocation }
{}

#[tactic(auto, using(crate::proofs::StepCounterexampleLemmas::pool_breaks))]
fn held_bytes_that_do_not_fit_the_pool()
    ensures held { (slot : SlotState) → IsPool objects_past_the_pool 0 slot
        → ¬ (held_bytes_of objects_past_the_pool ≤ length_of slot.capability.span) }
    ensures in_pool { (slot own : SlotState) → IsPool objects_past_the_pool 0 slot
        → IsSlot objects_past_the_pool 2 own → ¬ IsWithin own.capability.span slot.capability.span }
{}

#[tactic(auto, using(crate::proofs::StepCounterexampleLemmas::object_confinement_breaks))]
fn runs_that_are_not_confined_to_an_object()
    ensures belongs { ¬ IsConfinedToObject two_objects child_of_the_pool 1 (counterexample_object 1 Live) }
    ensures apart { ¬ IsConfinedToObject two_objects child_in_another_object 1 (counterexample_object 1 Live) }
    ensures revoked { ¬ IsConfinedToObject two_objects child_tagged_after_sweep 1 (counterexample_object 1 Live) }
{}

#[tactic(auto, using(crate::proofs::StepCounterexampleLemmas::reaching_breaks))]
fn a_run_that_does_not_reach_all()
    ensures { ¬ ReachesAll root_alone (path_to root_capability 0 1) five_refusals root_alone }
{}

/// An address of 65 bits, which no `Op` has.
fn a_step_that_has_no_outcome()
    ensures { (reply : Reply) (new : State) → ¬ Step (initial_state 8) (Addr 0 (2 ^ 64)) reply new }
{}
