//! Laws of every run of a machine, for every limit and every list of operations.
//!
//! Each function here is a law: it does nothing, and its contract is the claim. The claims are
//! about the step and the run that the contracts of [`Machine::step`](cc_machine::Machine::step) and
//! [`Machine::run`](cc_machine::Machine::run) cite. They hold even for numbers that no
//! [`Op`](cc_values::Op) has; outcomes are promised for addresses of 64 bits alone.
ghost use Rattle.std.specs.Prelude.{ℕ, Bool, ◌≡◌, ◌≤◌, List, Ok};
ghost use Rattle.std.specs.List.{AllByRecursion};
ghost use Rattle.cc_bounds.specs.Span.{IsWithin, length_of};
ghost use Rattle.cc_cap.specs.Capability.{Capability, IsCapability};
ghost use Rattle.cc_cap.specs.Derivation.{Rebuilds};
ghost use Rattle.cc_values.specs.declared.op.Op.{Op};
ghost use Rattle.cc_values.specs.declared.op.Op.TheVariants.{Sweep};
ghost use Rattle.cc_values.specs.declared.reply.Reply.{Reply};
ghost use Rattle.cc_values.specs.declared.reply.Reply.TheVariants.{Swept as ReplySwept};
ghost use Rattle.cc_machine.specs.declared.object.Object.{Object};
ghost use Rattle.cc_machine.specs.State.{State, SlotState, IsSlot};
ghost use Rattle.cc_machine.specs.Objects.{IsHeldObject, IsObject, IsPool, held_bytes_of};
ghost use Rattle.cc_machine.specs.ObjectConfinement.{ReusesAfterRevocation, AreOfObject, IsConfinedToObject};
ghost use Rattle.cc_machine.specs.Step.{Step};
ghost use Rattle.cc_machine.specs.Run.{Run, IsReached, IsInAddressSpace};
ghost use Rattle.cc_machine.specs.Laws.{HoldsCapabilities, IsMonotonicTree, HasSealingAuthority};
ghost use Rattle.cc_machine.specs.ObjectLaws.{HangsFromPool, HasExactObjects, HasDisjointObjects, IsRevokedExactly};
ghost use Rattle.cc_machine.specs.Confinement.{RunsWithin, IsConfined};
ghost use Rattle.cc_cap.specs.Reach.{IsReachable};
ghost use Rattle.cc_machine.specs.Reach.{ReachesAll};
ghost use Rattle.cc_laws.specs.Staying.{KeepsSlots};
ghost use Rattle.cc_laws.specs.ByteConfinement.{IsConfinedInBytes};

/// Proves that a step has one outcome, and so has a run: from one state the same operations give
/// the same replies and lead to the same state.
pub fn one_outcome()
    ensures step { (old new other : State) (op : Op) (reply other_reply : Reply)
        → Step old op reply new → Step old op other_reply other → (reply ≡ other_reply) × (new ≡ other) }
    ensures run { (old new other : State) (ops : List Op) (replies other_replies : List Reply)
        → Run old ops replies new → Run old ops other_replies other → (replies ≡ other_replies) × (new ≡ other) }
{}

/// Proves that every operation that a program can write sets an address of the address space, if it
/// sets one, since addresses have 64 bits. A clause may speak of other numbers.
pub fn operations_are_in_address_space(op: cc_values::Op)
    ensures { IsInAddressSpace op }
{}

/// Proves that, from every state that a run leads to, every operation that a program can write has
/// an outcome: a reply, which may be a refusal, and a state after it. By [`one_outcome`] it has no
/// other.
pub fn every_step_has_an_outcome()
    ensures { (state : State) (op : Op) → IsReached state → IsInAddressSpace op
        → (reply : Reply) × (new : State) × Step state op reply new }
{}

/// Proves that, from every state that a run leads to, every list of operations that a program can
/// write has an outcome: a reply to each, and the state after the last.
pub fn every_run_has_an_outcome()
    ensures { (state : State) (ops : List Op) → IsReached state → AllByRecursion IsInAddressSpace ops
        → (replies : List Reply) × (new : State) × Run state ops replies new }
{}

/// Proves that every run from a state that a run leads to ends in such a state. So the laws below,
/// which hold for every such state, hold after it too.
pub fn runs_join()
    ensures { (old new : State) (ops : List Op) (replies : List Reply) → IsReached old → Run old ops replies new
        → IsReached new }
{}

/// Proves that, in every state that a run leads to, every slot, tagged or revoked, holds a
/// capability that can exist. Its bounds are sound, and its address is representable for them.
pub fn slots_hold_capabilities()
    ensures { (state : State) → IsReached state → HoldsCapabilities state }
{}

/// Proves that the slots of every state that a run leads to are a monotonic derivation tree. A
/// parent has a smaller number than its child, and no slot, tagged or revoked, grants a byte or a
/// permission that one of its ancestors does not.
pub fn monotonic_tree()
    ensures { (state : State) → IsReached state → IsMonotonicTree state }
{}

/// Proves that, in every state that a run leads to, slots were sealed and unsealed only under an
/// authority. That is an earlier slot, unsealed, with SEAL or UNSEAL, whose address is the type and
/// lies in its bounds.
pub fn sealing_authority()
    ensures { (state : State) → IsReached state → HasSealingAuthority state }
{}

/// Proves that, in every state that a run leads to, each object's slot is a child of the pool's
/// slot, and no slot belongs to more than one object. A slot belongs to an object if it is the
/// object's slot or was derived from it.
pub fn objects_from_pool()
    ensures { (state : State) → IsReached state → HangsFromPool state }
{}

/// Proves that, in every state that a run leads to, each object has exact bounds. Its slot's bounds
/// are sound, begin and end at multiples of the unit of its size, and have the padded size. The
/// padded size of n bytes is from n to n + n/512, and up to 15 more in a pool of alignment 16.
pub fn exact_objects()
    ensures { (state : State) → IsReached state → HasExactObjects state }
{}

/// Proves that, in every state that a run leads to, slots that belong to different held objects
/// share no byte. An object is held until it is swept: live, or freed and not swept yet.
///
/// An object's own slot belongs to it, so the bounds of held objects share no byte either: no held
/// byte is given to another object before a sweep.
pub fn disjoint_objects()
    ensures { (state : State) → IsReached state → HasDisjointObjects state }
{}

/// Proves that, in every state that a run leads to, a slot is revoked if and only if it belongs to
/// a swept object, and the pool's slot never is. So a sweep revokes the slots of the freed objects
/// and the slots derived from them, and no more.
pub fn exact_revocation()
    ensures { (state : State) → IsReached state → IsRevokedExactly state }
{}

/// Proves that a run that uses only given slots, and slots that it made, makes only slots derived
/// from the given ones. It neither seals nor unseals with a type that none of the given ones may
/// seal or unseal with.
///
/// A refused operation uses no slot, and an `alloc` that makes an object uses the pool's slot. Each
/// slot that the run makes has a given slot among its ancestors, and so, by [`monotonic_tree`] and
/// [`slots_stay`], grants no more than that one granted before the run. If no given slot has both
/// UNSEAL and a type in its bounds, nothing of this type was unsealed. If none has both SEAL and
/// the type, nothing was sealed with it.
pub fn confinement()
    ensures { (given : ℕ → Bool) (old new : State) (ops : List Op) (replies : List Reply)
        → IsReached old → RunsWithin given old old ops replies new → IsConfined given old new }
{}

/// Proves that slots stay through every run. A slot keeps its capability and its parent, and a
/// revoked slot stays revoked. An object keeps its size and its slot, and goes from live to freed to
/// swept, never back. A pool, once set, stays, with its alignment, and so does the limit.
///
/// So a client can keep what it read of a slot. Only its tag can go.
pub fn slots_stay()
    ensures { (old new : State) (ops : List Op) (replies : List Reply)
        → IsReached old → Run old ops replies new → KeepsSlots old new }
{}

/// Proves that a run that uses only given slots, and slots that it made, gains no byte and no
/// permission that they lack. Each slot that it makes grants no more than one of the given slots
/// granted before the run. If it is tagged after the run, that one was tagged before it.
pub fn confinement_in_bytes()
    ensures { (given : ℕ → Bool) (old new : State) (ops : List Op) (replies : List Reply)
        → IsReached old → RunsWithin given old old ops replies new → IsConfinedInBytes given old new }
{}

/// Proves that every unsealed capability that grants no more than a slot's is derived from the slot
/// by five operations, of which none is refused. The slot has to be tagged and unsealed, with five
/// slots left.
///
/// A capability from [`Cap::rebuild`](cc_cap::Cap::rebuild) is reached from its authority by
/// derivations too, so that call adds no power.
pub fn reachability()
    ensures operations { (old new : State) (ops : List Op) (replies : List Reply)
        → IsReached old → Run old ops replies new → ReachesAll old ops replies new }
    ensures rebuild { (authority cap : Capability) (word : ℕ)
        → IsCapability authority → Rebuilds authority word (Ok cap) → IsReachable authority cap }
{}

/// Proves that a run that uses only slots of one held object, and slots that it made, is confined
/// to that object. Each slot that it makes belongs to the object, and shares no byte with a slot of
/// another object that was held before the run. Each is revoked if the object is swept in the state
/// after the run.
///
/// The run may free and sweep every object, as every client may. The claim holds then too.
pub fn confinement_to_an_object()
    ensures { (given : ℕ → Bool) (old new : State) (ops : List Op) (replies : List Reply) (number : ℕ) (object : Object)
        → IsReached old → IsHeldObject old number object → AreOfObject given old object
        → RunsWithin given old old ops replies new → IsConfinedToObject old new number object }
{}

/// Proves that, in every state that a run leads to, a tagged slot of an object shares no byte with
/// a slot of another held object. So a byte of an object is allocated again only after each slot of
/// the object that has this byte is revoked.
pub fn reuse_after_revocation()
    ensures { (state : State) → IsReached state → ReusesAfterRevocation state }
{}

/// Proves that a sweep directly after a sweep changes nothing. It replies that no object was swept
/// and no slot was revoked, and leaves the state as it was.
pub fn sweeping_twice()
    ensures { (old mid new : State) (reply again : Reply) → Step old Sweep reply mid → Step mid Sweep again new
        → (new ≡ mid) × (again ≡ ReplySwept 0 0 (held_bytes_of mid)) }
{}

/// Proves that, in every state that a run leads to, each object lies within the pool, and the held
/// objects have at most as many bytes, including padding, as the pool.
pub fn held_bytes_fit_the_pool()
    ensures in_pool { (state : State) (pool number : ℕ) (slot own : SlotState) (object : Object)
        → IsReached state → IsPool state pool slot → IsObject state number object → IsSlot state object.slot own
        → IsWithin own.capability.span slot.capability.span }
    ensures held { (state : State) (pool : ℕ) (slot : SlotState) → IsReached state → IsPool state pool slot
        → held_bytes_of state ≤ length_of slot.capability.span }
{}
