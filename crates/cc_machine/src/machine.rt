//! Slots, a planner of objects, and the operations on them.
use crate::GapPlacer;
use crate::derivations::{
    rebuilt, sealed, unsealed, with_address, with_bounds, with_exact_bounds, with_flag,
    with_increment, with_perms,
};
use crate::object::Object;
use crate::owners::{is_freed, is_swept};
use crate::slot::Slot;
use cc_bounds::{Align, Len};
use cc_cap::Cap;
use cc_plan::{ObjectId, Planner};
use cc_values::{Op, Reply};
use cc_word::Refusal;
use std::alloc::{AllocError, Global};
use std::marker::Model;

/// Slots of capabilities, numbered from 0.
///
/// Slot 0 has the root capability. Every other slot has a capability that was derived from an
/// earlier slot, its parent. One slot may become the pool, in whose bounds objects are made. Each
/// object has its own slot, a child of the pool's. A freed object holds its bytes until the next
/// sweep, which revokes its slot and every slot derived from that. All memory is allocated when the
/// machine is created.
///
/// A sweep touches no slot: each slot has the number of the object that it belongs to, and is
/// revoked if and only if that object was swept.
#[derive(Drop)]
pub struct Machine {
    /// The maximum number of slots, and the planner's maximum number of objects.
    limit: u32,
    slots: Vec<Slot>,
    /// The slot of the pool.
    pool: Option<u32>,
    planner: Planner<GapPlacer>,
    /// The slot of each object, in the order of their numbers.
    object_slots: Vec<u32>,
    /// The number of slots that belong to each object, at the object's number. At 0 it is the
    /// number of slots that belong to none.
    slot_counts: Vec<u32>,
    /// The number of slots that belong to objects that were freed and not swept.
    freed_slots: u32,
}

impl Model for Machine {
    ghost use Rattle.cc_machine.specs.State.{State};

    ghost Value = { State };

    ghost use Rattle.cc_machine.specs.Machine.{IsMachine, state_of};

    ghost view = { state_of };

    ghost invariant = { IsMachine };
}

impl Machine {
    ghost use Rattle.std.specs.Prelude.{ℕ, Bool, ◌≡◌, ◌≤◌, IfOk, length};
    ghost use Rattle.cc_placer.specs.Placement.{HaveSameSpans};
    ghost use Rattle.cc_plan.specs.Plan.{plan_spans as planned_spans};
    ghost use Rattle.std.specs.Result.{result_map_both};
    ghost use Rattle.cc_values.specs.declared.op.Op.{Op};
    ghost use Rattle.cc_values.specs.declared.op.Op.TheVariants.{Pool, Alloc, Free, Sweep};
    ghost use Rattle.cc_machine.specs.State.{initial_state, tagged_slot};
    ghost use Rattle.cc_machine.specs.Objects.{object_at, held_bytes_of, held_spans};
    ghost use Rattle.cc_machine.specs.Owners.{parent_of};
    ghost use Rattle.cc_machine.specs.Planned.{plan_of};
    ghost use Rattle.cc_machine.specs.Step.{capability_at, parent_at, usable_slot, Adds, Shows, Step};
    ghost use Rattle.cc_machine.specs.Making.{IsMade};
    ghost use Rattle.cc_machine.specs.Run.{Run, IsReached};
    ghost use Rattle.cc_machine.specs.Laws.{IsMonotonicTree, HasSealingAuthority};
    ghost use Rattle.cc_machine.specs.ObjectLaws.{KeepsObjectLaws};
    ghost use Rattle.cc_machine.specs.Safety.{IsSafe};
    ghost use Rattle.cc_machine.specs.Confinement.{IsRefused, RunsWithin, IsConfined};
    ghost use Rattle.cc_machine.specs.Reach.{ReachesAll};

    /// Creates a machine of at most `limit` slots, of which one is made: slot 0, the root.
    ///
    /// Allocates all the memory that the machine ever uses. If one allocation fails, the earlier
    /// ones are freed.
    ///
    /// Requires: `1 <= limit <= 65536`.
    /// Errors: `AllocError` if an allocation fails.
    pub fn with_limit(alloc: Global, limit: u32) -> Result<Machine, AllocError>
        requires from_one { 1 ≤ limit }
        requires at_most { limit ≤ 65536 }
        ensures { IfOk result (λ machine. machine ≡ initial_state limit) }
    {
        let mut slots = Vec::with_capacity(alloc, limit as usize)?;
        slots.push_reserved(Slot {
            capability: Cap::root(),
            after_parent: 0,
            owner: 0,
        });
        let object_slots = Vec::with_capacity(alloc, limit as usize)?;
        let mut slot_counts = Vec::with_capacity(alloc, limit as usize)?;
        slot_counts.push_reserved(1);
        // last, so that no failure after it drops a planner
        let planner = Planner::with_limit(alloc, limit)?;
        Ok(Machine {
            limit,
            slots,
            pool: None,
            planner,
            object_slots,
            slot_counts,
            freed_slots: 0,
        })
    }

    /// Returns the number of slots created so far, including revoked ones. The next slot gets this
    /// number.
    ///
    /// Its contract also has a claim that holds for every machine, whatever was done with it. The
    /// state is one that a run leads to, and so keeps the laws of every run.
    pub fn slots(&self) -> u32
        ensures count { result ≡ length self.now.slots }
        // A run leads to the state.
        ensures reached { IsReached self.now }
        // No slot grants more than an ancestor, and held objects have exact bounds and share no
        // byte.
        ensures safe { IsSafe self.now }
    {
        self.slots.len() as u32
    }

    /// Returns the capability of a tagged slot.
    ///
    /// Errors, in order: `NoSlot` if no slot has this number; `Revoked` if the slot belongs to a
    /// swept object.
    pub fn slot(&self, number: u32) -> Result<Cap, Refusal>
        ensures { result ≡ capability_at self.now.slots number }
    {
        Ok(self.usable(number)?.capability)
    }

    /// Returns the slot with this number.
    ///
    /// Errors, in order: `NoSlot`; `Revoked`.
    #[inline(always)]
    pub(crate) fn usable(&self, number: u32) -> Result<Slot, Refusal>
        ensures { usable_slot self.now.slots number
            ≡ result_map_both (λ slot. tagged_slot slot.capability (parent_of slot)) (λ refusal. refusal) result }
    {
        let slot = self.slots.get(number as usize).ok_or(Refusal::NoSlot)?;
        if is_swept(&self.planner, slot.owner) {
            return Err(Refusal::Revoked);
        }
        Ok(*slot)
    }

    /// Returns the slot that a slot was derived from, or `None` for slot 0. Revoked slots have a
    /// parent too.
    ///
    /// Errors: `NoSlot` if no slot has this number.
    pub fn parent(&self, number: u32) -> Result<Option<u32>, Refusal>
        ensures { result ≡ parent_at self.now.slots number }
    {
        match self.slots.get(number as usize) {
            Some(slot) => Ok(slot.parent()),
            None => Err(Refusal::NoSlot),
        }
    }

    /// Returns the object with this number, live, freed or swept. The first has the number 1.
    ///
    /// Errors: `NoObject` if the number was never given. 0 never is.
    pub fn object(&self, number: u32) -> Result<Object, Refusal>
        ensures { result ≡ object_at self.now.objects number }
    {
        let planned = self
            .planner
            .object(ObjectId(number))
            .ok_or(Refusal::NoObject)?;
        Ok(Object {
            size: planned.size(),
            slot: self.object_slots[number as usize - 1],
            state: planned.state(),
        })
    }

    /// Returns the number of bytes that held objects take, including padding.
    pub fn held_bytes(&self) -> u128
        ensures { result ≡ held_bytes_of self.now }
    {
        self.planner.held_bytes()
    }

    /// Returns the planner. It has the pool and all objects with their bounds, and its placer holds
    /// the bounds of the held ones.
    pub fn planner(&self) -> &Planner<GapPlacer>
        ensures plan { result.now ≡ plan_of self.now }
        ensures held { HaveSameSpans (planned_spans result.now.objects) (held_spans self.now) }
    {
        &self.planner
    }

    /// Does one operation, and returns the reply.
    ///
    /// A refused operation leaves the machine unchanged; [`Op`] lists the errors of each. A
    /// capability that is made goes into a new slot, the last. If there are as many slots as the
    /// limit, it is refused with `Full` instead, after every other check except one: `NoRoom` for
    /// an object comes after `Full`.
    #[inline(always)]
    pub fn step(&mut self, op: &Op) -> Reply
        // The step of the model, with the first reason if it is refused.
        ensures step { Step self.old op.now result self.new }
        ensures refused { IsRefused result → self.new ≡ self.old }
        // No slot, tagged or revoked, grants a byte or a permission that an ancestor does not.
        ensures tree { IsMonotonicTree self.new }
        // A slot was sealed only under a slot with SEAL and its type, and unsealed only under one
        // with UNSEAL and its type.
        ensures sealing { HasSealingAuthority self.new }
        // Objects are children of the pool's slot, have exact bounds, share no byte while they are
        // held, and are revoked exactly when they are swept.
        ensures objects { KeepsObjectLaws self.new }
    {
        self.tell_reached();
        let (parent, made) = match *op {
            Op::Show(number) => return self.show(number),
            Op::Bounds(number, length) => (number, with_bounds(self, number, length)),
            Op::Exact(number, length) => (number, with_exact_bounds(self, number, length)),
            Op::Addr(number, address) => (number, with_address(self, number, address)),
            Op::Inc(number, amount) => (number, with_increment(self, number, amount)),
            Op::Perms(number, mask) => (number, with_perms(self, number, mask)),
            Op::Flag(number, flag) => (number, with_flag(self, number, flag)),
            Op::Seal(number, authority) => (number, sealed(self, number, authority)),
            Op::Unseal(number, authority) => (number, unsealed(self, number, authority)),
            Op::Rebuild(authority, word) => (authority, rebuilt(self, authority, word)),
            Op::Round(length) => return Reply::rounded(length),
            Op::Pool(number, align) => return self.set_pool(number, align),
            Op::Alloc(length) => return self.alloc(length),
            Op::Free(object) => return self.free(object),
            Op::Sweep => return self.sweep(),
        };
        self.add(parent, made)
    }

    /// Proves the claim that holds for every machine: its state is one that a run leads to.
    fn tell_reached(&self)
        ensures { IsReached self.now }
    {
        let _ = &self.slots;
    }

    /// Returns the reply with the contents of a slot.
    ///
    /// Errors, in order: `NoSlot`; `Revoked`.
    #[inline(always)]
    fn show(&self, number: u32) -> Reply
        ensures { Shows self.now.slots number result }
    {
        match self.usable(number) {
            Ok(slot) => Reply::Shown {
                word: slot.capability.word(),
                span: slot.capability.span(),
                perms: slot.capability.perms(),
                flag: slot.capability.flag(),
                otype: slot.capability.otype(),
                parent: slot.parent(),
            },
            Err(refusal) => Reply::Refused(refusal),
        }
    }

    /// Puts the capability that was made into a new slot, the last, or refuses it with `Full` if
    /// there are as many slots as the limit. The new slot belongs to its parent's object, if the
    /// parent has one.
    #[inline(always)]
    fn add(&mut self, parent: u32, made: Result<Cap, Refusal>) -> Reply
        requires { IsMade self.old parent made }
        ensures { Adds self.old parent made result self.new }
    {
        let capability = match made {
            Ok(capability) => capability,
            Err(refusal) => return Reply::Refused(refusal),
        };
        let number = self.slots.len() as u32;
        if number == self.limit {
            return Reply::Refused(Refusal::Full);
        }
        // a derivation returns a capability alone, so the slot that it read and its object are read again
        let owner = self.slots[parent as usize].owner;
        let slot = Slot {
            capability,
            after_parent: parent + 1,
            owner,
        };
        self.slots.push_reserved(slot);
        self.slot_counts[owner as usize] += 1;
        self.freed_slots += u32::from(is_freed(&self.planner, owner));
        Reply::Made {
            slot: number,
            word: capability.word(),
            span: capability.span(),
        }
    }

    /// Makes the bounds of a slot the pool, with this alignment.
    ///
    /// Errors, in order: `NoSlot`; `Revoked`; `Sealed`; `PoolAlreadySet`.
    #[inline(never)]
    fn set_pool(&mut self, number: u32, align: Align) -> Reply
        ensures { Step self.old (Pool number align) result self.new }
    {
        let pool = match self.usable(number) {
            Ok(slot) => slot.capability,
            Err(refusal) => return Reply::Refused(refusal),
        };
        if let Err(refusal) = self.planner.give_pool_aligned(pool, align) {
            return Reply::Refused(refusal);
        }
        self.pool = Some(number);
        Reply::PoolSet {
            slot: number,
            span: pool.span(),
            align,
        }
    }

    /// Makes an object of this size at the lowest place of the pool.
    ///
    /// The planner has at most as many objects as the machine has slots, so it never refuses with
    /// `Full` itself. The pool and the size are tested here too, since their refusals come before
    /// that of the slots.
    ///
    /// Errors, in order: `NoPool`; `ZeroSize`; `Full`; `NoRoom`.
    #[inline(never)]
    fn alloc(&mut self, length: Len) -> Reply
        ensures { Step self.old (Alloc length) result self.new }
    {
        let Some(pool) = self.pool else {
            return Reply::Refused(Refusal::NoPool);
        };
        let size = length.get();
        if size == 0 {
            return Reply::Refused(Refusal::ZeroSize);
        }
        let number = self.slots.len() as u32;
        if number == self.limit {
            return Reply::Refused(Refusal::Full);
        }
        let (object, capability) = match self.planner.alloc(size) {
            Ok(made) => made,
            Err(refusal) => return Reply::Refused(refusal),
        };
        self.slots.push_reserved(Slot {
            capability,
            after_parent: pool + 1,
            owner: object.0,
        });
        self.object_slots.push_reserved(number);
        self.slot_counts.push_reserved(1);
        Reply::Allocated {
            object: object.0,
            slot: number,
            word: capability.word(),
            span: capability.span(),
            held: self.planner.held_bytes(),
        }
    }

    /// Marks an object as freed. It holds its bytes until the next sweep.
    ///
    /// Errors: `NoObject` if the number was never given, or its object was freed or swept.
    #[inline(never)]
    fn free(&mut self, object: u32) -> Reply
        ensures { Step self.old (Free object) result self.new }
    {
        if let Err(refusal) = self.planner.free(ObjectId(object)) {
            return Reply::Refused(refusal);
        }
        self.freed_slots += self.slot_counts[object as usize];
        // the reply has a number of revoked slots, and only a sweep revokes
        Reply::Freed {
            object,
            revoked: 0,
            held: self.planner.held_bytes(),
        }
    }

    /// Sweeps the freed objects: releases their bytes, and so revokes the slots that belong to
    /// them.
    #[inline(never)]
    fn sweep(&mut self) -> Reply
        ensures { Step self.old Sweep result self.new }
    {
        let objects = self.planner.sweep();
        let revoked = self.freed_slots;
        self.freed_slots = 0;
        Reply::Swept {
            objects,
            revoked,
            held: self.planner.held_bytes(),
        }
    }

    /// Does operations one after another, and writes the reply to each.
    ///
    /// Requires: `replies` is as long as `ops`.
    pub fn run(&mut self, ops: &[Op], replies: &mut [Reply])
        requires { length ops.now ≡ length replies.old }
        ensures run { Run self.old ops.now replies.new self.new }
        ensures tree { IsMonotonicTree self.new }
        ensures sealing { HasSealingAuthority self.new }
        ensures objects { KeepsObjectLaws self.new }
        // If the run used only given slots, and slots that it made, it is confined to the given
        // ones.
        ensures confined { (given : ℕ → Bool)
            → RunsWithin given self.old self.old ops.now replies.new self.new → IsConfined given self.old self.new }
        // If the operations are the path from an unsealed slot to a capability that grants no more,
        // and five slots are left, none is refused, and the last slot has the capability.
        ensures reaches { ReachesAll self.old ops.now replies.new self.new }
    {
        self.tell_reached();
        for (index, op) in ops.iter().enumerate() {
            replies[index] = self.step(op);
        }
    }
}
