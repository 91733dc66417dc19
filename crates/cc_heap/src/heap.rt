//! The heap.
ghost use Rattle.std.specs.Prelude.{
  ◌≡◌,
  ℕ,
  false,
  true,
  None,
  Some,
  nat_eq,
  ◌+◌,
  ◌<◌,
  ◌≤◌,
  ◌^◌,
  ◌↔◌,
  length,
  All,
  IfOk,
  OnErr,
  OnOk,
  IfSome,
  IsNone,
  IsSome,
  IsTrue,
};
ghost use Rattle.std.specs.Bool.{OnFalse, OnTrue};
ghost use Rattle.std.specs.Int.{IsPowerOfTwo};
ghost use Rattle.cc_heap.specs.Memory.{IsSoundMemory, memory_spans, usage_of};
ghost use Rattle.cc_heap.specs.Totals.{with_usage};
ghost use Rattle.cc_heap.specs.Heap.{
  Attempts,
  KeepsHeapObject,
  MustSweep,
  empty_heap,
  kept_object,
  object_under,
  swept_heap,
  swept_memory,
};
ghost use Rattle.cc_heap.specs.Reallocation.{can_take};
ghost use Rattle.cc_heap.specs.Alignment.{HasAlignment};
ghost use Rattle.cc_heap.specs.Events.{
  AllocatesInHeap,
  AttemptsToReplace,
  ClearsOther,
  FailsInEvent,
  FailsToMake,
  FailsToReallocate,
  FollowsPolicy,
  FollowsReplacing,
  FreesIfLive,
  FreesOrNot,
  IsEvent,
  IsSweptOrNot,
  KeepsPlace,
  Moves,
  Reallocates,
  Remakes,
  ReplacesLive,
  Tries,
  TriesToReplace,
  outcome_of,
  swept_if_asked,
};
ghost use Rattle.cc_heap.specs.Peaks.{without_peaks};
ghost use Rattle.cc_heap.specs.Run.{Runs};
ghost use Rattle.cc_heap.specs.HeapState.{PutsOver, QuarantinesLive, ReleasesLast, Settles};

use crate::entries::put_for;
use crate::event::Event;
use crate::making::Making;
use crate::object::Object;
use crate::outcome::Outcome;
use crate::placing::{can_take, place};
use crate::settings::Settings;
use crate::totals::Totals;
use crate::usage::Usage;
use cc_bounds::Span;
use cc_placer::Placer;
use std::alloc::{AllocError, Global};
use std::collections::HashMap;
use std::marker::Model;

/// The outcome of an event by which nothing is refused and no object is to be made.
const NOTHING: Outcome = Outcome {
    was_live: false,
    unknown: false,
    lost: false,
    making: None,
};

/// The heap of an allocator: objects with exact bounds in a pool, under ids that can be used again,
/// and a quarantine of the spans of freed objects.
///
/// An object takes its padded size at the lowest place of the pool. Its bytes stay held from its
/// creation to the sweep after its free, and no byte is held twice.
#[derive(Drop)]
pub struct Heap<P: Placer> {
    settings: Settings,
    objects: HashMap<u64, Object>,
    quarantine: Vec<Span>,
    usage: Usage,
    totals: Totals,
    placer: P,
}

impl<P: Placer> Model for Heap<P> {
    ghost use Rattle.std.specs.Prelude.{vec_capacity};
    ghost use Rattle.cc_heap.specs.Heap.{Heap};
    ghost use Rattle.cc_heap.specs.Run.{Runs};
    ghost use Rattle.cc_heap.specs.HeapState.{IsHeap};

    ghost Value = { Heap };

    ghost view = { λ h. record {
      settings = h.settings;
      memory = record { live = h.objects.entries; quarantined = h.quarantine.items };
      totals = h.totals;
    } };

    ghost invariant = { λ h. IsHeap (record {
      settings = h.settings;
      memory = record { live = h.objects.entries; quarantined = h.quarantine.items };
      totals = h.totals;
    })
        h.usage (vec_capacity h.quarantine) (P.limit h.placer) (P.pool h.placer) (P.holds h.placer) };
}

impl<P: Placer> Heap<P> {
    /// Creates a heap that holds nothing.
    ///
    /// Requires: `1 <= settings.limit <= 2^24`; the pool's base is at most its top, and that at
    /// most 2^64.
    /// Errors: `AllocError` if an allocation fails.
    pub fn new(alloc: Global, settings: Settings) -> Result<Self, AllocError>
        requires some { 1 ≤ settings.limit }
        requires few { settings.limit ≤ 2 ^ 24 }
        requires in_order { settings.pool.base ≤ settings.pool.top }
        requires fits { settings.pool.top ≤ 2 ^ 64 }
        ensures { IfOk result (λ heap. heap ≡ empty_heap settings) }
    {
        let mut placer = P::with_limit(alloc, settings.limit)?;
        placer.set_pool(settings.pool);
        Ok(Heap {
            settings,
            objects: HashMap::new(alloc),
            quarantine: Vec::new(alloc),
            usage: Usage::default(),
            totals: Totals::default(),
            placer,
        })
    }

    /// Returns the number of objects and of bytes that the heap holds.
    ///
    /// No heap holds more spans than its limit, whatever events it took.
    pub fn usage(&self) -> Usage
        ensures value { result ≡ usage_of self.now.memory }
        ensures fits { result.live + result.quarantine ≤ 2 ^ 127 }
        ensures at_most { length (memory_spans self.now.memory) ≤ self.now.settings.limit }
    {
        self.usage
    }

    /// Returns the numbers of all states that the heap has had.
    pub fn totals(&self) -> Totals
        ensures { result ≡ self.now.totals }
    {
        self.totals
    }

    /// Forgets the peaks of bytes, so that those after an event are of that event alone.
    pub fn forget_peaks(&mut self)
        ensures { self.new ≡ without_peaks self.old }
    {
        self.totals = self.totals.without_peaks();
    }

    /// Returns the settings of the heap.
    pub fn settings(&self) -> Settings
        ensures { result ≡ self.now.settings }
    {
        self.settings
    }

    /// Takes one event.
    ///
    /// Requires: an alignment that the event requests is a power of two.
    /// Errors: `AllocError` if an allocation fails, which it does only in an event that makes an object or
    /// gives one another id. The heap stays sound then, and makes no object. It may have freed the object
    /// under that id, and swept the quarantine.
    pub fn event(&mut self, event: Event) -> Result<Outcome, AllocError>
        requires aligned { HasAlignment event }
        ensures is_event { IfOk result (λ outcome. IsEvent self.old event outcome self.new) }
        ensures refused { OnErr result (FailsInEvent self.old event self.new) }
        // Held spans share no byte, and each object has exact bounds, also after a failed
        // allocation.
        ensures sound { IsSoundMemory self.new.settings.align self.new.memory }
    {
        let outcome = self.happen(event);
        // the use of a field shows the prover that the heap is sound
        let _ = &self.settings;
        outcome
    }

    /// Takes one event, as [`Heap::event`] does.
    fn happen(&mut self, event: Event) -> Result<Outcome, AllocError>
        requires { HasAlignment event }
        ensures is_event { IfOk result (λ outcome. IsEvent self.old event outcome self.new) }
        ensures refused { OnErr result (FailsInEvent self.old event self.new) }
    {
        match event {
            Event::Allocate { id, size, align } => self.allocate(id, align, size.max(1)),
            Event::Clear { id, size } => self.allocate(id, 1, size.max(1)),
            Event::Reallocate { old, new, size } => self.reallocate(old, new, size.max(1)),
            Event::Free { id } => Ok(self.free_or_not(id)),
            Event::Sweep => Ok(self.sweep_if_asked()),
            Event::Clock(_) => Ok(NOTHING),
        }
    }

    /// Takes events in order, up to the first for which an allocation fails.
    ///
    /// Requires: each alignment that an event requests is a power of two.
    /// Errors: `AllocError` if an allocation fails. The events before that one have been taken.
    pub fn run(&mut self, events: &[Event]) -> Result<(), AllocError>
        requires aligned { All HasAlignment events.now }
        ensures runs { OnOk result (Runs self.old events.now self.new) }
        // Of a run that a failed allocation stopped, this is all that is promised.
        ensures sound { IsSoundMemory self.new.settings.align self.new.memory }
    {
        // the use of a field shows the prover that the heap is sound, also if nothing changes
        let _ = &self.settings;
        for i in 0..events.len() {
            self.event(events[i])?;
        }
        Ok(())
    }

    /// Frees the object under an id, if that is live.
    fn free_or_not(&mut self, id: u64) -> Outcome
        ensures frees { FreesOrNot self.old id result self.new }
    {
        let is_live = self.free(id);
        Outcome {
            unknown: !is_live,
            ..NOTHING
        }
    }

    /// Sweeps if the policy is the trace's.
    fn sweep_if_asked(&mut self) -> Outcome
        ensures swept { self.new ≡ swept_if_asked self.old }
        ensures told { result ≡ outcome_of false false None }
    {
        if self.settings.policy.is_of_the_trace() {
            self.sweep();
        }
        NOTHING
    }

    /// Frees the object under the id, if that is live, and makes one under it.
    fn allocate(&mut self, id: u64, align: u64, size: u64) -> Result<Outcome, AllocError>
        requires some { 0 < size }
        requires aligned { IsPowerOfTwo align }
        ensures allocates { IfOk result (λ outcome. AllocatesInHeap self.old id align size outcome self.new) }
        ensures refused { OnErr result (FailsToMake self.old id self.new) }
        ensures others { (other : ℕ) → nat_eq id other ≡ false
            → object_under self.new other ≡ object_under self.old other }
    {
        let was_live = self.free(id);
        let making = self.try_to_make(id, align, size)?;
        Ok(Outcome {
            was_live,
            making: Some(making),
            ..NOTHING
        })
    }

    /// Keeps the object under `from` in its place, if it can and shall stay, and otherwise makes an
    /// object in place of it.
    fn reallocate(&mut self, from: u64, to: u64, size: u64) -> Result<Outcome, AllocError>
        requires some { 0 < size }
        ensures reallocates { IfOk result (λ outcome. Reallocates self.old from to size outcome self.new) }
        ensures refused { OnErr result (FailsToReallocate self.old from to self.new) }
    {
        match self.kept_object(from, size) {
            Some(object) => self.keep(from, to, object, size),
            None => self.remake(from, to, size),
        }
    }

    /// Returns the object under an id whose bytes a reallocation keeps, or `None`.
    fn kept_object(&self, id: u64, size: u64) -> Option<Object>
        requires some { 0 < size }
        ensures value { result ≡ kept_object self.now id size }
        ensures live { IfSome result (λ object. object_under self.now id ≡ Some object) }
        ensures fits { IfSome result (λ object. can_take self.now.settings.align 1 size object.span ≡ true) }
    {
        if !self.settings.realloc.is_keep() {
            return None;
        }
        let Some(object) = self.objects.get(&id).copied() else {
            return None;
        };
        if can_take(self.settings.align, 1, size, object.span) {
            Some(object)
        } else {
            None
        }
    }

    /// Keeps an object in its place, under another id if `to` is not `from`. The object under `to`
    /// is then freed first, if that is live.
    #[tactic(auto, using(crate::proofs::StepLemmas::fails_to_keep))]
    fn keep(&mut self, from: u64, to: u64, object: Object, size: u64) -> Result<Outcome, AllocError>
        requires some { 0 < size }
        requires live { object_under self.old from ≡ Some object }
        requires fits { can_take self.old.settings.align 1 size object.span ≡ true }
        ensures keeps { IfOk result (λ outcome. KeepsPlace self.old from to object size outcome self.new) }
        ensures refused { OnErr result (FailsToReallocate self.old from to self.new) }
    {
        let was_live = self.clear_other(from, to);
        self.resize(from, to, object, size)?;
        Ok(Outcome {
            was_live,
            ..NOTHING
        })
    }

    /// Frees the object under `to`, if that is another id than `from` and live. Returns whether it did.
    fn clear_other(&mut self, from: u64, to: u64) -> bool
        ensures clears { ClearsOther self.old from to result self.new }
        ensures from { object_under self.new from ≡ object_under self.old from }
        ensures gone { nat_eq from to ≡ false → IsNone (object_under self.new to) }
        ensures settings { self.new.settings ≡ self.old.settings }
    {
        if from == to {
            return false;
        }
        self.free(to)
    }

    /// Gives the object under `from` another size and the id `to`. Its bytes stay.
    ///
    /// On `Err` nothing changes.
    fn resize(&mut self, from: u64, to: u64, before: Object, size: u64) -> Result<(), AllocError>
        requires some { 0 < size }
        requires live { object_under self.old from ≡ Some before }
        requires fits { can_take self.old.settings.align 1 size before.span ≡ true }
        requires fresh { nat_eq from to ≡ false → IsNone (object_under self.old to) }
        ensures keeps { OnOk result (KeepsHeapObject self.old from to before 1 size self.new) }
        ensures refused { OnErr result (self.new ≡ self.old) }
    {
        let object = Object {
            size,
            align: 1,
            span: before.span,
        };
        put_for(&mut self.objects, from, to, object)?;
        self.usage = self.usage.with_size(before.size, size);
        self.count_state();
        Ok(())
    }

    /// Makes an object in place of that under `from`, if that is live.
    fn remake(&mut self, from: u64, to: u64, size: u64) -> Result<Outcome, AllocError>
        requires some { 0 < size }
        ensures remakes { IfOk result (λ outcome. Remakes self.old from to size outcome self.new) }
        ensures refused { OnErr result (FailsToReallocate self.old from to self.new) }
    {
        if !self.objects.contains_key(&from) {
            let outcome = self.allocate(to, 1, size)?;
            return Ok(Outcome {
                unknown: true,
                ..outcome
            });
        }
        if from == to {
            return self.replace_live(to, size);
        }
        self.move_to(from, to, size)
    }

    /// Makes an object under `to`, and then frees that under `from`.
    fn move_to(&mut self, from: u64, to: u64, size: u64) -> Result<Outcome, AllocError>
        requires some { 0 < size }
        requires live { IsSome (object_under self.old from) }
        requires differ { nat_eq to from ≡ false }
        ensures moves { IfOk result (λ outcome. Moves self.old from to size outcome self.new) }
        ensures refused { OnErr result (FailsToMake self.old to self.new) }
    {
        let outcome = self.allocate(to, 1, size)?;
        self.free(from);
        Ok(outcome)
    }

    /// Makes an object under a live id in place of the one under it.
    fn replace_live(&mut self, id: u64, size: u64) -> Result<Outcome, AllocError>
        requires some { 0 < size }
        requires live { IsSome (object_under self.old id) }
        ensures replaces { IfOk result (λ outcome. ReplacesLive self.old id size outcome self.new) }
        ensures refused { OnErr result (IsSweptOrNot self.old self.new) }
    {
        let making = self.try_to_replace(id, size)?;
        self.follow_replacing(id, making);
        Ok(Outcome {
            making: Some(making),
            ..NOTHING
        })
    }

    /// Follows the policy once the object under a live id was replaced, or frees it if it was not.
    fn follow_replacing(&mut self, id: u64, making: Making)
        requires live { IsSome (object_under self.old id) }
        ensures follows { FollowsReplacing self.old id making self.new }
    {
        if making.is_made() {
            self.follow_policy();
            return;
        }
        self.free(id);
    }

    /// Makes an object under an id that is not live, with one sweep and one more attempt if there is
    /// no place for it or the heap is full.
    fn try_to_make(&mut self, id: u64, align: u64, size: u64) -> Result<Making, AllocError>
        requires some { 0 < size }
        requires aligned { IsPowerOfTwo align }
        requires fresh { IsNone (object_under self.old id) }
        ensures tries { IfOk result (λ making. Tries self.old id align size making self.new) }
        ensures refused { OnErr result (IsSweptOrNot self.old self.new) }
        ensures others { (other : ℕ) → nat_eq id other ≡ false
            → object_under self.new other ≡ object_under self.old other }
    {
        let making = self.make(id, align, size)?;
        if making.is_made() {
            return Ok(making);
        }
        self.sweep();
        self.make(id, align, size)
    }

    /// Replaces the object under a live id, with one sweep and one more attempt if there is no place
    /// for the new one or the heap is full.
    fn try_to_replace(&mut self, id: u64, size: u64) -> Result<Making, AllocError>
        requires some { 0 < size }
        requires live { IsSome (object_under self.old id) }
        ensures tries { IfOk result (λ making. TriesToReplace self.old id size making self.new) }
        ensures refused { OnErr result (IsSweptOrNot self.old self.new) }
        ensures live { IfOk result (λ making. IsSome (object_under self.new id)) }
    {
        let making = self.replace(id, size)?;
        if making.is_made() {
            return Ok(making);
        }
        self.sweep();
        self.replace(id, size)
    }

    /// Makes an object under a live id, and frees the one that was under it.
    ///
    /// On `Err` nothing changes.
    fn replace(&mut self, id: u64, size: u64) -> Result<Making, AllocError>
        requires some { 0 < size }
        requires live { IsSome (object_under self.old id) }
        ensures attempts { IfOk result (λ making. AttemptsToReplace self.old id size making self.new) }
        ensures refused { OnErr result (self.new ≡ self.old) }
        ensures live { IsSome (object_under self.new id) }
    {
        let making = self.make(id, 1, size)?;
        if !making.is_made() {
            return Ok(making);
        }
        self.settle();
        Ok(making)
    }

    /// Makes an object under an id, at the lowest place of the pool, and moves the object that was live under
    /// the id, if one was, to the quarantine.
    ///
    /// On `Err` nothing changes.
    fn make(&mut self, id: u64, align: u64, size: u64) -> Result<Making, AllocError>
        requires some { 0 < size }
        requires aligned { IsPowerOfTwo align }
        ensures attempts { IsNone (object_under self.old id)
            → IfOk result (λ making. Attempts self.old id align size making self.new) }
        ensures replaces { IsSome (object_under self.old id)
            → IfOk result (λ making. PutsOver self.old id align size making self.new) }
        ensures refused { OnErr result (self.new ≡ self.old) }
        ensures live { IsSome (object_under self.old id) → IsSome (object_under self.new id) }
        ensures others { (other : ℕ) → nat_eq id other ≡ false
            → object_under self.new other ≡ object_under self.old other }
    {
        if self.objects.len() + self.quarantine.len() >= self.settings.limit as usize {
            return Ok(Making::Full);
        }
        // so that no free allocates
        self.quarantine.reserve(self.objects.len() + 1)?;
        let Some((span, hint)) = place(&self.placer, self.settings.align, align, size) else {
            return Ok(Making::NoRoom);
        };
        let object = Object { size, align, span };
        let before = self.objects.insert(id, object)?;
        self.placer.hold_at(span, hint);
        let usage = self.usage.with_made(object);
        let end = span.top - u128::from(self.settings.pool.base);
        self.totals = self.totals.with_made(object, end, usage);
        let Some(before) = before else {
            self.usage = usage;
            return Ok(Making::Made);
        };
        self.quarantine.push_reserved(before.span);
        self.usage = usage.with_quarantined(before);
        Ok(Making::Made)
    }

    /// Frees the object under an id, if that is live, and follows the policy. Returns whether it was
    /// live.
    fn free(&mut self, id: u64) -> bool
        ensures frees { FreesIfLive self.old id result self.new }
        ensures gone { IsNone (object_under self.new id) }
        ensures others { (other : ℕ) → nat_eq id other ≡ false
            → object_under self.new other ≡ object_under self.old other }
    {
        if !self.quarantine_object(id) {
            return false;
        }
        self.settle();
        self.follow_policy();
        true
    }

    /// Moves the object under an id to the quarantine, if the id is live. Returns whether it was
    /// live.
    fn quarantine_object(&mut self, id: u64) -> bool
        ensures quarantined { OnTrue result (QuarantinesLive self.old id self.new) }
        ensures unknown { OnFalse result (IsNone (object_under self.old id) × (self.new ≡ self.old)) }
        ensures gone { IsNone (object_under self.new id) }
        ensures others { (other : ℕ) → nat_eq id other ≡ false
            → object_under self.new other ≡ object_under self.old other }
    {
        let Some(object) = self.objects.remove(&id) else {
            return false;
        };
        self.quarantine.push_reserved(object.span);
        self.usage = self.usage.with_quarantined(object);
        true
    }

    /// Releases the span that was quarantined last, if the policy has no quarantine, and counts the
    /// state.
    fn settle(&mut self)
        requires some { 0 < length self.old.memory.quarantined }
        ensures settles { Settles self.old self.new }
        ensures objects { (id : ℕ) → object_under self.new id ≡ object_under self.old id }
    {
        if self.settings.policy.is_immediate() {
            self.release_last();
        }
        self.count_state();
    }

    /// Counts the state that the heap has.
    fn count_state(&mut self)
        ensures counts { self.new ≡ record self.old { totals = with_usage self.old.totals (usage_of self.old.memory) } }
    {
        self.totals = self.totals.with_usage(self.usage);
    }

    /// Sweeps if the policy does.
    fn follow_policy(&mut self)
        ensures follows { FollowsPolicy self.old self.new }
        ensures objects { (id : ℕ) → object_under self.new id ≡ object_under self.old id }
    {
        if self.must_sweep() {
            self.sweep();
        }
    }

    /// Returns whether the policy sweeps.
    fn must_sweep(&self) -> bool
        ensures { IsTrue result ↔ MustSweep self.now }
    {
        let quarantine = self.usage.quarantine;
        quarantine >= u128::from(self.settings.least_quarantine)
            && self
                .settings
                .policy
                .asks_for_sweep(self.usage, self.totals.high, self.quarantine.len())
    }

    /// Sweeps the quarantine.
    fn sweep(&mut self)
        ensures swept { self.new ≡ swept_heap self.old }
    {
        let bytes = self.usage.quarantine;
        self.release_all();
        self.totals = self.totals.with_sweep(bytes, self.usage);
    }

    /// Releases all quarantined spans.
    fn release_all(&mut self)
        ensures rest { self.new ≡ record self.old { memory = swept_memory self.old.memory } }
    {
        let count = self.quarantine.len();
        for _released in 0..count {
            self.release_last();
        }
    }

    /// Releases the span that was quarantined last.
    fn release_last(&mut self)
        requires { 0 < length self.old.memory.quarantined }
        ensures releases { ReleasesLast self.old self.new }
    {
        let span = self.quarantine.pop().unwrap();
        self.placer.give_back(span);
        self.usage = self.usage.with_released(span.len());
    }
}
