//! A heap over a trace, and the ids whose objects were not made.
ghost use Rattle.std.specs.Prelude.{◌≡◌, ℕ, [], IfOk, IfSome, OnOk, ◌<◌, false};
ghost use Rattle.cc_heap.specs.Alignment.{HasAlignment};
ghost use Rattle.cc_heap.specs.Lost.{IsRunEvent, is_lost, is_lost_one, is_not_made, noted};
ghost use Rattle.cc_heap.specs.Memory.{IsSoundMemory};
ghost use Rattle.cc_heap.specs.Peaks.{without_peaks};
ghost use Rattle.cc_heap.specs.Sizes.{no_sizes, with_made_size};

use crate::event::Event;
use crate::heap::Heap;
use crate::making::Making;
use crate::outcome::Outcome;
use crate::sizes::{NO_OBJECTS, SizeTotals, count_size, made_size};
use cc_bounds::Align;
use cc_placer::{Placer, padded_size};
use std::alloc::{AllocError, Global};
use std::collections::HashSet;
use std::marker::Model;

/// The result of the events of a trace: the heap; the lost ids, whose objects had no place, since a free
/// of such an id is lost, and not unknown; and the numbers of the objects that were made, by the powers
/// of two of their sizes.
#[derive(Drop)]
pub struct Run<P: Placer> {
    heap: Heap<P>,
    lost: HashSet<u64>,
    sizes: [SizeTotals; 64],
}

impl<P: Placer> Model for Run<P> {
    ghost use Rattle.cc_heap.specs.Lost.{RunState};

    ghost Value = { RunState };

    ghost view = { λ r. record { heap = r.heap; lost = r.lost.keys; sizes = r.sizes } };
}

impl<P: Placer> Run<P> {
    /// Creates a run of a heap, before the first event.
    pub fn new(alloc: Global, heap: Heap<P>) -> Self
        ensures { result ≡ record { heap = heap; lost = []; sizes = no_sizes } }
    {
        Run {
            heap,
            lost: HashSet::new(alloc),
            sizes: [NO_OBJECTS; 64],
        }
    }

    /// Takes one event, and also returns whether an id that it frees is lost.
    ///
    /// Requires: an alignment that the event requests is a power of two.
    /// Errors: `AllocError` if an allocation fails.
    pub fn event(&mut self, event: Event) -> Result<Outcome, AllocError>
        requires aligned { HasAlignment event }
        ensures is_event { IfOk result (λ outcome. IsRunEvent self.old event outcome self.new) }
        ensures sound { IsSoundMemory self.new.heap.settings.align self.new.heap.memory }
    {
        let align = self.heap.settings().align;
        let outcome = self.heap.event(event)?;
        let was_lost = self.forget(event.freed_id());
        self.note(event.made_id(), is_not_made(outcome.making))?;
        count_made(&mut self.sizes, align, made_size(event, outcome.making));
        Ok(Outcome {
            unknown: outcome.unknown && !was_lost,
            lost: outcome.unknown && was_lost,
            ..outcome
        })
    }

    /// Returns the heap.
    pub fn heap(&self) -> &Heap<P>
        ensures { result.now ≡ self.now.heap }
    {
        &self.heap
    }

    /// Forgets the peaks of bytes of the heap, so that those after an event are of that event alone. The heap itself
    /// cannot be changed through a run, which would not count its events.
    pub fn forget_peaks(&mut self)
        ensures { self.new ≡ record self.old { heap = without_peaks self.old.heap } }
    {
        self.heap.forget_peaks();
    }

    /// Returns the numbers of the objects that were made, with a row for each power of two: the row
    /// of the objects whose sizes are at least the power, and below the next.
    pub fn sizes(&self) -> &[SizeTotals; 64]
        ensures { result.now ≡ self.now.sizes }
    {
        &self.sizes
    }

    /// Notes that the id, if there is one, is not lost. Returns whether it was.
    fn forget(&mut self, id: Option<u64>) -> bool
        ensures was { result ≡ is_lost_one self.old.lost id }
        ensures noted { (other : ℕ) → is_lost self.new.lost other ≡ noted id false (is_lost self.old.lost) other }
        ensures heap { self.new.heap ≡ self.old.heap }
        ensures sizes { self.new.sizes ≡ self.old.sizes }
    {
        match id {
            Some(id) => self.lost.remove(&id),
            None => false,
        }
    }

    /// Notes that the id, if there is one, is lost or is not.
    fn note(&mut self, id: Option<u64>, lost: bool) -> Result<(), AllocError>
        ensures noted { OnOk result ((other : ℕ) → is_lost self.new.lost other ≡ noted id lost (is_lost self.old.lost)
            other) }
        ensures heap { self.new.heap ≡ self.old.heap }
        ensures sizes { self.new.sizes ≡ self.old.sizes }
    {
        match id {
            Some(id) if lost => {
                self.lost.insert(id)?;
            }
            _ => {
                self.forget(id);
            }
        }
        Ok(())
    }
}

/// Counts an object of this size, if there is one.
fn count_made(sizes: &mut [SizeTotals; 64], align: Align, size: Option<u64>)
    requires { IfSome size (λ bytes. 0 < bytes) }
    ensures { sizes.new ≡ with_made_size align size sizes.old }
{
    if let Some(size) = size {
        // the heap has padded the size, but `Making::Made` does not have the object's span
        count_size(sizes, size, padded_size(align, u128::from(size)));
    }
}

/// Returns whether an object was to be made, and was not.
fn is_not_made(making: Option<Making>) -> bool
    ensures { result ≡ is_not_made making }
{
    match making {
        Some(Making::NoRoom) | Some(Making::Full) => true,
        Some(Making::Made) | None => false,
    }
}
