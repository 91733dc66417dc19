//! The deeds of an event, and whether a script can have it.
ghost use Rattle.std.specs.Prelude.{◌≡◌};
ghost use Rattle.cc_replay.specs.Changes.{asks_for_unit};
ghost use Rattle.cc_replay.specs.Deeds.{asked_entry, deeds_of, was_made};

use crate::deeds::{Deeds, MadeEntry};
use cc_bounds::Align;
use cc_heap::{Event, Making, Outcome};
use cc_placer::unit;

/// Returns the deeds of an event with this outcome, in which there was this number of sweeps, and after which the
/// quarantine is empty or is not.
pub(crate) fn deeds_of(event: Event, outcome: Outcome, sweeps: u64, clean: bool) -> Deeds
    ensures { result ≡ deeds_of event outcome sweeps clean }
{
    let freed = if outcome.unknown {
        None
    } else {
        event.freed_id()
    };
    let is_swept = freed.is_some() && clean;
    Deeds {
        cleared: if outcome.was_live {
            event.made_id()
        } else {
            None
        },
        sweeps: sweeps.saturating_sub(u64::from(is_swept)),
        made: if was_made(outcome.making) {
            asked_entry(event)
        } else {
            None
        },
        freed,
        is_swept,
    }
}

/// Returns the id and the size of the object that an event requests, or `None` if it requests none.
pub(crate) fn asked_entry(event: Event) -> Option<MadeEntry>
    ensures { result ≡ asked_entry event }
{
    match event {
        Event::Allocate { id, size, .. } | Event::Clear { id, size } => Some(MadeEntry {
            id,
            size: size.max(1),
        }),
        Event::Reallocate { new, size, .. } => Some(MadeEntry {
            id: new,
            size: size.max(1),
        }),
        Event::Free { .. } | Event::Sweep | Event::Clock(_) => None,
    }
}

/// Returns whether an object was made.
fn was_made(making: Option<Making>) -> bool
    ensures { result ≡ was_made making }
{
    matches!(making, Some(Making::Made))
}

/// Returns whether the alignment that an event requests is at most the unit of its size.
pub(crate) fn asks_for_unit(align: Align, event: Event) -> bool
    ensures { result ≡ asks_for_unit align event }
{
    match event {
        Event::Allocate {
            size,
            align: requested,
            ..
        } => requested <= unit(align, u128::from(size.max(1))),
        _ => true,
    }
}
