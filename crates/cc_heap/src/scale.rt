//! The scales of a chart.
ghost use Rattle.std.specs.Prelude.{◌≡◌, ◌<◌, ◌≤◌, ◌+◌, ◌*◌, ◌^◌, max};
ghost use Rattle.cc_heap.specs.Scale.{down_to, right_to, scale_of};

use crate::axes::top_of;
use std::marker::Model;

/// The height of a chart in units.
const HEIGHT: u128 = 3200;

/// The width of a chart in units.
const WIDTH: u128 = 6400;

/// The scales of a chart: the bytes at the upper end, the number of events, and the number of events in
/// a column.
#[derive(Drop)]
pub(crate) struct Scale {
    top: u128,
    events: u128,
    width: u64,
}

impl Model for Scale {
    ghost use Rattle.std.specs.Prelude.{◌<◌, ◌≤◌, ◌^◌};
    ghost use Rattle.cc_heap.specs.Scale.{Scale};

    ghost Value = { Scale };

    ghost view = { λ s. record { top = s.top; events = s.events; width = s.width } };

    ghost invariant = { λ s. (0 < s.top) × (s.top ≤ 2 ^ 68) × (0 < s.events) × (s.events ≤ 2 ^ 73) };
}

impl Scale {
    /// Creates the scales for bytes to reach and a number of events, with `width` of them in a column.
    pub(crate) fn new(reach: u128, events: u128, width: u64) -> Self
        requires reach { reach ≤ 2 ^ 64 }
        requires events { events ≤ 2 ^ 73 }
        ensures { result ≡ scale_of reach events width }
    {
        Scale {
            top: top_of(reach),
            events: events.max(1),
            width,
        }
    }

    /// Returns the number of events, or 1 if there are none.
    pub(crate) fn events(&self) -> u128
        ensures { result ≡ self.now.events }
    {
        self.events
    }

    /// Returns the units from the upper end down to some bytes.
    pub(crate) fn down_to(&self, bytes: u128) -> u128
        ensures { result ≡ down_to self.now bytes }
    {
        HEIGHT.saturating_sub(bytes.min(self.top) * HEIGHT / self.top)
    }

    /// Returns the units from the left end to an event.
    pub(crate) fn right_to(&self, event: u128) -> u128
        ensures { result ≡ right_to self.now event }
    {
        event.min(self.events) * WIDTH / self.events
    }

    /// Returns the number of the last event of a column, as if the column were full.
    pub(crate) fn last_event(&self, column: u64) -> u128
        requires { column < 256 }
        ensures { result ≡ (column + 1) * self.now.width }
    {
        events_of(column + 1, self.width)
    }
}

/// Returns the number of events of columns of this width.
fn events_of(columns: u64, width: u64) -> u128
    ensures { result ≡ columns * width }
{
    u128::from(columns) * u128::from(width)
}
