//! The columns of a chart.
ghost use Rattle.std.specs.Prelude.{◌≡◌, ◌≤◌, ◌<◌, ◌+◌, ◌*◌, ◌^◌, length};
ghost use Rattle.arrayvec.specs.ArrayVec.{array_vec_len};
ghost use Rattle.cc_heap.specs.Chart.{drawn_columns, event_count, joined, no_chart, with_event};

use crate::levels::Levels;
use arrayvec::ArrayVec;
use std::marker::Model;

/// The number of columns at which each is joined with the next.
const MOST_COLUMNS: usize = 256;

/// The levels of a heap over its events, in fewer than 256 columns, each of the same number of successive
/// events, and one that is not full.
///
/// A column has the largest levels of its events. Once there are 256, each is joined with the next, and
/// is of twice as many events from then on.
#[derive(Drop)]
pub struct Chart {
    columns: ArrayVec<Levels, MOST_COLUMNS>,
    current: Levels,
    filled: u64,
    width: u64,
}

impl Model for Chart {
    ghost use Rattle.std.specs.Prelude.{◌<◌, length};
    ghost use Rattle.cc_heap.specs.Chart.{Chart};

    ghost Value = { Chart };

    ghost view = { λ c. record { columns = c.columns.items; current = c.current; filled = c.filled; width = c.width } };

    ghost invariant = { λ c. (c.filled < c.width) × (length c.columns.items < 256) };
}

impl Chart {
    /// Creates a chart of no events.
    pub fn new() -> Self
        ensures { result ≡ no_chart }
    {
        Chart {
            columns: ArrayVec::new(),
            current: Levels::default(),
            filled: 0,
            width: 1,
        }
    }

    /// Adds one more event, of these levels: the largest of all states of the event.
    pub fn add(&mut self, levels: Levels)
        ensures { self.new ≡ with_event levels self.old }
    {
        let current = self.current.greater_of(levels);
        if self.filled + 1 < self.width {
            self.current = current;
            self.filled += 1;
            return;
        }
        self.current = Levels::default();
        self.filled = 0;
        self.columns.push(current);
        if self.columns.is_full() {
            self.columns = joined(self.columns.as_slice());
            self.width = self.width.saturating_mul(2);
        }
    }

    /// Returns the columns that are drawn: the full ones, and one of the events after them.
    pub(crate) fn drawn_columns(&self) -> ArrayVec<Levels, MOST_COLUMNS>
        ensures { result.items ≡ drawn_columns self.now }
    {
        let mut columns = ArrayVec::new();
        let _ = columns.try_extend_from_slice(self.columns.as_slice());
        if self.filled != 0 {
            columns.push(self.current);
        }
        columns
    }

    /// Returns the number of events in a column.
    pub(crate) fn width(&self) -> u64
        ensures { result ≡ self.now.width }
    {
        self.width
    }

    /// Returns the number of events.
    pub(crate) fn event_count(&self) -> u128
        ensures value { result ≡ event_count self.now }
        ensures fits { result < 2 ^ 73 }
    {
        all_events(self.columns.len(), self.width, self.filled)
    }
}

/// Returns the number of events in full columns of this width, and of those after them.
fn all_events(columns: usize, width: u64, filled: u64) -> u128
    requires { columns ≤ 256 }
    ensures value { result ≡ columns * width + filled }
    ensures fits { result < 2 ^ 73 }
{
    columns as u128 * u128::from(width) + u128::from(filled)
}

/// Returns the columns, each joined with the next.
fn joined(columns: &[Levels]) -> ArrayVec<Levels, MOST_COLUMNS>
    requires { length columns.now ≤ 256 }
    ensures value { result.items ≡ joined columns.now }
    ensures half { 2 * length result.items ≤ length columns.now + 1 }
{
    let mut joined = ArrayVec::new();
    let mut rest = columns;
    'pairs: while let [first, second, after @ ..] = rest {
        joined.push(first.greater_of(*second));
        rest = after;
    }
    if let [last] = rest {
        joined.push(*last);
    }
    joined
}
