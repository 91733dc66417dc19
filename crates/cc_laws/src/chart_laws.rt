//! The laws of charts.
ghost use Rattle.std.specs.Prelude.{ℕ, ◌<◌, ◌≤◌, ◌*◌, ◌^◌, max, List, length};
ghost use Rattle.cc_heap.specs.declared.levels.Levels.{Levels};
ghost use Rattle.cc_heap.specs.declared.curves.Curve.{Curve};
ghost use Rattle.cc_heap.specs.Chart.{IsChartOf, no_chart, with_events};
ghost use Rattle.cc_heap.specs.ChartDrawing.{bytes_of};
ghost use Rattle.cc_heap.specs.Scale.{reach_of, step_count, step_power, top_of};

/// Proves that a chart shows each of its events in a column, in order, the same number of them in each
/// full column, and that a column has the largest levels of its events.
///
/// The events are fewer than 2^64. A chart has at most 256 columns, and all but the last have the same
/// number of events: the smallest power of two for which fewer than 256 columns are full.
pub fn columns_are_of_all_events()
    ensures { (events : List Levels) → length events < 2 ^ 64 → IsChartOf events (with_events events no_chart) }
{}

/// Proves that the vertical axis of a chart reaches its bytes, so that no curve is cut at the upper end.
///
/// The bytes are at most 2^64. The step between two labels is the smallest power of two of which eight
/// reach them. There are as few steps as reach them, and at least one.
///
/// No curve is above the end of the axis: neither the live, quarantined and held bytes nor the
/// high-water mark. The live and the quarantined bytes are at most the held ones, and these and the
/// mark at most 2^64.
pub fn axes_reach_all_bytes()
    ensures reaches { (reach : ℕ) → reach ≤ 2 ^ 64 → reach ≤ top_of reach }
    ensures step { (reach power : ℕ) → reach ≤ 2 ^ 64 → reach ≤ 8 * 2 ^ power → step_power reach ≤ power }
    ensures steps { (reach steps : ℕ) → reach ≤ steps * 2 ^ step_power reach → step_count reach ≤ max steps 1 }
    ensures curves { (most : Levels) (curve : Curve) → most.live ≤ most.held → most.quarantine ≤ most.held
        → most.held ≤ 2 ^ 64 → most.high ≤ 2 ^ 64 → bytes_of curve most ≤ top_of (reach_of most) }
{}
