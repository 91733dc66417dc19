//! The places of a chart, and the steps between the labels of its axes.
ghost use Rattle.std.specs.Prelude.{◌≡◌, ◌≤◌, ◌<◌, ◌+◌, ◌*◌, ◌^◌, max};
ghost use Rattle.cc_heap.specs.Scale.{decade, event_step, reach_of, step_count, step_power, top_of};

use crate::levels::Levels;

/// Returns the bytes that the vertical axis has to reach.
pub(crate) fn reach_of(most: Levels) -> u128
    ensures value { result ≡ reach_of most }
    ensures fits { result ≤ 2 ^ 64 }
{
    most.held.max(most.high).min(1 << 64)
}

/// Returns the exponent of the step between two labels of the vertical axis.
pub(crate) fn step_power(reach: u128) -> u32
    requires { reach ≤ 2 ^ 64 }
    ensures value { result ≡ step_power reach }
    ensures fits { result ≤ 64 }
{
    let eighth = (reach.saturating_sub(1) / 8) as u64;
    64 - eighth.leading_zeros()
}

/// Returns the number of steps of the vertical axis.
pub(crate) fn step_count(reach: u128) -> u128
    requires { reach ≤ 2 ^ 64 }
    ensures value { result ≡ step_count reach }
    ensures some { 1 ≤ result }
    ensures few { result ≤ 8 }
{
    (reach.saturating_sub(1) / power_of_two(step_power(reach)) + 1).min(8)
}

/// Returns the bytes at the upper end.
pub(crate) fn top_of(reach: u128) -> u128
    requires { reach ≤ 2 ^ 64 }
    ensures value { result ≡ top_of reach }
    ensures some { 0 < result }
    ensures fits { result ≤ 2 ^ 68 }
{
    step_count(reach) * power_of_two(step_power(reach))
}

/// Returns a power of two.
pub(crate) fn power_of_two(power: u32) -> u128
    requires { power ≤ 64 }
    ensures value { result ≡ 2 ^ power }
    ensures some { 0 < result }
    ensures fits { result ≤ 2 ^ 64 }
{
    1 << power
}

/// Returns a power of ten.
fn power_of_ten(zeros: u32) -> u128
    requires { zeros ≤ 30 }
    ensures value { result ≡ 10 ^ zeros }
    ensures fits { result ≤ 10 ^ 30 }
{
    10u128.pow(zeros)
}

/// Returns the power of ten of the first digit of a number of events.
fn decade(events: u128) -> u128
    ensures value { result ≡ decade events }
    ensures fits { result ≤ 10 ^ 30 }
{
    power_of_ten(events.max(1).ilog10().min(30))
}

/// Returns the number of events from one label to the next.
pub(crate) fn event_step(events: u128) -> u128
    ensures value { result ≡ event_step events }
    ensures some { 1 ≤ result }
    ensures fits { result ≤ 10 ^ 30 }
{
    let decade = decade(events);
    let step = if events < 2 * decade {
        decade / 5
    } else if events < 5 * decade {
        decade / 2
    } else {
        decade
    };
    step.max(1)
}
