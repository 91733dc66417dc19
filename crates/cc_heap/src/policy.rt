//! When a quarantine is swept.
ghost use Rattle.std.specs.Prelude.{◌≡◌, ◌↔◌, ◌+◌, ◌≤◌, ◌^◌, IsTrue};
ghost use Rattle.cc_heap.specs.Policy.{AsksForSweep, is_immediate, is_of_the_trace};

use crate::usage::Usage;

/// The bytes of which a policy takes a percentage.
#[derive(Clone, Copy, PartialEq, Eq)]
pub enum Share {
    /// The held bytes: those of live objects, and the quarantined ones.
    Held,
    /// The bytes of live objects.
    Live,
    /// The bytes from the pool's base to the highest end of an object that was made.
    High,
}

/// When a quarantine is swept. A heap examines its policy after each free, and after each realloc
/// that does not keep its object.
///
/// Whatever the policy, a heap that has no place for an object sweeps once, and tries again.
#[derive(Clone, Copy, PartialEq, Eq)]
pub enum Policy {
    /// There is no quarantine: the bytes of an object are released when it is freed.
    Immediate,
    /// The policy never sweeps.
    Never,
    /// Sweeps when more bytes are quarantined than a percentage of the bytes of a share.
    Percent {
        /// The percentage.
        percent: u32,
        /// The bytes of which it is taken.
        of: Share,
    },
    /// Sweeps when at least this number of bytes is quarantined.
    Bytes(u64),
    /// Sweeps when at least this number of objects is quarantined.
    Frees(u64),
    /// Sweeps when the trace requests it.
    Trace,
}

impl Policy {
    /// Returns whether there is no quarantine.
    pub fn is_immediate(self) -> bool
        ensures { result ≡ is_immediate self }
    {
        matches!(self, Policy::Immediate)
    }

    /// Returns whether a sweep is done when the trace requests one.
    pub fn is_of_the_trace(self) -> bool
        ensures { result ≡ is_of_the_trace self }
    {
        matches!(self, Policy::Trace)
    }

    /// Returns whether the policy requests a sweep of a heap of this usage, with this number of bytes up to the
    /// highest end of an object, and this number of quarantined objects.
    pub(crate) fn asks_for_sweep(self, usage: Usage, high: u128, waiting: usize) -> bool
        requires usage_fits { usage.live + usage.quarantine ≤ 2 ^ 90 }
        requires high_fits { high ≤ 2 ^ 90 }
        ensures { IsTrue result ↔ AsksForSweep self (record
            { live = usage.live; quarantine = usage.quarantine; high = high; waiting = waiting }) }
    {
        match self {
            Policy::Immediate | Policy::Never | Policy::Trace => false,
            Policy::Percent { percent, of } => {
                let share = match of {
                    Share::Held => usage.live + usage.quarantine,
                    Share::Live => usage.live,
                    Share::High => high,
                };
                u128::from(percent) * share < 100 * usage.quarantine
            }
            Policy::Bytes(bytes) => usage.quarantine >= u128::from(bytes),
            Policy::Frees(frees) => waiting >= frees as usize,
        }
    }
}
