//! The numbers of bytes of a heap that a chart shows.
ghost use Rattle.std.specs.Prelude.{◌≡◌};
ghost use Rattle.cc_heap.specs.Levels.{greater_of, greatest_of};

/// The numbers of bytes of a heap that a chart shows.
#[derive(Clone, Copy, Default)]
pub struct Levels {
    /// The bytes of live objects.
    pub live: u128,
    /// The bytes of objects that were freed and not swept.
    pub quarantine: u128,
    /// The held bytes: those of live objects and quarantined ones.
    pub held: u128,
    /// The bytes from the pool's base to the highest end of an object that was made.
    pub high: u128,
}

impl Levels {
    /// Returns the larger of each of the numbers.
    pub(crate) fn greater_of(self, other: Levels) -> Levels
        ensures { result ≡ greater_of self other }
    {
        Levels {
            live: self.live.max(other.live),
            quarantine: self.quarantine.max(other.quarantine),
            held: self.held.max(other.held),
            high: self.high.max(other.high),
        }
    }
}

/// Returns the largest of each of the numbers.
#[tactic(auto, using(crate::proofs::LevelLemmas::greatest_after))]
pub(crate) fn greatest_of(all: &[Levels]) -> Levels
    ensures { result ≡ greatest_of all.now }
{
    let mut most = Levels::default();
    let mut rest = all;
    'levels: while let Some((levels, after)) = rest.split_first() {
        most = most.greater_of(*levels);
        rest = after;
    }
    most
}
