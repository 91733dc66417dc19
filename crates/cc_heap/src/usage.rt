//! The number of objects and of bytes that a heap holds.
ghost use Rattle.std.specs.Prelude.{◌≡◌, ◌+◌, ◌-◌, ◌^◌, ◌<◌, ◌≤◌};
ghost use Rattle.cc_bounds.specs.Span.{length_of};

use crate::object::Object;

/// The number of objects and of bytes that a heap holds.
#[derive(Clone, Copy, Default)]
pub struct Usage {
    /// The number of live objects.
    pub objects: u64,
    /// The sum of the requested sizes of live objects, in bytes.
    pub asked: u128,
    /// The sum of the padded sizes of live objects, in bytes.
    pub live: u128,
    /// The number of quarantined bytes: those of objects that were freed and not swept.
    pub quarantine: u128,
}

impl Usage {
    /// Returns the number of held bytes: live ones and quarantined ones.
    ///
    /// Requires: their sum is at most 2^127.
    pub fn held(&self) -> u128
        requires { self.now.live + self.now.quarantine ≤ 2 ^ 127 }
        ensures { result ≡ self.now.live + self.now.quarantine }
    {
        self.live + self.quarantine
    }

    /// Returns the usage with one more live object.
    pub(crate) fn with_made(self, object: Object) -> Usage
        requires in_order { object.span.base ≤ object.span.top }
        requires few { self.objects < 2 ^ 64 - 1 }
        requires asked_fits { self.asked + object.size < 2 ^ 128 }
        requires live_fits { self.live + length_of object.span < 2 ^ 128 }
        ensures { result ≡ record {
          objects = self.objects + 1;
          asked = self.asked + object.size;
          live = self.live + length_of object.span;
          quarantine = self.quarantine;
        } }
    {
        Usage {
            objects: self.objects + 1,
            asked: self.asked + u128::from(object.size),
            live: self.live + object.span.len(),
            quarantine: self.quarantine,
        }
    }

    /// Returns the usage with a live object quarantined.
    pub(crate) fn with_quarantined(self, object: Object) -> Usage
        requires in_order { object.span.base ≤ object.span.top }
        requires some { 0 < self.objects }
        requires asked_is { object.size ≤ self.asked }
        requires live_is { length_of object.span ≤ self.live }
        requires fits { self.live + self.quarantine < 2 ^ 128 }
        ensures { result ≡ record {
          objects = self.objects - 1;
          asked = self.asked - object.size;
          live = self.live - length_of object.span;
          quarantine = self.quarantine + length_of object.span;
        } }
    {
        Usage {
            objects: self.objects - 1,
            asked: self.asked - u128::from(object.size),
            live: self.live - object.span.len(),
            quarantine: self.quarantine + object.span.len(),
        }
    }

    /// Returns the usage with another size of a live object, which takes the same bytes.
    pub(crate) fn with_size(self, before: u64, after: u64) -> Usage
        requires asked_is { before ≤ self.asked }
        requires fits { self.asked + after < 2 ^ 128 }
        ensures { result ≡ record {
          objects = self.objects;
          asked = self.asked - before + after;
          live = self.live;
          quarantine = self.quarantine;
        } }
    {
        Usage {
            asked: self.asked - u128::from(before) + u128::from(after),
            ..self
        }
    }

    /// Returns the usage with this number of quarantined bytes released.
    pub(crate) fn with_released(self, bytes: u128) -> Usage
        requires { bytes ≤ self.quarantine }
        ensures { result ≡ record {
          objects = self.objects;
          asked = self.asked;
          live = self.live;
          quarantine = self.quarantine - bytes;
        } }
    {
        Usage {
            quarantine: self.quarantine - bytes,
            ..self
        }
    }
}
