//! The numbers of objects.
ghost use Rattle.std.specs.Prelude.{◌≡◌, [], ◌<◌, IfSome, OnOk};
ghost use Rattle.cc_replay.specs.Deeds.{deed_number, numbers_of, numbers_with};
ghost use Rattle.cc_replay.specs.Script.{most_objects};

use crate::deeds::MadeEntry;
use std::alloc::{AllocError, Global};
use std::collections::HashMap;
use std::marker::Model;

/// The number of objects that were made, and the number of the object that was made last under each id.
#[derive(Drop)]
pub struct Numbering {
    made: u32,
    numbers: HashMap<u64, u32>,
}

impl Model for Numbering {
    ghost use Rattle.cc_replay.specs.Deeds.{NumberedIds};

    ghost Value = { NumberedIds };

    ghost view = { λ n. record { made = n.made; entries = n.numbers.entries } };
}

impl Numbering {
    /// Creates the numbers before the first object.
    pub fn new(alloc: Global) -> Self
        ensures { result ≡ record { made = 0; entries = [] } }
    {
        Numbering {
            made: 0,
            numbers: HashMap::new(alloc),
        }
    }

    /// Returns the number of objects that were made.
    pub fn made(&self) -> u32
        ensures { result ≡ self.now.made }
    {
        self.made
    }

    /// Returns the number of the object that was made last under an id, if there is one.
    pub fn number_in(&self, id: Option<u64>) -> Option<u32>
        ensures { result ≡ deed_number (numbers_of self.now) id }
    {
        match id {
            Some(id) => Some(self.numbers.get(&id).copied().unwrap_or(0)),
            None => None,
        }
    }

    /// Gives an object that was made its number, if there is one.
    ///
    /// Errors: `AllocError` if an allocation fails.
    pub fn note(&mut self, entry: Option<MadeEntry>) -> Result<(), AllocError>
        requires few { IfSome entry (λ _. self.old.made < most_objects) }
        ensures noted { OnOk result (numbers_of self.new ≡ numbers_with (numbers_of self.old) entry) }
    {
        let Some(entry) = entry else {
            return Ok(());
        };
        let number = self.made + 1;
        self.numbers.insert(entry.id, number)?;
        self.made = number;
        Ok(())
    }
}
