//! The slots of the names of a text, by their places.

ghost use Rattle.std.specs.Prelude.{◌≡◌, List, [], OnOk};
ghost use Rattle.c_check.specs.Here.{with_named};
ghost use Rattle.c_check.specs.Seen.{slot_in};
ghost use Rattle.c_check.specs.Slots.{AreSlots};
ghost use Rattle.c_check.specs.declared.scopes.declared.Named.{Named};

use c_tokens::Spot;
use std::alloc::{AllocError, Global};
use std::collections::HashMap;

/// The slots of names, by the line and the column of each. Contracts see them in the order in which they came, and the first at a place
/// counts.
#[derive(Drop)]
pub struct Slots {
    slots: HashMap<(u32, u32), u32>,
}

impl Slots {
    /// No slots.
    pub fn new(alloc: Global) -> Slots
        ensures { AreSlots [] result }
    {
        Slots {
            slots: HashMap::new(alloc),
        }
    }

    /// A name that stands there has this slot.
    pub fn add(&mut self, spot: Spot, slot: u32) -> Result<(), AllocError>
        ensures { OnOk result ((named : List Named) → AreSlots named self.old →
            AreSlots (with_named named spot slot) self.new) }
    {
        let place = (spot.line, spot.column);
        if let Some(_) = self.slots.get(&place) {
            return Ok(());
        }
        self.slots.insert(place, slot)?;
        Ok(())
    }

    /// The slot of the name that stands there.
    pub fn slot(&self, spot: Spot) -> Option<u32>
        ensures { (named : List Named) → AreSlots named self.now → result ≡ slot_in named spot }
    {
        self.slots.get(&(spot.line, spot.column)).copied()
    }
}
