//! The copies that tasks have by rule.

ghost use Rattle.std.specs.Prelude.{◌≡◌, ◌++◌, ◌∷◌, ℕ, List, [], None, if◌then◌else◌, option_map, unwrap_or, vec_items, OnOk};
ghost use Rattle.std.specs.HashMap.{get};
ghost use Rattle.c_check.specs.Copies.{AreCopies};
ghost use Rattle.c_check.specs.Pairs.{same_pair};
ghost use Rattle.c_check.specs.Seen.{copies_of_task};
ghost use Rattle.c_check.specs.Shares.{TaskCopy};

use c_tokens::Spot;
use std::alloc::{AllocError, Global};
use std::collections::{HashMap, HashSet};

/// The copies that tasks have by rule, by the line and the column of each task's `#`.
#[derive(Drop)]
pub struct TaskCopies {
    alloc: Global,
    /// The slots of the copies of each task, each once, in the order in which they came.
    slots: HashMap<(u32, u32), Vec<u32>>,
    /// The place of a task, and a slot of which it has a copy.
    known: HashSet<(u32, u32, u32)>,
}

impl TaskCopies {
    /// No copies.
    pub fn new(alloc: Global) -> TaskCopies
        ensures { AreCopies [] result }
    {
        TaskCopies {
            alloc,
            slots: HashMap::new(alloc),
            known: HashSet::new(alloc),
        }
    }

    /// A task has a copy.
    pub fn add(&mut self, task: Spot, slot: u32) -> Result<(), AllocError>
        ensures { OnOk result ((copies : List TaskCopy) → AreCopies copies self.old →
            AreCopies (copies ++ record { task = task; slot = slot } ∷ []) self.new) }
    {
        if self.known.contains(&(task.line, task.column, slot)) {
            return Ok(());
        }
        let place = (task.line, task.column);
        let mut slots = take_slots(self.alloc, &mut self.slots, place);
        slots.push(slot)?;
        self.slots.insert(place, slots)?;
        self.known.insert((task.line, task.column, slot))?;
        Ok(())
    }

    /// The slots of the copies of the task that stands there, each once, in the order in which they came.
    pub fn of_task(&self, task: Spot) -> &[u32]
        ensures { (copies : List TaskCopy) → AreCopies copies self.now → result.now ≡ copies_of_task copies task }
    {
        match self.slots.get(&(task.line, task.column)) {
            Some(slots) => slots.as_slice(),
            None => &[],
        }
    }
}

/// Takes the slots of a place out; none where it has none.
fn take_slots(
    alloc: Global,
    slots: &mut HashMap<(u32, u32), Vec<u32>>,
    place: (u32, u32),
) -> Vec<u32>
    ensures items { result.items ≡ unwrap_or (option_map vec_items (get same_pair slots.old place)) [] }
    ensures others { (other : ℕ × ℕ) →
        get same_pair slots.new other ≡ (if same_pair place other then None else get same_pair slots.old other) }
{
    match slots.remove(&place) {
        Some(slots) => slots,
        None => Vec::new(alloc),
    }
}
