//! The entries of names and slots in scope.

ghost use Rattle.std.specs.Prelude.{◌≡◌, ◌<◌, ◌++◌};
ghost use Rattle.std.specs.Option.{unwrap_or};
ghost use Rattle.c_model.specs.declared.entry.Entry.{Entry as SeenEntry};
ghost use Rattle.c_model.specs.declared.limits.TheConstants.{CELL_LIMIT};
ghost use Rattle.c_model.specs.Cells.{entry_at_slot, entry_of, first_named, last_named, last_of_slot, no_entry};

use c_model::{CELL_LIMIT, Entry};

/// The newest entry of a name, those of the file coming before the others. A name that nothing declares has one that no cell belongs to.
#[tactic(auto, using(crate::proofs::ValuesNamed::named_behind))]
#[inline(always)]
pub(crate) fn entry_among(file: &[Entry], names: &[Entry], name: u32) -> Entry
    ensures { result ≡ entry_of (file.now ++ names.now) name }
{
    match newest_named(names, name) {
        Some(entry) => entry,
        None => match newest_named(file, name) {
            Some(entry) => entry,
            None => no_entry(),
        },
    }
}

/// The entry of a slot, the newest one, where the names of the file come first.
#[tactic(auto, using(crate::proofs::ValuesOfSlots::slot_behind))]
pub(crate) fn slot_entry(file: &[Entry], names: &[Entry], slot: u32) -> Entry
    ensures { result ≡ entry_at_slot (file.now ++ names.now) slot }
{
    match newest_of_slot(names, slot) {
        Some(entry) => entry,
        None => match newest_of_slot(file, slot) {
            Some(entry) => entry,
            None => no_entry(),
        },
    }
}

/// The newest entry of a name.
#[tactic(auto, using(crate::proofs::ValuesNamed::named_last, crate::proofs::ValuesNamed::named_none))]
#[inline(always)]
fn newest_named(entries: &[Entry], name: u32) -> Option<Entry>
    ensures { (found : SeenEntry) → unwrap_or result found ≡ last_named name found entries.now }
{
    let mut older = entries;
    while let Some((entry, rest)) = older.split_last() {
        if entry.name == name {
            return Some(*entry);
        }
        older = rest;
    }
    None
}

/// The newest entry of a slot.
#[tactic(auto, using(crate::proofs::ValuesOfSlots::slot_last, crate::proofs::ValuesOfSlots::slot_none))]
fn newest_of_slot(entries: &[Entry], slot: u32) -> Option<Entry>
    ensures { (found : SeenEntry) → unwrap_or result found ≡ last_of_slot slot found entries.now }
{
    let mut older = entries;
    while let Some((entry, rest)) = older.split_last() {
        if entry.slot == slot {
            return Some(*entry);
        }
        older = rest;
    }
    None
}

/// The oldest entry of a name, or that of a name that nothing declares.
#[tactic(auto, unfolding(c_model::specs::Cells::first_named))]
pub(crate) fn first_named(entries: &[Entry], name: u32) -> Entry
    ensures { result ≡ first_named name entries.now }
{
    let mut newer = entries;
    while let Some((entry, rest)) = newer.split_first() {
        if entry.name == name {
            return *entry;
        }
        newer = rest;
    }
    no_entry()
}

/// The entry of a name that nothing declares.
fn no_entry() -> Entry
    ensures { result ≡ no_entry }
{
    Entry {
        name: 0,
        first: CELL_LIMIT as u32,
        size: 0,
        slot: 0,
    }
}
