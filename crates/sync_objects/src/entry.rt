//! A place of the list, which stays when its lock is destroyed.

ghost use Rattle.std.specs.Prelude.{◌≡◌, ◌<◌, ◌+◌, ◌≤◌, length, vec_len, vec_capacity};
ghost use Rattle.sync_objects.specs.Places.{IsPlaceOf, hold_of, rank, with_hold, with_place, IsRising};

use std::vec::Vec;
use task_pool::TaskId;

/// What is known of a wait identifier.
#[derive(Clone, Copy)]
pub enum Hold {
    /// No lock has it.
    Absent,
    /// Its lock is free.
    Free,
    /// This task owns its lock.
    Owned(TaskId),
}

/// A wait identifier that a lock has or had.
#[derive(Clone, Copy)]
pub struct Entry {
    /// The identifier.
    pub id: u32,
    /// What is known of it.
    pub hold: Hold,
}

/// What is known of the identifier.
pub fn hold_of(entries: &[Entry], id: u32) -> Hold
    requires { IsRising entries.now }
    ensures { result ≡ hold_of entries.now id }
{
    match place_of(entries, id) {
        Ok(place) => entries[place].hold,
        Err(_) => Hold::Absent,
    }
}

/// This is known of the identifier from now on, if it has a place.
pub fn set_hold(entries: &mut Vec<Entry>, id: u32, hold: Hold)
    requires { IsRising entries.old.items }
    ensures entries { entries.new.items ≡ with_hold entries.old.items id hold }
    ensures len { vec_len entries.new ≡ vec_len entries.old }
    ensures capacity { vec_capacity entries.new ≡ vec_capacity entries.old }
{
    if let Ok(place) = place_of(entries, id) {
        entries[place].hold = hold;
    }
}

/// The lock of the identifier is free from now on. It keeps the place that it had, or gets one.
pub fn set_free(entries: &mut Vec<Entry>, id: u32)
    requires rising { IsRising entries.old.items }
    requires room { vec_len entries.old < vec_capacity entries.old }
    ensures entries { entries.new.items ≡ with_place entries.old.items id }
    ensures len { vec_len entries.new ≤ vec_len entries.old + 1 }
    ensures capacity { vec_capacity entries.old ≤ vec_capacity entries.new }
{
    match place_of(entries, id) {
        Ok(place) => entries[place].hold = Hold::Free,
        Err(place) => {
            let entry = Entry {
                id,
                hold: Hold::Free,
            };
            entries.insert(place, entry).unwrap();
        }
    }
}

/// Where the identifier is in the list, or where it would be put.
fn place_of(entries: &[Entry], id: u32) -> Result<usize, usize>
    requires { IsRising entries.now }
    ensures { IsPlaceOf entries.now id result }
{
    let place = rank(entries, id);
    match entries.get(place) {
        Some(entry) if entry.id == id => Ok(place),
        _ => Err(place),
    }
}

/// How many identifiers are lower. That all are is found at once.
fn rank(entries: &[Entry], id: u32) -> usize
    requires { IsRising entries.now }
    ensures within { result ≤ length entries.now }
    ensures rank { result ≡ rank entries.now id }
{
    match entries.last() {
        Some(last) if last.id < id => entries.len(),
        _ => entries.partition_point(|entry| entry.id < id),
    }
}
