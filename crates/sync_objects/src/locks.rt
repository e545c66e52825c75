//! The locks and criticals of a run that are initialised.

ghost use Rattle.std.specs.Prelude.{◌≡◌, ◌<◌, Ok, IfOk, OnOk, OnErr, None, Some, true};
ghost use Rattle.sync_objects.specs.Owners.{critical_locks, look_up, without, with_owner};
ghost use Rattle.sync_objects.specs.Places.{lock_of};
ghost use Rattle.sync_objects.specs.View.{with_initialised};
ghost use Rattle.sync_objects.specs.Answers.{answer_to_init, answer_to_destroy, answer_to_may_take, answer_to_give};

use crate::entry::{Entry, Hold, hold_of, set_free, set_hold};
use crate::lock_fault::LockFault;
use std::alloc::Global;
use std::marker::Model;
use task_pool::TaskId;

/// The error of a call that found no memory.
pub type Memory = std::alloc::AllocError;

/// The locks and criticals that are initialised, each with its owner.
///
/// Contracts see the list of them by rising wait identifier, and beside it how many more locks there is room for. Only
/// [`Locks::new`] and [`Locks::reserve`] take memory.
#[derive(Drop)]
pub struct Locks {
    /// The wait identifiers that locks have or had, rising. A lock that is destroyed leaves its place, so that nothing
    /// behind it moves.
    entries: Vec<Entry>,
    /// How many more locks there is room for.
    room: usize,
}

impl Model for Locks {
    ghost use Rattle.std.specs.Prelude.{◌+◌, ◌≤◌, vec_len, vec_capacity};
    ghost use Rattle.sync_objects.specs.View.{LocksView};
    ghost use Rattle.sync_objects.specs.Places.{locks_of, IsRising};

    ghost Value = { LocksView };

    ghost view = { λ locks. record { locks = locks_of locks.entries.items; room = locks.room } };

    ghost invariant = { λ locks. (vec_len locks.entries + locks.room ≤ vec_capacity locks.entries)
        × IsRising locks.entries.items };
}

impl Locks {
    /// Criticals 1 to `criticals` are initialised and free, and nothing else is.
    pub fn new(alloc: Global, criticals: u32) -> Result<Locks, Memory>
        ensures { IfOk result (λ locks. locks ≡ record { locks = critical_locks criticals; room = 0 }) }
    {
        let mut entries = Vec::with_capacity(alloc, criticals as usize)?;
        for before in 0..criticals {
            entries.push(Entry {
                id: before + 1,
                hold: Hold::Free,
            })?;
        }
        Ok(Locks { entries, room: 0 })
    }

    /// Makes room for one lock, which stays until the next [`Locks::init`].
    pub fn reserve(&mut self) -> Result<(), Memory>
        ensures room { OnOk result (self.new ≡ record self.old { room = 1 }) }
        ensures memory { OnErr result (self.new ≡ self.old) }
    {
        if self.room != 1 {
            self.entries.reserve(1)?;
            self.room = 1;
        }
        Ok(())
    }

    /// The lock is initialised, and free. Where it was initialised before, nothing changes.
    pub fn init(&mut self, id: u32) -> Result<(), LockFault>
        requires { 0 < self.old.room }
        ensures answer { result ≡ answer_to_init self.old.locks id }
        ensures done { OnOk result (self.new ≡ with_initialised self.old id) }
        ensures fault { OnErr result (self.new ≡ self.old) }
    {
        match self.hold(id) {
            Hold::Absent => {
                set_free(&mut self.entries, id);
                self.room -= 1;
                Ok(())
            }
            Hold::Free | Hold::Owned(_) => Err(LockFault::AlreadyInitialised),
        }
    }

    /// The lock isn't initialised any more. Where it isn't initialised, or still held, nothing changes.
    pub fn destroy(&mut self, id: u32) -> Result<(), LockFault>
        ensures answer { result ≡ answer_to_destroy self.old.locks id }
        ensures done { OnOk result (self.new ≡ record self.old { locks = without self.old.locks id }) }
        ensures fault { OnErr result (self.new ≡ self.old) }
    {
        match self.hold(id) {
            Hold::Absent => Err(LockFault::NotInitialised),
            Hold::Owned(_) => Err(LockFault::StillHeld),
            Hold::Free => {
                set_hold(&mut self.entries, id, Hold::Absent);
                Ok(())
            }
        }
    }

    /// Whether the lock is free.
    pub fn may_take(&self, id: u32) -> Result<bool, LockFault>
        ensures { result ≡ answer_to_may_take self.now.locks id }
    {
        match self.hold(id) {
            Hold::Absent => Err(LockFault::NotInitialised),
            Hold::Free => Ok(true),
            Hold::Owned(_) => Ok(false),
        }
    }

    /// The task owns the lock from now on, if it is initialised.
    pub fn take(&mut self, id: u32, task: TaskId)
        ensures { self.new ≡ record self.old { locks = with_owner self.old.locks id (Some task) } }
    {
        match self.hold(id) {
            Hold::Absent => {}
            Hold::Free | Hold::Owned(_) => set_hold(&mut self.entries, id, Hold::Owned(task)),
        }
    }

    /// The task gives the lock back, which is free from now on. Where the lock isn't initialised, or the task doesn't
    /// own it, nothing changes.
    pub fn give(&mut self, id: u32, task: TaskId) -> Result<(), LockFault>
        ensures answer { result ≡ answer_to_give self.old.locks id task }
        ensures done { OnOk result (self.new ≡ record self.old { locks = with_owner self.old.locks id None }) }
        ensures fault { OnErr result (self.new ≡ self.old) }
    {
        match self.hold(id) {
            Hold::Absent => Err(LockFault::NotInitialised),
            Hold::Owned(owner) if owner == task => {
                set_hold(&mut self.entries, id, Hold::Free);
                Ok(())
            }
            Hold::Free | Hold::Owned(_) => Err(LockFault::NotOwner),
        }
    }

    /// What is known of the identifier.
    fn hold(&self, id: u32) -> Hold
        ensures { look_up self.now.locks id ≡ lock_of id result }
    {
        hold_of(&self.entries, id)
    }
}
