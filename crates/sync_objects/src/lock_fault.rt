//! What a program does wrong with a lock.

ghost use Rattle.std.specs.Prelude.{◌≡◌};
ghost use Rattle.sync_objects.specs.Faults.{fault_number};

use thiserror::Error;

/// Why a lock can't be initialised, destroyed, taken or given.
#[derive(Clone, Copy, Debug, PartialEq, Eq, Error)]
pub enum LockFault {
    /// Trap 7: the lock isn't initialised.
    #[error("lock not initialised")]
    NotInitialised,
    /// Trap 8: the task doesn't own the lock.
    #[error("lock of another task")]
    NotOwner,
    /// Trap 9: the lock is owned.
    #[error("lock still held")]
    StillHeld,
    /// Trap 10: the lock is initialised.
    #[error("lock already initialised")]
    AlreadyInitialised,
}

impl LockFault {
    /// The number of the trap, 7 to 10.
    pub fn number(&self) -> u8
        ensures { result ≡ fault_number self.now }
    {
        match self {
            LockFault::NotInitialised => 7,
            LockFault::NotOwner => 8,
            LockFault::StillHeld => 9,
            LockFault::AlreadyInitialised => 10,
        }
    }
}
