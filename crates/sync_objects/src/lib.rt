//! The locks and criticals of a run, each with the task that owns it.
//!
//! [`Locks`] are those that are initialised. Contracts see them as the list of [`Lock`]s by rising wait identifier, and
//! beside it how many more locks there is room for. A critical is a lock that is initialised from the start.
//!
//! `specs/Owners.antt` says what is looked up in the list and how it changes, and `specs/Answers.antt` what each call
//! answers: a fault exactly where its name holds, and where a lock isn't initialised nothing else. The contracts say:
//!
//! - [`Locks::init`], [`Locks::destroy`], [`Locks::may_take`] and [`Locks::give`] answer what those definitions have, and
//!   after a fault nothing has changed;
//! - [`Locks::init`] puts a free lock in order, [`Locks::destroy`] takes one out, [`Locks::take`] and [`Locks::give`]
//!   change one owner, and all else stays. Where no such lock is initialised, [`Locks::take`] changes nothing;
//! - only [`Locks::new`] and [`Locks::reserve`] take memory, and nothing but memory keeps them from their answer. After
//!   want of memory nothing has changed. [`Locks::reserve`] makes room for one lock, and [`Locks::init`] uses it up;
//! - [`LockFault::number`] is the number of the trap.
//!
//! The code keeps a place for each wait identifier that a lock has or had, by rising identifier, and searches them by
//! halves; that the identifier is greater than all others is found at once. A lock that is destroyed leaves its place,
//! which an [`Locks::init`] of the same identifier takes again, so that nothing behind it moves, in whichever order locks
//! go. `specs/Places.antt` says what the places are seen as. What calls cost is no clause. Tests of `test_parts` try the
//! faults in a row of calls, and long lists of calls beside a list that is searched from its front.
#![tactic(auto)]

mod entry;
mod lock;
mod lock_fault;
mod locks;

pub use lock::Lock;
pub use lock_fault::LockFault;
pub use locks::{Locks, Memory};
