//! The machine: runs of checked programs, turn by turn.
//!
//! A [`Machine`] stands for a run of a checked program and a state of the machine that `omp_model` defines. Its calls are that machine's: `new` gives
//! the first state, `go` does one turn and tells what it came to, `put` stores what a tool stores during its callback, `back` lets an event's result
//! take hold, and the others tell the state.
//!
//! What turns change is a board (`omp_board`): threads, tasks with their code, regions, cells and locks. `state` has the board, the callbacks that
//! threads are inside, the counts of turns and silent steps and what halted the run, and makes a turn of them: up to 64 silent steps, and then the
//! event that comes next. `ready` is a thread that may begin a turn, `went` what a turn tells its caller, `limits` how many threads and silent steps
//! a run may have, `settings` what fixes a run beside its program, and `machine` puts them together. In `specs/` `MachineView` says what a machine
//! is seen as, what is true of each of its states and what a turn tells, and `State` what a state of the code is seen as.
//!
//! Proved by the contracts of [`Machine`], over the definitions of `omp_model`:
//!
//! - [`Machine::new`], where it finds memory, gives the run's first state;
//! - [`Machine::go`], of an enabled thread, changes the state as that thread's `turn` does, and its answer is what
//!   `went_of` says of that turn: the call of its event with the snapshot right after it, `call_of` and `snap_of` of the
//!   state after the turn, where the event's callback is registered; or [`Went::Untold`], or that it was quiet, or the trap or
//!   limit that it met. After an event the thread is inside its callback. Where memory fails, nothing has changed;
//! - [`Machine::put`], where `may` allows the entry, changes the state as `put` does: one word, and the count of the
//!   stores during the callback. It takes no memory;
//! - [`Machine::back`], of a thread inside a callback, changes the state as `back` does;
//! - [`Machine::go_ready`] is `go` where it is known to what the thread comes, and [`Machine::reuse`] changes nothing;
//! - [`Machine::threads`], [`Machine::enabled`], [`Machine::ready`], [`Machine::pending`], [`Machine::made`], [`Machine::halted`], [`Machine::whole`],
//!   [`Machine::stuck`], [`Machine::first_enabled`], [`Machine::first_ready`], [`Machine::cause`], [`Machine::text`] and
//!   [`Machine::into_text`] answer exactly what the definitions say of the run and the state.
//!
//! For callers, `proofs/Telling.antt` has what follows from an answer of `go`: where an event was told, that it happened
//! and is registered, and that what was told is its call with its snapshot. `proofs/Storing.antt` has what follows for
//! stores: where an event was told, a store into the word of what was made may stand next, and after it the thread is
//! inside the same callback, with one store more.
//!
//! No clause says that `new` or `go` finds memory, nor how far a run comes, nor what a call costs.
#![tactic(auto)]

mod limits;
mod machine;
mod ready;
mod settings;
mod state;
mod went;

pub use limits::Limits;
pub use machine::{Machine, Memory};
pub use ready::Ready;
pub use went::Went;
