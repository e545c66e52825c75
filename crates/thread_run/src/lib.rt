//! Runs of a program by threads, with the parts of a tool.
//!
//! [`run_threads`] runs a checked program over a book that threads share (`step_book`). Each thread number has a driver, with a
//! pass to the book and a part of the tool, a [`ToolPart`](tool_api::ToolPart). A driver visits the book again and again until
//! the run is over. Where its thread's event is told it calls its part, while it holds no lock. Then it answers and visits
//! again, for which it takes the lock once. Told not yet it sleeps until its thread may go on. Where the book or the part
//! finds no memory it ends the run for all.
//!
//! The caller has the driver of thread 0, and each other one runs on a thread of its own. Where a start is refused the driver comes
//! back as it was, and the caller visits it in turn with driver 0, one visit with its answer each. Passes and parts come back in
//! the order of their threads. Part 0 is started before the book is made. It is finished when all drivers have come back, unless
//! memory was wanting before the first entry: then an error is answered, as by a serial run.
//!
//! `driver` has the loop of a driver, and a visit alone. `team` starts the drivers and takes them back. `threads` puts them together.
//! In `specs/` `Driving` says what a driver's part was called for, and `Drivers` what is so of all drivers at once. What the parts of a
//! whole run were called for is said as of a serial run (`RunsParts` of `team_run`).
//!
//! Proved by the contract of [`run_threads`], for every kind of part. It holds of each answer that has a run. "The run" is
//! that of the program, the threads and the silent steps that were handed in, with the mask in the answer. `ran` is the
//! record that a serial run has, and the first page of `team_run` says each of its fields. All but one say the same here:
//!
//! - `ran.parts`: of each part's calls at most one went unheard, that for the event whose answer its thread owes at the end
//!   of the history, in which the part found no memory. That is so only where the cause is
//!   [`Memory`](omp_model::Cause::Memory). A thread whose part found memory is inside no callback at the end.
//!
//! Not proved:
//!
//! - that a run ends, that a thread that sleeps wakes, and in which cause a run ends;
//! - that callbacks of different threads overlap, that threads were started, and that no lock is held while a part is called:
//!   to be read in `src/`;
//! - that a run finds memory. Of the parts nothing is said after an error. That they are gone then, that part 0 was
//!   started but isn't finished, and that an error comes only before the first entry, is to be read;
//! - that part 0 is started before the other parts are called and finished after the threads have come back: a record doesn't
//!   say in which order the calls of different parts came.
#![tactic(auto)]

mod driver;
mod team;
mod threads;

pub use threads::run_threads;
