//! Which threads of a run sleep, and who wakes them.
//!
//! The threads of a run visit one book, one after another, each while it has a lock. A thread that is told not yet has to wait until others have
//! gone on. If it visited the book again and again, it would take the lock and a processor from those that can go on. So it sleeps, and a hold of
//! another thread wakes it. This crate says who sleeps and who wakes. It is for the pace alone, and knows nothing of the book: its user says what
//! a thread does after each hold, and which threads may go on.
//!
//! - [`Sleepers`] lies behind the lock, and notes who sleeps. At the end of a hold [`Sleepers::wake`] is told what the thread of the hold does next
//!   ([`Then`]), and answers which threads wake ([`Woken`]). It asks only of threads that sleep whether they may go on.
//! - [`Bells`] stands beside the lock, with a bell for each thread. Once the lock is given back, [`Bells::ring`] rings the bells of the threads that
//!   wake. A thread that was told not yet sleeps on its own bell ([`Bells::sleep`]), unless it said that it never sleeps ([`Bells::poll`]).
//!
//! A thread that sleeps is near or parked. One that is near gives its processor to others some hundred times and then looks for itself, and one that
//! is parked does nothing until it is woken or called near. `src/sleepers.rt` has the choice, and `src/bell.rt` the sleep.
//!
//! # What is proved
//!
//! - Each call returns but [`Bells::sleep`], if the caller's test of who may go on does, and none panics.
//! - A set of threads has what was put in, and not what was taken out (`src/thread_set.rt`).
//! - [`Sleepers::wake`] forgets no thread. One that was noted as asleep is still noted, or wakes, but for the thread of the hold (`others`). If that
//!   thread sleeps now, it is noted, or wakes at once (`sleeps`). Once the run is over none is noted any more (`over`), so all others wake that were.
//!
//! # What isn't proved
//!
//! - That a sleep ends. A bell that is rung before a sleep or during it isn't lost: that is to be read in `src/bell.rt`. No clause says it, nor that
//!   [`Bells::ring`] rings the bells of those that wake.
//! - That a thread wakes once it may go on, that each gets its turn, and that a run by threads ends.
//! - That the choice is fair or fast. It was tried, not proved.
//!
//! Nothing that is proved of a book needs a clause of this crate. If it chose badly, a run might be slow or wait for ever, but its history would
//! still be legal.
#![tactic(auto)]

mod bell;
mod bells;
mod sleepers;
mod thread_set;

pub use bells::Bells;
pub use sleepers::{Sleepers, Then, Woken};
