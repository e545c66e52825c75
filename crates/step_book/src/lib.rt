//! The book of a run: one history, and what those who make it longer know of it.
//!
//! A [`Book`] is the history of a run with a machine that has come to its end. A thread's visit, `go`, is a turn, where
//! the thread may take one and the run hasn't ended. What it comes to, and the entries that are put last, is a function
//! of the history and the thread (`visit` in `specs/Visit.antt`). Where a registered event occurs the thread owes the
//! answer of its tool (`specs/Owing.antt`), which `answer` puts last: what the tool stores, and the return. Other
//! threads may have visited in between. `end_memory` ends the run for want of memory, and `close` gives the history, the
//! text and the cause.
//!
//! Room for the answers that are owed is always there, so `answer` takes no memory. A serial run asks for the first
//! enabled thread with `first_ready` and lets it take its turn with `go_ready`.
//!
//! # A book that threads share
//!
//! A [`SharedBook`] is a book behind a lock. It takes its name from a [`BookName`], and is made of a [`Blank`], with a
//! [`Pass`] for each thread. A thread has the lock for one hold after another. A [`Hold`] is the number of the thread
//! with the entries that it added to the history, which may be none. The history is the entries of all holds, in order.
//! The locked book knows all holds, and each pass those that it has seen.
//!
//! Each call of a pass is one hold, but `go` of a pass that has ended the run itself, which is none, and `answer_and_go`,
//! which is two holds for one taking of the lock. A hold is then the last that the pass has seen, and between it and those
//! that it had seen stand other threads' holds alone. What `go` adds and answers is what a visit to the book comes to after
//! all holds before this one ([`SharedBook::go`], `VisitsAfterOthers` in `specs/Sharing.antt`). [`SharedBook::answer_and_go`] is an
//! answer and then such a visit (`AnswersThen`). That no other thread's hold stands between the two is no clause. `close`
//! takes the passes in: each has seen a beginning of the list of all holds, beyond which no hold is of its thread, and one
//! has seen all.
//!
//! No tool is called under the lock. That a wait for it ends isn't proved. A thread that is told not yet may sleep
//! ([`SharedBook::sleep`]). The locked book notes who sleeps, and each hold but one of an answer alone asks the crate `thread_wakes` who wakes.
//! No clause of a book says anything of that.
//!
//! # The rule
//!
//! Beside the locked book all threads share a table of one word, the number of entries, which changes under a rule
//! (`specs/Rule.antt`). These are its parts, of which a view that is spent is excepted:
//!
//! 1. the word is the number of entries of all holds, and the book knows all holds and the number of passes made;
//! 2. what a pass has seen is a beginning of the list of all holds, also while the book has taken the pass in;
//! 3. beyond it no hold is of this pass's thread;
//! 4. no two passes are of one thread;
//! 5. the numbers of the passes' threads, and of the threads of all holds, are below the number of passes made.
//!
//! The first seat of the table is the book's, so there is one book. Each kind of step (`specs/Steps.antt`) is proved to
//! keep the rule, over views alone (`proofs/Steps.antt`):
//!
//! - a pass is made for the next thread, which has seen nothing;
//! - the book takes in a pass, in place of any that it had, and the pass's view is spent;
//! - the book looks, which changes no view. It is told that the list of all holds begins with what the pass has seen
//!   that it took in, and that no hold beyond is of the pass's thread;
//! - a hold of the pass's thread is put last, with the entries that it added, and the pass has seen all;
//! - the book gives the pass back.
//!
//! `src/seats.rt` has these steps as functions over the book's seat and the badges of the passes, and `src/locked_book.rt` makes
//! the calls of a pass of them.
#![tactic(auto)]

mod blank;
mod book;
mod closed;
mod hold;
mod locked_book;
mod name;
mod pass;
mod rule;
mod seats;
mod shared;
mod step;
mod view;

pub use blank::Blank;
pub use book::Book;
pub use closed::Closed;
pub use hold::Hold;
pub use name::BookName;
pub use pass::Pass;
pub use shared::SharedBook;
pub use step::Step;
